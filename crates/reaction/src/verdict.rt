// When a reaction is allowed.
ghost use Rattle.std.specs.Prelude.{ℕ, ◌≤◌, ◌≡◌, true, ◌&&◌, not, List, map, eqb, length, take};
ghost use Rattle.lists.specs.Lists.{all};
ghost use Rattle.lists.specs.Members.{Among};
ghost use Rattle.lists.specs.Rows.{rows};
ghost use Rattle.semantics.specs.State.{is_message};
ghost use Rattle.semantics.specs.Table.{consumed};
ghost use Rattle.semantics.specs.Table as table;
ghost use Rattle.semantics.specs.Move.{entry_at, on_ports, owners_fit, takes_part};
ghost use Rattle.rules.specs.Decode.{Decodes};
ghost use Rattle.state.specs.Working.{row_of};
ghost use Rattle.state.specs.Arrays.{UnmarkedTo};
ghost use Rattle.reaction.specs.Decoded.{rule_in};
ghost use Rattle.reaction.specs.Outlines.{Outlines};
ghost use Rattle.state.specs.Lent.{state_from, Columns};
ghost use Rattle.reaction.specs.Verdict.{react_verdict};
ghost use Rattle.reaction.specs.Places.{Places, column};

use crate::picks::{all_differ, owners_at, repeated};
use abort_marks::any_aborting;
use rules::decode::Rule;
use semantics::{Refusal, Verdict};
use state::{Extent, State};
use words::item::{MESSAGE, kind_of, port_of};

// Whether a message on this port stands at place p.
fn message_on(items: &[u32; 1024], n: usize, p: usize, port: u16) -> bool
    requires { (n ≤ 1024) × (length items.now ≡ 1024) }
    ensures { (os gs : List ℕ) → result ≡ is_message (entry_at (rows (row_of os items.now gs) 0 n) p)
        && eqb (entry_at (rows (row_of os items.now gs) 0 n) p).port port }
{
    if n <= p {
        return false;
    }
    let item = items[p];
    (kind_of(item) == MESSAGE) & (port_of(item) == port as u32)
}

// The ports of the consumes (takes), which come first. By constant places, so that the atoms are not copied.
pub fn consume_ports(rule: Rule) -> [u16; 4]
    requires { Decodes rule (rule_in rule) }
    ensures { (take rule.consumes result ≡ consumed (rule_in rule)) × (length result ≡ 4) }
{
    let a = rule.atoms[0];
    let b = rule.atoms[1];
    let c = rule.atoms[2];
    let d = rule.atoms[3];
    [a.port, b.port, c.port, d.port]
}

// What a verdict asks of a rule: few figures, since a rule is large and would be copied.
#[derive(Clone, Copy)]
pub struct Outline {
    pub ports: [u16; 4],
    pub count: usize,
    pub consumes: usize,
    pub class: u32,
    pub begins: bool,
}

pub fn outline_of(rule: Rule) -> Outline
    requires { Decodes rule (rule_in rule) }
    ensures { Outlines result (rule_in rule) × (result.consumes ≡ rule.consumes) }
{
    Outline {
        ports: consume_ports(rule),
        count: rule.count,
        consumes: rule.consumes,
        class: rule.class,
        begins: rule.begins,
    }
}

// Whether the first k picks are messages on these ports. One by one: a branch on k is predicted, and a loop would take picks
// and ports from memory.
fn on_ports(items: &[u32; 1024], n: usize, ports: [u16; 4], picks: [u32; 4], k: usize) -> bool
    requires { (n ≤ 1024) × (length items.now ≡ 1024) × (1 ≤ k) × (k ≤ 4) }
    ensures { (os gs : List ℕ) → result ≡ on_ports (take k ports) (map (entry_at (rows (row_of os items.now gs) 0 n)) (take k picks)) }
{
    if !message_on(items, n, picks[0] as usize, ports[0]) {
        return false;
    }
    if k < 2 {
        return true;
    }
    if !message_on(items, n, picks[1] as usize, ports[1]) {
        return false;
    }
    if k < 3 {
        return true;
    }
    if !message_on(items, n, picks[2] as usize, ports[2]) {
        return false;
    }
    if k < 4 {
        return true;
    }
    message_on(items, n, picks[3] as usize, ports[3])
}

// Whether a rule of this class may consume from four owners.
fn four_fit(class: u32, owners: [u16; 4]) -> bool
    ensures { result ≡ owners_fit class owners }
{
    let a = owners[0];
    let b = owners[1];
    let c = owners[2];
    let d = owners[3];
    if class == 0 {
        return (a == 0) & ((b == 0) & ((c == 0) & (d == 0)));
    }
    if class == 1 {
        return (0 < a) & ((b == a) & ((c == a) & (d == a)));
    }
    (0 < a) & ((0 < b) & ((0 < c) & (0 < d)))
}

// Whether a rule of this class may consume at the picks, by the owners there.
fn owners_fit(class: u32, owners: &[u16; 1024], picks: [u32; 4], k: usize) -> bool
    requires { (1 ≤ k) × (k ≤ 4) × (length owners.now ≡ 1024) × Places 1024 (take k picks) }
    ensures { result ≡ owners_fit class (column owners.now (take k picks)) }
{
    four_fit(class, repeated(owners_at(owners, picks, k), k))
}

// Whether one of the transactions that the picks are in has an abort mark. Where none stands at all, the picks do not matter.
fn some_aborting<'a>(
    owners: &'a [u16; 1024],
    items: &'a [u32; 1024],
    at: Extent,
    unmarked: u32,
    picks: [u32; 4],
    k: usize,
) -> bool
    requires { Columns owners.now items.now at.len × UnmarkedTo items.now unmarked × (1 ≤ k) × (k ≤ 4) × Places 1024 (take k picks)
        × ((o : ℕ) → Among o (column owners.now (take k picks)) → 1 ≤ o) }
    ensures { (gs : List ℕ) → result ≡ not (all (takes_part (state_from owners.now items.now gs at))
        (column owners.now (take k picks))) }
{
    if at.len <= unmarked as usize {
        return false;
    }
    let found = owners_at(owners, picks, k);
    let ids = repeated(found, k);
    any_aborting(owners, items, at, unmarked, ids[0], ids[1], ids[2], ids[3])
}

// Whether a pick is in a transaction that has an abort mark. The picks of a global rule are in none, so no entry is looked at.
fn picks_aborting<'a>(
    class: u32,
    owners: &'a [u16; 1024],
    items: &'a [u32; 1024],
    at: Extent,
    unmarked: u32,
    picks: [u32; 4],
    k: usize,
) -> bool
    requires { Columns owners.now items.now at.len × UnmarkedTo items.now unmarked × (1 ≤ k) × (k ≤ 4) × Places 1024 (take k picks)
        × (owners_fit class (column owners.now (take k picks)) ≡ true) }
    ensures { (gs : List ℕ) → result ≡ not (all (takes_part (state_from owners.now items.now gs at))
        (column owners.now (take k picks))) }
{
    if class != 0 {
        return some_aborting(owners, items, at, unmarked, picks, k);
    }
    false
}

// Why a reaction by a rule of this outline is refused. The other column, of origins, does not matter. An abort mark is
// looked for from the place unmarked on.
pub fn outline_verdict<'a>(
    owners: &'a [u16; 1024],
    items: &'a [u32; 1024],
    at: Extent,
    unmarked: u32,
    outline: Outline,
    picks: [u32; 4],
    ceiling: usize,
) -> Verdict
    requires { Columns owners.now items.now at.len × ((x : table.Rule) × Outlines outline x) × UnmarkedTo items.now unmarked }
    ensures { (x : table.Rule) → Outlines outline x → (gs : List ℕ)
        → result ≡ react_verdict ceiling x (state_from owners.now items.now gs at) (take outline.consumes picks) }
{
    let n = at.len;
    let k = outline.consumes;
    let ports = outline.ports;
    if !(all_differ(picks, k) & on_ports(items, n, ports, picks, k)) {
        return Verdict::Denied(Refusal::WrongPick);
    }
    if !owners_fit(outline.class, owners, picks, k) {
        return Verdict::Denied(Refusal::WrongOwner);
    }
    if picks_aborting(outline.class, owners, items, at, unmarked, picks, k) {
        return Verdict::Denied(Refusal::TransactionAborting);
    }
    if outline.begins & (State::MAX_NEXT <= at.next) {
        return Verdict::Denied(Refusal::NoMoreIds);
    }
    let count = outline.count;
    if ceiling < (n - k) + (count - k) {
        return Verdict::Denied(Refusal::TooManyEntries);
    }
    Verdict::Allowed
}

// Why a reaction is refused. It is compiled into its one caller, so that no rule is copied; a further caller asks
// `outline_verdict`.
pub fn react_verdict<'a>(
    owners: &'a [u16; 1024],
    items: &'a [u32; 1024],
    at: Extent,
    unmarked: u32,
    rule: Rule,
    picks: [u32; 4],
    ceiling: usize,
) -> Verdict
    requires { Columns owners.now items.now at.len × Decodes rule (rule_in rule) × UnmarkedTo items.now unmarked }
    ensures { (gs : List ℕ)
        → result ≡ react_verdict ceiling (rule_in rule) (state_from owners.now items.now gs at) (take rule.consumes picks) }
{
    outline_verdict(
        owners,
        items,
        at,
        unmarked,
        outline_of(rule),
        picks,
        ceiling,
    )
}
