// A move in words, decided and made in lent columns.
ghost use Rattle.std.specs.Prelude.{ℕ, ◌-◌, ◌≤◌, ◌≡◌, length};
ghost use Rattle.semantics.specs.Words.{head_kind};
ghost use Rattle.semantics.specs.Table.{table_of};
ghost use Rattle.semantics.specs.Answers.{table_verdict};
ghost use Rattle.semantics.specs.declared.Verdict.TheVariants.{Allowed, Denied};
ghost use Rattle.words.specs.Head.{words_in};
ghost use Rattle.state.specs.Working.{held};
ghost use Rattle.state.specs.Arrays.{UnmarkedTo};
ghost use Rattle.step.specs.Looking.{looked_to};
ghost use Rattle.step.specs.Make.{Makeable, Workable, MadeAs};

use crate::form::{end_form, unused_zero};
use abort_marks::unmarked_until;
use ending::free::end_transaction;
use ending::survey::first_owned;
use ending::verdict::end_verdict;
use products::react::react;
use reaction::verdict::react_verdict;
use rules::decode::rule_at;
use semantics::{Refusal, Verdict};
use state::Extent;
use table::parts::sizes_of;
use words::head;
use words::head::MoveWords;

// Why a move is refused, the extent of the state that it leaves, and how many member marks it removed.
#[derive(Clone, Copy)]
pub struct Made {
    pub verdict: Verdict,
    pub left: Extent,
    pub members: u32,
}

// Nothing is changed.
fn refused(refusal: Refusal, left: Extent) -> Made
    ensures { result ≡ record { verdict = Denied refusal; left = left; members = 0 } }
{
    Made {
        verdict: Verdict::Denied(refusal),
        left,
        members: 0,
    }
}

// Allowed, and made.
fn allowed(left: Extent, members: u32) -> Made
    ensures { result ≡ record { verdict = Allowed; left = left; members = members } }
{
    Made {
        verdict: Verdict::Allowed,
        left,
        members,
    }
}

// a without b, and 0 where b is more.
fn less_by(a: usize, b: usize) -> usize
    ensures { result ≡ a - b }
{
    if a < b { 0 } else { a - b }
}

// How far no abort mark stands: a local or merge rule asks for it, a global one does not.
fn looked(class: u32, items: &[u32; 1024], at: Extent) -> u32
    requires { (at.len ≤ 1024) × (length items.now ≡ 1024) × (at.unmarked ≤ at.len) × UnmarkedTo items.now at.unmarked }
    ensures { (result ≤ at.len) × UnmarkedTo items.now result }
{
    if class == 0 {
        return at.unmarked;
    }
    unmarked_until(items, at.unmarked, at.len)
}

// What a move leaves, where so many entries are gone: the others moved down by no more.
fn kept(left: Extent, unmarked: u32, gone: usize) -> Extent
    ensures { result ≡ looked_to left (unmarked - gone) }
{
    Extent {
        len: left.len,
        next: left.next,
        unmarked: less_by(unmarked as usize, gone) as u32,
    }
}

// A reaction. Its rule is decoded once, for the form, the verdict and the step.
fn make_reaction<'a>(
    table: &'a [u32],
    starts: &'a [u32; 65],
    owners: &mut [u16; 1024],
    items: &mut [u32; 1024],
    origins: &mut [u16; 1024],
    at: Extent,
    mv: MoveWords,
    maker: u32,
    ceiling: usize,
) -> Made
    requires able { Makeable table.now starts.now maker ceiling (held owners.old items.old origins.old at) }
    requires kind { head_kind mv.head ≡ 0 }
    ensures { MadeAs result ceiling (table_of table.now) maker (words_in mv)
        (held owners.old items.old origins.old at)
        (held owners.new items.new origins.new result.left) }
{
    let picks = mv.picks;
    let number = head::number_of(mv.head);
    let sizes = sizes_of(table);
    if sizes.rules <= number {
        return refused(Refusal::MoveForm, at);
    }
    let rule = rule_at(table, starts, number);
    if !unused_zero(picks, rule.consumes) {
        return refused(Refusal::MoveForm, at);
    }
    let unmarked = looked(rule.class, items, at);
    let verdict = react_verdict(owners, items, at, unmarked, rule, picks, ceiling);
    if let Verdict::Denied(refusal) = verdict {
        return refused(refusal, at);
    }
    let after = react(owners, items, origins, at, rule, picks, maker);
    let left = kept(after, unmarked, rule.consumes);
    // A rule consumes messages only, so that no member mark goes.
    allowed(left, 0)
}

// A commit (kind 1) frees the transaction's messages (0), an abort (kind 2) its compensations (1).
fn make_end(
    table: &[u32],
    owners: &mut [u16; 1024],
    items: &mut [u32; 1024],
    origins: &mut [u16; 1024],
    at: Extent,
    mv: MoveWords,
    ceiling: usize,
) -> Made
    requires table { table_verdict table.now ≡ Allowed }
    requires able { Workable (held owners.old items.old origins.old at) ceiling }
    requires kind { head_kind mv.head ≡ 0 → ⊥ }
    ensures { (maker : ℕ) → MadeAs result ceiling (table_of table.now) maker (words_in mv)
        (held owners.old items.old origins.old at)
        (held owners.new items.new origins.new result.left) }
{
    if !end_form(mv) {
        return refused(Refusal::MoveForm, at);
    }
    let kind = head::kind_of(mv.head);
    let id = head::id_of(mv.head);
    let sizes = sizes_of(table);
    let from = first_owned(owners, at.len, id);
    let verdict = end_verdict(owners, items, from, at, kind, id, sizes.globals);
    if let Verdict::Denied(refusal) = verdict {
        return refused(refusal, at);
    }
    let ended = end_transaction(owners, items, origins, from, at, id, kind - 1);
    let after = ended.left;
    let gone = less_by(at.len, after.len);
    let left = kept(after, at.unmarked, gone);
    allowed(left, ended.members)
}

// One move in words on lent columns: decided (5, 7 to 12, 18) and, where it is allowed, made.
pub fn make<'a>(
    table: &'a [u32],
    starts: &'a [u32; 65],
    owners: &mut [u16; 1024],
    items: &mut [u32; 1024],
    origins: &mut [u16; 1024],
    at: Extent,
    mv: MoveWords,
    maker: u32,
    ceiling: usize,
) -> Made
    requires { Makeable table.now starts.now maker ceiling (held owners.old items.old origins.old at) }
    ensures { MadeAs result ceiling (table_of table.now) maker (words_in mv)
        (held owners.old items.old origins.old at)
        (held owners.new items.new origins.new result.left) }
{
    if head::kind_of(mv.head) == head::REACT {
        return make_reaction(
            table, starts, owners, items, origins, at, mv, maker, ceiling,
        );
    }
    make_end(table, owners, items, origins, at, mv, ceiling)
}
