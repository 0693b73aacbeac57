// What a reaction changes in the totals by port: told from the words of its rule, atom by atom.
#![tactic(auto)]

mod freed;

ghost use Rattle.std.specs.Prelude.{ℕ, ◌-◌, ◌≤◌, ◌<◌, ◌≡◌, false, List, [], ◌∷◌, map, ◌⊎◌, length, get_or};
ghost use Rattle.lists.specs.Lists.{any, one_if};
ghost use Rattle.semantics.specs.Words.{port_of};
ghost use Rattle.semantics.specs.Table.{sizes_of, numbers_of, is_role, atom_of, table_of, rule_at, has_role};
ghost use Rattle.semantics.specs.State.{State};
ghost use Rattle.semantics.specs.Move.{react, applied};
ghost use Rattle.semantics.specs.Answers.{table_verdict};
ghost use Rattle.semantics.specs.declared.Verdict.TheVariants.{Allowed};
ghost use Rattle.table.specs.Index.{Starts};
ghost use Rattle.enabled.specs.Supply.{Supply};
ghost use Rattle.supply.specs.Atoms.{supplies, AtomsCounted, Enough};
ghost use Rattle.supply.specs.Reacts.{Reacts};

pub use freed::count_freed;
use legal::rule::rule_class;
use table::parts::{atom_words_of, rule_words, sizes_of};
use words::atom::{port_of, role_of};

// Whether an atom makes a message that rules may consume.
fn supplies_any(w: u32, globals: u32, global: bool, aborts: bool) -> bool
    ensures { result ≡ supplies globals global aborts (atom_of w) }
{
    let role = role_of(w);
    let inner = !(port_of(w) < globals);
    ((role == 1) & (global | inner)) | ((role == 3) & inner & !aborts)
}

// One atom of a rule. With branches: the roles of a rule's atoms are foretold well, and a store to the same port is waited for.
fn count_atom(w: u32, globals: u32, global: bool, aborts: bool, totals: &mut [u16; 512])
    requires { (length totals.old ≡ 512) × (one_if (has_role 0 (atom_of w)) ≤ get_or totals.old (port_of w) 0)
        × (get_or totals.old (port_of w) 0 < 65535) }
    ensures { AtomsCounted globals global aborts (atom_of w ∷ []) totals.old totals.new }
{
    let port = port_of(w) as usize;
    if role_of(w) == 0 {
        totals[port] -= 1;
        return;
    }
    if !supplies_any(w, globals, global, aborts) {
        return;
    }
    totals[port] += 1;
}

// All atoms of a rule.
fn count_atoms(ws: &[u32], globals: u32, global: bool, aborts: bool, totals: &mut [u16; 512])
    requires { Enough (map atom_of ws.now) totals.old }
    ensures { AtomsCounted globals global aborts (map atom_of ws.now) totals.old totals.new }
{
    let mut i = 0;
    while i < ws.len() {
        count_atom(ws[i], globals, global, aborts, totals);
        i += 1;
    }
}

// Whether the last atom of a rule is an abort: no other is, since roles never fall.
fn last_aborts(ws: &[u32]) -> bool
    requires { 1 ≤ length ws.now }
    ensures { result ≡ is_role 5 (get_or ws.now (length ws.now - 1) 0) }
{
    role_of(ws[ws.len() - 1]) == 5
}

// The totals after a reaction by rule r: less by what it consumes, more by what it makes that rules may consume. After an
// abort by a rule that is not global they say nothing, since it stops a transaction that has messages.
pub fn count_reaction<'a>(table: &'a [u32], starts: &'a [u32; 65], r: u32, totals: &mut [u16; 512])
    requires { (table_verdict table.now ≡ Allowed) × (r < (sizes_of table.now).rules)
        × Starts (numbers_of table.now) (sizes_of table.now).rules starts.now
        × ((s : State) × (ps : List ℕ) × Reacts table.now r s ps totals.old) }
    ensures { (length totals.new ≡ 512)
        × ((s : State) (ps : List ℕ) (i : ℕ) → Reacts table.now r s ps totals.old
        → ((rule_at (table_of table.now) r).class ≡ 0) ⊎ (any (has_role 5) (rule_at (table_of table.now) r).atoms ≡ false)
        → Supply (sizes_of table.now) (applied (table_of table.now) i s (react r ps)) totals.new) }
{
    let z = sizes_of(table);
    let globals = z.globals;
    let ws = rule_words(atom_words_of(table), starts, r as usize);
    let class = rule_class(ws, z);
    let aborts = last_aborts(ws);
    count_atoms(ws, globals, class == 0, aborts, totals);
}
