// The set after a move, from the set before it.
ghost use Rattle.std.specs.Prelude.{ℕ, ◌≡◌, true, false, List, length};
ghost use Rattle.lists.specs.Lists.{any};
ghost use Rattle.lists.specs.Rows.{rows};
ghost use Rattle.semantics.specs.Table.{Table, rule_at, has_role};
ghost use Rattle.semantics.specs.State.{State};
ghost use Rattle.semantics.specs.Move.{react, abort, applied};
ghost use Rattle.idset.specs.IdSet.{has};
ghost use Rattle.state.specs.Working.{row_of};
ghost use Rattle.state.specs.Lent.{Columns};
ghost use Rattle.stopped.specs.Stopped.{StoppedIn};
ghost use Rattle.stopped.specs.Reacted.{Reacting};

use crate::gather::{is_stop, stop_if};
use idset::WORDS;

// After a reaction: whether the last entry is the abort mark of a transaction, which is then in the set. A reaction that
// aborts makes its abort mark last.
pub fn stop_last<'a>(
    owners: &'a [u16; 1024],
    items: &'a [u32; 1024],
    n: usize,
    stopped: &mut [u64; WORDS],
) -> bool
    requires { Columns owners.now items.now n × (length stopped.old ≡ 1024) }
    ensures by_index { (gs : List ℕ) (t : Table) (i : ℕ) (s : State) (r : ℕ) (ps : List ℕ) → Reacting t s r ps
        → (applied t i s (react r ps)).entries ≡ rows (row_of owners.now items.now gs) 0 n
        → StoppedIn s.entries stopped.old
        → StoppedIn (rows (row_of owners.now items.now gs) 0 n) stopped.new }
    ensures by_index_2 { (gs : List ℕ) (t : Table) (i : ℕ) (s : State) (r : ℕ) (ps : List ℕ) → Reacting t s r ps
        → (applied t i s (react r ps)).entries ≡ rows (row_of owners.now items.now gs) 0 n
        → result ≡ false → any (has_role 5) (rule_at t r).atoms ≡ false }
{
    if n == 0 {
        return false;
    }
    let owner = owners[n - 1];
    let item = items[n - 1];
    stop_if(owner, item, stopped);
    is_stop(owner, item)
}

// After an abort of a transaction: it is gone.
pub fn unstop(id: u32, stopped: &mut [u64; WORDS])
    requires { (length stopped.old ≡ 1024) × (has stopped.old id ≡ true) }
    ensures { (t : Table) (i : ℕ) (s : State) → StoppedIn s.entries stopped.old
        → StoppedIn (applied t i s (abort id)).entries stopped.new }
{
    idset::remove(stopped, id);
}
