// What is kept, before the end of a transaction.
ghost use Rattle.std.specs.Prelude.{ℕ, ◌+◌, true, List, ◌∷◌, ◌≡◌, length};
ghost use Rattle.semantics.specs.Words.{head_kind};
ghost use Rattle.semantics.specs.Table.{Table, sizes_of, table_of};
ghost use Rattle.semantics.specs.State.{State};
ghost use Rattle.semantics.specs.Move.{move_of, applied};
ghost use Rattle.idset.specs.IdSet.{has};
ghost use Rattle.state.specs.Lent.{state_from};
ghost use Rattle.stopped.specs.Stopped.{StoppedIn};
ghost use Rattle.tracking.specs.Tracked.{KeptOf};
ghost use Rattle.tracking.specs.Given.{MoveGiven, BeforeMove};
ghost use Rattle.tracking.specs.Ended.{EndStops};

use idset::WORDS;
use state::Extent;
use stopped::unstop;
use supply::count_freed;
use words::head;

// A transaction that is committed has no abort mark, one that is aborted has.
fn unstop_ended(kind: u32, id: u16, stopped: &mut [u64; WORDS])
    requires { (length stopped.old ≡ 1024) × (kind ≡ 2 → has stopped.old id ≡ true) }
    ensures { (t : Table) (i : ℕ) (s : State) → StoppedIn s.entries stopped.old → EndStops t i s id kind stopped.new }
{
    if kind == head::ABORT {
        unstop(id as u32, stopped);
    }
}

// What an end frees is told from the columns as they are before it.
fn follow_end<'a>(
    owners: &'a [u16; 1024],
    items: &'a [u32; 1024],
    at: Extent,
    head: u32,
    stopped: &mut [u64; WORDS],
    totals: &mut [u16; 512],
)
    requires { (head_kind head ≡ 0 → ⊥) × ((t : List ℕ) × (index : List ℕ) × (i : ℕ) × (ceiling : ℕ) × (gs : List ℕ) × (picks : List ℕ)
        × MoveGiven t index i ceiling owners.now items.now gs at (head ∷ picks) stopped.old totals.old) }
    ensures { (t index : List ℕ) (i ceiling : ℕ) (gs picks : List ℕ)
        → MoveGiven t index i ceiling owners.now items.now gs at (head ∷ picks) stopped.old totals.old
        → KeptOf (sizes_of t) (applied (table_of t) (i + 1) (state_from owners.now items.now gs at) (move_of (table_of t) (head ∷ picks)))
        stopped.new totals.new }
{
    let kind = head::kind_of(head);
    let id = head::id_of(head);
    count_freed(owners, items, at, id, kind - 1, totals);
    unstop_ended(kind, id, stopped);
}

// A reaction is followed when it is made (`after_move`).
pub fn before_move<'a>(
    owners: &'a [u16; 1024],
    items: &'a [u32; 1024],
    at: Extent,
    head: u32,
    stopped: &mut [u64; WORDS],
    totals: &mut [u16; 512],
)
    requires { (t : List ℕ) × (index : List ℕ) × (i : ℕ) × (ceiling : ℕ) × (gs : List ℕ) × (picks : List ℕ)
        × MoveGiven t index i ceiling owners.now items.now gs at (head ∷ picks) stopped.old totals.old }
    ensures { (t index : List ℕ) (i ceiling : ℕ) (gs picks : List ℕ)
        → MoveGiven t index i ceiling owners.now items.now gs at (head ∷ picks) stopped.old totals.old
        → BeforeMove t index i ceiling owners.now items.now gs at head picks stopped.new totals.new }
{
    if head::kind_of(head) != head::REACT {
        follow_end(owners, items, at, head, stopped, totals);
    }
}
