// When a transaction may end.
ghost use Rattle.std.specs.Prelude.{ℕ, ◌≡◌, not, cond, ◌||◌, List, eqb};
ghost use Rattle.state.specs.Lent.{state_from, Columns};
ghost use Rattle.ending.specs.End.{NoneBefore, end_verdict};

use crate::survey::surveyed;
use semantics::{Refusal, Verdict};
use state::Extent;
use words::head;

// An abort mark, or a message inside, stops a commit (kind 1); an abort needs an abort mark.
fn may_end(kind: u32, aborting: bool, inside: bool) -> bool
    ensures { result ≡ cond (eqb kind 1) (not (aborting || inside)) aborting }
{
    if kind == head::COMMIT {
        !(aborting | inside)
    } else {
        aborting
    }
}

// 9, 10.
pub fn end_verdict<'a>(
    owners: &'a [u16; 1024],
    items: &'a [u32; 1024],
    from: usize,
    at: Extent,
    kind: u32,
    id: u16,
    globals: u32,
) -> Verdict
    requires { Columns owners.now items.now at.len × NoneBefore owners.now id at.len from }
    ensures { (gs : List ℕ) → result ≡ end_verdict kind globals id (state_from owners.now items.now gs at) }
{
    let found = surveyed(owners, items, from, at, id, globals);
    if !((0 < id) & found.open) {
        return Verdict::Denied(Refusal::NoTransaction);
    }
    if !may_end(kind, found.aborting, found.inside) {
        return Verdict::Denied(Refusal::EndNotAllowed);
    }
    Verdict::Allowed
}
