// The first open end: the commit (01's release) with the lowest id, or else the abort (call-off) with the lowest.
#![tactic(auto)]

mod lowest;
mod pass;

ghost use Rattle.std.specs.Prelude.{ℕ, ◌≤◌, ◌<◌, ◌≡◌, true, ◌&&◌, not, List, [], ◌∷◌, length};
ghost use Rattle.lists.specs.Lists.{any};
ghost use Rattle.lists.specs.Rows.{rows};
ghost use Rattle.lists.specs.Lowest.{lowest_key};
ghost use Rattle.semantics.specs.Words.{head_word};
ghost use Rattle.semantics.specs.Table.{Table};
ghost use Rattle.semantics.specs.State.{owned};
ghost use Rattle.semantics.specs.Move.{may_commit};
ghost use Rattle.idset.specs.IdSet.{has};
ghost use Rattle.state.specs.Working.{row_of};
ghost use Rattle.state.specs.Lent.{state_from, Columns};
ghost use Rattle.stopped.specs.Stopped.{StoppedIn};
ghost use Rattle.first_end.specs.First.{first_move};
ghost use Rattle.first_end.specs.OpenEnds.{open_ends, open_aborts, OwnersGiven, is_inside, is_owned, holders, FirstId};

use crate::lowest::{first_free, first_marked, lowest_owner};
use crate::pass::{gather_blocked, has_inside};
use idset::WORDS;
use state::Extent;
use words::head;
use words::head::MoveWords;

// Entries that are looked at several times in less time than a set is cleared.
const FEW: usize = 64;

// The first move of a list, if there is one; else 0s.
#[derive(Clone, Copy)]
pub struct First {
    pub found: bool,
    pub mv: MoveWords,
}

// The end of a transaction, commit or abort.
fn end_of(kind: u32, id: u32) -> First
    requires { (kind < 256) × (id < 65536) }
    ensures { result ≡ record { found = true; mv = record { head = head_word kind id; picks = 0 ∷ 0 ∷ 0 ∷ 0 ∷ [] } } }
{
    First {
        found: true,
        mv: MoveWords {
            head: head::head_of(kind, id),
            picks: [0, 0, 0, 0],
        },
    }
}

fn no_end() -> First
    ensures { result ≡ first_move [] }
{
    First {
        found: false,
        mv: MoveWords {
            head: 0,
            picks: [0, 0, 0, 0],
        },
    }
}

// A transaction with an abort mark is aborted.
fn first_abort<'a>(owners: &'a [u16; 1024], items: &'a [u32; 1024], at: Extent) -> First
    requires { Columns owners.now items.now at.len × (at.next ≤ 65536) × OwnersGiven owners.now at }
    ensures { (gs : List ℕ) (T : Table) (ceiling : ℕ) → at.len ≤ ceiling
        → result ≡ first_move (open_aborts ceiling T (state_from owners.now items.now gs at)) }
{
    let marked = first_marked(owners, items, at.len);
    if marked < 65536 {
        return end_of(head::ABORT, marked);
    }
    no_end()
}

// One that owns something is committed if nothing of it blocks that.
fn end_of_any<'a>(
    owners: &'a [u16; 1024],
    items: &'a [u32; 1024],
    at: Extent,
    globals: u32,
) -> First
    requires { Columns owners.now items.now at.len × (at.next ≤ 65536) × OwnersGiven owners.now at }
    ensures { (gs : List ℕ) (T : Table) (ceiling : ℕ) → T.sizes.globals ≡ globals → at.len ≤ ceiling
        → result ≡ first_move (open_ends ceiling T (state_from owners.now items.now gs at)) }
{
    let n = at.len;
    let mut blocked = [0u64; WORDS];
    gather_blocked(owners, items, n, globals, &mut blocked);
    let free = first_free(owners, n, &blocked);
    if free < 65536 {
        return end_of(head::COMMIT, free);
    }
    first_abort(owners, items, at)
}

// The lowest transaction that has no abort mark: mostly it is the lowest of all.
fn lowest_unstopped<'a>(
    owners: &'a [u16; 1024],
    at: Extent,
    lowest: u32,
    stopped: &'a [u64; WORDS],
) -> u32
    requires given { (length owners.now ≡ 1024) × (at.len ≤ 1024) × (at.next ≤ 65536) × OwnersGiven owners.now at }
    requires lowest { (lowest < 65536) × ((ws gs : List ℕ) → lowest ≡ lowest_key is_owned (λ e. e.owner) 65536 65536
        (rows (row_of owners.now ws gs) 0 at.len)) }
    ensures { (ws gs : List ℕ) → FirstId
        (holders (rows (row_of owners.now ws gs) 0 at.len) (λ v. not (has stopped.now v))) 1 at.next result }
{
    if !idset::has(stopped, lowest) {
        return lowest;
    }
    first_free(owners, at.len, stopped)
}

// Whether a transaction may be committed, by a look at all entries.
fn may_commit<'a>(
    owners: &'a [u16; 1024],
    items: &'a [u32; 1024],
    at: Extent,
    id: u32,
    globals: u32,
    stopped: &'a [u64; WORDS],
) -> bool
    requires { Columns owners.now items.now at.len × (1 ≤ id) × (id < 65536)
        × ((gs : List ℕ) → StoppedIn (rows (row_of owners.now items.now gs) 0 at.len) stopped.now) }
    ensures { (gs : List ℕ) (T : Table) → T.sizes.globals ≡ globals
        → result ≡ may_commit T id (state_from owners.now items.now gs at) }
{
    if idset::has(stopped, id) {
        return false;
    }
    !has_inside(owners, items, at.len, id as u16, globals)
}

// Of few entries, where the first transaction without an abort mark has a message inside: transaction by transaction behind
// it; no set has to be cleared.
fn end_of_few<'a>(
    owners: &'a [u16; 1024],
    items: &'a [u32; 1024],
    at: Extent,
    globals: u32,
    stopped: &'a [u64; WORDS],
    free: u32,
) -> First
    requires columns { Columns owners.now items.now at.len × (at.next ≤ 65536) × OwnersGiven owners.now at
        × ((gs : List ℕ) → StoppedIn (rows (row_of owners.now items.now gs) 0 at.len) stopped.now) }
    requires free_bound { (free < 65536) × ((gs : List ℕ) → FirstId
        (holders (rows (row_of owners.now items.now gs) 0 at.len) (λ v. not (has stopped.now v))) 1 at.next free)
        × ((gs : List ℕ) → any (λ e. owned free e && is_inside globals e) (rows (row_of owners.now items.now gs) 0 at.len) ≡ true) }
    ensures { (gs : List ℕ) (T : Table) (ceiling : ℕ) → T.sizes.globals ≡ globals → at.len ≤ ceiling
        → result ≡ first_move (open_ends ceiling T (state_from owners.now items.now gs at)) }
{
    let n = at.len;
    let mut low = lowest_owner(owners, n, free as u16);
    while low < 65536 {
        if may_commit(owners, items, at, low, globals, stopped) {
            return end_of(head::COMMIT, low);
        }
        low = lowest_owner(owners, n, low as u16);
    }
    first_abort(owners, items, at)
}

// Told without the list. No set is made where the first transaction without an abort mark has no message inside.
pub fn first_end<'a>(
    owners: &'a [u16; 1024],
    items: &'a [u32; 1024],
    at: Extent,
    globals: u32,
    stopped: &'a [u64; WORDS],
) -> First
    requires { Columns owners.now items.now at.len × (at.next ≤ 65536) × OwnersGiven owners.now at
        × ((gs : List ℕ) → StoppedIn (rows (row_of owners.now items.now gs) 0 at.len) stopped.now) }
    ensures { (gs : List ℕ) (T : Table) (ceiling : ℕ) → T.sizes.globals ≡ globals → at.len ≤ ceiling
        → result ≡ first_move (open_ends ceiling T (state_from owners.now items.now gs at)) }
{
    let n = at.len;
    let lowest = lowest_owner(owners, n, 0);
    if 65536 <= lowest {
        return no_end();
    }
    let free = lowest_unstopped(owners, at, lowest, stopped);
    if 65536 <= free {
        return first_abort(owners, items, at);
    }
    if !has_inside(owners, items, n, free as u16, globals) {
        return end_of(head::COMMIT, free);
    }
    if n <= FEW {
        return end_of_few(owners, items, at, globals, stopped, free);
    }
    end_of_any(owners, items, at, globals)
}
