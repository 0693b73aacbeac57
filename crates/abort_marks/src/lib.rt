// Whether a transaction has an abort mark (stop mark), of several at once: a pass over the items in chunks of 32 places, from
// where nobody has looked yet. Most chunks have no abort mark, and of those the owners are not looked at.
#![tactic(auto)]

ghost use Rattle.std.specs.Prelude.{ℕ, ◌+◌, ◌-◌, ◌%◌, ◌≤◌, ◌<◌, ◌≡◌, true, List, [], ◌∷◌, length};
ghost use Rattle.lists.specs.Lists.{any, is_in};
ghost use Rattle.lists.specs.Rows.{rows};
ghost use Rattle.semantics.specs.State.{is_abort_mark};
ghost use Rattle.semantics.specs.Move.{may_abort};
ghost use Rattle.state.specs.Working.{row_of};
ghost use Rattle.state.specs.Arrays.{UnmarkedTo};
ghost use Rattle.state.specs.Lent.{state_from, Columns};
ghost use Rattle.abort_marks.specs.Marked.{abort_mark_in};

use state::Extent;
use words::item;
use words::search::chunk_end;

// Whether a chunk has an abort mark. Told without an early exit, so that several items are compared at once.
fn chunk_marked(items: &[u32; 1024], from: usize) -> bool
    requires { (from + 32 ≤ 1024) × (length items.now ≡ 1024) }
    ensures { (os gs : List ℕ) → result ≡ any is_abort_mark (rows (row_of os items.now gs) from 32) }
{
    let end = from + 32;
    let mut found = false;
    let mut i = from;
    while i < end {
        found = found | (item::kind_of(items[i]) == item::ABORT_MARK);
        i += 1;
    }
    found
}

// Where a pass begins that has not to look at what stands before a place: with its chunk, or nowhere.
fn pass_start(place: u32, n: usize) -> usize
    ensures { (result ≤ n) × (result ≤ place) × (result < n → result % 32 ≡ 0) }
{
    let at = place as usize;
    if n <= at { n } else { at / 32 * 32 }
}

// How far no abort mark stands, once it is known up to a place: to the end, or to a chunk that has one.
pub fn unmarked_until(items: &[u32; 1024], place: u32, n: usize) -> u32
    requires { (n ≤ 1024) × (length items.now ≡ 1024) × (place ≤ n) × UnmarkedTo items.now place }
    ensures { (result ≤ n) × UnmarkedTo items.now result
        × (result < n → (os gs : List ℕ) → any is_abort_mark (rows (row_of os items.now gs) result 32) ≡ true) }
{
    let mut from = pass_start(place, n);
    while from < n {
        if chunk_marked(items, from) {
            return from as u32;
        }
        from += 32;
    }
    n as u32
}

fn one_of(id: u16, a: u16, b: u16, c: u16, d: u16) -> bool
    ensures { result ≡ is_in id (a ∷ b ∷ c ∷ d ∷ []) }
{
    (id == a) | ((id == b) | ((id == c) | (id == d)))
}

// Whether one of four transactions has an abort mark from a place on, before another.
fn marked_between<'a>(
    owners: &'a [u16; 1024],
    items: &'a [u32; 1024],
    from: usize,
    end: usize,
    a: u16,
    b: u16,
    c: u16,
    d: u16,
) -> bool
    requires { Columns owners.now items.now end × (from ≤ end) }
    ensures { (gs : List ℕ) → result ≡ any (abort_mark_in (a ∷ b ∷ c ∷ d ∷ []))
        (rows (row_of owners.now items.now gs) from (end - from)) }
{
    let mut found = false;
    let mut i = from;
    while i < end {
        found = found
            | (one_of(owners[i], a, b, c, d) & (item::kind_of(items[i]) == item::ABORT_MARK));
        i += 1;
    }
    found
}

// The same of a chunk up to a place in it.
fn chunk_aborting<'a>(
    owners: &'a [u16; 1024],
    items: &'a [u32; 1024],
    from: usize,
    end: usize,
    a: u16,
    b: u16,
    c: u16,
    d: u16,
) -> bool
    requires { Columns owners.now items.now end × (from ≤ end) × (end ≤ from + 32) × (from + 32 ≤ 1024) }
    ensures { (gs : List ℕ) → result ≡ any (abort_mark_in (a ∷ b ∷ c ∷ d ∷ []))
        (rows (row_of owners.now items.now gs) from (end - from)) }
{
    if !chunk_marked(items, from) {
        return false;
    }
    marked_between(owners, items, from, end, a, b, c, d)
}

// Whether one of four transactions has an abort mark, where none stands before a place.
pub fn any_aborting<'a>(
    owners: &'a [u16; 1024],
    items: &'a [u32; 1024],
    at: Extent,
    unmarked: u32,
    a: u16,
    b: u16,
    c: u16,
    d: u16,
) -> bool
    requires { Columns owners.now items.now at.len × UnmarkedTo items.now unmarked }
    ensures { (gs : List ℕ) → result ≡ any (λ o. may_abort o (state_from owners.now items.now gs at)) (a ∷ b ∷ c ∷ d ∷ []) }
{
    let n = at.len;
    let mut from = pass_start(unmarked, n);
    while from < n {
        let end = chunk_end(from, n);
        if chunk_aborting(owners, items, from, end, a, b, c, d) {
            return true;
        }
        from = end;
    }
    false
}
