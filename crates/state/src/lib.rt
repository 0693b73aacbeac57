// The state: the parts of its words, and the working state that a step changes.
#![tactic(auto)]

mod owners;
mod parts;

ghost use Rattle.std.specs.Prelude.{ℕ, ◌+◌, ◌*◌, ◌≤◌, ◌≡◌, List, [], length};
ghost use Rattle.lists.specs.Filled.{Filled};
ghost use Rattle.semantics.specs.State.{state_of};
ghost use Rattle.state.specs.Working.{Holds, Stored, held};
ghost use Rattle.state.specs.Arrays.{Arrays, HoldsIn};
ghost use Rattle.state.specs.Lent.{Columns};
ghost use Rattle.state.specs.Parts.{Loadable};

pub use owners::{any_open, any_owned};
pub use parts::{entry_count, items_of, owners_of, sizes_ok};
use words::copy::{copy_words, copy_words_at, narrow_words, widen_column_at};

// The entries in use are the first len of each column. Items are as 01 lays them out; owners and
// origins fit 16 bits, so that an entry has 8 bytes to move. next is 01's next ticket N.
#[derive(Drop)]
pub struct State {
    pub owners: [u16; State::MAX_ENTRIES],
    pub items: [u32; State::MAX_ENTRIES],
    pub origins: [u16; State::MAX_ENTRIES],
    pub len: usize,
    pub next: u32,
    pub unmarked: u32,
}

impl State {
    pub const MAX_ENTRIES: usize = 1024;

    pub const MAX_NEXT: u32 = 65536;

    // n, next, and the owner and the item of each entry.
    pub const MAX_WORDS: usize = 2050;

    pub fn empty() -> State
        ensures { Holds result (record { next = 1; entries = [] }) }
    {
        State {
            owners: [0; State::MAX_ENTRIES],
            items: [0; State::MAX_ENTRIES],
            origins: [0; State::MAX_ENTRIES],
            len: 0,
            next: 1,
            unmarked: 0,
        }
    }
}

// What columns do not say themselves: how many entries are in use, and N. Before the place unmarked no abort mark (stop
// mark) stands, so that nobody has to look for one there again; 0 says nothing, and is what all hand on but `step`.
#[derive(Clone, Copy)]
pub struct Extent {
    pub len: usize,
    pub next: u32,
    pub unmarked: u32,
}

// The words of a state that was accepted: all that is asked of it is that it fits the columns.
// Each entry's origin is its place: maker 0.
pub fn load(
    state: &[u32],
    owners: &mut [u16; State::MAX_ENTRIES],
    items: &mut [u32; State::MAX_ENTRIES],
    origins: &mut [u16; State::MAX_ENTRIES],
) -> Extent
    requires { Loadable state.now × Arrays owners.old items.old origins.old }
    ensures { HoldsIn (held owners.new items.new origins.new result) (state_of state.now) }
{
    let len = parts::entry_count(state);
    narrow_words(parts::owners_of(state), len, owners);
    copy_words(parts::items_of(state), len, items);
    number_column(len, origins);
    Extent {
        len,
        next: state[1],
        unmarked: 0,
    }
}

// Each of the first n is its place.
fn number_column(n: usize, column: &mut [u16; State::MAX_ENTRIES])
    requires { (n ≤ 1024) × (length column.old ≡ 1024) }
    ensures { Filled 0 (λ k. k) 1024 n column.new }
{
    let mut i = 0;
    while i < n {
        column[i] = i as u16;
        i += 1;
    }
}

// The words of the entries over the target's beginning; answers how many.
pub fn store<'a>(
    owners: &'a [u16; State::MAX_ENTRIES],
    items: &'a [u32; State::MAX_ENTRIES],
    at: Extent,
    target: &mut [u32],
) -> u32
    requires { Columns owners.now items.now at.len × (2 + 2 * at.len ≤ length target.old) }
    ensures { (gs : List ℕ)
        → Stored (held owners.now items.now gs at) target.old target.new result }
{
    let n = at.len;
    target[0] = n as u32;
    target[1] = at.next;
    widen_column_at(owners, n, target, 2);
    copy_words_at(items, n, target, 2 + n);
    (2 + 2 * n) as u32
}
