// What each entry offers to the rules: a key, 256 where no rule may take the entry, the port on a global or merge port, and
// owner * 512 + port on a local port; and how many messages rules may consume from each port. The owner's id is the group, so that
// nothing has to be looked up. The transactions that have an abort mark are handed in as a set.
#![tactic(auto)]

mod keys;
mod outside;
mod totals;

ghost use Rattle.std.specs.Prelude.{ℕ, ◌*◌, ◌≤◌, ◌<◌, ◌≡◌, true, List, length, get_or, take};
ghost use Rattle.lists.specs.Rows.{rows};
ghost use Rattle.semantics.specs.Table.{port_count};
ghost use Rattle.enabled.specs.Supply.{Supply};
ghost use Rattle.state.specs.Working.{row_of};
ghost use Rattle.state.specs.Arrays.{UnmarkedTo};
ghost use Rattle.state.specs.Lent.{state_from, Columns};
ghost use Rattle.stopped.specs.Stopped.{StoppedIn};
ghost use Rattle.offers.specs.Offers.{column_keys};

use crate::keys::keys_free;
use crate::outside::keys_outside;
use crate::totals::{clear, count_free, count_outside};
use abort_marks::unmarked_until;
use idset::WORDS;
use semantics::Sizes;
use state::Extent;

// Most states have no abort mark. Then no owner is looked up in the set.
fn none_stopped(items: &[u32; 1024], at: Extent) -> bool
    requires { (length items.now ≡ 1024) × (at.len ≤ 1024) × (at.unmarked ≤ at.len) × UnmarkedTo items.now at.unmarked }
    ensures { result ≡ true → UnmarkedTo items.now at.len }
{
    let n = at.len;
    unmarked_until(items, at.unmarked, n) as usize == n
}

pub fn keys_by_marks<'a>(
    z: Sizes,
    owners: &'a [u16; 1024],
    items: &'a [u32; 1024],
    at: Extent,
    stopped: &'a [u64; WORDS],
    keys: &mut [u32; 1024],
)
    requires columns { Columns owners.now items.now at.len × (port_count z ≤ 256) × (length keys.old ≡ 1024)
        × (at.unmarked ≤ at.len) × UnmarkedTo items.now at.unmarked }
    requires by_index { (gs : List ℕ) → StoppedIn (rows (row_of owners.now items.now gs) 0 at.len) stopped.now }
    ensures keys_after { take at.len keys.new ≡ column_keys z stopped.now owners.now items.now at.len }
    ensures keys_len { length keys.new ≡ 1024 }
    ensures by_index_2 { (i : ℕ) → i < at.len → get_or keys.new i 0 < 65536 * 512 }
{
    if none_stopped(items, at) {
        keys_free(z, owners, items, at.len, keys);
        return;
    }
    keys_outside(z, owners, items, at.len, stopped, keys);
}

// How many messages rules may consume from each port, counted in one pass over the entries.
pub fn recount<'a>(
    z: Sizes,
    owners: &'a [u16; 1024],
    items: &'a [u32; 1024],
    at: Extent,
    stopped: &'a [u64; WORDS],
    totals: &mut [u16; 512],
)
    requires columns { Columns owners.now items.now at.len × (port_count z ≤ 256) × (length totals.old ≡ 512)
        × (at.unmarked ≤ at.len) × UnmarkedTo items.now at.unmarked }
    requires by_index { (gs : List ℕ) → StoppedIn (rows (row_of owners.now items.now gs) 0 at.len) stopped.now }
    ensures { (gs : List ℕ) → Supply z (state_from owners.now items.now gs at) totals.new }
{
    clear(totals);
    if none_stopped(items, at) {
        count_free(z, owners, items, at.len, totals);
        return;
    }
    count_outside(z, owners, items, at.len, stopped, totals);
}
