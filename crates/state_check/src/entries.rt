// The faults that a state's entries can have (4): each entry by itself, its member marks, its owners.
ghost use Rattle.std.specs.Prelude.{ℕ, ◌≡◌, true, [], length};
ghost use Rattle.lists.specs.Lists.{all};
ghost use Rattle.idset.specs.IdSet.{has};
ghost use Rattle.semantics.specs.Words.{item_kind};
ghost use Rattle.semantics.specs.State.{entry_ok, entry_of, entries_of, entries_ok, state_sizes_ok, state_of};
ghost use Rattle.state_check.specs.Check.{message_fits, other_fits, mark_fits, Entering, AllEntered, OwnMarks};

use semantics::Sizes;
use state::{items_of, owners_of};
use words::item::{
    ABORT_MARK, COMPENSATION, MEMBER_MARK, kind_of, messages_end, port_of, value_of,
};

// Each of a state's entries, their member marks and their owners.
pub fn entries_ok(z: Sizes, state: &[u32]) -> bool
    requires { state_sizes_ok state.now ≡ true }
    ensures { result ≡ entries_ok z (state_of state.now) }
{
    let owners = owners_of(state);
    let items = items_of(state);
    // Owner 0 needs no mark.
    let mut own = [0u64; idset::WORDS];
    idset::insert(&mut own, 0);
    if !enter_all(z, state[1], owners, items, &mut own) {
        return false;
    }
    owners_in(&own, owners)
}

// One pass that keeps the set of the marks met, and adds the transactions that own their own mark.
fn enter_all(
    z: Sizes,
    next: u32,
    owners: &[u32],
    items: &[u32],
    own: &mut [u64; idset::WORDS],
) -> bool
    requires { (length owners.now ≡ length items.now) × OwnMarks own.old [] }
    ensures { AllEntered result z next (entries_of 0 owners.now items.now) own.new }
{
    let mut met = [0u64; idset::WORDS];
    let mut i = 0;
    while i < owners.len() {
        if !enter(z, next, owners[i], items[i], &mut met, own) {
            return false;
        }
        i += 1;
    }
    true
}

// One entry by itself, and its mark into the sets. Most are messages, so these come first.
fn enter(
    z: Sizes,
    next: u32,
    owner: u32,
    item: u32,
    met: &mut [u64; idset::WORDS],
    own: &mut [u64; idset::WORDS],
) -> bool
    requires { (length met.old ≡ 1024) × (length own.old ≡ 1024) }
    ensures { (place : ℕ) → Entering result (entry_ok z next (entry_of place owner item)) (entry_of place owner item)
        met.old own.old met.new own.new }
{
    if message_fits(z, owner, item) {
        return true;
    }
    if kind_of(item) == MEMBER_MARK {
        return enter_mark(next, owner, item, met, own);
    }
    other_fits(z, owner, item)
}

// A message on a port that its owner may use. The sum of the ports is taken in 64 bits, since in 32
// it could wrap.
fn message_fits(z: Sizes, owner: u32, item: u32) -> bool
    ensures { (place : ℕ) → result ≡ message_fits z (entry_of place owner item) }
{
    if owner == 0 {
        return item < messages_end(z.globals as u64);
    }
    item < messages_end(z.globals as u64 + z.locals as u64 + z.merges as u64)
}

// A compensation or an abort mark.
fn other_fits(z: Sizes, owner: u32, item: u32) -> bool
    ensures { (place : ℕ) → result ≡ other_fits z (entry_of place owner item) }
{
    let kind = kind_of(item);
    let port = port_of(item);
    let value = value_of(item);
    !(owner == 0)
        & (((kind == COMPENSATION) & (port < z.globals))
            | ((kind == ABORT_MARK) & (port == 0) & (value == 0)))
}

// A member mark.
fn mark_fits(next: u32, owner: u32, item: u32) -> bool
    ensures { (place : ℕ) → result ≡ mark_fits next (entry_of place owner item) }
{
    let port = port_of(item);
    let value = value_of(item);
    (port == 0) & (1 <= owner) & (owner <= value) & (value < next)
}

// A member mark by itself, and into the sets.
fn enter_mark(
    next: u32,
    owner: u32,
    item: u32,
    met: &mut [u64; idset::WORDS],
    own: &mut [u64; idset::WORDS],
) -> bool
    requires { (item_kind item ≡ 3) × (length met.old ≡ 1024) × (length own.old ≡ 1024) }
    ensures { (place : ℕ) → Entering result (mark_fits next (entry_of place owner item)) (entry_of place owner item)
        met.old own.old met.new own.new }
{
    if !mark_fits(next, owner, item) {
        return false;
    }
    let value = value_of(item);
    if idset::has(met, value) {
        return false;
    }
    idset::insert(met, value);
    if value != owner {
        return true;
    }
    idset::insert(own, value);
    true
}

// An owner is a whole word, and the set holds numbers below 65,536.
fn owner_in(own: &[u64; idset::WORDS], owner: u32) -> bool
    requires { length own.now ≡ 1024 }
    ensures { result ≡ has own.now owner }
{
    if 65536 <= owner {
        return false;
    }
    idset::has(own, owner)
}

// The second pass: each owner is in the set.
fn owners_in(own: &[u64; idset::WORDS], owners: &[u32]) -> bool
    requires { length own.now ≡ 1024 }
    ensures { result ≡ all (has own.now) owners.now }
{
    let mut i = 0;
    while i < owners.len() {
        if !owner_in(own, owners[i]) {
            return false;
        }
        i += 1;
    }
    true
}
