// The first choice of one owner. Of few entries all places are tried, else the first, which mostly has it; then the groups are counted.
ghost use Rattle.std.specs.Prelude.{◌≡◌, ◌≤◌, length, get_or, take, drop};
ghost use Rattle.lists.specs.Choosing.{choices_by_group};
ghost use Rattle.offers.specs.Offers.{column_keys};
ghost use Rattle.first_choice.specs.Choice.{first_choice, begin_from, Groupable};

use crate::Choice;
use crate::grouped::count_and_choose;
use crate::within::{choose_within, passed_on};
use idset::WORDS;
use offers::keys_by_marks;
use seek::next_fit;
use semantics::Sizes;
use state::Extent;

// Up to so many entries every place is tried: to count groups takes longer.
const FEW: usize = 64;

// How many places of n entries are tried before groups are counted.
fn tries_of(n: usize) -> u32
    ensures { result ≤ 64 }
{
    if n <= FEW { 64 } else { 1 }
}

// The first choice that begins with a place from `from` on, by keys that are made for it.
fn choose_by_keys<'a>(
    z: Sizes,
    owners: &'a [u16; 1024],
    items: &'a [u32; 1024],
    at: Extent,
    stopped: &'a [u64; WORDS],
    takes: &'a [u32; 4],
    k: usize,
    from: usize,
    keys: &mut [u32; 1024],
) -> Choice
    requires { Groupable z owners.now items.now stopped.now at takes.now k × (from ≤ at.len) × (length keys.old ≡ 1024) }
    ensures value { result ≡ first_choice (begin_from (column_keys z stopped.now owners.now items.now at.len)
        (get_or takes.now 0 0) (drop 1 (take k takes.now)) from) }
    ensures keys_len { length keys.new ≡ 1024 }
{
    keys_by_marks(z, owners, items, at, stopped, keys);
    count_and_choose(owners, items, at.len, stopped, keys, takes, k, from)
}

// The first choice for the first k ports within an owner.
pub fn first_grouped<'a>(
    z: Sizes,
    owners: &'a [u16; 1024],
    items: &'a [u32; 1024],
    at: Extent,
    stopped: &'a [u64; WORDS],
    takes: &'a [u32; 4],
    k: usize,
    keys: &mut [u32; 1024],
) -> Choice
    requires { Groupable z owners.now items.now stopped.now at takes.now k × (length keys.old ≡ 1024) }
    ensures value { result ≡ first_choice (choices_by_group
        (column_keys z stopped.now owners.now items.now at.len) (take k takes.now)) }
    ensures keys_len { length keys.new ≡ 1024 }
{
    let n = at.len;
    let most = tries_of(n);
    let mut tries = 0;
    let mut p = next_fit(owners, items, n, 0, 0, 65535, takes[0], stopped);
    while p < n {
        if tries == most {
            return choose_by_keys(z, owners, items, at, stopped, takes, k, p, keys);
        }
        let choice = choose_within(owners, items, n, stopped, takes, k, p);
        if choice.found {
            return passed_on(choice);
        }
        tries += 1;
        p = next_fit(owners, items, n, p + 1, 0, 65535, takes[0], stopped);
    }
    Choice {
        found: false,
        picks: [0, 0, 0, 0],
    }
}
