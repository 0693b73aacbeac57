// How many keys there are on each port; those that no rule may take are on 256.
ghost use Rattle.std.specs.Prelude.{◌+◌, ◌%◌, ◌≤◌, ◌<◌, ◌≡◌, true, not, length, get_or, set};
ghost use Rattle.lists.specs.Filled.{Filled};
ghost use Rattle.semantics.specs.Table.{port_count};
ghost use Rattle.idset.specs.IdSet.{has};
ghost use Rattle.state.specs.Lent.{Columns};
ghost use Rattle.offers.specs.Offers.{keys_of, KeyTotals};

use crate::keys::key_if;
use crate::outside::key_outside;
use idset::WORDS;
use semantics::Sizes;

pub fn clear(totals: &mut [u16; 512])
    requires { length totals.old ≡ 512 }
    ensures { Filled 0 (λ p. 0) 512 512 totals.new }
{
    let mut i = 0;
    while i < 512 {
        totals[i] = 0;
        i += 1;
    }
}

// One more at a key's port.
fn count_one(key: u32, totals: &mut [u16; 512])
    requires { (length totals.old ≡ 512) × (get_or totals.old (key % 512) 0 < 65535) }
    ensures { totals.new ≡ set totals.old (key % 512) (get_or totals.old (key % 512) 0 + 1) }
{
    let port = (key % 512) as usize;
    totals[port] += 1;
}

// Of the first n entries, where every owner takes part. The totals are handed in as zeros.
pub fn count_free<'a>(
    z: Sizes,
    owners: &'a [u16; 1024],
    items: &'a [u32; 1024],
    n: usize,
    totals: &mut [u16; 512],
)
    requires { Columns owners.now items.now n × (port_count z ≤ 256) × Filled 0 (λ p. 0) 512 512 totals.old }
    ensures { KeyTotals (keys_of z (λ o. true) owners.now items.now n) totals.new }
{
    let mut i = 0;
    while i < n {
        let key = key_if(z, owners[i], items[i], true);
        count_one(key, totals);
        i += 1;
    }
}

// The same where the owners in the set take no part.
pub fn count_outside<'a>(
    z: Sizes,
    owners: &'a [u16; 1024],
    items: &'a [u32; 1024],
    n: usize,
    stopped: &'a [u64; WORDS],
    totals: &mut [u16; 512],
)
    requires { Columns owners.now items.now n × (port_count z ≤ 256) × Filled 0 (λ p. 0) 512 512 totals.old }
    ensures { KeyTotals (keys_of z (λ v. not (has stopped.now v)) owners.now items.now n) totals.new }
{
    let mut i = 0;
    while i < n {
        let key = key_outside(z, owners[i], items[i], stopped);
        count_one(key, totals);
        i += 1;
    }
}
