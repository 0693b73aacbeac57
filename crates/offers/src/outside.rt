// The keys where an abort mark stands: its transaction takes part in no reaction (18).
ghost use Rattle.std.specs.Prelude.{ℕ, ◌*◌, ◌≤◌, ◌<◌, ◌≡◌, not, length};
ghost use Rattle.semantics.specs.Table.{port_count};
ghost use Rattle.idset.specs.IdSet.{has};
ghost use Rattle.state.specs.Working.{entry_from};
ghost use Rattle.state.specs.Lent.{Columns};
ghost use Rattle.offers.specs.Offers.{owner_key, OwnerKeys};

use crate::keys::key_if;
use idset::WORDS;
use semantics::Sizes;

// The key of an entry; the owners in the set take no part.
pub fn key_outside(z: Sizes, owner: u16, item: u32, stopped: &[u64; WORDS]) -> u32
    requires { port_count z ≤ 256 }
    ensures by_index { (origin : ℕ) → result ≡ owner_key z (λ v. not (has stopped.now v)) (entry_from owner item origin) }
    ensures upper_bound { result < 65536 * 512 }
{
    let there = idset::has(stopped, owner as u32);
    key_if(z, owner, item, !there)
}

pub fn keys_outside<'a>(
    z: Sizes,
    owners: &'a [u16; 1024],
    items: &'a [u32; 1024],
    n: usize,
    stopped: &'a [u64; WORDS],
    keys: &mut [u32; 1024],
)
    requires { Columns owners.now items.now n × (port_count z ≤ 256) × (length keys.old ≡ 1024) }
    ensures { OwnerKeys z (λ v. not (has stopped.now v)) owners.now items.now n keys.new }
{
    let mut p = 0;
    while p < n {
        keys[p] = key_outside(z, owners[p], items[p], stopped);
        p += 1;
    }
}
