// The key of an entry, and the keys of all where no owner has an abort mark.
ghost use Rattle.std.specs.Prelude.{ℕ, ◌*◌, ◌≤◌, ◌<◌, ◌≡◌, Bool, true, cond, length};
ghost use Rattle.semantics.specs.Table.{port_count};
ghost use Rattle.state.specs.Working.{entry_from};
ghost use Rattle.state.specs.Lent.{Columns};
ghost use Rattle.offers.specs.Offers.{owner_key, OwnerKeys};

use semantics::Sizes;
use words::item;

// No port: what no rule may take.
const NOTHING: u32 = 256;

fn either(b: bool, x: u32, y: u32) -> u32
    ensures { result ≡ cond b x y }
{
    if b { x } else { y }
}

// The key of an entry, of which is known whether its owner takes part. No branch, so that several entries are taken at once.
pub fn key_if(z: Sizes, owner: u16, item: u32, part: bool) -> u32
    requires { port_count z ≤ 256 }
    ensures by_index { (parts : ℕ → Bool) (origin : ℕ) → parts owner ≡ part → result ≡ owner_key z parts (entry_from owner item origin) }
    ensures upper_bound { result < 65536 * 512 }
{
    let kind = item::kind_of(item);
    let port = item::port_of(item);
    let outer = port < z.globals;
    let taken = (kind == item::MESSAGE) & (!outer | (owner == 0)) & part;
    let local = !outer & (port < z.globals + z.locals);
    either(
        taken,
        either(local, owner as u32 * 512 + port, port),
        NOTHING,
    )
}

// Of the first n entries, where every owner takes part.
pub fn keys_free<'a>(
    z: Sizes,
    owners: &'a [u16; 1024],
    items: &'a [u32; 1024],
    n: usize,
    keys: &mut [u32; 1024],
)
    requires { Columns owners.now items.now n × (port_count z ≤ 256) × (length keys.old ≡ 1024) }
    ensures { OwnerKeys z (λ o. true) owners.now items.now n keys.new }
{
    let mut p = 0;
    while p < n {
        keys[p] = key_if(z, owners[p], items[p], true);
        p += 1;
    }
}
