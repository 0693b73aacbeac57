// The keys.
ghost use Rattle.std.specs.Prelude.{◌≡◌, true, false, List, ℕ, ◌+◌, ◌*◌, ◌≤◌, ◌<◌, length, get_or};
ghost use Rattle.lists.specs.Ascending.{Ascending, PlaceIn};
ghost use Rattle.semantics.specs.Table.{port_count};
ghost use Rattle.enabled.specs.Keys.{is_local};
ghost use Rattle.idset.specs.IdSet.{has};
ghost use Rattle.state.specs.Working.{entry_from, row_of};
ghost use Rattle.state.specs.Lent.{Columns};
ghost use Rattle.eligible.specs.KeyColumn.{outside, KeyAs, KeyColumn};

use idset::WORDS;
use semantics::Sizes;
use transactions::ids::place_of;
use words::item;

// No port: what no rule may take.
const NOTHING: u32 = 256;

// A message on a port of the transaction's own.
fn local_key(ids: &[u16; 1024], m: usize, owner: u16, port: u32) -> u32
    requires { (m ≤ 1024) × Ascending ids.now m × PlaceIn ids.now owner 0 m × (port < 256) }
    ensures { (g : ℕ) × (g < m) × (get_or ids.now g 0 ≡ owner) × (result ≡ g * 512 + port) }
{
    place_of(ids, m, owner) as u32 * 512 + port
}

// The key of an entry. A transaction with an abort mark takes part in no reaction (18).
fn key_of<'a>(
    z: Sizes,
    ids: &'a [u16; 1024],
    m: usize,
    aborting: &'a [u64; WORDS],
    owner: u16,
    item: u32,
) -> u32
    requires { (port_count z ≤ 256) × (m ≤ 1024) × Ascending ids.now m
        × ((origin : ℕ) → is_local z (outside aborting.now) (entry_from owner item origin) ≡ true → PlaceIn ids.now owner 0 m)
        × (has aborting.now 0 ≡ false) }
    ensures { (origin : ℕ) → KeyAs z (outside aborting.now) ids.now m (entry_from owner item origin) result }
{
    if item::kind_of(item) != item::MESSAGE {
        return NOTHING;
    }
    let port = item::port_of(item);
    if port < z.globals {
        return if owner == 0 { port } else { NOTHING };
    }
    if idset::has(aborting, owner as u32) {
        return NOTHING;
    }
    if port < z.globals + z.locals {
        return local_key(ids, m, owner, port);
    }
    port
}

// The keys of the first n entries.
pub fn keys_of<'a>(
    z: Sizes,
    owners: &'a [u16; 1024],
    items: &'a [u32; 1024],
    n: usize,
    ids: &'a [u16; 1024],
    m: usize,
    aborting: &'a [u64; WORDS],
    keys: &mut [u32; 1024],
)
    requires { (port_count z ≤ 256) × (m ≤ 1024) × Ascending ids.now m × Columns owners.now items.now n × (length keys.old ≡ 1024)
        × ((gs : List ℕ) (p : ℕ) → p < n → is_local z (outside aborting.now) (row_of owners.now items.now gs p) ≡ true
        → PlaceIn ids.now (get_or owners.now p 0) 0 m)
        × (has aborting.now 0 ≡ false) }
    ensures { (gs : List ℕ) → KeyColumn z (outside aborting.now) ids.now m
        (row_of owners.now items.now gs) n keys.new }
{
    let mut p = 0;
    while p < n {
        keys[p] = key_of(z, ids, m, aborting, owners[p], items[p]);
        p += 1;
    }
}
