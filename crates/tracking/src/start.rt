// From nothing.
ghost use Rattle.std.specs.Prelude.{◌≤◌, ◌≡◌, length};
ghost use Rattle.semantics.specs.Table.{port_count};
ghost use Rattle.idset.specs.IdSet.{EmptySet};
ghost use Rattle.state.specs.Arrays.{UnmarkedTo};
ghost use Rattle.state.specs.Lent.{Columns};
ghost use Rattle.tracking.specs.Tracked.{TrackedIn};

use idset::WORDS;
use offers::recount;
use semantics::Sizes;
use state::Extent;
use stopped::gather_stopped;

// The set is handed in empty, the totals as they are.
pub fn track<'a>(
    z: Sizes,
    owners: &'a [u16; 1024],
    items: &'a [u32; 1024],
    at: Extent,
    stopped: &mut [u64; WORDS],
    totals: &mut [u16; 512],
)
    requires { Columns owners.now items.now at.len × (port_count z ≤ 256) × (at.unmarked ≤ at.len) × UnmarkedTo items.now at.unmarked
        × EmptySet stopped.old × (length totals.old ≡ 512) }
    ensures { TrackedIn z owners.now items.now at stopped.new totals.new }
{
    gather_stopped(owners, items, at.len, stopped);
    recount(z, owners, items, at, stopped, totals);
}
