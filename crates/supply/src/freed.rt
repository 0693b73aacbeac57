// What the end of a transaction changes in the totals by port. Most chunks of places have no entry of it, and of those only the
// owners are looked at.
ghost use Rattle.std.specs.Prelude.{ℕ, ◌+◌, ◌-◌, ◌≤◌, ◌≡◌, List, length};
ghost use Rattle.lists.specs.Lists.{one_if};
ghost use Rattle.lists.specs.Rows.{rows};
ghost use Rattle.semantics.specs.Table.{Table};
ghost use Rattle.semantics.specs.declared.Sizes.{Sizes};
ghost use Rattle.wellformed.specs.Entries.{StateRight};
ghost use Rattle.enabled.specs.Supply.{Supply};
ghost use Rattle.state.specs.Working.{row_of};
ghost use Rattle.state.specs.Lent.{state_from, Columns};
ghost use Rattle.supply.specs.Freed.{Freed, RoomFor, EndSupply};

use state::Extent;
use words::item;
use words::search::{chunk_end, chunk_has};

fn one_if(b: bool) -> u16
    ensures { (result ≡ one_if b) × (result ≤ 1) }
{
    if b { 1 } else { 0 }
}

// Of the entries from a place on, before another.
fn count_between<'a>(
    owners: &'a [u16; 1024],
    items: &'a [u32; 1024],
    from: usize,
    end: usize,
    id: u16,
    kind: u32,
    totals: &mut [u16; 512],
)
    requires { Columns owners.now items.now end × (from ≤ end) × RoomFor totals.old (end - from) }
    ensures { (gs : List ℕ) → Freed id kind (rows (row_of owners.now items.now gs) from (end - from))
        totals.old totals.new }
{
    let mut i = from;
    while i < end {
        let item = items[i];
        let port = item::port_of(item) as usize;
        let more = one_if((owners[i] == id) & (item::kind_of(item) == kind));
        totals[port] = totals[port] + more;
        i += 1;
    }
}

// The same of a chunk up to a place in it.
fn count_chunk<'a>(
    owners: &'a [u16; 1024],
    items: &'a [u32; 1024],
    from: usize,
    end: usize,
    id: u16,
    kind: u32,
    totals: &mut [u16; 512],
)
    requires { Columns owners.now items.now end × (from ≤ end) × RoomFor totals.old (end - from)
        × (end ≤ from + 32) × (from + 32 ≤ 1024) }
    ensures { (gs : List ℕ) → Freed id kind (rows (row_of owners.now items.now gs) from (end - from))
        totals.old totals.new }
{
    if !chunk_has(owners, from, id) {
        return;
    }
    count_between(owners, items, from, end, id, kind, totals);
}

// Before a transaction ends: the totals that its end leaves. More by what is handed to the global owner: a commit's messages
// (kind 0), an abort's compensations (1).
pub fn count_freed<'a>(
    owners: &'a [u16; 1024],
    items: &'a [u32; 1024],
    at: Extent,
    id: u16,
    kind: u32,
    totals: &mut [u16; 512],
)
    requires { Columns owners.now items.now at.len
        × ((z : Sizes) × ((gs : List ℕ) → Supply z (state_from owners.now items.now gs at) totals.old)) }
    ensures { (length totals.new ≡ 512)
        × ((gs : List ℕ) (z : Sizes) (t : Table) (i : ℕ) → t.sizes ≡ z
        → StateRight z (state_from owners.now items.now gs at)
        → Supply z (state_from owners.now items.now gs at) totals.old
        → EndSupply z t i (state_from owners.now items.now gs at) id kind totals.new) }
{
    let n = at.len;
    let mut from = 0;
    while from < n {
        let end = chunk_end(from, n);
        count_chunk(owners, items, from, end, id, kind, totals);
        from = end;
    }
}
