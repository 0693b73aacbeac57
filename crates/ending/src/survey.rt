// What a transaction owns.
ghost use Rattle.std.specs.Prelude.{ℕ, ◌≤◌, ◌<◌, ◌≡◌, List, length, get_or};
ghost use Rattle.state.specs.Lent.{state_from, Columns};
ghost use Rattle.ending.specs.End.{NoneBefore, Surveyed};

use state::Extent;
use words::item;

// What a transaction owns: anything, an abort mark (stop mark), a message that is on no global port.
#[derive(Clone, Copy)]
pub struct Survey {
    pub open: bool,
    pub aborting: bool,
    pub inside: bool,
}

// The place of the transaction's first entry, n where it has none: what is before it matters to no end.
pub fn first_owned(owners: &[u16; 1024], n: usize, id: u16) -> usize
    requires { (n ≤ 1024) × (length owners.now ≡ 1024) }
    ensures { NoneBefore owners.now id n result × (result < n → get_or owners.now result 0 ≡ id) }
{
    let mut i = 0;
    while i < n {
        if owners[i] == id {
            return i;
        }
        i += 1;
    }
    n
}

pub fn surveyed<'a>(
    owners: &'a [u16; 1024],
    items: &'a [u32; 1024],
    from: usize,
    at: Extent,
    id: u16,
    globals: u32,
) -> Survey
    requires { Columns owners.now items.now at.len × NoneBefore owners.now id at.len from }
    ensures { (gs : List ℕ) → Surveyed result (state_from owners.now items.now gs at) id globals }
{
    let n = at.len;
    let mut open = false;
    let mut aborting = false;
    let mut inside = false;
    let mut i = from;
    while i < n {
        let owned = owners[i] == id;
        let item = items[i];
        let kind = item::kind_of(item);
        let port = item::port_of(item);
        open = open | owned;
        aborting = aborting | (owned & (kind == item::ABORT_MARK));
        inside = inside | (owned & ((kind == item::MESSAGE) & (globals <= port)));
        i += 1;
    }
    Survey {
        open,
        aborting,
        inside,
    }
}
