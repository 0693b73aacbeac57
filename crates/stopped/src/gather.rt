// The transactions that have an abort mark, from the entries.
ghost use Rattle.std.specs.Prelude.{ℕ, ◌≡◌, List, length};
ghost use Rattle.lists.specs.Rows.{rows};
ghost use Rattle.idset.specs.IdSet.{InsertedIf, EmptySet};
ghost use Rattle.state.specs.Working.{entry_from, row_of};
ghost use Rattle.state.specs.Lent.{Columns};
ghost use Rattle.transactions.specs.Sets.{stops};
ghost use Rattle.stopped.specs.Stopped.{StoppedIn};

use idset::WORDS;
use words::item;

// Whether an entry is the abort mark of a transaction. Nothing global is stopped.
pub fn is_stop(owner: u16, item: u32) -> bool
    ensures { (origin : ℕ) → result ≡ stops (entry_from owner item origin) }
{
    (0 < owner) & (item::kind_of(item) == item::ABORT_MARK)
}

// The owner of an entry, if the entry is its abort mark.
pub fn stop_if(owner: u16, item: u32, stopped: &mut [u64; WORDS])
    requires { length stopped.old ≡ 1024 }
    ensures { (origin : ℕ) → InsertedIf (stops (entry_from owner item origin)) owner stopped.old stopped.new }
{
    let stop = is_stop(owner, item);
    idset::insert_if(stopped, owner as u32, stop);
}

pub fn gather_stopped<'a>(
    owners: &'a [u16; 1024],
    items: &'a [u32; 1024],
    n: usize,
    stopped: &mut [u64; WORDS],
)
    requires { Columns owners.now items.now n × EmptySet stopped.old }
    ensures { (gs : List ℕ) → StoppedIn (rows (row_of owners.now items.now gs) 0 n) stopped.new }
{
    let mut i = 0;
    while i < n {
        stop_if(owners[i], items[i], stopped);
        i += 1;
    }
}
