// The ids of the transactions that own something, of those that cannot be committed and of those that can be aborted.
ghost use Rattle.std.specs.Prelude.{ℕ, ◌≡◌, List, length};
ghost use Rattle.lists.specs.Rows.{rows};
ghost use Rattle.idset.specs.IdSet.{EmptySet};
ghost use Rattle.state.specs.Working.{entry_from, row_of};
ghost use Rattle.state.specs.Lent.{Columns};
ghost use Rattle.transactions.specs.Sets.{blocks, EnteredIn, TransactionSets};

use idset::WORDS;
use words::item;

// An abort mark, or a message on a port of the transaction's own: its transaction cannot be committed.
pub fn blocks(item: u32, globals: u32) -> bool
    ensures { (owner origin : ℕ) → result ≡ blocks globals (entry_from owner item origin) }
{
    let kind = item::kind_of(item);
    let port = item::port_of(item);
    (kind == item::ABORT_MARK) | ((kind == item::MESSAGE) & !(port < globals))
}

// The owner of an entry into the sets that the entry puts it in.
fn enter(
    owner: u16,
    item: u32,
    globals: u32,
    present: &mut [u64; WORDS],
    blocked: &mut [u64; WORDS],
    aborting: &mut [u64; WORDS],
)
    requires { (length present.old ≡ 1024) × (length blocked.old ≡ 1024) × (length aborting.old ≡ 1024) }
    ensures { (origin : ℕ) → EnteredIn globals (entry_from owner item origin)
        present.old blocked.old aborting.old
        present.new blocked.new aborting.new }
{
    let id = owner as u32;
    idset::insert(present, id);
    idset::insert_if(blocked, id, blocks(item, globals));
    idset::insert_if(aborting, id, item::kind_of(item) == item::ABORT_MARK);
}

// One pass over the entries. What is global is entered under 0, which is no transaction's id.
pub fn survey<'a>(
    owners: &'a [u16; 1024],
    items: &'a [u32; 1024],
    n: usize,
    globals: u32,
    present: &mut [u64; WORDS],
    blocked: &mut [u64; WORDS],
    aborting: &mut [u64; WORDS],
)
    requires { Columns owners.now items.now n × EmptySet present.old × EmptySet blocked.old × EmptySet aborting.old }
    ensures { (gs : List ℕ) → TransactionSets globals (rows (row_of owners.now items.now gs) 0 n)
        present.new blocked.new aborting.new }
{
    let mut i = 0;
    while i < n {
        enter(owners[i], items[i], globals, present, blocked, aborting);
        i += 1;
    }
}
