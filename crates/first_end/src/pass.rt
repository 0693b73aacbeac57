// What keeps transactions from being committed.
ghost use Rattle.std.specs.Prelude.{ℕ, ◌≡◌, List, ◌&&◌, length};
ghost use Rattle.lists.specs.Lists.{any};
ghost use Rattle.lists.specs.Rows.{rows};
ghost use Rattle.semantics.specs.State.{owned};
ghost use Rattle.idset.specs.IdSet.{InsertedIf, EmptySet};
ghost use Rattle.state.specs.Working.{entry_from, row_of};
ghost use Rattle.state.specs.Lent.{Columns};
ghost use Rattle.transactions.specs.Sets.{blocks};
ghost use Rattle.first_end.specs.OpenEnds.{is_inside, BlockedIn};

use idset::WORDS;
use transactions::sets::blocks;
use words::item;

// The owner of an entry, if the entry blocks its commit.
fn enter_if(owner: u16, item: u32, globals: u32, blocked: &mut [u64; WORDS])
    requires { length blocked.old ≡ 1024 }
    ensures { (origin : ℕ) → InsertedIf (blocks globals (entry_from owner item origin)) owner blocked.old blocked.new }
{
    idset::insert_if(blocked, owner as u32, blocks(item, globals));
}

// The owners of the entries that block a commit, into a set.
pub fn gather_blocked<'a>(
    owners: &'a [u16; 1024],
    items: &'a [u32; 1024],
    n: usize,
    globals: u32,
    blocked: &mut [u64; WORDS],
)
    requires { Columns owners.now items.now n × EmptySet blocked.old }
    ensures { (gs : List ℕ) → BlockedIn globals (rows (row_of owners.now items.now gs) 0 n) blocked.new }
{
    let mut i = 0;
    while i < n {
        enter_if(owners[i], items[i], globals, blocked);
        i += 1;
    }
}

// Whether one transaction has a message inside: a look at all entries costs less than a set.
pub fn has_inside<'a>(
    owners: &'a [u16; 1024],
    items: &'a [u32; 1024],
    n: usize,
    id: u16,
    globals: u32,
) -> bool
    requires { Columns owners.now items.now n }
    ensures { (gs : List ℕ) → result ≡ any (λ e. owned id e && is_inside globals e)
        (rows (row_of owners.now items.now gs) 0 n) }
{
    let outside = item::messages_end(globals as u64);
    let mut found = false;
    let mut i = 0;
    while i < n {
        let owner = owners[i];
        let item = items[i];
        let kind = item::kind_of(item);
        found = found | ((owner == id) & ((kind == item::MESSAGE) & !(item < outside)));
        i += 1;
    }
    found
}
