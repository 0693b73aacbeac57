// The lowest id of the transactions that may be ended, 65536 if there is none. No branch in a turn.
ghost use Rattle.std.specs.Prelude.{ℕ, min, ◌+◌, ◌≤◌, ◌≡◌, cond, List, ltb, length};
ghost use Rattle.lists.specs.Rows.{rows};
ghost use Rattle.lists.specs.Lowest.{lowered, lowest_key};
ghost use Rattle.state.specs.Working.{entry_from, row_of};
ghost use Rattle.state.specs.Lent.{Columns};
ghost use Rattle.transactions.specs.Sets.{stops};
ghost use Rattle.first_end.specs.OpenEnds.{is_above, free_of};

use idset::WORDS;
use words::item;

const NONE: u32 = 65536;

// Added to an owner that does not count, so that it is not the lowest.
fn lift(counts: bool) -> u32
    ensures { (result ≡ cond counts 0 65536) × (result ≤ 65536) }
{
    if counts { 0 } else { NONE }
}

fn lower(a: u32, b: u32) -> u32
    ensures { result ≡ min a b }
{
    if a < b { a } else { b }
}

// What was found so far, or the owner of an entry, where it is lower and is free.
fn lower_free(out: &[u64; WORDS], owner: u16, low: u32) -> u32
    ensures { (item origin : ℕ) → result ≡ lowered (free_of out.now) (λ e. e.owner) 65536 low
        (entry_from owner item origin) }
{
    let there = idset::has(out, owner as u32);
    lower(owner as u32 + lift((0 < owner) & !there), low)
}

// The same, where the entry is its abort mark.
fn lower_marked(owner: u16, item: u32, low: u32) -> u32
    ensures { (origin : ℕ) → result ≡ lowered stops (λ e. e.owner) 65536 low (entry_from owner item origin) }
{
    let kind = item::kind_of(item);
    lower(
        owner as u32 + lift((0 < owner) & (kind == item::ABORT_MARK)),
        low,
    )
}

fn lower_short(a: u16, b: u16) -> u16
    ensures { result ≡ min a b }
{
    if a < b { a } else { b }
}

// One lower, where what is not above is the highest number: 16 bits are enough then, and eight entries are taken at once.
fn one_lower(owner: u16, above: u16) -> u16
    ensures { result + 1 ≡ cond (ltb above owner) owner 65536 }
{
    if above < owner { owner - 1 } else { 65535 }
}

// The owner of any entry. What was found is one lower too.
fn lower_owner(owner: u16, above: u16, low: u16) -> u16
    ensures { (item origin : ℕ) → result + 1 ≡ lowered (is_above above) (λ e. e.owner) 65536 (low + 1) (entry_from owner item origin) }
{
    lower_short(one_lower(owner, above), low)
}

// Of those that own something and have a higher id than one.
pub fn lowest_owner(owners: &[u16; 1024], n: usize, above: u16) -> u32
    requires { (length owners.now ≡ 1024) × (n ≤ 1024) }
    ensures { (ws gs : List ℕ) → result ≡ lowest_key (is_above above) (λ e. e.owner) 65536 65536
        (rows (row_of owners.now ws gs) 0 n) }
{
    let mut low = 65535u16;
    let mut i = 0;
    while i < n {
        low = lower_owner(owners[i], above, low);
        i += 1;
    }
    low as u32 + 1
}

// Of those that own something and are not in the set.
pub fn first_free<'a>(owners: &'a [u16; 1024], n: usize, out: &'a [u64; WORDS]) -> u32
    requires { (length owners.now ≡ 1024) × (n ≤ 1024) }
    ensures { (ws gs : List ℕ) → result ≡ lowest_key (free_of out.now) (λ e. e.owner) 65536 65536
        (rows (row_of owners.now ws gs) 0 n) }
{
    let mut low = NONE;
    let mut i = 0;
    while i < n {
        low = lower_free(out, owners[i], low);
        i += 1;
    }
    low
}

// Of those that have an abort mark.
pub fn first_marked<'a>(owners: &'a [u16; 1024], items: &'a [u32; 1024], n: usize) -> u32
    requires { Columns owners.now items.now n }
    ensures { (gs : List ℕ) → result ≡ lowest_key stops (λ e. e.owner) 65536 65536
        (rows (row_of owners.now items.now gs) 0 n) }
{
    let mut low = NONE;
    let mut i = 0;
    while i < n {
        low = lower_marked(owners[i], items[i], low);
        i += 1;
    }
    low
}
