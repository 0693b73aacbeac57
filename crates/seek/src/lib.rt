// The next message on a port in the columns, by owners. Whether 32 places may have one is told without an early exit, so that
// several are compared at once; only such a chunk is gone through, and only there is the set looked at.
#![tactic(auto)]

ghost use Rattle.std.specs.Prelude.{◌≡◌, ◌+◌, ◌≤◌, get_or};
ghost use Rattle.lists.specs.Lists.{any};
ghost use Rattle.lists.specs.Rows.{rows};
ghost use Rattle.state.specs.Lent.{Columns};
ghost use Rattle.seek.specs.Seek.{may_fit, fits_for, fits_at, NextFit};

use idset::WORDS;
use words::item;
use words::search::chunk_end;

fn may_fit(low: u16, high: u16, port: u32, owner: u16, item: u32) -> bool
    ensures { result ≡ may_fit low high port owner item }
{
    (low <= owner) & (owner <= high) & (item::kind_and_port(item) == port)
}

fn fits(low: u16, high: u16, stopped: &[u64; WORDS], port: u32, owner: u16, item: u32) -> bool
    ensures { result ≡ fits_for low high stopped.now port owner item }
{
    if !may_fit(low, high, port, owner, item) {
        return false;
    }
    !idset::has(stopped, owner as u32)
}

fn chunk_may_fit<'a>(
    owners: &'a [u16; 1024],
    items: &'a [u32; 1024],
    from: usize,
    low: u16,
    high: u16,
    port: u32,
) -> bool
    requires { Columns owners.now items.now (from + 32) }
    ensures { result ≡ any (λ p. may_fit low high port (get_or owners.now p 0) (get_or items.now p 0)) (rows (λ j. from + j) 0 32) }
{
    let mut found = false;
    let mut j = 0;
    while j < 32 {
        found = found | may_fit(low, high, port, owners[from + j], items[from + j]);
        j += 1;
    }
    found
}

// Each place looked at.
fn first_in<'a>(
    owners: &'a [u16; 1024],
    items: &'a [u32; 1024],
    from: usize,
    end: usize,
    low: u16,
    high: u16,
    port: u32,
    stopped: &'a [u64; WORDS],
) -> usize
    requires { Columns owners.now items.now end × (from ≤ end) }
    ensures { NextFit (fits_at owners.now items.now low high stopped.now port) from end result }
{
    let mut p = from;
    while p < end {
        if fits(low, high, stopped, port, owners[p], items[p]) {
            return p;
        }
        p += 1;
    }
    end
}

// Up to 32 places. A chunk that is not whole is gone through at once: few entries are not tested first.
fn next_in_chunk<'a>(
    owners: &'a [u16; 1024],
    items: &'a [u32; 1024],
    from: usize,
    end: usize,
    low: u16,
    high: u16,
    port: u32,
    stopped: &'a [u64; WORDS],
) -> usize
    requires { Columns owners.now items.now end × (from ≤ end) × (end ≤ from + 32) }
    ensures { NextFit (fits_at owners.now items.now low high stopped.now port) from end result }
{
    if end < from + 32 {
        return first_in(owners, items, from, end, low, high, port, stopped);
    }
    if !chunk_may_fit(owners, items, from, low, high, port) {
        return end;
    }
    first_in(owners, items, from, end, low, high, port, stopped)
}

// The first of n places from a place on with a message on the port whose owner is one from `low` to `high` and not in the set,
// n if there is none.
pub fn next_fit<'a>(
    owners: &'a [u16; 1024],
    items: &'a [u32; 1024],
    n: usize,
    from: usize,
    low: u16,
    high: u16,
    port: u32,
    stopped: &'a [u64; WORDS],
) -> usize
    requires { Columns owners.now items.now n × (from ≤ n) }
    ensures { NextFit (fits_at owners.now items.now low high stopped.now port) from n result }
{
    let mut at = from;
    while at < n {
        let end = chunk_end(at, n);
        let next = next_in_chunk(owners, items, at, end, low, high, port, stopped);
        if next < end {
            return next;
        }
        at = end;
    }
    n
}
