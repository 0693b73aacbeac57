// The first choice of which all places are of one owner: the first place on the first port whose owner has the others decides.
ghost use Rattle.std.specs.Prelude.{◌≡◌, true, map, ◌%◌, ◌≤◌, ◌<◌, length, get_or, take, drop};
ghost use Rattle.lists.specs.Padded.{padded};
ghost use Rattle.lists.specs.Choosing.{choices_in};
ghost use Rattle.groups.specs.Groups.{CountedFor};
ghost use Rattle.seek.specs.Seek.{fits_at};
ghost use Rattle.first_choice.specs.Choice.{first_choice, begin_from, ByGroups};

use crate::Choice;
use crate::within::{choose_within, passed_on};
use groups::{count_groups, widths_in};
use idset::WORDS;
use seek::next_fit;

// The first n keys with their groups modulo 1,024, so that a table has a place for each group: a place's group has no more entries
// on a port than are counted there.
fn low_keys(keys: &[u32; 1024], n: usize) -> [u32; 1024]
    requires { (n ≤ 1024) × (length keys.now ≡ 1024) }
    ensures { result ≡ padded 1024 0 (map (λ x. x % 524288) (take n keys.now)) }
{
    let mut lows = [0u32; 1024];
    let mut i = 0;
    while i < n {
        lows[i] = keys[i] % 524288;
        i += 1;
    }
    lows
}

// The first choice that begins with place p, which is not looked for where the counts rule it out.
fn choose_counted<'a>(
    owners: &'a [u16; 1024],
    items: &'a [u32; 1024],
    n: usize,
    stopped: &'a [u64; WORDS],
    keys: &'a [u32; 1024],
    takes: &'a [u32; 4],
    k: usize,
    counts: &'a [u64; 1024],
    p: usize,
) -> Choice
    requires by_groups { ByGroups owners.now items.now stopped.now takes.now keys.now n k }
    requires counted_for { CountedFor (map (λ x. x % 524288) (take n keys.now)) takes.now counts.now }
    requires p_lt_n { (p < n) × (fits_at owners.now items.now 0 65535 stopped.now (get_or takes.now 0 0) p ≡ true) }
    ensures { result ≡ first_choice (choices_in (take n keys.now) (get_or takes.now 0 0)
        (drop 1 (take k takes.now)) p) }
{
    let below = widths_in(*takes, k, counts, keys[p] % 524288);
    if below[0] == 0 {
        return Choice {
            found: false,
            picks: [0, 0, 0, 0],
        };
    }
    choose_within(owners, items, n, stopped, takes, k, p)
}

// The first choice that begins with a place from `from` on.
fn first_counted<'a>(
    owners: &'a [u16; 1024],
    items: &'a [u32; 1024],
    n: usize,
    stopped: &'a [u64; WORDS],
    keys: &'a [u32; 1024],
    takes: &'a [u32; 4],
    k: usize,
    counts: &'a [u64; 1024],
    from: usize,
) -> Choice
    requires by_groups { ByGroups owners.now items.now stopped.now takes.now keys.now n k × (from ≤ n) }
    requires counted_for { CountedFor (map (λ x. x % 524288) (take n keys.now)) takes.now counts.now }
    ensures { result ≡ first_choice (begin_from (take n keys.now) (get_or takes.now 0 0)
        (drop 1 (take k takes.now)) from) }
{
    let mut p = next_fit(owners, items, n, from, 0, 65535, takes[0], stopped);
    while p < n {
        let choice = choose_counted(owners, items, n, stopped, keys, takes, k, counts, p);
        if choice.found {
            return passed_on(choice);
        }
        p = next_fit(owners, items, n, p + 1, 0, 65535, takes[0], stopped);
    }
    Choice {
        found: false,
        picks: [0, 0, 0, 0],
    }
}

// The same, with the entries of the groups counted first.
pub fn count_and_choose<'a>(
    owners: &'a [u16; 1024],
    items: &'a [u32; 1024],
    n: usize,
    stopped: &'a [u64; WORDS],
    keys: &'a [u32; 1024],
    takes: &'a [u32; 4],
    k: usize,
    from: usize,
) -> Choice
    requires { ByGroups owners.now items.now stopped.now takes.now keys.now n k × (from ≤ n) }
    ensures { result ≡ first_choice (begin_from (take n keys.now) (get_or takes.now 0 0)
        (drop 1 (take k takes.now)) from) }
{
    let lows = low_keys(keys, n);
    let mut counts = [0u64; 1024];
    count_groups(
        &lows,
        n,
        takes[0],
        takes[1],
        takes[2],
        takes[3],
        &mut counts,
    );
    first_counted(owners, items, n, stopped, keys, takes, k, &counts, from)
}
