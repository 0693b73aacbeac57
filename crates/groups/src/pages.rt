// The choices of a rule by groups: their number, and a page of them.
ghost use Rattle.std.specs.Prelude.{◌≡◌, [], ◌∷◌, map, ℕ, ◌+◌, ◌*◌, ◌/◌, ◌≤◌, ◌<◌, length, get_or, take};
ghost use Rattle.lists.specs.Choosing.{choices_by_group};
ghost use Rattle.lists.specs.Pages.{Paged};
ghost use Rattle.choices.specs.Widths.{widths_of};
ghost use Rattle.choices.specs.Words.{choice_words};
ghost use Rattle.groups.specs.Groups.{KeysBelow, CountedFor, TopGroup, left_in, ways_in, Sized};

use choices::{fill, widths};

// The ways below a first pick of group g.
fn group_widths<'a>(takes: [u32; 4], k: usize, counts: &'a [u64; 1024], g: usize) -> [u64; 4]
    requires { Sized counts.now × (g < 1024) }
    ensures { result ≡ widths_of takes (left_in counts.now g) k }
{
    let x = counts[g];
    let left = [
        0,
        x % 1048576,
        x / 1048576 % 1048576,
        x / 1099511627776 % 4096,
    ];
    widths(takes, left, k)
}

// The ways below a first pick with this key: those of its group.
pub fn widths_in<'a>(takes: [u32; 4], k: usize, counts: &'a [u64; 1024], key: u32) -> [u64; 4]
    requires { Sized counts.now × (key < 524288) }
    ensures { result ≡ widths_of takes (left_in counts.now (key / 512)) k }
{
    let g = (key / 512) as usize;
    group_widths(takes, k, counts, g)
}

// How many choices there are in group g.
fn group_ways<'a>(takes: [u32; 4], k: usize, counts: &'a [u64; 1024], g: usize) -> u64
    requires { Sized counts.now × (g < 1024) }
    ensures { (result ≡ ways_in takes k counts.now g) × (result ≤ 1099511627776) }
{
    let below = group_widths(takes, k, counts, g);
    counts[g] / 4503599627370496 * below[0]
}

// How many choices there are for the first k ports, group by group.
pub fn group_total<'a>(
    keys: &'a [u32; 1024],
    n: usize,
    takes: [u32; 4],
    k: usize,
    counts: &'a [u64; 1024],
    top: usize,
) -> u64
    requires keys_below { KeysBelow n keys.now × (1 ≤ k) × (k ≤ 4) × CountedFor (take n keys.now) takes counts.now }
    requires top_group { TopGroup n keys.now top × (get_or takes 0 0 < 512) }
    ensures { (result ≡ length (choices_by_group (take n keys.now) (take k takes))) × (result ≤ 1125899906842624) }
{
    let mut total = 0;
    let mut g = 0;
    while g < top {
        total += group_ways(takes, k, counts, g);
        g += 1;
    }
    total
}

pub fn shifted(takes: [u32; 4], base: u32) -> [u32; 4]
    requires { (base ≤ 65536 * 512) × ((j : ℕ) → get_or takes j 0 < 65536) }
    ensures { result ≡ map (λ u. u + base) takes }
{
    [
        takes[0] + base,
        takes[1] + base,
        takes[2] + base,
        takes[3] + base,
    ]
}

// A page of them, each as a head and four picks.
pub fn group_page<'a>(
    keys: &'a [u32; 1024],
    n: usize,
    takes: [u32; 4],
    k: usize,
    counts: &'a [u64; 1024],
    head: u32,
    first: u64,
    count: usize,
    target: &mut [u32],
    at: usize,
) -> usize
    requires keys_below { KeysBelow n keys.now × (1 ≤ k) × (k ≤ 4) × CountedFor (take n keys.now) takes counts.now }
    requires count_bound { (count ≤ 256) × (at + 5 * count ≤ length target.old) × ((j : ℕ) → get_or takes j 0 < 65536) }
    ensures { Paged (choice_words head (0 ∷ 0 ∷ 0 ∷ 0 ∷ []) 0) 5 (choices_by_group (take n keys.now) (take k takes))
        first count at target.old target.new result }
{
    let t = takes[0];
    let mut skip = first;
    let mut done = 0;
    let mut p = 0;
    while p < n {
        if done == count {
            return done;
        }
        let key = keys[p];
        if key % 512 != t {
            p += 1;
        } else {
            let below = widths_in(takes, k, counts, key);
            let width = below[0];
            if width <= skip {
                skip -= width;
                p += 1;
            } else {
                let wanted = shifted(takes, key - t);
                let picks = [p as u32, 0, 0, 0];
                done += fill(
                    keys,
                    n,
                    wanted,
                    below,
                    k,
                    head,
                    picks,
                    1,
                    skip,
                    count - done,
                    target,
                    at + 5 * done,
                );
                skip = 0;
                p += 1;
            }
        }
    }
    done
}
