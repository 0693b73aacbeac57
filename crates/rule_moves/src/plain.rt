// A global or merge rule: each consume takes any of the entries on its port.
ghost use Rattle.std.specs.Prelude.{◌≡◌, [], ◌∷◌, ℕ, ◌+◌, ◌*◌, ◌≤◌, ◌<◌, length, get_or, take};
ghost use Rattle.lists.specs.Choosing.{choices_from};
ghost use Rattle.choices.specs.Parts.{PartAs};
ghost use Rattle.choices.specs.Words.{choice_words};
ghost use Rattle.eligible.specs.Ports.{PortCounts};
ghost use Rattle.rule_moves.specs.Takes.{SmallPorts, counts_at};

use choices::{Part, fill, widths};

fn count_at(counts: &[u16; 512], t: u32) -> u64
    requires { (length counts.now ≡ 512) × (t < 511) × (get_or counts.now t 0 ≤ 1024) }
    ensures { result ≡ get_or counts.now t 0 }
{
    counts[t as usize] as u64
}

// The entries on each of four ports.
fn counts_at(counts: &[u16; 512], takes: [u32; 4]) -> [u64; 4]
    requires { (length counts.now ≡ 512) × SmallPorts takes × ((t : ℕ) → t < 511 → get_or counts.now t 0 ≤ 1024) }
    ensures { result ≡ counts_at counts.now takes }
{
    let a = count_at(counts, takes[0]);
    let b = count_at(counts, takes[1]);
    let c = count_at(counts, takes[2]);
    let d = count_at(counts, takes[3]);
    [a, b, c, d]
}

pub fn plain_moves<'a>(
    keys: &'a [u32; 1024],
    n: usize,
    counts: &'a [u16; 512],
    takes: [u32; 4],
    k: usize,
    head: u32,
    first: u64,
    count: usize,
    target: &mut [u32],
    at: usize,
) -> Part
    requires n_bound { (n ≤ 1024) × (length keys.now ≡ 1024) × PortCounts (take n keys.now) counts.now × SmallPorts takes × (1 ≤ k) × (k ≤ 4) }
    requires count_bound { (count ≤ 256) × (at + 5 * count ≤ length target.old) }
    ensures part_as { PartAs (choice_words head (0 ∷ 0 ∷ 0 ∷ 0 ∷ []) 0) (choices_from (take n keys.now) [] (take k takes))
        first count at target.old target.new result }
    ensures length_bound { result.length ≤ 1099511627776 }
{
    let left = counts_at(counts, takes);
    let below = widths(takes, left, k);
    let length = left[0] * below[0];
    // Most rules have no move on the page, and for them not even a first place is looked for.
    if (count == 0) | (length <= first) {
        return Part { length, written: 0 };
    }
    let picks = [0u32; 4];
    let written = fill(
        keys, n, takes, below, k, head, picks, 0, first, count, target, at,
    );
    Part { length, written }
}
