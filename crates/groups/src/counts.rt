// How many entries each group has on four ports.
ghost use Rattle.std.specs.Prelude.{◌≡◌, ℕ, ◌≤◌, ◌<◌, length, get_or, take};
ghost use Rattle.groups.specs.Groups.{Weights, Grouped, KeysBelow, TopGroup};

// What an entry adds to its group's word, by its port: a table, so that no port is compared in the pass over the keys.
fn weigh(a: u32, b: u32, c: u32, d: u32, weights: &mut [u64; 512])
    requires a_bound { (a < 512) × (b < 512) × (c < 512) × (d < 512) }
    requires weights_len { (length weights.old ≡ 512) × ((p : ℕ) → get_or weights.old p 0 ≡ 0) }
    ensures { Weights a b c d weights.new }
{
    weights[b as usize] += 1;
    weights[c as usize] += 1048576;
    weights[d as usize] += 1099511627776;
    weights[a as usize] += 4503599627370496;
}

fn larger(a: usize, b: usize) -> usize
    requires { (a ≤ 1024) × (b ≤ 1024) }
    ensures { (a ≤ result) × (b ≤ result) × (result ≤ 1024) }
{
    if a <= b { b } else { a }
}

// In one pass over the keys, without a branch; one word for a group, so that an entry costs one store. All groups are below the answer.
pub fn count_groups(
    keys: &[u32; 1024],
    n: usize,
    a: u32,
    b: u32,
    c: u32,
    d: u32,
    counts: &mut [u64; 1024],
) -> usize
    requires keys_below { KeysBelow n keys.now × (a < 512) × (b < 512) × (c < 512) × (d < 512) }
    requires counts_len { (length counts.old ≡ 1024) × ((g : ℕ) → get_or counts.old g 0 ≡ 0) }
    ensures { Grouped (take n keys.now) a b c d counts.new × TopGroup n keys.now result }
{
    let mut weights = [0u64; 512];
    weigh(a, b, c, d, &mut weights);
    let mut top = 0;
    let mut i = 0;
    while i < n {
        let key = keys[i];
        let g = (key / 512) as usize;
        let weight = weights[(key % 512) as usize];
        counts[g] += weight;
        top = larger(top, g + 1);
        i += 1;
    }
    top
}
