// How many choices there are below a pick, without listing them.
ghost use Rattle.std.specs.Prelude.{◌≡◌, cond, ℕ, ◌+◌, ◌-◌, ◌≤◌, get_or};
ghost use Rattle.lists.specs.Lists.{one_if};
ghost use Rattle.choices.specs.Widths.{widths_of};

fn one_if(b: bool) -> u64
    ensures { (result ≡ one_if b) × (result ≤ 1) }
{
    if b { 1 } else { 0 }
}

// x less d, and 0 where d is the larger.
pub fn less(x: u64, d: u64) -> u64
    ensures { (result ≡ x - d) × (result ≤ x) }
{
    if x < d { 0 } else { x - d }
}

fn one_unless(wanted: bool, x: u64) -> u64
    requires { x ≤ 1024 }
    ensures { (result ≡ cond wanted x 1) × (result ≤ 1024) }
{
    if wanted { x } else { 1 }
}

// The ways at a number that has x places, of which those before it that are the same have used some; 1 where it is not wanted.
fn ways_at(wanted: bool, x: u64, used: u64) -> u64
    requires { x ≤ 1024 }
    ensures { (result ≡ cond wanted (x - used) 1) × (result ≤ 1024) }
{
    one_unless(wanted, less(x, used))
}

fn two_of(a: bool, b: bool) -> u64
    ensures { (result ≡ one_if a + one_if b) × (result ≤ 2) }
{
    one_if(a) + one_if(b)
}

fn three_of(a: bool, b: bool, c: bool) -> u64
    ensures { (result ≡ one_if a + one_if b + one_if c) × (result ≤ 3) }
{
    two_of(a, b) + one_if(c)
}

// Below a pick for the ith of k numbers: for each number behind it as many ways as it has places, less those that the same number
// before it has used. `left` has the places of each number.
pub fn widths(wanted: [u32; 4], left: [u64; 4], k: usize) -> [u64; 4]
    requires { (j : ℕ) → get_or left j 0 ≤ 1024 }
    ensures { result ≡ widths_of wanted left k }
{
    let a = wanted[0];
    let b = wanted[1];
    let c = wanted[2];
    let d = wanted[3];
    let second = ways_at(1 < k, left[1], one_if(a == b));
    let third = ways_at(2 < k, left[2], two_of(a == c, b == c));
    let fourth = ways_at(3 < k, left[3], three_of(a == d, b == d, c == d));
    let pair = third * fourth;
    [second * pair, pair, fourth, 1]
}
