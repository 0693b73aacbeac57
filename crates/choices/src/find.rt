// The next place that has a key. Whether 32 places have it is told without an early exit, so that several are compared at once;
// only a chunk that has it is gone through.
ghost use Rattle.std.specs.Prelude.{◌≡◌, min, ◌+◌, ◌*◌, ◌/◌, ◌≤◌, ◌<◌, length};
ghost use Rattle.words.specs.Search.{in_chunk};
ghost use Rattle.choices.specs.Next.{NextKey};

fn chunk_has(keys: &[u32; 1024], from: usize, t: u32) -> bool
    requires { (from + 32 ≤ 1024) × (length keys.now ≡ 1024) }
    ensures { result ≡ in_chunk keys.now from t }
{
    let mut found = false;
    let mut j = 0;
    while j < 32 {
        found = found | (keys[from + j] == t);
        j += 1;
    }
    found
}

fn first_in(keys: &[u32; 1024], from: usize, end: usize, t: u32) -> usize
    requires { (from ≤ end) × (end ≤ 1024) × (length keys.now ≡ 1024) }
    ensures { NextKey keys.now t from end result }
{
    let mut p = from;
    while p < end {
        if keys[p] == t {
            return p;
        }
        p += 1;
    }
    end
}

// From a place on to the end of its chunk.
fn next_in_chunk(keys: &[u32; 1024], from: usize, t: u32) -> usize
    requires { (from < 1024) × (length keys.now ≡ 1024) }
    ensures { NextKey keys.now t from (from / 32 * 32 + 32) result }
{
    let end = from / 32 * 32 + 32;
    if from % 32 != 0 {
        return first_in(keys, from, end, t);
    }
    if !chunk_has(keys, from, t) {
        return end;
    }
    first_in(keys, from, end, t)
}

fn smaller(a: usize, b: usize) -> usize
    ensures { result ≡ min a b }
{
    if a <= b { a } else { b }
}

// The first of n places from a place on that has the key t, n if none has it.
pub fn next_with(keys: &[u32; 1024], n: usize, from: usize, t: u32) -> usize
    requires { (from ≤ n) × (n ≤ 1024) × (length keys.now ≡ 1024) }
    ensures { NextKey keys.now t from n result }
{
    let mut at = from;
    while at < n {
        let end = at / 32 * 32 + 32;
        let next = next_in_chunk(keys, at, t);
        if next < end {
            return smaller(next, n);
        }
        at = end;
    }
    n
}
