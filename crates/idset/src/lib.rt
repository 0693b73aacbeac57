// A set of numbers below 65,536, one bit for each: v is bit v % 64 of word v / 64. `[0; WORDS]` is the empty set.
#![tactic(auto)]

ghost use Rattle.std.specs.Prelude.{◌≡◌, true, ◌≤◌, ◌<◌, min, length};
ghost use Rattle.idset.specs.IdSet.{has, Inserted, InsertedIf, Removed, Behind};

// The words of a set.
pub const WORDS: usize = 1024;

// Whether v is in the set.
pub fn has(words: &[u64; WORDS], v: u32) -> bool
    requires { v < 65536 }
    ensures { result ≡ has words.now v }
{
    let word = words[(v / 64) as usize];
    (word >> (v % 64)) % 2 == 1
}

// Puts v into the set; a v that is there already stays.
pub fn insert(words: &mut [u64; WORDS], v: u32)
    requires { (v < 65536) × (length words.old ≡ 1024) }
    ensures { Inserted v words.old words.new }
{
    let i = (v / 64) as usize;
    words[i] |= 1u64 << (v % 64);
}

// Puts v into the set where b holds.
pub fn insert_if(words: &mut [u64; WORDS], v: u32, b: bool)
    requires { (v < 65536) × (length words.old ≡ 1024) }
    ensures { InsertedIf b v words.old words.new }
{
    if !b {
        return;
    }
    insert(words, v);
}

// Takes v out of the set. It is there, so that its bit is turned.
pub fn remove(words: &mut [u64; WORDS], v: u32)
    requires { (v < 65536) × (length words.old ≡ 1024) × (has words.old v ≡ true) }
    ensures { Removed v words.old words.new }
{
    let i = (v / 64) as usize;
    words[i] ^= 1u64 << (v % 64);
}

fn lower(a: u32, b: u32) -> u32
    ensures { result ≡ min a b }
{
    if a < b { a } else { b }
}

// The next member behind v, or the first number of the next word where v's word has no more, or `end`:
// a walk through the set stops at its members and once in each word.
pub fn behind(words: &[u64; WORDS], v: u32, end: u32) -> u32
    requires { (v < end) × (end ≤ 65536) }
    ensures { Behind words.now v end result }
{
    let bits = words[(v / 64) as usize];
    let more = (bits >> (v % 64)) / 2;
    let next = v + 1 + u64::trailing_zeros(more);
    lower(lower(next, (v / 64 + 1) * 64), end)
}
