// The commits and aborts on a page of the list of open moves.
#![tactic(auto)]

ghost use Rattle.std.specs.Prelude.{◌≡◌, [], ◌+◌, ◌*◌, ◌≤◌, ◌<◌, length, take};
ghost use Rattle.lists.specs.Lists.{one_if, keep, keep_if};
ghost use Rattle.lists.specs.Pages.{Paged};
ghost use Rattle.choices.specs.Parts.{PartAs};
ghost use Rattle.ends.specs.Listed.{agrees, end_words};

use choices::{Part, put};
use idset::WORDS;
use words::head;

// Whether v is in the set if that is wanted, else whether it is not.
fn agrees(set: &[u64; WORDS], v: u16, wanted: bool) -> bool
    ensures { result ≡ agrees wanted set.now v }
{
    let there = idset::has(set, v as u32);
    if wanted { there } else { !there }
}

fn one_if(b: bool) -> usize
    ensures { (result ≡ one_if b) × (result ≤ 1) }
{
    if b { 1 } else { 0 }
}

// The end of v, written where it is due and there is room for one more; how many were written.
fn put_if(due: bool, kind: u32, v: u16, left: usize, target: &mut [u32], at: usize) -> usize
    requires { (kind < 256) × (at + 5 * left ≤ length target.old) }
    ensures { Paged (end_words kind) 5 (keep_if due v []) 0 left at target.old target.new result }
{
    if !due {
        return 0;
    }
    if left == 0 {
        return 0;
    }
    put(target, at, head::head_of(kind, v as u32), [0, 0, 0, 0]);
    1
}

// The ends of one kind, commits or aborts, of those of the first m ids that are in the set, or of those that are not: a page of
// them from `first` on. All ids are looked at, since the length is told too.
pub fn ends(
    ids: &[u16; 1024],
    m: usize,
    set: &[u64; WORDS],
    wanted: bool,
    kind: u32,
    first: u64,
    count: usize,
    target: &mut [u32],
    at: usize,
) -> Part
    requires m_bound { (m ≤ 1024) × (length ids.now ≡ 1024) × (kind < 256) }
    requires count_bound { (count ≤ 256) × (at + 5 * count ≤ length target.old) }
    ensures part_as { PartAs (end_words kind) (keep (agrees wanted set.now) (take m ids.now))
        first count at target.old target.new result }
    ensures length_bound { result.length ≤ 1024 }
{
    let mut length = 0;
    let mut written = 0;
    let mut i = 0;
    while i < m {
        let v = ids[i];
        let hit = agrees(set, v, wanted);
        let due = hit & (first <= length as u64);
        written += put_if(due, kind, v, count - written, target, at + 5 * written);
        length += one_if(hit);
        i += 1;
    }
    Part {
        length: length as u64,
        written,
    }
}
