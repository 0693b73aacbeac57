// The ends, which stand behind the reactions.
ghost use Rattle.std.specs.Prelude.{◌≡◌, ◌+◌, ◌*◌, ◌≤◌, length};
ghost use Rattle.semantics.specs.Enabled.{move_words};
ghost use Rattle.choices.specs.Parts.{PartAs};
ghost use Rattle.listing.specs.Listing.{ends_by};

use choices::{Part, less};
use ends::ends;
use idset::WORDS;
use words::head::{ABORT, COMMIT};

// The commits of the first m ids that are not blocked, then the aborts of those that have an abort mark.
pub fn tail<'a>(
    ids: &'a [u16; 1024],
    m: usize,
    blocked: &'a [u64; WORDS],
    aborting: &'a [u64; WORDS],
    first: u64,
    count: usize,
    target: &mut [u32],
    at: usize,
) -> Part
    requires m_bound { (m ≤ 1024) × (length ids.now ≡ 1024) }
    requires count_bound { (count ≤ 256) × (at ≤ 1280) × (at + 5 * count ≤ length target.old) }
    ensures part_as { PartAs move_words (ends_by ids.now m blocked.now aborting.now)
        first count at target.old target.new result }
    ensures length_bound { result.length ≤ 2048 }
{
    let commits = ends(ids, m, blocked, false, COMMIT, first, count, target, at);
    let rest = less(first, commits.length);
    let left = count - commits.written;
    let behind = at + 5 * commits.written;
    let aborts = ends(ids, m, aborting, true, ABORT, rest, left, target, behind);
    Part {
        length: commits.length + aborts.length,
        written: commits.written + aborts.written,
    }
}
