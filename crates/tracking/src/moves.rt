// A move that is open, made, and what is kept follows it.
ghost use Rattle.std.specs.Prelude.{◌+◌, ◌<◌};
ghost use Rattle.semantics.specs.Table.{sizes_of, table_of};
ghost use Rattle.state.specs.Working.{held};
ghost use Rattle.words.specs.Head.{words_in};
ghost use Rattle.step.specs.Make.{Indexed, MadeAs, Workable};
ghost use Rattle.tracking.specs.Tracked.{TrackedIn};
ghost use Rattle.tracking.specs.Given.{MoveGiven};

use crate::ended::before_move;
use crate::reacted::after_move;
use idset::WORDS;
use state::Extent;
use step::make::{Made, make};
use words::head::MoveWords;

// The move at place i of the log, whose maker is i + 1. What it leaves is handed on field by field, as in a run.
fn make_next<'a>(
    table: &'a [u32],
    starts: &'a [u32; 65],
    owners: &mut [u16; 1024],
    items: &mut [u32; 1024],
    origins: &mut [u16; 1024],
    at: Extent,
    mv: MoveWords,
    i: usize,
    ceiling: usize,
) -> Made
    requires { Indexed table.now starts.now × (i < 1024) × Workable (held owners.old items.old origins.old at) ceiling }
    ensures { MadeAs result ceiling (table_of table.now) (i + 1) (words_in mv)
        (held owners.old items.old origins.old at)
        (held owners.new items.new origins.new result.left) }
{
    let by = (i + 1) as u32;
    let made = make(table, starts, owners, items, origins, at, mv, by, ceiling);
    let verdict = made.verdict;
    let at = made.left;
    let left = Extent {
        len: at.len,
        next: at.next,
        unmarked: at.unmarked,
    };
    let members = made.members;
    Made {
        verdict,
        left,
        members,
    }
}

// The move at place i of the log, which is open. It is made at one place, for both kinds.
pub fn make_tracked<'a>(
    table: &'a [u32],
    starts: &'a [u32; 65],
    owners: &mut [u16; 1024],
    items: &mut [u32; 1024],
    origins: &mut [u16; 1024],
    at: Extent,
    mv: MoveWords,
    i: usize,
    ceiling: usize,
    stopped: &mut [u64; WORDS],
    totals: &mut [u16; 512],
) -> Made
    requires { MoveGiven table.now starts.now i ceiling owners.old items.old origins.old at (words_in mv) stopped.old totals.old }
    ensures made_as { MadeAs result ceiling (table_of table.now) (i + 1) (words_in mv)
        (held owners.old items.old origins.old at)
        (held owners.new items.new origins.new result.left) }
    ensures tracked_in { TrackedIn (sizes_of table.now) owners.new items.new result.left
        stopped.new totals.new }
{
    before_move(owners, items, at, mv.head, stopped, totals);
    let made = make_next(table, starts, owners, items, origins, at, mv, i, ceiling);
    let verdict = made.verdict;
    let at = made.left;
    let left = Extent {
        len: at.len,
        next: at.next,
        unmarked: at.unmarked,
    };
    let members = made.members;
    after_move(table, starts, mv.head, owners, items, left, stopped, totals);
    Made {
        verdict,
        left,
        members,
    }
}
