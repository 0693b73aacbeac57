// The run of a log: its moves in order, each on the state that the one before it left.
#![tactic(auto)]

pub mod trace;

ghost use Rattle.std.specs.Prelude.{◌+◌, ◌≤◌, ◌<◌, ◌≡◌};
ghost use Rattle.semantics.specs.Table.{table_of};
ghost use Rattle.semantics.specs.Log.{move_count, move_at};
ghost use Rattle.move_log.specs.Form.{Place};
ghost use Rattle.state.specs.Working.{held};
ghost use Rattle.step.specs.Make.{Workable, MadeAs};
ghost use Rattle.run.specs.Runs.{Prepared, Runnable};
ghost use Rattle.tally.specs.Counted.{MoveRoom};
ghost use Rattle.run.specs.Tallies.{TalliedAs, tallied_at};

use move_log::{count_of, head_at, move_at};
use semantics::{Tally, Verdict};
use state::Extent;
use step::make::{Made, make};
use tally::tally_move;
use words::head::kind_of;

// How far a run came: why the first move not made is refused, its place, and the extent of the state
// there.
#[derive(Clone, Copy)]
pub struct Ran {
    pub verdict: Verdict,
    pub place: u32,
    pub left: Extent,
}

// A run, and the tally of the moves that it made.
#[derive(Clone, Copy)]
pub struct Tallied {
    pub ran: Ran,
    pub tally: Tally,
}

// The move at place i of a log, decided and made. Its maker is i + 1: the maker 0 is the start. What it
// leaves is handed on field by field: loaded as a whole, it would wait for the stores of its parts.
pub fn make_at<'a>(
    table: &'a [u32],
    starts: &'a [u32; 65],
    owners: &mut [u16; 1024],
    items: &mut [u32; 1024],
    origins: &mut [u16; 1024],
    at: Extent,
    log: &'a [u32],
    i: usize,
    ceiling: usize,
) -> Made
    requires place { Prepared table.now starts.now log.now × (i < move_count log.now) }
    requires able { Workable (held owners.old items.old origins.old at) ceiling }
    ensures { MadeAs result ceiling (table_of table.now) (i + 1) (move_at log.now i)
        (held owners.old items.old origins.old at)
        (held owners.new items.new origins.new result.left) }
{
    let mv = move_at(log, i);
    let by = (i + 1) as u32;
    let made = make(table, starts, owners, items, origins, at, mv, by, ceiling);
    let verdict = made.verdict;
    let at = made.left;
    let left = Extent {
        len: at.len,
        next: at.next,
        unmarked: at.unmarked,
    };
    let members = made.members;
    Made {
        verdict,
        left,
        members,
    }
}

// A run that came as far as the place i.
fn came_to(verdict: Verdict, i: usize, left: Extent, tally: Tally) -> Tallied
    requires { i ≤ 1024 }
    ensures { result ≡ record { ran = record { verdict = verdict; place = i; left = left }; tally = tally } }
{
    let ran = Ran {
        verdict,
        place: i as u32,
        left,
    };
    Tallied { ran, tally }
}

// The tally after the accepted move at place i: only a begin changes the next id.
fn tally_at(tally: Tally, log: &[u32], i: usize, before: u32, after: u32, members: u32) -> Tally
    requires place { Place log.now i }
    requires room { MoveRoom tally members }
    ensures { result ≡ tallied_at tally log.now i before after members }
{
    let kind = kind_of(head_at(log, i));
    tally_move(tally, kind, before != after, members)
}

// The moves of the log one after another, to the first that is refused, each counted as it is made.
pub fn run_log<'a>(
    table: &'a [u32],
    starts: &'a [u32; 65],
    owners: &mut [u16; 1024],
    items: &mut [u32; 1024],
    origins: &mut [u16; 1024],
    start: Extent,
    log: &'a [u32],
    ceiling: usize,
) -> Tallied
    requires { Runnable table.now starts.now log.now ceiling (held owners.old items.old origins.old start) }
    ensures { TalliedAs result ceiling (table_of table.now) log.now
        (held owners.old items.old origins.old start)
        (held owners.new items.new origins.new result.ran.left) }
{
    let moves = count_of(log);
    let mut left = start;
    let mut tally = Tally {
        moves: 0,
        begun: 0,
        committed: 0,
        aborted: 0,
    };
    let mut i = 0;
    while i < moves {
        let made = make_at(table, starts, owners, items, origins, left, log, i, ceiling);
        let verdict = made.verdict;
        let next = left.next;
        left = made.left;
        if let Verdict::Denied(_) = verdict {
            return came_to(verdict, i, left, tally);
        }
        tally = tally_at(tally, log, i, next, left.next, made.members);
        i += 1;
    }
    came_to(Verdict::Allowed, i, left, tally)
}
