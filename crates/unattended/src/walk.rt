// The moves one after another. Heads go where they will stand in the log; picks are kept aside, since their place goes by the
// number of moves.
ghost use Rattle.std.specs.Prelude.{◌+◌, ◌*◌, ◌≤◌, ◌<◌, ◌≡◌, length, set};
ghost use Rattle.lists.specs.Over.{Pasted};
ghost use Rattle.semantics.specs.Table.{sizes_of, table_of};
ghost use Rattle.wellformed.specs.Held.{Held};
ghost use Rattle.state.specs.Working.{held, state_in};
ghost use Rattle.step.specs.Make.{Indexed, Workable};
ghost use Rattle.wants.specs.Wants.{Wants};
ghost use Rattle.tracking.specs.Tracked.{TrackedIn};
ghost use Rattle.unattended.specs.Walked.{WalkedAs};

use crate::Gone;
use idset::WORDS;
use next_move::next_move;
use state::Extent;
use tracking::make_tracked;
use words::head::MoveWords;
use words::picks::put_picks;

// A move's head and picks at place i of their columns.
fn note(mv: MoveWords, i: usize, picks: &mut [u32], target: &mut [u32])
    requires { (i < 1024) × (4 * i + 4 ≤ length picks.old) × (1 + i < length target.old) }
    ensures pasted { Pasted picks.old (4 * i) mv.picks 4 picks.new }
    ensures target_after { target.new ≡ set target.old (1 + i) mv.head }
{
    target[1 + i] = mv.head;
    let four = mv.picks;
    put_picks(picks, 4 * i, four);
}

// Until no move is open, or the budget is used up; then one look more tells whether one is.
pub fn walk<'a>(
    table: &'a [u32],
    starts: &'a [u32; 65],
    wants: &'a [u64; 64],
    owners: &mut [u16; 1024],
    items: &mut [u32; 1024],
    origins: &mut [u16; 1024],
    start: Extent,
    budget: usize,
    ceiling: usize,
    stopped: &mut [u64; WORDS],
    totals: &mut [u16; 512],
    picks: &mut [u32],
    target: &mut [u32],
) -> Gone
    requires indexed { Indexed table.now starts.now × Wants table.now wants.now × (budget ≤ 1024) × (4 * budget ≤ length picks.old)
        × (1 + 5 * budget ≤ length target.old) }
    requires workable { Workable (held owners.old items.old origins.old start) ceiling
        × Held (sizes_of table.now) (state_in (held owners.old items.old origins.old start))
        × TrackedIn (sizes_of table.now) owners.old items.old start stopped.old totals.old }
    ensures walked_as { WalkedAs result ceiling (table_of table.now) budget
        (state_in (held owners.old items.old origins.old start))
        picks.new target.old target.new }
    ensures picks_len_unchanged { length picks.new ≡ length picks.old }
{
    let mut keys = [0u32; 1024];
    let mut at = start;
    let mut i = 0;
    while i < budget {
        let first = next_move(
            table, starts, wants, owners, items, at, stopped, totals, ceiling, &mut keys,
        );
        if !first.found {
            return Gone {
                made: i,
                still: true,
            };
        }
        let mv = first.mv;
        note(mv, i, picks, target);
        let made = make_tracked(
            table, starts, owners, items, origins, at, mv, i, ceiling, stopped, totals,
        );
        at = made.left;
        i += 1;
    }
    let first = next_move(
        table, starts, wants, owners, items, at, stopped, totals, ceiling, &mut keys,
    );
    Gone {
        made: i,
        still: !first.found,
    }
}
