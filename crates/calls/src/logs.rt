// The run of a log.
ghost use Rattle.std.specs.Prelude.{ℕ, ◌+◌, ◌*◌, ◌≤◌, ◌<◌, ◌^◌, ◌≡◌, List, length};
ghost use Rattle.semantics.specs.Answers.{answer_of, line_ceiling, ran_result, run_tally, run_log, run_log_target, run_log_tally};
ghost use Rattle.state.specs.Working.{held, state_in};
ghost use Rattle.state.specs.Lent.{Columns};
ghost use Rattle.run.specs.Runs.{ran_by};
ghost use Rattle.calls.specs.Logs.{LogReady, run_made, RunsTo};

use ready::ready;
use run::run_log;
use semantics::{Outcome, Refusal, Tally, Verdict};
use state::{Extent, State};
use tally::put_tally;

// The state that a run reached, with its tally and the members that it ended, or 16 and nothing else:
// nothing is written before all the moves are known to be made.
fn store_reached<'a>(
    verdict: Verdict,
    place: u32,
    left: Extent,
    ran: Tally,
    owners: &'a [u16; 1024],
    items: &'a [u32; 1024],
    tally: &mut [u32; 4],
    target: &mut [u32],
) -> Outcome
    requires room { Columns owners.now items.now left.len × (2 + 2 * left.len ≤ length target.old) }
    requires few { ran.committed + ran.aborted < 2 ^ 32 }
    ensures { (gs : List ℕ)
        → RunsTo (ran_result (ran.committed + ran.aborted) (ran_by verdict place (state_in (held owners.now items.now gs left))))
        ran target.old target.new tally.old tally.new result }
{
    if let Verdict::Denied(refusal) = verdict {
        return Outcome::MoveRefused(place, refusal);
    }
    let members = ran.committed + ran.aborted;
    put_tally(ran, tally);
    Outcome::Moved(state::store(owners, items, left, target), members)
}

// A log in order, with a target that is long enough: the words of the state reached, the tally and the
// members ended, or 16.
fn run_and_store<'a>(
    table: &'a [u32],
    starts: &'a [u32; 65],
    state: &'a [u32],
    log: &'a [u32],
    tally: &mut [u32; 4],
    target: &mut [u32],
) -> Outcome
    requires { LogReady table.now starts.now state.now log.now target.old }
    ensures { RunsTo (run_made table.now state.now log.now)
        (run_tally line_ceiling table.now state.now log.now)
        target.old target.new tally.old tally.new result }
{
    let s = State::empty();
    let mut owners = s.owners;
    let mut items = s.items;
    let mut origins = s.origins;
    let at = state::load(state, &mut owners, &mut items, &mut origins);
    let tallied = run_log(
        table,
        starts,
        &mut owners,
        &mut items,
        &mut origins,
        at,
        log,
        State::MAX_ENTRIES,
    );
    let made = tallied.tally;
    let ran = tallied.ran;
    let verdict = ran.verdict;
    let place = ran.place;
    let left = ran.left;
    store_reached(verdict, place, left, made, &owners, &items, tally, target)
}

// A log's moves one after another: the words written and the members ended in all, or 1 to 4, 13, 6, 16.
// The caller's tally is replaced by that of an accepted run, and left by a refused one.
pub fn run<'a>(
    table: &'a [u32],
    state: &'a [u32],
    log: &'a [u32],
    tally: &mut [u32; 4],
    target: &mut [u32],
) -> Outcome
    ensures answer { answer_of result ≡ run_log table.now state.now log.now target.old }
    ensures contents { target.new ≡ run_log_target table.now state.now log.now target.old }
    ensures counts { tally.new
        ≡ run_log_tally table.now state.now log.now target.old tally.old }
{
    let mut starts = [0u32; 65];
    let checked = ready(table, state, &mut starts);
    if let Verdict::Denied(refusal) = checked {
        return Outcome::Refused(refusal);
    }
    if !move_log::sizes_ok(log) {
        return Outcome::Refused(Refusal::LogSizes);
    }
    if target.len() < State::MAX_WORDS {
        return Outcome::Refused(Refusal::TargetTooShort);
    }
    run_and_store(table, &starts, state, log, tally, target)
}
