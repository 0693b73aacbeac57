// The public call. It asks nothing of its caller.
ghost use Rattle.std.specs.Prelude.{◌+◌, ◌*◌, ◌≤◌, ◌≡◌, false, length};
ghost use Rattle.semantics.specs.Answers.{alone_answer, run_unattended, run_unattended_target};
ghost use Rattle.semantics.specs.declared.Outcome.TheVariants.{Refused};
ghost use Rattle.ready.specs.Ready.{Ready};
ghost use Rattle.unattended.specs.Walked.{ToldAs};

use crate::go_alone;
use ready::ready;
use semantics::{LeftAlone, Outcome, Refusal, Verdict};

// The most moves that a budget may have: as many as a log.
const MAX_BUDGET: u32 = 1024;

// A run that is refused makes nothing, and does not say how it would have ended.
fn refused(refusal: Refusal) -> LeftAlone
    ensures { result ≡ record { outcome = Refused refusal; moves = 0; still = false } }
{
    LeftAlone {
        outcome: Outcome::Refused(refusal),
        moves: 0,
        still: false,
    }
}

// A run for which the target is long enough.
fn go_and_tell<'a>(
    table: &'a [u32],
    starts: &'a [u32; 65],
    state: &'a [u32],
    budget: usize,
    target: &mut [u32],
) -> LeftAlone
    requires { Ready table.now state.now starts.now × (budget ≤ 1024) × (1 + 5 * budget ≤ length target.old) }
    ensures { ToldAs result table.now state.now budget target.old target.new }
{
    let gone = go_alone(table, starts, state, budget, target);
    let words = (1 + 5 * gone.made) as u32;
    LeftAlone {
        outcome: Outcome::Written(words),
        moves: gone.made as u32,
        still: gone.still,
    }
}

// The first open move, again and again, at most `budget` times: the words of their log, how many they are, and whether none is
// open where they ended; or 1 to 4, 19, 6.
pub fn run_unattended<'a>(
    table: &'a [u32],
    state: &'a [u32],
    budget: u32,
    target: &mut [u32],
) -> LeftAlone
    ensures answer { alone_answer result ≡ run_unattended table.now state.now budget target.old }
    ensures contents { target.new ≡ run_unattended_target table.now state.now budget target.old }
{
    let mut starts = [0u32; 65];
    let checked = ready(table, state, &mut starts);
    if let Verdict::Denied(refusal) = checked {
        return refused(refusal);
    }
    if MAX_BUDGET < budget {
        return refused(Refusal::BudgetTooLarge);
    }
    let most = budget as usize;
    if target.len() < 1 + 5 * most {
        return refused(Refusal::TargetTooShort);
    }
    go_and_tell(table, &starts, state, most, target)
}
