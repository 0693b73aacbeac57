// The two checks.
ghost use Rattle.std.specs.Prelude.{◌≡◌};
ghost use Rattle.semantics.specs.Answers.{answer_of, outcome_of_check, check_table, check_state};

use ready::ready;
use semantics::{Outcome, Verdict};

fn outcome_of_check(verdict: Verdict) -> Outcome
    ensures { result ≡ outcome_of_check verdict }
{
    match verdict {
        Verdict::Allowed => Outcome::Passed,
        Verdict::Denied(refusal) => Outcome::Refused(refusal),
    }
}

// Whether a table is well formed: 0, or 1, 2. The index that the check fills serves the other calls.
pub fn check_table(table: &[u32]) -> Outcome
    ensures { answer_of result ≡ check_table table.now }
{
    let mut starts = [0u32; 65];
    outcome_of_check(table::check(table, &mut starts))
}

// Whether a state is well formed under its table: 0, or 1 to 4.
pub fn check_state(table: &[u32], state: &[u32]) -> Outcome
    ensures { answer_of result ≡ check_state table.now state.now }
{
    let mut starts = [0u32; 65];
    outcome_of_check(ready(table, state, &mut starts))
}
