// The check of a state (01, State): its sizes, then its entries.
#![tactic(auto)]

mod entries;

ghost use Rattle.std.specs.Prelude.{◌≡◌};
ghost use Rattle.semantics.specs.Answers.{state_own_verdict};

use entries::entries_ok;
use semantics::{Refusal, Sizes, Verdict};
use state::sizes_ok;

// A state by itself, under a table of these sizes.
pub fn check(z: Sizes, state: &[u32]) -> Verdict
    ensures { result ≡ state_own_verdict z state.now }
{
    if !sizes_ok(state) {
        return Verdict::Denied(Refusal::StateSizes);
    }
    if !entries_ok(z, state) {
        return Verdict::Denied(Refusal::StateContents);
    }
    Verdict::Allowed
}
