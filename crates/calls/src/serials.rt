// The serial log.
ghost use Rattle.std.specs.Prelude.{true, ◌≡◌};
ghost use Rattle.semantics.specs.State.{state_sizes_ok, state_of};
ghost use Rattle.semantics.specs.Serial.{any_open};
ghost use Rattle.semantics.specs.Answers.{answer_of, serialize, serialize_target};

use move_log::count_of;
use ready::ready;
use rules::emits::begins_emit;
use semantics::{Outcome, Refusal, Verdict};
use serial::serialize_log;
use state::{any_open, entry_count, owners_of};

// Whether a transaction is open in a state's words.
fn open_in(state: &[u32]) -> bool
    requires { state_sizes_ok state.now ≡ true }
    ensures { result ≡ any_open (state_of state.now) }
{
    let n = entry_count(state);
    any_open(owners_of(state), n)
}

// The log's transactions one after another: the words written, or 1 to 4, 13, 6, 14, 15, 16, 15, 17. What
// it answers and writes has demand 3: crates/serializability/specs/PublicCalls.antt.
pub fn serialize<'a>(
    table: &'a [u32],
    state: &'a [u32],
    log: &'a [u32],
    target: &mut [u32],
) -> Outcome
    ensures answer { answer_of result ≡ serialize table.now state.now log.now target.old }
    ensures contents { target.new ≡ serialize_target table.now state.now log.now target.old }
{
    let mut starts = [0u32; 65];
    let checked = ready(table, state, &mut starts);
    if let Verdict::Denied(refusal) = checked {
        return Outcome::Refused(refusal);
    }
    if !move_log::sizes_ok(log) {
        return Outcome::Refused(Refusal::LogSizes);
    }
    if target.len() < 1 + 5 * count_of(log) {
        return Outcome::Refused(Refusal::TargetTooShort);
    }
    if begins_emit(table, &starts) {
        return Outcome::Refused(Refusal::BeginEmits);
    }
    if open_in(state) {
        return Outcome::Refused(Refusal::TransactionOpen);
    }
    serialize_log(table, &starts, state, log, target)
}
