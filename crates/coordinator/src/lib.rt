// The public calls for C and Rust: the archive of this crate is the one that buyers link.
#![tactic(auto)]

ghost use Rattle.std.specs.Prelude.{◌≡◌};
ghost use Rattle.semantics.specs.Answers.{check_table, check_state, make_move, make_move_target, preview_move, list_moves, list_moves_target, run_log, run_log_target, run_log_tally, serialize, serialize_target, run_unattended, run_unattended_target};

use answers::{answer_of, page_of, preview_of, unattended_of};
use semantics::{Answer, Page, Preview, Unattended};

#[unsafe(no_mangle)]
pub extern "C" fn coordinator_check_table(table: &[u32]) -> Answer
    ensures { result ≡ check_table table.now }
{
    answer_of(calls::check_table(table))
}

#[unsafe(no_mangle)]
pub extern "C" fn coordinator_check_state(table: &[u32], state: &[u32]) -> Answer
    ensures { result ≡ check_state table.now state.now }
{
    answer_of(calls::check_state(table, state))
}

#[unsafe(no_mangle)]
pub extern "C" fn coordinator_move<'a>(
    table: &'a [u32],
    state: &'a [u32],
    mv: &'a [u32],
    target: &mut [u32],
) -> Answer
    ensures answer { result ≡ make_move table.now state.now mv.now target.old }
    ensures contents { target.new ≡ make_move_target table.now state.now mv.now target.old }
{
    answer_of(calls::make_move(table, state, mv, target))
}

#[unsafe(no_mangle)]
pub extern "C" fn coordinator_preview<'a>(
    table: &'a [u32],
    state: &'a [u32],
    mv: &'a [u32],
) -> Preview
    ensures { result ≡ preview_move table.now state.now mv.now }
{
    preview_of(calls::preview(table, state, mv))
}

#[unsafe(no_mangle)]
pub extern "C" fn coordinator_list_moves<'a>(
    table: &'a [u32],
    state: &'a [u32],
    first: u64,
    count: u32,
    target: &mut [u32],
) -> Page
    ensures answer { result ≡ list_moves table.now state.now first count target.old }
    ensures contents { target.new ≡ list_moves_target table.now state.now first count target.old }
{
    page_of(calls::list_moves(table, state, first, count, target))
}

#[unsafe(no_mangle)]
pub extern "C" fn coordinator_run<'a>(
    table: &'a [u32],
    state: &'a [u32],
    log: &'a [u32],
    tally: &mut [u32; 4],
    target: &mut [u32],
) -> Answer
    ensures answer { result ≡ run_log table.now state.now log.now target.old }
    ensures contents { target.new ≡ run_log_target table.now state.now log.now target.old }
    ensures counts { tally.new
        ≡ run_log_tally table.now state.now log.now target.old tally.old }
{
    answer_of(calls::run(table, state, log, tally, target))
}

#[unsafe(no_mangle)]
pub extern "C" fn coordinator_serialize<'a>(
    table: &'a [u32],
    state: &'a [u32],
    log: &'a [u32],
    target: &mut [u32],
) -> Answer
    ensures answer { result ≡ serialize table.now state.now log.now target.old }
    ensures contents { target.new ≡ serialize_target table.now state.now log.now target.old }
{
    answer_of(calls::serialize(table, state, log, target))
}

#[unsafe(no_mangle)]
pub extern "C" fn coordinator_run_unattended<'a>(
    table: &'a [u32],
    state: &'a [u32],
    budget: u32,
    target: &mut [u32],
) -> Unattended
    ensures answer { result ≡ run_unattended table.now state.now budget target.old }
    ensures contents { target.new ≡ run_unattended_target table.now state.now budget target.old }
{
    unattended_of(calls::run_unattended(table, state, budget, target))
}
