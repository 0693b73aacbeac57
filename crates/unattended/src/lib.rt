// A plant that goes on alone: the first open move, again and again, within a budget, and the log of the moves made.
#![tactic(auto)]

mod call;
mod walk;

ghost use Rattle.std.specs.Prelude.{ℕ, ◌+◌, ◌*◌, ◌≤◌, ◌≡◌, List, ◌∷◌, ◌++◌, length, take};
ghost use Rattle.std.proofs.lemmas.List.Edits.{sets};
ghost use Rattle.lists.specs.Lists.{over};
ghost use Rattle.ready.specs.Ready.{Ready};
ghost use Rattle.unattended.specs.Walked.{LeftAs};

use crate::walk::walk;
pub use call::run_unattended;
use idset::WORDS;
use state::State;
use table::parts::sizes_of;
use tracking::track;
use wants::fill_wants;
use words::copy::copy_words_at;

// How many moves were made, and whether none is open where they ended.
#[derive(Clone, Copy)]
pub struct Gone {
    pub made: usize,
    pub still: bool,
}

// The count before k heads, and four picks for each behind them: only now it is known where the picks begin.
fn lay_out(picks: &[u32], k: usize, target: &mut [u32])
    requires { (k ≤ 1024) × (4 * k ≤ length picks.now) × (1 + 5 * k ≤ length target.old) }
    ensures { (t hs : List ℕ) → target.old ≡ sets t 1 hs → length hs ≡ k
        → target.new ≡ over (k ∷ hs ++ take (4 * k) picks.now) t }
{
    target[0] = k as u32;
    copy_words_at(picks, 4 * k, target, 1 + k);
}

// From the words of a state: at most so many moves, and their log in the target.
fn go_alone<'a>(
    table: &'a [u32],
    starts: &'a [u32; 65],
    state: &'a [u32],
    budget: usize,
    target: &mut [u32],
) -> Gone
    requires { Ready table.now state.now starts.now × (budget ≤ 1024) × (1 + 5 * budget ≤ length target.old) }
    ensures { LeftAs result table.now state.now budget target.old target.new }
{
    let s = State::empty();
    let mut owners = s.owners;
    let mut items = s.items;
    let mut origins = s.origins;
    let at = state::load(state, &mut owners, &mut items, &mut origins);
    let mut wants = [0u64; 64];
    fill_wants(table, starts, &mut wants);
    let z = sizes_of(table);
    let mut stopped = [0u64; WORDS];
    let mut totals = [0u16; 512];
    track(z, &owners, &items, at, &mut stopped, &mut totals);
    let mut picks = [0u32; 4096];
    let gone = walk(
        table,
        starts,
        &wants,
        &mut owners,
        &mut items,
        &mut origins,
        at,
        budget,
        State::MAX_ENTRIES,
        &mut stopped,
        &mut totals,
        &mut picks,
        target,
    );
    lay_out(&picks, gone.made, target);
    gone
}
