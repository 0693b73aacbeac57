// The single move.
ghost use Rattle.std.specs.Prelude.{ℕ, ◌+◌, ◌*◌, ◌≤◌, ◌≡◌, List, length};
ghost use Rattle.semantics.specs.Move.{stepped_by};
ghost use Rattle.semantics.specs.Answers.{answer_of, stepped_result, make_move, make_move_target};
ghost use Rattle.words.specs.Head.{words_in};
ghost use Rattle.state.specs.Working.{held, state_in};
ghost use Rattle.state.specs.Lent.{Columns};
ghost use Rattle.calls.specs.Moves.{Movable, move_made};
ghost use Rattle.calls.specs.Results.{ComesTo};

use ready::ready;
use semantics::{Outcome, Refusal, Verdict};
use state::{Extent, State};
use step::form::form_ok;
use step::make::make;
use words::head::MoveWords;

// The state that a move left, with the members that it ended, or why it is refused, in which case nothing
// is written.
fn store_made<'a>(
    verdict: Verdict,
    left: Extent,
    members: u32,
    owners: &'a [u16; 1024],
    items: &'a [u32; 1024],
    target: &mut [u32],
) -> Outcome
    requires { Columns owners.now items.now left.len × (2 + 2 * left.len ≤ length target.old) }
    ensures { (gs : List ℕ)
        → ComesTo (stepped_result members (stepped_by verdict (state_in (held owners.now items.now gs left))))
        target.old target.new result }
{
    if let Verdict::Denied(refusal) = verdict {
        return Outcome::Refused(refusal);
    }
    Outcome::Moved(state::store(owners, items, left, target), members)
}

// A move in order, with a target that is long enough: 7 to 12, 18.
fn make_and_store<'a>(
    table: &'a [u32],
    starts: &'a [u32; 65],
    state: &'a [u32],
    mv: MoveWords,
    target: &mut [u32],
) -> Outcome
    requires { Movable table.now starts.now state.now target.old }
    ensures { ComesTo (move_made table.now state.now (words_in mv)) target.old target.new result }
{
    let s = State::empty();
    let mut owners = s.owners;
    let mut items = s.items;
    let mut origins = s.origins;
    let at = state::load(state, &mut owners, &mut items, &mut origins);
    let made = make(
        table,
        starts,
        &mut owners,
        &mut items,
        &mut origins,
        at,
        mv,
        1,
        State::MAX_ENTRIES,
    );
    let verdict = made.verdict;
    store_made(verdict, made.left, made.members, &owners, &items, target)
}

// One move: the words written and the members ended, or 1 to 12, 18.
pub fn make_move<'a>(
    table: &'a [u32],
    state: &'a [u32],
    mv: &'a [u32],
    target: &mut [u32],
) -> Outcome
    ensures answer { answer_of result ≡ make_move table.now state.now mv.now target.old }
    ensures contents { target.new ≡ make_move_target table.now state.now mv.now target.old }
{
    let mut starts = [0u32; 65];
    let checked = ready(table, state, &mut starts);
    if let Verdict::Denied(refusal) = checked {
        return Outcome::Refused(refusal);
    }
    if mv.len() != 5 {
        return Outcome::Refused(Refusal::MoveForm);
    }
    let head = mv[0];
    let picks = [mv[1], mv[2], mv[3], mv[4]];
    let words = MoveWords { head, picks };
    if !form_ok(table, &starts, words) {
        return Outcome::Refused(Refusal::MoveForm);
    }
    if target.len() < State::MAX_WORDS {
        return Outcome::Refused(Refusal::TargetTooShort);
    }
    make_and_store(table, &starts, state, words, target)
}
