// The preview of a move.
ghost use Rattle.std.specs.Prelude.{◌≡◌};
ghost use Rattle.semantics.specs.Answers.{preview_answer, preview_move};

use preview::preview_words;
use ready::ready;
use semantics::{Previewed, Refusal, Verdict};
use words::head::MoveWords;

// What one move would leave, and nothing is written: 1 to 5, 7 to 12, 18.
pub fn preview<'a>(table: &'a [u32], state: &'a [u32], mv: &'a [u32]) -> Previewed
    ensures { preview_answer result ≡ preview_move table.now state.now mv.now }
{
    let mut starts = [0u32; 65];
    let checked = ready(table, state, &mut starts);
    if let Verdict::Denied(refusal) = checked {
        return Previewed::Rejected(refusal);
    }
    if mv.len() != 5 {
        return Previewed::Rejected(Refusal::MoveForm);
    }
    let head = mv[0];
    let picks = [mv[1], mv[2], mv[3], mv[4]];
    preview_words(table, &starts, state, MoveWords { head, picks })
}
