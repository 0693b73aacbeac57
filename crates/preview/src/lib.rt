// What a move would leave: its verdict, and figures that are counted. No move is made.
#![tactic(auto)]

mod ends;
mod reactions;

ghost use Rattle.std.specs.Prelude.{ℕ, ◌≡◌, List};
ghost use Rattle.semantics.specs.Table.{sizes_of, numbers_of, table_of};
ghost use Rattle.semantics.specs.State.{state_of};
ghost use Rattle.semantics.specs.Preview.{previewed};
ghost use Rattle.semantics.specs.Answers.{line_ceiling};
ghost use Rattle.words.specs.Head.{words_in};
ghost use Rattle.table.specs.Index.{Starts};
ghost use Rattle.state.specs.Lent.{state_from};
ghost use Rattle.ready.specs.Ready.{Ready};
ghost use Rattle.preview.specs.Asked.{Formed};

use crate::ends::preview_end;
use crate::reactions::preview_reaction;
use semantics::{Previewed, Refusal};
use state::{Extent, State};
use step::form::form_ok;
use words::head;
use words::head::MoveWords;

// A move in order, on lent columns: 7 to 12, 18.
fn preview_formed<'a>(
    table: &'a [u32],
    starts: &'a [u32; 65],
    owners: &'a [u16; 1024],
    items: &'a [u32; 1024],
    at: Extent,
    mv: MoveWords,
    ceiling: usize,
) -> Previewed
    requires starts { Starts (numbers_of table.now) (sizes_of table.now).rules starts.now }
    requires formed { Formed table.now owners.now items.now at ceiling (words_in mv) }
    ensures { (gs : List ℕ)
        → result ≡ previewed ceiling (table_of table.now) (state_from owners.now items.now gs at) (words_in mv) }
{
    if head::kind_of(mv.head) == head::REACT {
        return preview_reaction(table, starts, owners, items, at, mv, ceiling);
    }
    preview_end(table, owners, items, at, mv, ceiling)
}

// Five words on a state that was accepted: 5, 7 to 12, 18.
pub fn preview_words<'a>(
    table: &'a [u32],
    starts: &'a [u32; 65],
    state: &'a [u32],
    mv: MoveWords,
) -> Previewed
    requires { Ready table.now state.now starts.now }
    ensures { result ≡ previewed line_ceiling (table_of table.now) (state_of state.now) (words_in mv) }
{
    if !form_ok(table, starts, mv) {
        return Previewed::Rejected(Refusal::MoveForm);
    }
    let s = State::empty();
    let mut owners = s.owners;
    let mut items = s.items;
    let mut origins = s.origins;
    let at = state::load(state, &mut owners, &mut items, &mut origins);
    preview_formed(table, starts, &owners, &items, at, mv, State::MAX_ENTRIES)
}
