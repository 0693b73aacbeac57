// The list of open moves.
ghost use Rattle.std.specs.Prelude.{min, ◌*◌, ◌≤◌, ◌≡◌, length};
ghost use Rattle.semantics.specs.Answers.{page_answer, list_moves, list_moves_target};
ghost use Rattle.ready.specs.Ready.{Ready};
ghost use Rattle.semantics.specs.declared.Outcome.TheVariants.{Refused};
ghost use Rattle.calls.specs.Lists.{ListComesTo, all_open};

use listing::open_moves;
use ready::ready;
use semantics::{Listed, Outcome, Refusal, Verdict};

// A list that is refused has no length.
fn refused(refusal: Refusal) -> Listed
    ensures { result ≡ record { outcome = Refused refusal; length = 0 } }
{
    Listed {
        outcome: Outcome::Refused(refusal),
        length: 0,
    }
}

// The most moves on a page of this count.
fn page_count(count: u32) -> usize
    ensures { result ≡ min count 256 }
{
    if count <= 256 { count as usize } else { 256 }
}

// A page for which the target is long enough.
fn list_page<'a>(
    table: &'a [u32],
    starts: &'a [u32; 65],
    state: &'a [u32],
    first: u64,
    count: usize,
    target: &mut [u32],
) -> Listed
    requires { Ready table.now state.now starts.now × (count ≤ 256) × (5 * count ≤ length target.old) }
    ensures { ListComesTo (all_open table.now state.now) first count target.old target.new result }
{
    let part = open_moves(table, starts, state, first, count, target);
    let words = (5 * part.written) as u32;
    Listed {
        outcome: Outcome::Written(words),
        length: part.length,
    }
}

// The open moves from the place `first` on, at most `count` and 256 of them, and how many there are in all: the words written, or
// 1 to 4, 6.
pub fn list_moves<'a>(
    table: &'a [u32],
    state: &'a [u32],
    first: u64,
    count: u32,
    target: &mut [u32],
) -> Listed
    ensures answer { page_answer result ≡ list_moves table.now state.now first count target.old }
    ensures contents { target.new ≡ list_moves_target table.now state.now first count target.old }
{
    let mut starts = [0u32; 65];
    let checked = ready(table, state, &mut starts);
    if let Verdict::Denied(refusal) = checked {
        return refused(refusal);
    }
    let most = page_count(count);
    if target.len() < 5 * most {
        return refused(Refusal::TargetTooShort);
    }
    list_page(table, &starts, state, first, most, target)
}
