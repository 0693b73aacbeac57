// The tally of a run: what an accepted move changes in it, and its words for the caller.
#![tactic(auto)]

ghost use Rattle.std.specs.Prelude.{◌≡◌};
ghost use Rattle.semantics.specs.Tally.{tally_words};
ghost use Rattle.tally.specs.Counted.{counted as counted_of, moved_on, Room, MoveRoom};

use semantics::Tally;
use words::head::COMMIT;

// One move more, which begins, commits and aborts so many members, in place. Besides `moves` it touches
// the figures that the move concerns, and no other.
fn count(tally: &mut Tally, begun: u32, committed: u32, aborted: u32)
    requires { Room tally.old begun committed aborted }
    ensures { tally.new ≡ counted_of tally.old begun committed aborted }
{
    tally.moves += 1;
    if begun > 0 {
        tally.begun += begun;
    }
    if committed > 0 {
        tally.committed += committed;
    }
    if aborted > 0 {
        tally.aborted += aborted;
    }
}

// The same by value: its callers lend no tally.
fn counted(mut tally: Tally, begun: u32, committed: u32, aborted: u32) -> Tally
    requires { Room tally begun committed aborted }
    ensures { result ≡ counted_of tally begun committed aborted }
{
    count(&mut tally, begun, committed, aborted);
    tally
}

// The tally after an accepted move of this kind, which begins a member or ends so many. A reaction ends
// none, so what is ended is a commit's or an abort's.
pub fn tally_move(tally: Tally, kind: u32, begins: bool, members: u32) -> Tally
    requires { MoveRoom tally members }
    ensures { result ≡ moved_on tally kind begins members }
{
    let (committed, aborted) = if kind == COMMIT {
        (members, 0)
    } else {
        (0, members)
    };
    counted(tally, u32::from(begins), committed, aborted)
}

// The caller's four words, whatever they were.
pub fn put_tally(tally: Tally, words: &mut [u32; 4])
    ensures { words.new ≡ tally_words tally }
{
    *words = [tally.moves, tally.begun, tally.committed, tally.aborted];
}
