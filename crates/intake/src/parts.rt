// The three parts of the program's input: where they lie, and the verdict on them.
ghost use Rattle.std.specs.Prelude.{◌<◌, ◌≡◌, get_or, [], ◌∷◌};
ghost use Rattle.semantics.specs.Move.{unless, first_fault};
ghost use Rattle.semantics.specs.Log.{log_sizes_ok};
ghost use Rattle.semantics.specs.declared.Refusal.TheVariants.{LogSizes};
ghost use Rattle.intake.specs.Split.{CutAt, SplitAs};

use crate::least;
use ready::ready;
use semantics::{Refusal, Verdict};

// The table ends at state_at, the state goes on to log_at and the log to end. Of an input that is
// Allowed, starts is the index of its table's rules.
#[derive(Drop)]
pub struct Parts {
    pub verdict: Verdict,
    pub starts: [u32; 65],
    pub state_at: usize,
    pub log_at: usize,
    pub end: usize,
}

#[derive(Clone, Copy)]
struct Cuts {
    state_at: usize,
    log_at: usize,
    end: usize,
}

// Words that end before a size have it 0.
fn size_at(words: &[u32], at: usize) -> usize
    ensures { (result ≡ get_or words.now at 0) × (result < 4294967296) }
{
    if at < words.len() {
        words[at] as usize
    } else {
        0
    }
}

// A part has the length that its sizes give it, or is cut short where the words end.
fn cuts_of(words: &[u32]) -> Cuts
    ensures { CutAt words.now result.state_at result.log_at result.end }
{
    let all = words.len();
    let state_at = least(5 + 2 * size_at(words, 4), all);
    let log_at = least(state_at + (2 + 2 * size_at(words, state_at)), all);
    let end = least(log_at + (1 + 5 * size_at(words, log_at)), all);
    Cuts {
        state_at,
        log_at,
        end,
    }
}

// The first fault counts: `first` is that of table and state, and `whole` says that no bytes are left
// over.
fn verdict_of(first: Verdict, log: &[u32], whole: bool) -> Verdict
    ensures { result ≡ first_fault (first ∷ unless (log_sizes_ok log.now) LogSizes ∷ unless whole LogSizes ∷ []) }
{
    if let Verdict::Denied(refusal) = first {
        return Verdict::Denied(refusal);
    }
    if !move_log::sizes_ok(log) {
        return Verdict::Denied(Refusal::LogSizes);
    }
    if !whole {
        return Verdict::Denied(Refusal::LogSizes);
    }
    Verdict::Allowed
}

// Where the three parts of an input of so many bytes lie, and the verdict on it. The words are those
// that the bytes make.
pub fn split(words: &[u32], bytes: usize) -> Parts
    ensures { SplitAs words.now bytes result }
{
    let cuts = cuts_of(words);
    let state_at = cuts.state_at;
    let log_at = cuts.log_at;
    let end = cuts.end;
    let mut starts = [0u32; 65];
    let first = ready(&words[..state_at], &words[state_at..log_at], &mut starts);
    let verdict = verdict_of(first, &words[log_at..end], bytes == 4 * end);
    Parts {
        verdict,
        starts,
        state_at,
        log_at,
        end,
    }
}
