// The figures that the program prints of its input: all but the printing is proved here.
ghost use Rattle.std.specs.Prelude.{◌*◌, ◌≤◌, ◌≡◌, length};
ghost use Rattle.semantics.specs.Program.{words_of};
ghost use Rattle.semantics.specs.declared.Verdict.TheVariants.{Allowed, Denied};
ghost use Rattle.state.specs.Parts.{Loadable};
ghost use Rattle.run.specs.Runs.{Prepared};
ghost use Rattle.report.specs.Shown.{Shows, FiguresOf};

use run::trace::trace;
use semantics::{Refusal, Verdict};
use state::State;

// The verdict on the input. Where it is Allowed, the first line's figures, and the words of so many
// further lines, four a line: place, answer, entries, next.
#[derive(Clone, Copy)]
pub struct Figures {
    pub verdict: Verdict,
    pub moves: u32,
    pub entries: u32,
    pub next: u32,
    pub count: usize,
    pub lines: [u32; 4096],
}

fn of_refused(refusal: Refusal) -> Figures
    ensures { (result.verdict ≡ Denied refusal) × (4 * result.count ≤ length result.lines) }
{
    Figures {
        verdict: Verdict::Denied(refusal),
        moves: 0,
        entries: 0,
        next: 0,
        count: 0,
        lines: [0; 4096],
    }
}

fn of_parts<'a>(
    table: &'a [u32],
    starts: &'a [u32; 65],
    state: &'a [u32],
    log: &'a [u32],
) -> Figures
    requires { Prepared table.now starts.now log.now × Loadable state.now }
    ensures { (result.verdict ≡ Allowed) × (4 * result.count ≤ length result.lines)
        × Shows (record { table = table.now; state = state.now; log = log.now }) result }
{
    let s = State::empty();
    let mut owners = s.owners;
    let mut items = s.items;
    let mut origins = s.origins;
    let at = state::load(state, &mut owners, &mut items, &mut origins);
    let mut lines = [0u32; 4096];
    let count = trace(
        table,
        starts,
        &mut owners,
        &mut items,
        &mut origins,
        at,
        log,
        &mut lines,
    );
    Figures {
        verdict: Verdict::Allowed,
        moves: log[0],
        entries: state[0],
        next: state[1],
        count,
        lines,
    }
}

fn of_words(words: &[u32], bytes: usize) -> Figures
    ensures { FiguresOf words.now bytes result }
{
    let parts = intake::split(words, bytes);
    let verdict = parts.verdict;
    if let Verdict::Denied(refusal) = verdict {
        return of_refused(refusal);
    }
    let state_at = parts.state_at;
    let log_at = parts.log_at;
    let end = parts.end;
    of_parts(
        &words[..state_at],
        &parts.starts,
        &words[state_at..log_at],
        &words[log_at..end],
    )
}

// The bytes are those that were read, one more than the longest input at most.
pub fn of_bytes(bytes: &[u8]) -> Figures
    requires { length bytes.now ≤ 32801 }
    ensures { FiguresOf (words_of bytes.now) (length bytes.now) result }
{
    let mut words = [0u32; 8200];
    let n = intake::words(bytes, &mut words);
    of_words(&words[..n], bytes.len())
}
