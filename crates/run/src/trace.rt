// The run move by move, for the program: the figures of each line that it prints.
ghost use Rattle.std.specs.Prelude.{◌+◌, ◌*◌, ◌≤◌, ◌≡◌, ◌∷◌, [], length};
ghost use Rattle.std.proofs.lemmas.List.Edits.{sets};
ghost use Rattle.semantics.specs.Table.{table_of};
ghost use Rattle.state.specs.Working.{held};
ghost use Rattle.run.specs.Lines.{answer_in, lines_in, Traceable, TracedAs};

use crate::make_at;
use answers::number_of;
use move_log::count_of;
use semantics::Verdict;
use state::{Extent, State};

fn answer_in(verdict: Verdict) -> u32
    ensures { result ≡ answer_in verdict }
{
    match verdict {
        Verdict::Allowed => 0,
        Verdict::Denied(refusal) => number_of(refusal),
    }
}

// Line i is the four words from 4 i on: place, answer, entries, next.
fn put_line(lines: &mut [u32], i: usize, answer: u32, left: Extent)
    requires { (4 * i + 4 ≤ length lines.old) × (i ≤ 1024) × (left.len ≤ 1024) }
    ensures { lines.new ≡ sets lines.old (4 * i) (i ∷ answer ∷ left.len ∷ left.next ∷ []) }
{
    let at = 4 * i;
    lines[at] = i as u32;
    lines[at + 1] = answer;
    lines[at + 2] = left.len as u32;
    lines[at + 3] = left.next;
}

// One line for each move, a refused one last; answers how many lines.
pub fn trace<'a>(
    table: &'a [u32],
    starts: &'a [u32; 65],
    owners: &mut [u16; 1024],
    items: &mut [u32; 1024],
    origins: &mut [u16; 1024],
    start: Extent,
    log: &'a [u32],
    lines: &mut [u32],
) -> usize
    requires { Traceable table.now starts.now log.now (held owners.old items.old origins.old start) lines.old }
    ensures { TracedAs (lines_in (table_of table.now) log.now
        (held owners.old items.old origins.old start))
        lines.old lines.new result }
{
    let moves = count_of(log);
    let mut left = start;
    let mut i = 0;
    while i < moves {
        let made = make_at(
            table,
            starts,
            owners,
            items,
            origins,
            left,
            log,
            i,
            State::MAX_ENTRIES,
        );
        let verdict = made.verdict;
        left = made.left;
        put_line(lines, i, answer_in(verdict), left);
        i += 1;
        if let Verdict::Denied(_) = verdict {
            return i;
        }
    }
    i
}
