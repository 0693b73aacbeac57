// The program: a table, a state and a log from standard input, and a line for each move of the log.
#![tactic(auto)]

mod figures;
mod print;
mod read;

ghost use Rattle.std.specs.Prelude.{◌≤◌, length};

use answers::number_of;
use figures::of_bytes;
use print::{print_first, print_lines, print_refused};
use read::read_full;
use semantics::Verdict;
use std::io;

fn report(rt: &impl Print, bytes: &[u8]) -> io::Result<()>
    requires { length bytes.now ≤ 32801 }
{
    let shown = of_bytes(bytes);
    let verdict = shown.verdict;
    if let Verdict::Denied(refusal) = verdict {
        return print_refused(rt, number_of(refusal));
    }
    let count = shown.count;
    print_first(rt, shown.moves, shown.entries, shown.next)?;
    print_lines(rt, &shown.lines, count)
}

// Reads one byte more than the 32,800 of the longest input, so that bytes left over show. A write
// that fails is the program's error; a refusal is none, and has its line.
pub fn run(rt: &(impl Input + Print)) -> io::Result<()> {
    let mut bytes = [0u8; 32801];
    let got = read_full(&mut rt.reader(), &mut bytes);
    report(rt, &bytes[..got])
}
