// The program's lines on standard output. Every line ends in a newline.
ghost use Rattle.std.specs.Prelude.{◌*◌, ◌≤◌, length};

use std::io;

pub fn print_refused(rt: &impl Print, number: u32) -> io::Result<()> {
    println!(rt; "refused {number}")
}

pub fn print_first(rt: &impl Print, moves: u32, entries: u32, next: u32) -> io::Result<()> {
    println!(rt; "moves {moves} entries {entries} next {next}")
}

fn print_line(rt: &impl Print, place: u32, answer: u32, entries: u32, next: u32) -> io::Result<()> {
    println!(rt; "{place} {answer} {entries} {next}")
}

// The first so many lines, of four words each.
pub fn print_lines(rt: &impl Print, lines: &[u32], count: usize) -> io::Result<()>
    requires { 4 * count ≤ length lines.now }
{
    let mut i = 0;
    while i < count {
        let at = 4 * i;
        print_line(rt, lines[at], lines[at + 1], lines[at + 2], lines[at + 3])?;
        i += 1;
    }
    Ok(())
}
