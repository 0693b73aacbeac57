// The program's input: bytes to words, and the words' three parts.
#![tactic(auto)]

ghost use Rattle.std.specs.Prelude.{◌≤◌, min, ◌≡◌};

mod gather;
mod parts;

pub use gather::words;
pub use parts::{Parts, split};

fn least(a: usize, b: usize) -> usize
    ensures { (result ≡ min a b) × (result ≤ a) × (result ≤ b) }
{
    if a < b { a } else { b }
}
