// Words from bytes. No other function gathers bytes into words.
ghost use Rattle.intake.specs.Gather.{Gathered};

use crate::least;

// Gathers the whole words of the bytes into the target, as many as it holds, and answers how many.
// A step takes a word's four bytes, the lowest first; the compiler makes one memcpy of the loop.
pub fn words(bytes: &[u8], target: &mut [u32]) -> usize
    ensures { Gathered bytes.now target.old target.new result }
{
    let n = least(target.len(), bytes.len() / 4);
    let mut i = 0;
    while i < n {
        let at = 4 * i;
        let a = bytes[at] as u32;
        let b = bytes[at + 1] as u32;
        let c = bytes[at + 2] as u32;
        let d = bytes[at + 3] as u32;
        target[i] = a + b * 256 + c * 65536 + d * 16777216;
        i += 1;
    }
    n
}
