// Words copied over the beginning of what they are lent, as they are and between 32 and 16 bits.
ghost use Rattle.std.specs.Prelude.{ℕ, ◌+◌, ◌≤◌, ◌<◌, ◌≡◌, length, get_or, slice_index, take, EachIndex};
ghost use Rattle.lists.specs.Lists.{over};
ghost use Rattle.lists.specs.Over.{Pasted};

// The first n over the target's beginning.
pub fn copy_words(from: &[u32], n: usize, target: &mut [u32])
    requires { (n ≤ length from.now) × (n ≤ length target.old) }
    ensures { target.new ≡ over (take n from.now) target.old }
{
    target[..n].copy_from_slice(&from[..n]);
}

// The same from place at on.
pub fn copy_words_at(from: &[u32], n: usize, target: &mut [u32], at: usize)
    requires { (n ≤ length from.now) × (at + n ≤ length target.old) }
    ensures { Pasted target.old at from.now n target.new }
{
    target[at..at + n].copy_from_slice(&from[..n]);
}

// Words below 65,536 over the beginning of a column.
fn narrow(from: &[u32], column: &mut [u16])
    requires room { length from.now ≤ length column.old }
    requires narrow { EachIndex from.now (λ k. slice_index from.now k < 65536) }
    ensures { column.new ≡ over from.now column.old }
{
    for (i, word) in from.iter().enumerate() {
        column[i] = *word as u16;
    }
}

// The first n.
pub fn narrow_words(from: &[u32], n: usize, column: &mut [u16])
    requires room { (n ≤ length from.now) × (n ≤ length column.old) }
    requires narrow { (k : ℕ) → k < n → get_or from.now k 0 < 65536 }
    ensures { column.new ≡ over (take n from.now) column.old }
{
    narrow(&from[..n], column);
}

// A column over the target's beginning.
fn widen(from: &[u16], target: &mut [u32])
    requires { length from.now ≤ length target.old }
    ensures { target.new ≡ over from.now target.old }
{
    for (i, word) in from.iter().enumerate() {
        target[i] = u32::from(*word);
    }
}

// The first n of a column.
pub fn widen_column(from: &[u16], n: usize, target: &mut [u32])
    requires { (n ≤ length from.now) × (n ≤ length target.old) }
    ensures { target.new ≡ over (take n from.now) target.old }
{
    widen(&from[..n], target);
}

// The same from place at on.
pub fn widen_column_at(from: &[u16], n: usize, target: &mut [u32], at: usize)
    requires { (n ≤ length from.now) × (at + n ≤ length target.old) }
    ensures { Pasted target.old at from.now n target.new }
{
    widen(&from[..n], &mut target[at..]);
}
