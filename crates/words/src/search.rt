// A number looked for in a column of owners or origins, in chunks of 32 places: whether a chunk has it is told without an
// early exit, so that several words are compared at once.
ghost use Rattle.std.specs.Prelude.{ℕ, ◌+◌, ◌≤◌, ◌<◌, true, ◌≡◌, length, get_or};
ghost use Rattle.words.specs.Search.{in_chunk, ChunkEnd};

// A column has 1,024 places, so a chunk never leaves it.
pub fn chunk_has(column: &[u16; 1024], from: usize, x: u16) -> bool
    requires { (from + 32 ≤ 1024) × (length column.now ≡ 1024) }
    ensures { result ≡ in_chunk column.now from x }
{
    let mut found = false;
    let mut j = 0;
    while j < 32 {
        found = found | (column[from + j] == x);
        j += 1;
    }
    found
}

// Where the first chunk begins that has the word, n if none before n has it.
pub fn chunk_of(column: &[u16; 1024], n: usize, x: u16) -> usize
    requires { (n ≤ 1024) × (length column.now ≡ 1024) }
    ensures { (result ≤ n) × ((j : ℕ) → j < result → get_or column.now j 0 ≡ x → ⊥)
        × (result < n → in_chunk column.now result x ≡ true) }
{
    let mut at = 0;
    while at < n {
        if chunk_has(column, at, x) {
            return at;
        }
        at += 32;
    }
    n
}

// Where the chunk from a place on ends, of n places.
pub fn chunk_end(from: usize, n: usize) -> usize
    requires { (from < n) × (n ≤ 1024) }
    ensures { ChunkEnd from n result }
{
    if n < from + 32 { n } else { from + 32 }
}
