// A log: its form, and the words of each of its moves.
#![tactic(auto)]

ghost use Rattle.std.specs.Prelude.{◌+◌, ◌*◌, ◌<◌, ◌≡◌, get_or, take, drop};
ghost use Rattle.semantics.specs.Log.{move_count, move_at, log_sizes_ok};
ghost use Rattle.words.specs.Head.{words_in};
ghost use Rattle.move_log.specs.Form.{Place};

use words::head::MoveWords;

// The most moves of a log.
pub const MAX_MOVES: usize = 1024;

// How many moves a log says it has; 0 of no words.
pub fn count_of(log: &[u32]) -> usize
    ensures { (result ≡ move_count log.now) × (result < 4294967296) }
{
    log.first().map_or(0, |count| *count as usize)
}

// The count and the length.
#[tactic(auto, unfolding(semantics::specs::Log::log_sizes_ok))]
pub fn sizes_ok(log: &[u32]) -> bool
    ensures { result ≡ log_sizes_ok log.now }
{
    let moves = count_of(log);
    (1 <= log.len()) & ((moves <= MAX_MOVES) & (log.len() == 1 + 5 * moves))
}

// The head of the move at place i.
pub fn head_at(log: &[u32], i: usize) -> u32
    requires { Place log.now i }
    ensures { result ≡ get_or log.now (1 + i) 0 }
{
    log[1 + i]
}

// Its four picks.
pub fn picks_at(log: &[u32], i: usize) -> [u32; 4]
    requires { Place log.now i }
    ensures { result ≡ take 4 (drop (1 + move_count log.now + 4 * i) log.now) }
{
    let at = 1 + count_of(log) + 4 * i;
    [log[at], log[at + 1], log[at + 2], log[at + 3]]
}

// All five words of it.
pub fn move_at(log: &[u32], i: usize) -> MoveWords
    requires { Place log.now i }
    ensures { words_in result ≡ move_at log.now i }
{
    MoveWords {
        head: head_at(log, i),
        picks: picks_at(log, i),
    }
}
