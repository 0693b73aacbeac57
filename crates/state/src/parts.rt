// The parts of a state's words: n, N, n owners, n items.
ghost use Rattle.std.specs.Prelude.{◌≡◌, true};
ghost use Rattle.semantics.specs.State.{state_sizes_ok, entry_count, owners_of, items_of};
ghost use Rattle.wellformed.specs.States.{StateSized};
ghost use Rattle.state.specs.Parts.{Column};

use super::State;

// n, N and the length.
pub fn sizes_ok(state: &[u32]) -> bool
    ensures { result ≡ state_sizes_ok state.now }
{
    if state.len() < 2 {
        return false;
    }
    let n = state[0] as usize;
    let next = state[1];
    (n <= State::MAX_ENTRIES)
        & ((1 <= next) & (next <= State::MAX_NEXT))
        & (state.len() == 2 + 2 * n)
}

// n, and what sizes in order say of it.
pub fn entry_count(state: &[u32]) -> usize
    requires { state_sizes_ok state.now ≡ true }
    ensures { (result ≡ entry_count state.now) × StateSized state.now }
{
    state[0] as usize
}

pub fn owners_of(state: &[u32]) -> &[u32]
    requires { state_sizes_ok state.now ≡ true }
    ensures { Column result.now (owners_of state.now) state.now }
{
    let n = entry_count(state);
    &state[2..2 + n]
}

pub fn items_of(state: &[u32]) -> &[u32]
    requires { state_sizes_ok state.now ≡ true }
    ensures { Column result.now (items_of state.now) state.now }
{
    let n = entry_count(state);
    &state[2 + n..]
}
