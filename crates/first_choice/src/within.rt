// The first choice that begins with a place: the others are of its owner.
ghost use Rattle.std.specs.Prelude.{◌≡◌, true, List, ℕ, ◌≤◌, ◌<◌, length, get_or, take, drop};
ghost use Rattle.lists.specs.Choosing.{choices_in};
ghost use Rattle.state.specs.Lent.{Columns};
ghost use Rattle.seek.specs.Seek.{fits_at};
ghost use Rattle.first_choice.specs.Choice.{first_choice, GroupKeys};

use crate::Choice;
use crate::greedy::choose;
use idset::WORDS;

pub fn choose_within<'a>(
    owners: &'a [u16; 1024],
    items: &'a [u32; 1024],
    n: usize,
    stopped: &'a [u64; WORDS],
    takes: &'a [u32; 4],
    k: usize,
    p: usize,
) -> Choice
    requires { Columns owners.now items.now n × (1 ≤ k) × (k ≤ 4) × (p < n) × (length takes.now ≡ 4)
        × (fits_at owners.now items.now 0 65535 stopped.now (get_or takes.now 0 0) p ≡ true) }
    ensures { (ks : List ℕ) → GroupKeys owners.now items.now stopped.now takes.now n k ks
        → result ≡ first_choice (choices_in ks (get_or takes.now 0 0) (drop 1 (take k takes.now)) p) }
{
    let owner = owners[p];
    choose(
        owners, items, n, stopped, owner, owner, takes, k, p as u32, 1,
    )
}

// A choice that was found, handed on field by field: copied as a whole it is waited for.
pub fn passed_on(choice: Choice) -> Choice
    requires { choice.found ≡ true }
    ensures { result ≡ choice }
{
    let picks = choice.picks;
    Choice { found: true, picks }
}
