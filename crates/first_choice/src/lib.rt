// The first choice of places for the ports of a rule, found without the list of all choices.
#![tactic(auto)]

ghost use Rattle.std.specs.Prelude.{◌≡◌, cond, [], ◌≤◌, eqb, length, take};
ghost use Rattle.lists.specs.Choosing.{choices_from};
ghost use Rattle.semantics.specs.declared.Sizes.{Sizes};
ghost use Rattle.state.specs.Lent.{Columns};
ghost use Rattle.offers.specs.Offers.{column_keys};
ghost use Rattle.first_choice.specs.Choice.{first_choice, NarrowOwners, AllOfClass};

use crate::greedy::choose;
use idset::WORDS;

mod greedy;
mod grouped;
mod tries;
mod within;

// A choice of places: whether there is one, and its places in order, 0 behind them.
#[derive(Clone, Copy)]
pub struct Choice {
    pub found: bool,
    pub picks: [u32; 4],
}

// The last owner of whom a rule of this class may take: of ports of class 0 nobody owns what is taken.
fn last_owner(class: u32) -> u16
    ensures { result ≡ cond (eqb class 0) 0 65535 }
{
    if class == 0 { 0 } else { 65535 }
}

// The first choice for the first k ports, of any owners.
pub fn first_plain<'a>(
    owners: &'a [u16; 1024],
    items: &'a [u32; 1024],
    n: usize,
    stopped: &'a [u64; WORDS],
    takes: &'a [u32; 4],
    k: usize,
    class: u32,
) -> Choice
    requires { Columns owners.now items.now n × NarrowOwners owners.now n × (k ≤ 4) × (length takes.now ≡ 4) }
    ensures { (z : Sizes) → AllOfClass z class takes.now k → (class ≡ 1 → ⊥)
        → result ≡ first_choice (choices_from (column_keys z stopped.now owners.now items.now n) []
        (take k takes.now)) }
{
    choose(
        owners,
        items,
        n,
        stopped,
        0,
        last_owner(class),
        takes,
        k,
        0,
        0,
    )
}

pub use tries::first_grouped;
