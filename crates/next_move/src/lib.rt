// The first move of the list of open moves, found without the list: the first reaction in the order of rules and picks, or else the
// first end.
#![tactic(auto)]

mod reactions;
mod rule;

ghost use Rattle.std.specs.Prelude.{ℕ, ◌≤◌, ◌≡◌, List, length};
ghost use Rattle.semantics.specs.Table.{sizes_of, table_of};
ghost use Rattle.semantics.specs.Enabled.{enabled};
ghost use Rattle.wellformed.specs.Entries.{StateRight};
ghost use Rattle.state.specs.Lent.{state_from};
ghost use Rattle.first_end.specs.First.{first_move};
ghost use Rattle.first_end.specs.OpenEnds.{OwnersGiven};
ghost use Rattle.next_move.specs.Reactions.{SearchOf};

use crate::reactions::{first_reaction, handed_on};
use first_end::{First, first_end};
use idset::WORDS;
use state::Extent;
use table::parts::sizes_of;

// `keys` is lent, so that it is not cleared at every move.
pub fn next_move<'a>(
    table: &'a [u32],
    starts: &'a [u32; 65],
    wants: &'a [u64; 64],
    owners: &'a [u16; 1024],
    items: &'a [u32; 1024],
    at: Extent,
    stopped: &'a [u64; WORDS],
    totals: &'a [u16; 512],
    ceiling: usize,
    keys: &mut [u32; 1024],
) -> First
    requires { SearchOf table.now starts.now wants.now owners.now items.now stopped.now totals.now at ceiling
        × (length keys.old ≡ 1024) × (at.next ≤ 65536) × OwnersGiven owners.now at × (at.len ≤ ceiling) }
    ensures by_index { (gs : List ℕ) → StateRight (sizes_of table.now) (state_from owners.now items.now gs at)
        → result ≡ first_move (enabled ceiling (table_of table.now) (state_from owners.now items.now gs at)) }
    ensures keys_len { length keys.new ≡ 1024 }
{
    let z = sizes_of(table);
    let reaction = first_reaction(
        table, starts, wants, owners, items, at, stopped, totals, ceiling, keys,
    );
    if reaction.found {
        return handed_on(reaction);
    }
    first_end(owners, items, at, z.globals, stopped)
}
