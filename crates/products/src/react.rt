// What an allowed reaction leaves: the entries without the picks, then the products.
ghost use Rattle.std.specs.Prelude.{take};
ghost use Rattle.semantics.specs.Move.{reacted};
ghost use Rattle.state.specs.Working.{held, state_in};
ghost use Rattle.state.specs.Arrays.{HoldsIn};
ghost use Rattle.reaction.specs.Decoded.{rule_in};
ghost use Rattle.products.specs.React.{Permitted};

use crate::append::append_products;
use crate::merge::merge;
use reaction::picks::{items_at, owners_at, smallest};
use removal::remove::remove;
use rules::decode::Rule;
use state::Extent;

// The whole reaction, in place. Answers the new extent.
pub fn react(
    owners: &mut [u16; 1024],
    items: &mut [u32; 1024],
    origins: &mut [u16; 1024],
    at: Extent,
    rule: Rule,
    picks: [u32; 4],
    maker: u32,
) -> Extent
    requires { Permitted rule picks maker (held owners.old items.old origins.old at) }
    ensures { HoldsIn (held owners.new items.new origins.new result)
        (reacted (rule_in rule) maker (state_in (held owners.old items.old origins.old at)) (take rule.consumes picks)) }
{
    let k = rule.consumes;
    let found = owners_at(owners, picks, k);
    let received = items_at(items, picks, k);
    let home = smallest(found, k);
    remove(owners, items, origins, at.len, picks, k);
    let n = at.len - k;
    merge(owners, n, found, k, home);
    let left = Extent {
        len: n,
        next: at.next,
        unmarked: 0,
    };
    append_products(owners, items, origins, left, rule, received, home, maker)
}
