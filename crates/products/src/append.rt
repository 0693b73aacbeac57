// The products of a reaction, made and appended.
ghost use Rattle.std.specs.Prelude.{◌+◌, ◌≤◌, ◌<◌, ◌≡◌, true, map, length};
ghost use Rattle.semantics.specs.Words.{value_of};
ghost use Rattle.semantics.specs.Move.{kind_made};
ghost use Rattle.state.specs.Working.{held};
ghost use Rattle.state.specs.Arrays.{Arrays, HoldsIn};
ghost use Rattle.reaction.specs.Decoded.{making_count};
ghost use Rattle.products.specs.Narrow.{narrow_value, Narrow, Applicable};
ghost use Rattle.products.specs.Products.{owner_of_role, next_after, value_made, ItemMade, appended};

use rules::decode::Rule;
use semantics::{Atom, AtomValue};
use state::Extent;
use words::item::{item_of, value_of};
use words::origin::origin_of;

fn kind_made(role: u16) -> u32
    ensures { (result ≡ kind_made role) × (result < 4) }
{
    if role == 2 {
        return 3;
    }
    if role == 4 {
        return 1;
    }
    if role == 5 {
        return 2;
    }
    0
}

// The value of an atom's product: a begin's is the new id. The items are lent, so that they are not copied for each.
fn value_made(atom: Atom, items: &[u32; 4], next: u32) -> u32
    requires { narrow_value atom.value × (atom.role ≡ 2 → next < 65536) × (length items.now ≡ 4) }
    ensures { (result ≡ value_made (map value_of items.now) next atom) × (result < 65536) }
{
    if atom.role == 2 {
        return next;
    }
    let value = atom.value;
    match value {
        AtomValue::Constant(v) => v as u32,
        AtomValue::Received(i) => {
            if i < 4 {
                value_of(items[i as usize])
            } else {
                0
            }
        }
    }
}

fn item_made(atom: Atom, items: &[u32; 4], next: u32) -> u32
    requires { Narrow atom × (atom.role ≡ 2 → next < 65536) × (length items.now ≡ 4) }
    ensures { ItemMade result (map value_of items.now) next atom }
{
    item_of(
        kind_made(atom.role),
        atom.port as u32,
        value_made(atom, items, next),
    )
}

fn owner_made(class: u32, role: u16, home: u16, next: u32) -> u16
    requires { class ≡ 0 → (role ≡ 1 → ⊥) → next < 65536 }
    ensures { result ≡ owner_of_role class next home role }
{
    if (class == 0) & (role != 1) {
        next as u16
    } else {
        home
    }
}

fn next_after(begins: bool, next: u32) -> u32
    requires { next ≤ 65536 }
    ensures { result ≡ next_after begins next }
{
    if begins { next + 1 } else { next }
}

// A product for each atom that makes one, one after another; home owns the emits of a global rule and all of another rule.
// Answers the new extent.
pub fn append_products(
    owners: &mut [u16; 1024],
    items: &mut [u32; 1024],
    origins: &mut [u16; 1024],
    at: Extent,
    rule: Rule,
    received: [u32; 4],
    home: u16,
    maker: u32,
) -> Extent
    requires columns { Arrays owners.old items.old origins.old }
    requires room { at.len + making_count rule ≤ 1024 }
    requires rule { Applicable rule at.next maker × (rule.begins ≡ true → at.next < 65536) }
    ensures { HoldsIn (held owners.new items.new origins.new result)
        (appended rule home received maker (held owners.old items.old origins.old at)) }
{
    let n = at.len;
    let next = at.next;
    let class = rule.class;
    let from = rule.consumes;
    let made = rule.count - from;
    let mut q = 0;
    while q < made {
        let atom = rule.atoms[from + q];
        let w = n + q;
        owners[w] = owner_made(class, atom.role, home, next);
        items[w] = item_made(atom, &received, next);
        origins[w] = origin_of(maker, q as u32);
        q += 1;
    }
    Extent {
        len: n + made,
        next: next_after(rule.begins, next),
        unmarked: 0,
    }
}
