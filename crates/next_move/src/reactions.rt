// The first reaction by a rule, and the first of all rules.
ghost use Rattle.std.specs.Prelude.{ℕ, ◌≤◌, ◌<◌, ◌≡◌, true, List, [], map, length};
ghost use Rattle.lists.specs.Each.{All};
ghost use Rattle.semantics.specs.Table.{sizes_of, rule_of, table_of, rule_at, consumed};
ghost use Rattle.semantics.specs.Move.{react};
ghost use Rattle.wellformed.specs.Tables.{RuleFits};
ghost use Rattle.enabled.specs.Reactions.{OfClass, choices_of};
ghost use Rattle.rule_moves.specs.Takes.{moves_by, reactions_by};
ghost use Rattle.offers.specs.Offers.{column_keys};
ghost use Rattle.first_choice.specs.Choice.{first_choice};
ghost use Rattle.first_end.specs.First.{first_move};
ghost use Rattle.next_move.specs.Reactions.{InColumns, ConsumesFirst, SearchOf};

use crate::rule::{has_room, ports_of};
use first_choice::{Choice, first_grouped, first_plain};
use first_end::First;
use idset::WORDS;
use legal::rule::{consumes_of, rule_class};
use semantics::Sizes;
use state::Extent;
use table::parts::{atom_words_of, rule_words, sizes_of};
use wants::lacks;
use words::head::MoveWords;

fn none() -> First
    ensures { result ≡ first_move [] }
{
    First {
        found: false,
        mv: MoveWords {
            head: 0,
            picks: [0, 0, 0, 0],
        },
    }
}

// A move that was found, handed on field by field: copied as a whole it is waited for.
pub fn handed_on(first: First) -> First
    requires { first.found ≡ true }
    ensures { result ≡ first }
{
    let mv = first.mv;
    let picks = mv.picks;
    First {
        found: true,
        mv: MoveWords {
            head: mv.head,
            picks,
        },
    }
}

// A choice as a reaction by rule r.
fn reaction_by(r: u32, choice: Choice) -> First
    requires { r < 64 }
    ensures { (cs : List (List ℕ)) → choice ≡ first_choice cs → result ≡ first_move (map (react r) cs) }
{
    if !choice.found {
        return none();
    }
    let picks = choice.picks;
    First {
        found: true,
        mv: MoveWords { head: r, picks },
    }
}

// The first choice of a rule that has ids and room, as one of its class. Its first k words are its consumes.
fn choice_by<'a>(
    z: Sizes,
    ws: &'a [u32],
    k: usize,
    owners: &'a [u16; 1024],
    items: &'a [u32; 1024],
    at: Extent,
    stopped: &'a [u64; WORDS],
    keys: &mut [u32; 1024],
) -> Choice
    requires { ConsumesFirst z ws.now k × All (OfClass z (rule_of z ws.now).class) (consumed (rule_of z ws.now))
        × InColumns z owners.now items.now stopped.now at × (length keys.old ≡ 1024) }
    ensures value { result ≡ first_choice (choices_of (rule_of z ws.now)
        (column_keys z stopped.now owners.now items.now at.len)) }
    ensures keys_len { length keys.new ≡ 1024 }
{
    let class = rule_class(ws, z);
    let takes = ports_of(ws, k);
    if class == 1 {
        return first_grouped(z, owners, items, at, stopped, &takes, k, keys);
    }
    first_plain(owners, items, at.len, stopped, &takes, k, class)
}

// The first reaction by rule r, of its words: all of it is decoded only where it is made.
fn first_by<'a>(
    z: Sizes,
    ws: &'a [u32],
    r: u32,
    owners: &'a [u16; 1024],
    items: &'a [u32; 1024],
    at: Extent,
    stopped: &'a [u64; WORDS],
    ceiling: usize,
    keys: &mut [u32; 1024],
) -> First
    requires { RuleFits z ws.now × All (OfClass z (rule_of z ws.now).class) (consumed (rule_of z ws.now))
        × InColumns z owners.now items.now stopped.now at × (length keys.old ≡ 1024) × (r < 64) × (ceiling ≤ 1024) }
    ensures value { result ≡ first_move (moves_by ceiling (rule_of z ws.now) r at.len at.next
        (column_keys z stopped.now owners.now items.now at.len)) }
    ensures keys_len { length keys.new ≡ 1024 }
{
    let k = consumes_of(ws);
    if !has_room(ws, k, at, ceiling) {
        return none();
    }
    reaction_by(r, choice_by(z, ws, k, owners, items, at, stopped, keys))
}

// The same of the rule's number: a rule that lacks messages is passed over before its words are read.
fn first_of<'a>(
    table: &'a [u32],
    starts: &'a [u32; 65],
    wants: &'a [u64; 64],
    owners: &'a [u16; 1024],
    items: &'a [u32; 1024],
    at: Extent,
    stopped: &'a [u64; WORDS],
    totals: &'a [u16; 512],
    ceiling: usize,
    r: u32,
    keys: &mut [u32; 1024],
) -> First
    requires { SearchOf table.now starts.now wants.now owners.now items.now stopped.now totals.now at ceiling
        × (r < (sizes_of table.now).rules) × (length keys.old ≡ 1024) }
    ensures value { result ≡ first_move (moves_by ceiling (rule_at (table_of table.now) r) r at.len at.next
        (column_keys (sizes_of table.now) stopped.now owners.now items.now at.len)) }
    ensures keys_len { length keys.new ≡ 1024 }
{
    if lacks(wants, totals, r as usize) {
        return none();
    }
    let z = sizes_of(table);
    let ws = rule_words(atom_words_of(table), starts, r as usize);
    first_by(z, ws, r, owners, items, at, stopped, ceiling, keys)
}

// The first reaction of all.
pub fn first_reaction<'a>(
    table: &'a [u32],
    starts: &'a [u32; 65],
    wants: &'a [u64; 64],
    owners: &'a [u16; 1024],
    items: &'a [u32; 1024],
    at: Extent,
    stopped: &'a [u64; WORDS],
    totals: &'a [u16; 512],
    ceiling: usize,
    keys: &mut [u32; 1024],
) -> First
    requires { SearchOf table.now starts.now wants.now owners.now items.now stopped.now totals.now at ceiling × (length keys.old ≡ 1024) }
    ensures value { result ≡ first_move (reactions_by ceiling table.now at.len at.next
        (column_keys (sizes_of table.now) stopped.now owners.now items.now at.len)) }
    ensures keys_len { length keys.new ≡ 1024 }
{
    let rules = sizes_of(table).rules;
    let mut r = 0;
    while r < rules {
        let first = first_of(
            table, starts, wants, owners, items, at, stopped, totals, ceiling, r, keys,
        );
        if first.found {
            return handed_on(first);
        }
        r += 1;
    }
    none()
}
