// What is kept, after a reaction.
ghost use Rattle.std.specs.Prelude.{ℕ, ◌<◌, false, List, ◌⊎◌, ◌≡◌, eqb};
ghost use Rattle.semantics.specs.Table.{sizes_of, table_of, rule_at};
ghost use Rattle.semantics.specs.State.{State};
ghost use Rattle.state.specs.Working.{held};
ghost use Rattle.step.specs.Make.{Indexed};
ghost use Rattle.tracking.specs.Tracked.{TrackedIn};
ghost use Rattle.tracking.specs.Reacted.{ReactedTo, AfterMove};

use idset::WORDS;
use legal::rule::rule_class;
use offers::recount;
use state::Extent;
use stopped::stop_last;
use supply::count_reaction;
use table::parts::{atom_words_of, rule_words, sizes_of};
use words::head;

fn is_global<'a>(table: &'a [u32], starts: &'a [u32; 65], r: u32) -> bool
    requires { Indexed table.now starts.now × (r < (sizes_of table.now).rules) }
    ensures { result ≡ eqb (rule_at (table_of table.now) r).class 0 }
{
    let z = sizes_of(table);
    let ws = rule_words(atom_words_of(table), starts, r as usize);
    rule_class(ws, z) == 0
}

// Whether the totals have to be counted again: where an abort mark may have been made in a transaction that was there, whose
// messages are then out of reach. A global rule makes it in a new one.
fn strands<'a>(marked: bool, table: &'a [u32], starts: &'a [u32; 65], r: u32) -> bool
    requires { Indexed table.now starts.now × (r < (sizes_of table.now).rules) }
    ensures { result ≡ false → ((rule_at (table_of table.now) r).class ≡ 0) ⊎ (marked ≡ false) }
{
    if marked {
        return !is_global(table, starts, r);
    }
    false
}

// The last entry tells whether a mark was made.
fn follow_reaction<'a>(
    table: &'a [u32],
    starts: &'a [u32; 65],
    r: u32,
    owners: &'a [u16; 1024],
    items: &'a [u32; 1024],
    left: Extent,
    stopped: &mut [u64; WORDS],
    totals: &mut [u16; 512],
)
    requires { (s : State) × (ps : List ℕ) × (i : ℕ) × (gs : List ℕ)
        × ReactedTo table.now starts.now r s ps i (held owners.now items.now gs left) stopped.old totals.old }
    ensures { TrackedIn (sizes_of table.now) owners.now items.now left stopped.new totals.new }
{
    let marked = stop_last(owners, items, left.len, stopped);
    if strands(marked, table, starts, r) {
        let z = sizes_of(table);
        recount(z, owners, items, left, stopped, totals);
        return;
    }
    count_reaction(table, starts, r, totals);
}

// An end has been followed before it was made (`before_move`).
pub fn after_move<'a>(
    table: &'a [u32],
    starts: &'a [u32; 65],
    head: u32,
    owners: &'a [u16; 1024],
    items: &'a [u32; 1024],
    left: Extent,
    stopped: &mut [u64; WORDS],
    totals: &mut [u16; 512],
)
    requires { AfterMove table.now starts.now head owners.now items.now left stopped.old totals.old }
    ensures { TrackedIn (sizes_of table.now) owners.now items.now left stopped.new totals.new }
{
    if head::kind_of(head) == head::REACT {
        let rule = head::number_of(head);
        follow_reaction(table, starts, rule, owners, items, left, stopped, totals);
    }
}
