// The whole list.
ghost use Rattle.std.specs.Prelude.{◌≡◌, ◌++◌, ◌*◌, ◌≤◌, length, take};
ghost use Rattle.semantics.specs.Table.{sizes_of, numbers_of};
ghost use Rattle.semantics.specs.Answers.{table_verdict, enabled_in};
ghost use Rattle.semantics.specs.Enabled.{move_words};
ghost use Rattle.semantics.specs.declared.Verdict.TheVariants.{Allowed};
ghost use Rattle.table.specs.Index.{Starts};
ghost use Rattle.choices.specs.Parts.{PartAs};
ghost use Rattle.groups.specs.Groups.{KeysBelow};
ghost use Rattle.ready.specs.Ready.{Ready};
ghost use Rattle.rule_moves.specs.Takes.{reactions_by};
ghost use Rattle.listing.specs.Listing.{ends_by};

use crate::reactions::reactions;
use crate::tail::tail;
use choices::{Part, less};
use eligible::{count_ports, keys_of};
use idset::WORDS;
use state::{Extent, State};
use table::parts::sizes_of;
use transactions::ids::ids_of;
use transactions::sets::survey;

// By keys, and by the ids of the transactions that are open.
fn listed<'a>(
    table: &'a [u32],
    starts: &'a [u32; 65],
    keys: &'a [u32; 1024],
    at: Extent,
    ids: &'a [u16; 1024],
    m: usize,
    blocked: &'a [u64; WORDS],
    aborting: &'a [u64; WORDS],
    ceiling: usize,
    first: u64,
    count: usize,
    target: &mut [u32],
) -> Part
    requires table_value { (table_verdict table.now ≡ Allowed) × Starts (numbers_of table.now) (sizes_of table.now).rules starts.now
        × KeysBelow at.len keys.now × (ceiling ≤ 1024) × (m ≤ 1024) × (length ids.now ≡ 1024) }
    requires count_bound { (count ≤ 256) × (5 * count ≤ length target.old) }
    ensures { PartAs move_words
        (reactions_by ceiling table.now at.len at.next (take at.len keys.now)
        ++ ends_by ids.now m blocked.now aborting.now)
        first count 0 target.old target.new result }
{
    let mut counts = [0u16; 512];
    count_ports(keys, at.len, &mut counts);
    let heads = reactions(
        table, starts, keys, &counts, at, ceiling, first, count, target,
    );
    let rest = less(first, heads.length);
    let left = count - heads.written;
    let behind = 5 * heads.written;
    let ends = tail(ids, m, blocked, aborting, rest, left, target, behind);
    Part {
        length: heads.length + ends.length,
        written: heads.written + ends.written,
    }
}

// The open moves of a state: how many there are, and those from the place `first` on, at most `count`, as five words each.
pub fn open_moves<'a>(
    table: &'a [u32],
    starts: &'a [u32; 65],
    state: &'a [u32],
    first: u64,
    count: usize,
    target: &mut [u32],
) -> Part
    requires ready { Ready table.now state.now starts.now }
    requires count_bound { (count ≤ 256) × (5 * count ≤ length target.old) }
    ensures { PartAs move_words (enabled_in 1024 table.now state.now)
        first count 0 target.old target.new result }
{
    let s = State::empty();
    let mut owners = s.owners;
    let mut items = s.items;
    let mut origins = s.origins;
    let at = state::load(state, &mut owners, &mut items, &mut origins);
    let z = sizes_of(table);
    let mut present = [0u64; WORDS];
    let mut blocked = [0u64; WORDS];
    let mut aborting = [0u64; WORDS];
    survey(
        &owners,
        &items,
        at.len,
        z.globals,
        &mut present,
        &mut blocked,
        &mut aborting,
    );
    let mut ids = [0u16; 1024];
    let m = ids_of(&present, at.next, &mut ids);
    let mut keys = [0u32; 1024];
    keys_of(z, &owners, &items, at.len, &ids, m, &aborting, &mut keys);
    listed(
        table,
        starts,
        &keys,
        at,
        &ids,
        m,
        &blocked,
        &aborting,
        State::MAX_ENTRIES,
        first,
        count,
        target,
    )
}
