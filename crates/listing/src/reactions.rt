// The reactions of all rules, one rule after another.
ghost use Rattle.std.specs.Prelude.{◌≡◌, ◌*◌, ◌≤◌, length, take};
ghost use Rattle.semantics.specs.Table.{sizes_of, numbers_of};
ghost use Rattle.semantics.specs.Answers.{table_verdict};
ghost use Rattle.semantics.specs.Enabled.{move_words};
ghost use Rattle.semantics.specs.declared.Verdict.TheVariants.{Allowed};
ghost use Rattle.table.specs.Index.{Starts};
ghost use Rattle.choices.specs.Parts.{PartAs};
ghost use Rattle.groups.specs.Groups.{KeysBelow};
ghost use Rattle.eligible.specs.Ports.{PortCounts};
ghost use Rattle.rule_moves.specs.Takes.{reactions_by};

use choices::{Part, less};
use rule_moves::moves_by;
use rules::decode::rule_at;
use state::Extent;
use table::parts::sizes_of;

pub fn reactions<'a>(
    table: &'a [u32],
    starts: &'a [u32; 65],
    keys: &'a [u32; 1024],
    counts: &'a [u16; 512],
    at: Extent,
    ceiling: usize,
    first: u64,
    count: usize,
    target: &mut [u32],
) -> Part
    requires table_value { (table_verdict table.now ≡ Allowed) × Starts (numbers_of table.now) (sizes_of table.now).rules starts.now
        × KeysBelow at.len keys.now × PortCounts (take at.len keys.now) counts.now × (ceiling ≤ 1024) }
    requires count_bound { (count ≤ 256) × (5 * count ≤ length target.old) }
    ensures part_as { PartAs move_words (reactions_by ceiling table.now at.len at.next (take at.len keys.now))
        first count 0 target.old target.new result }
    ensures length_bound { result.length ≤ 72057594037927936 }
{
    let z = sizes_of(table);
    let rules = z.rules;
    let mut length = 0;
    let mut skip = first;
    let mut done = 0;
    let mut r = 0;
    while r < rules {
        let rule = rule_at(table, starts, r);
        let part = moves_by(
            rule,
            r,
            keys,
            counts,
            at,
            ceiling,
            skip,
            count - done,
            target,
            5 * done,
        );
        length += part.length;
        skip = less(skip, part.length);
        done += part.written;
        r += 1;
    }
    Part {
        length,
        written: done,
    }
}
