// A local rule: its consumes take entries of one transaction.
ghost use Rattle.std.specs.Prelude.{[], ◌∷◌, ◌+◌, ◌*◌, ◌≤◌, length, take};
ghost use Rattle.lists.specs.Choosing.{choices_by_group};
ghost use Rattle.choices.specs.Parts.{PartAs};
ghost use Rattle.choices.specs.Words.{choice_words};
ghost use Rattle.groups.specs.Groups.{KeysBelow, CountedFor, TopGroup};
ghost use Rattle.rule_moves.specs.Takes.{SmallPorts};

use choices::Part;
use groups::{count_groups, group_page, group_total};

// With the counts of four ports; where there are fewer, the words have counts that are not looked at.
fn counted_moves<'a>(
    keys: &'a [u32; 1024],
    n: usize,
    takes: [u32; 4],
    k: usize,
    counts: &'a [u64; 1024],
    top: usize,
    head: u32,
    first: u64,
    count: usize,
    target: &mut [u32],
    at: usize,
) -> Part
    requires keys_below { KeysBelow n keys.now × SmallPorts takes × (1 ≤ k) × (k ≤ 4) × CountedFor (take n keys.now) takes counts.now
        × TopGroup n keys.now top }
    requires count_bound { (count ≤ 256) × (at + 5 * count ≤ length target.old) }
    ensures part_as { PartAs (choice_words head (0 ∷ 0 ∷ 0 ∷ 0 ∷ []) 0) (choices_by_group (take n keys.now) (take k takes))
        first count at target.old target.new result }
    ensures length_bound { result.length ≤ 1125899906842624 }
{
    let length = group_total(keys, n, takes, k, counts, top);
    if length <= first {
        return Part { length, written: 0 };
    }
    let written = group_page(keys, n, takes, k, counts, head, first, count, target, at);
    Part { length, written }
}

pub fn grouped_moves(
    keys: &[u32; 1024],
    n: usize,
    takes: [u32; 4],
    k: usize,
    head: u32,
    first: u64,
    count: usize,
    target: &mut [u32],
    at: usize,
) -> Part
    requires keys_below { KeysBelow n keys.now × SmallPorts takes × (1 ≤ k) × (k ≤ 4) }
    requires count_bound { (count ≤ 256) × (at + 5 * count ≤ length target.old) }
    ensures part_as { PartAs (choice_words head (0 ∷ 0 ∷ 0 ∷ 0 ∷ []) 0) (choices_by_group (take n keys.now) (take k takes))
        first count at target.old target.new result }
    ensures length_bound { result.length ≤ 1125899906842624 }
{
    let mut counts = [0u64; 1024];
    let top = count_groups(keys, n, takes[0], takes[1], takes[2], takes[3], &mut counts);
    counted_moves(
        keys, n, takes, k, &counts, top, head, first, count, target, at,
    )
}
