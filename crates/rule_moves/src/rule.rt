// A rule of any class. Whether ids and room are left for it (11, 12) does not depend on the picks, so it has all its choices or none.
ghost use Rattle.std.specs.Prelude.{◌≡◌, cond, ◌+◌, ◌*◌, ◌≤◌, ◌<◌, length, take};
ghost use Rattle.lists.specs.Each.{All};
ghost use Rattle.semantics.specs.Table.{consumed};
ghost use Rattle.semantics.specs.Enabled.{move_words};
ghost use Rattle.rules.specs.Decode.{Decodes};
ghost use Rattle.reaction.specs.Decoded.{rule_in};
ghost use Rattle.choices.specs.Parts.{PartAs};
ghost use Rattle.groups.specs.Groups.{KeysBelow};
ghost use Rattle.eligible.specs.Ports.{PortCounts};
ghost use Rattle.rule_moves.specs.Takes.{SmallPorts, front_of, has_room_for, moves_by};

use crate::grouped::grouped_moves;
use crate::plain::plain_moves;
use choices::Part;
use reaction::verdict::consume_ports;
use rules::decode::Rule;
use state::{Extent, State};

fn port_if(wanted: bool, port: u16) -> u32
    ensures { result ≡ cond wanted port 0 }
{
    if wanted { port as u32 } else { 0 }
}

// The first k of four ports, and port 0 behind them.
fn front_of(ports: [u16; 4], k: usize) -> [u32; 4]
    ensures { result ≡ front_of ports k }
{
    let a = port_if(0 < k, ports[0]);
    let b = port_if(1 < k, ports[1]);
    let c = port_if(2 < k, ports[2]);
    let d = port_if(3 < k, ports[3]);
    [a, b, c, d]
}

// The ports of a rule's consumes in order, and port 0 behind them.
pub fn takes_of(rule: Rule) -> [u32; 4]
    requires { Decodes rule (rule_in rule) × All (λ p. p < 256) (consumed (rule_in rule)) }
    ensures { (take rule.consumes result ≡ consumed (rule_in rule)) × SmallPorts result }
{
    front_of(consume_ports(rule), rule.consumes)
}

// Whether ids and room are left for a rule.
pub fn is_open(rule: Rule, at: Extent, ceiling: usize) -> bool
    requires { Decodes rule (rule_in rule) × (at.len ≤ 1024) × (ceiling ≤ 1024) }
    ensures { result ≡ has_room_for ceiling (rule_in rule) at.len at.next }
{
    let n = at.len;
    let k = rule.consumes;
    let atoms = rule.count;
    (!rule.begins | (at.next < State::MAX_NEXT)) & (n + atoms <= ceiling + 2 * k)
}

// The reactions by rule r.
pub fn moves_by<'a>(
    rule: Rule,
    r: u32,
    keys: &'a [u32; 1024],
    counts: &'a [u16; 512],
    at: Extent,
    ceiling: usize,
    first: u64,
    count: usize,
    target: &mut [u32],
    place: usize,
) -> Part
    requires decodes { Decodes rule (rule_in rule) × All (λ p. p < 256) (consumed (rule_in rule)) × KeysBelow at.len keys.now
        × PortCounts (take at.len keys.now) counts.now × (ceiling ≤ 1024) }
    requires count_bound { (count ≤ 256) × (place + 5 * count ≤ length target.old) }
    ensures part_as { PartAs move_words (moves_by ceiling (rule_in rule) r at.len at.next (take at.len keys.now))
        first count place target.old target.new result }
    ensures length_bound { result.length ≤ 1125899906842624 }
{
    if !is_open(rule, at, ceiling) {
        return Part {
            length: 0,
            written: 0,
        };
    }
    let n = at.len;
    let k = rule.consumes;
    let takes = takes_of(rule);
    if rule.class == 1 {
        return grouped_moves(keys, n, takes, k, r, first, count, target, place);
    }
    plain_moves(keys, n, counts, takes, k, r, first, count, target, place)
}
