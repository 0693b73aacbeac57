// What a search asks of a rule, read from its words: to decode all of it costs more than to search a few entries.
ghost use Rattle.std.specs.Prelude.{◌+◌, ◌*◌, ◌≤◌, ◌<◌, ◌≡◌, ◌&&◌, ◌||◌, not, cond, map, ltb, leb, length, get_or, take};
ghost use Rattle.lists.specs.Lists.{any};
ghost use Rattle.semantics.specs.Words.{port_of};
ghost use Rattle.semantics.specs.Table.{is_role};
ghost use Rattle.rule_moves.specs.Takes.{SmallPorts};

use legal::rule::has_role;
use state::{Extent, State};
use words::atom::port_of;

// The port of the word at place j, where it is one of the first k.
fn port_at(ws: &[u32], j: usize, k: usize) -> u32
    requires { k ≤ length ws.now }
    ensures { (result ≡ cond (ltb j k) (port_of (get_or ws.now j 0)) 0) × (result < 256) }
{
    if j < k { port_of(ws[j]) } else { 0 }
}

// The ports of the first k words, 0 behind them.
pub fn ports_of(ws: &[u32], k: usize) -> [u32; 4]
    requires { (k ≤ 4) × (k ≤ length ws.now) }
    ensures { (take k result ≡ map port_of (take k ws.now)) × SmallPorts result }
{
    let a = port_at(ws, 0, k);
    let b = port_at(ws, 1, k);
    let c = port_at(ws, 2, k);
    let d = port_at(ws, 3, k);
    [a, b, c, d]
}

// Whether ids and room are left for a rule of k consumes.
pub fn has_room(ws: &[u32], k: usize, at: Extent, ceiling: usize) -> bool
    requires { (k ≤ 4) × (length ws.now ≤ 16) × (at.len ≤ 1024) × (ceiling ≤ 1024) }
    ensures { result ≡ (not (any (is_role 2) ws.now) || ltb at.next 65536)
        && leb (at.len + length ws.now) (ceiling + 2 * k) }
{
    let n = at.len;
    let begins = has_role(ws, 2);
    (!begins | (at.next < State::MAX_NEXT)) & (n + ws.len() <= ceiling + 2 * k)
}
