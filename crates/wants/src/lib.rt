// What each rule wants on its ports, decoded once for a whole run: a rule that lacks messages is passed over at the cost of at
// most four comparisons, whatever its class.
#![tactic(auto)]

ghost use Rattle.std.specs.Prelude.{◌≡◌, ℕ, ◌+◌, ◌*◌, ◌≤◌, ◌<◌, length, get_or, take};
ghost use Rattle.lists.specs.Lists.{one_if};
ghost use Rattle.lists.specs.Keys.{times_in};
ghost use Rattle.semantics.specs.Table.{sizes_of, numbers_of};
ghost use Rattle.semantics.specs.Answers.{table_verdict};
ghost use Rattle.semantics.specs.declared.Verdict.TheVariants.{Allowed};
ghost use Rattle.table.specs.Index.{Starts};
ghost use Rattle.wants.specs.Wants.{WantedWord, is_short, lacking, Wants};

use rule_moves::takes_of;
use rules::decode::rule_at;
use table::parts::sizes_of;

// A want has 16 bits of a word.
const WANT: u64 = 65536;

fn one_if(b: bool) -> u32
    ensures { (result ≡ one_if b) × (result ≤ 1) }
{
    if b { 1 } else { 0 }
}

// How often a port is among the first k.
fn times(takes: [u32; 4], k: usize, port: u32) -> u32
    requires { k ≤ 4 }
    ensures { (result ≡ times_in port (take k takes)) × (result ≤ 4) }
{
    let a = one_if((0 < k) & (takes[0] == port));
    let b = one_if((1 < k) & (takes[1] == port));
    let c = one_if((2 < k) & (takes[2] == port));
    let d = one_if((3 < k) & (takes[3] == port));
    a + (b + (c + d))
}

// A port and how often it is wanted, in 16 bits.
fn want(takes: [u32; 4], k: usize, port: u32) -> u64
    requires { (k ≤ 4) × (port < 256) }
    ensures { (result ≡ times_in port (take k takes) * 512 + port) × (result < 65536) }
{
    (times(takes, k, port) * 512 + port) as u64
}

// The wants of k consumes on these ports, in one word.
fn wants_of(takes: [u32; 4], k: usize) -> u64
    requires { (k ≤ 4) × ((j : ℕ) → get_or takes j 0 < 256) }
    ensures { WantedWord (take k takes) result }
{
    let a = want(takes, k, takes[0]);
    let b = want(takes, k, takes[1]);
    let c = want(takes, k, takes[2]);
    let d = want(takes, k, takes[3]);
    a + WANT * (b + WANT * (c + WANT * d))
}

// Of all rules.
pub fn fill_wants<'a>(table: &'a [u32], starts: &'a [u32; 65], wants: &mut [u64; 64])
    requires { (table_verdict table.now ≡ Allowed) × Starts (numbers_of table.now) (sizes_of table.now).rules starts.now
        × (length wants.old ≡ 64) }
    ensures { Wants table.now wants.new }
{
    let z = sizes_of(table);
    let rules = z.rules;
    let mut r = 0;
    while r < rules {
        let rule = rule_at(table, starts, r);
        wants[r as usize] = wants_of(takes_of(rule), rule.consumes);
        r += 1;
    }
}

fn short(totals: &[u16; 512], want: u64) -> bool
    requires { (length totals.now ≡ 512) × (want < 65536) }
    ensures { result ≡ is_short totals.now want }
{
    totals[(want % 512) as usize] < (want / 512) as u16
}

// Whether rule r lacks messages, where `totals` has those of each port: then it has no choice. Most rules lack at their first port.
pub fn lacks<'a>(wants: &'a [u64; 64], totals: &'a [u16; 512], r: usize) -> bool
    requires { (r < 64) × (length wants.now ≡ 64) × (length totals.now ≡ 512) }
    ensures { result ≡ lacking totals.now (get_or wants.now r 0) }
{
    let w = wants[r];
    if short(totals, w % WANT) {
        return true;
    }
    let x = w / WANT;
    let y = x / WANT;
    let z = y / WANT;
    short(totals, x % WANT) | (short(totals, y % WANT) | short(totals, z % WANT))
}
