// The second pass: the recorded moves again in the serial order, their picks found by origin, ends
// under the ids that the transactions now have.
#![tactic(auto)]

ghost use Rattle.std.specs.Prelude.{ℕ, ◌+◌, ◌*◌, ◌≤◌, ◌<◌, ◌≡◌, List, map, length, take, drop, set};
ghost use Rattle.lists.specs.Padded.{padded};
ghost use Rattle.lists.specs.Over.{Pasted};
ghost use Rattle.lists.specs.Rows.{rows};
ghost use Rattle.semantics.specs.Table.{table_of};
ghost use Rattle.semantics.specs.Move.{picks_used, entry_at};
ghost use Rattle.semantics.specs.Log.{move_count};
ghost use Rattle.state.specs.Working.{row_of, state_in, held};
ghost use Rattle.state.specs.Lent.{Columns};
ghost use Rattle.step.specs.Make.{Indexed};
ghost use Rattle.replay.specs.Replay.{place_in, head_again, Words, Readable, Replayable, ReplayedAs};

use move_log::head_at;
use rules::decode::consumes_at;
use semantics::Verdict;
use state::Extent;
use step::make::make;
use table::parts::sizes_of;
use words::head;
use words::head::MoveWords;
use words::picks::put_picks;
use words::search::chunk_of;

// The place of the first entry of that origin, n if there is none.
fn place_of(origins: &[u16; 1024], n: usize, origin: u16) -> usize
    requires { (n ≤ 1024) × (length origins.now ≡ 1024) }
    ensures { ((os ws : List ℕ) → result ≡ place_in (rows (row_of os ws origins.now) 0 n) origin) × (result ≤ n) }
{
    let mut i = chunk_of(origins, n, origin);
    while i < n {
        if origins[i] == origin {
            return i;
        }
        i += 1;
    }
    n
}

// The places of the first k origins wanted, then 0.
fn places_of(origins: &[u16; 1024], n: usize, wanted: [u16; 4], k: usize) -> [u32; 4]
    requires { (n ≤ 1024) × (length origins.now ≡ 1024) × (k ≤ 4) }
    ensures { (os ws : List ℕ) → result ≡ padded 4 0 (map (place_in (rows (row_of os ws origins.now) 0 n)) (take k wanted)) }
{
    let mut places = [0u32; 4];
    let mut i = 0;
    while i < k {
        let place = place_of(origins, n, wanted[i]);
        places[i] = place as u32;
        i += 1;
    }
    places
}

// The origins recorded for the picks of the move at place p.
fn wanted_at(origins: &[u16], p: usize) -> [u16; 4]
    requires { (p < 1024) × (4 * p + 4 ≤ length origins.now) }
    ensures { result ≡ take 4 (drop (4 * p) origins.now) }
{
    let at = 4 * p;
    [
        origins[at],
        origins[at + 1],
        origins[at + 2],
        origins[at + 3],
    ]
}

// How many picks a head uses.
fn picks_used<'a>(table: &'a [u32], starts: &'a [u32; 65], head: u32) -> usize
    requires { Indexed table.now starts.now }
    ensures { (result ≡ picks_used (table_of table.now) head) × (result ≤ 4) }
{
    if head::kind_of(head) != head::REACT {
        return 0;
    }
    let number = head::number_of(head);
    let sizes = sizes_of(table);
    if sizes.rules <= number {
        return 0;
    }
    consumes_at(table, starts, number)
}

// The owner of the entry at a place, 0 past the last.
fn owner_at(owners: &[u16; 1024], n: usize, place: usize) -> u16
    requires { (n ≤ 1024) × (length owners.now ≡ 1024) }
    ensures { (ws gs : List ℕ) → result ≡ (entry_at (rows (row_of owners.now ws gs) 0 n) place).owner }
{
    if place < n { owners[place] } else { 0 }
}

// A head now: a reaction's is as it was, an end has the id that owns the mark of its member.
fn head_again<'a>(
    owners: &'a [u16; 1024],
    origins: &'a [u16; 1024],
    n: usize,
    head: u32,
    member: u16,
) -> u32
    requires { Columns owners.now origins.now n }
    ensures { (ws : List ℕ) → result ≡ head_again (rows (row_of owners.now ws origins.now) 0 n) head member }
{
    let kind = head::kind_of(head);
    if kind == head::REACT {
        return head;
    }
    let id = owner_at(owners, n, place_of(origins, n, member)) as u32;
    if kind == head::COMMIT {
        head::head_of(head::COMMIT, id)
    } else {
        head::head_of(head::ABORT, id)
    }
}

// The words of the recorded move at place p among these entries.
fn again_at<'a>(
    table: &'a [u32],
    starts: &'a [u32; 65],
    owners: &'a [u16; 1024],
    origins: &'a [u16; 1024],
    n: usize,
    log: &'a [u32],
    wanted: &'a [u16],
    members: &'a [u16; 1024],
    p: usize,
) -> MoveWords
    requires { Readable table.now starts.now log.now wanted.now members.now × Columns owners.now origins.now n × (p < move_count log.now) }
    ensures { (ws : List ℕ) → Words (table_of table.now)
        (rows (row_of owners.now ws origins.now) 0 n)
        log.now wanted.now members.now p result.head result.picks }
{
    let was = head_at(log, p);
    let head = head_again(owners, origins, n, was, members[p]);
    let k = picks_used(table, starts, was);
    let picked = wanted_at(wanted, p);
    let picks = places_of(origins, n, picked, k);
    MoveWords { head, picks }
}

// The move at place j of a log of k moves.
fn put_move(out: &mut [u32], k: usize, j: usize, mv: MoveWords)
    requires { (j < k) × (k ≤ 1024) × (1 + 5 * k ≤ length out.old) }
    ensures { Pasted (set out.old (1 + j) mv.head) (1 + k + 4 * j) mv.picks 4 out.new }
{
    let picks = mv.picks;
    out[1 + j] = mv.head;
    put_picks(out, 1 + k + 4 * j, picks);
}

// The log of the recorded moves in this order, over the beginning of `out`; whether every state on
// the way has at most so many entries. The move at place p is the maker p + 1, as in the first log.
pub fn replay<'a>(
    table: &'a [u32],
    starts: &'a [u32; 65],
    owners: &mut [u16; 1024],
    items: &mut [u32; 1024],
    origins: &mut [u16; 1024],
    start: Extent,
    log: &'a [u32],
    order: &'a [u16; 1024],
    wanted: &'a [u16],
    members: &'a [u16; 1024],
    ceiling: usize,
    out: &mut [u32],
) -> bool
    requires { Replayable table.now starts.now (held owners.old items.old origins.old start)
        log.now order.now wanted.now members.now ceiling out.old }
    ensures { ReplayedAs result ceiling (table_of table.now)
        (state_in (held owners.old items.old origins.old start))
        log.now order.now wanted.now members.now out.old out.new }
{
    let k = log[0] as usize;
    out[0] = log[0];
    let mut left = start;
    let mut j = 0;
    while j < k {
        let p = order[j] as usize;
        let mv = again_at(
            table, starts, owners, origins, left.len, log, wanted, members, p,
        );
        put_move(out, k, j, mv);
        let made = make(
            table,
            starts,
            owners,
            items,
            origins,
            left,
            mv,
            (p + 1) as u32,
            ceiling,
        );
        let verdict = made.verdict;
        if let Verdict::Denied(_) = verdict {
            return false;
        }
        left = made.left;
        j += 1;
    }
    true
}
