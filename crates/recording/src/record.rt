// The first pass: the log is run, and each move is noted with the origins of its picks, a member mark
// (lot mark) that it concerns, and, at an end, the begins of its members. A move is made as it is
// decided, so the notes are taken before it is known to be allowed; those of a refused move are of no
// use, and what they would read past a column counts as 0.
ghost use Rattle.std.specs.Prelude.{◌+◌, ◌-◌, ◌*◌, ◌≤◌, ◌<◌, ◌≡◌, length, get_or};
ghost use Rattle.lists.specs.Over.{Pasted};
ghost use Rattle.semantics.specs.Table.{table_of};
ghost use Rattle.state.specs.Working.{held};
ghost use Rattle.words.specs.Origin.{first_product};
ghost use Rattle.recording.specs.Marks.{Lent};
ghost use Rattle.recording.specs.Recordings.{words_at, concerned_by, mark_by, MoveNoted, if_grown, Recordable, RecordRoom, RecordedAs};

use crate::ends::note_if_end;
use move_log::{count_of, move_at};
use run::Ran;
use semantics::Verdict;
use state::Extent;
use step::make::make;
use words::head::MoveWords;
use words::picks::put_origins;
use words::{head, origin};

// What stands at a place of a column; 0 past its end.
fn half_at(column: &[u16; 1024], place: u32) -> u16
    requires { length column.now ≡ 1024 }
    ensures { result ≡ get_or column.now place 0 }
{
    if place < 1024 {
        column[place as usize]
    } else {
        0
    }
}

// The origins of the picks, at the places from 4 i on.
fn note_picks(column: &[u16; 1024], picks: [u32; 4], i: usize, wanted: &mut [u16])
    requires { (length column.now ≡ 1024) × (i < 1024) × (4 * i + 4 ≤ length wanted.old) }
    ensures { Pasted wanted.old (4 * i) (words_at column.now picks) 4 wanted.new }
{
    let found = [
        half_at(column, picks[0]),
        half_at(column, picks[1]),
        half_at(column, picks[2]),
        half_at(column, picks[3]),
    ];
    put_origins(wanted, 4 * i, found);
}

// The transaction that a move concerns: the one that it ends, or that of its first pick.
fn concerned(owners: &[u16; 1024], head: u32, picks: [u32; 4]) -> u32
    requires { length owners.now ≡ 1024 }
    ensures { result ≡ concerned_by owners.now head picks }
{
    if head::kind_of(head) == head::REACT {
        half_at(owners, picks[0]) as u32
    } else {
        head::number_of(head)
    }
}

// The origin of the own mark of a transaction begun in the log: they have the ids from `first` on.
fn mark_of(begun: &[u16; 1024], first: u32, id: u32) -> u16
    requires { length begun.now ≡ 1024 }
    ensures { result ≡ mark_by begun.now first id }
{
    if first <= id {
        half_at(begun, id - first)
    } else {
        0
    }
}

// What is noted of the move at place i in the state before it.
fn note_move<'a>(
    owners: &'a [u16; 1024],
    items: &'a [u32; 1024],
    origins: &'a [u16; 1024],
    n: usize,
    begun: &'a [u16; 1024],
    first: u32,
    mv: MoveWords,
    i: usize,
    wanted: &mut [u16],
    members: &mut [u16; 1024],
    ended: &mut [u16; 1024],
)
    requires { Lent owners.now items.now origins.now n × (length begun.now ≡ 1024) × (i < 1024) × (4 * i + 4 ≤ length wanted.old)
        × (length members.old ≡ 1024) × (length ended.old ≡ 1024) }
    ensures { MoveNoted owners.now items.now origins.now n begun.now first mv.head mv.picks i
        wanted.old members.old ended.old wanted.new members.new ended.new }
{
    let head = mv.head;
    let picks = mv.picks;
    note_picks(origins, picks, i, wanted);
    members[i] = mark_of(begun, first, concerned(owners, head, picks));
    note_if_end(owners, items, origins, n, head, i, ended);
}

// The next id has grown where the move at place i begins a transaction. No begin emits, so the mark is
// its first product.
fn note_begin(
    begun: &mut [u16; 1024],
    members: &mut [u16; 1024],
    i: usize,
    first: u32,
    next: u32,
    after: u32,
)
    requires { (length begun.old ≡ 1024) × (length members.old ≡ 1024) × (i < 1024)
        × (first ≤ next) × (next < first + 1024) }
    ensures { (begun.new ≡ if_grown next after begun.old (next - first) (first_product i))
        × (members.new ≡ if_grown next after members.old i (first_product i)) }
{
    if next == after {
        return;
    }
    let mark = origin::origin_of(i as u32 + 1, 0);
    begun[(next - first) as usize] = mark;
    members[i] = mark;
}

// The run of the log. Each move is noted in the state before it; `begun` is room for the marks by ids.
pub fn record<'a>(
    table: &'a [u32],
    starts: &'a [u32; 65],
    owners: &mut [u16; 1024],
    items: &mut [u32; 1024],
    origins: &mut [u16; 1024],
    start: Extent,
    log: &'a [u32],
    ceiling: usize,
    wanted: &mut [u16],
    members: &mut [u16; 1024],
    ended: &mut [u16; 1024],
    begun: &mut [u16; 1024],
) -> Ran
    requires log { Recordable table.now starts.now log.now (held owners.old items.old origins.old start) ceiling }
    requires room { RecordRoom log.now wanted.old members.old ended.old begun.old }
    ensures ran { RecordedAs result ceiling (table_of table.now) log.now
        (held owners.old items.old origins.old start)
        (held owners.new items.new origins.new result.left)
        wanted.new members.new ended.old ended.new }
    ensures room { RecordRoom log.now wanted.new members.new ended.new begun.new }
{
    let first = start.next;
    let k = count_of(log);
    let mut left = start;
    let mut i = 0;
    while i < k {
        let mv = move_at(log, i);
        note_move(
            owners, items, origins, left.len, begun, first, mv, i, wanted, members, ended,
        );
        let made = make(
            table,
            starts,
            owners,
            items,
            origins,
            left,
            mv,
            (i + 1) as u32,
            ceiling,
        );
        let verdict = made.verdict;
        let before = left.next;
        left = made.left;
        note_begin(begun, members, i, first, before, left.next);
        if let Verdict::Denied(_) = verdict {
            let place = i as u32;
            return Ran {
                verdict,
                place,
                left,
            };
        }
        i += 1;
    }
    let place = i as u32;
    let verdict = Verdict::Allowed;
    Ran {
        verdict,
        place,
        left,
    }
}
