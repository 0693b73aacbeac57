// The ends of members: an end is noted at the place of the begin of each member that it ends.
ghost use Rattle.std.specs.Prelude.{◌+◌, ◌≤◌, ◌<◌, ◌≡◌, ◌&&◌, cond, [], ◌∷◌, eqb, length};
ghost use Rattle.lists.specs.Rows.{rows};
ghost use Rattle.semantics.specs.Words.{item_kind};
ghost use Rattle.words.specs.Origin.{maker_in};
ghost use Rattle.state.specs.Working.{row_of};
ghost use Rattle.recording.specs.Marks.{Lent, marks_of, NotedAt, RowsNoted};
ghost use Rattle.recording.specs.Recordings.{marks_ended};

use words::item::{MEMBER_MARK, kind_of};
use words::search::{chunk_end, chunk_has};
use words::{head, origin};

fn is_mark(owner: u16, item: u32, id: u16) -> bool
    ensures { result ≡ eqb (item_kind item) 3 && eqb owner id }
{
    (kind_of(item) == MEMBER_MARK) & (owner == id)
}

// The maker of an entry that is a member mark of id, else 0.
fn begun_by(owner: u16, item: u32, origin: u16, id: u16) -> u16
    ensures { result ≡ cond (eqb (item_kind item) 3 && eqb owner id) (maker_in origin) 0 }
{
    if is_mark(owner, item, id) {
        origin::maker_of(origin)
    } else {
        0
    }
}

// The end at this place is that of the begin by this maker; the start's maker, 0, has no place.
fn note_end(ended: &mut [u16; 1024], maker: u16, place: u16)
    requires { length ended.old ≡ 1024 }
    ensures { NotedAt place (record { maker = maker; index = 0 } ∷ []) ended.old ended.new }
{
    if maker == 0 {
        return;
    }
    if 1024 < maker {
        return;
    }
    ended[(maker - 1) as usize] = place;
}

// The same for every member mark of id at the places from `from` on, before `to`.
fn note_rows<'a>(
    owners: &'a [u16; 1024],
    items: &'a [u32; 1024],
    origins: &'a [u16; 1024],
    from: usize,
    to: usize,
    id: u16,
    place: u16,
    ended: &mut [u16; 1024],
)
    requires { Lent owners.now items.now origins.now to × (from ≤ to) × (length ended.old ≡ 1024) }
    ensures { RowsNoted (row_of owners.now items.now origins.now)
        id place from to ended.old ended.new }
{
    let mut i = from;
    while i < to {
        let maker = begun_by(owners[i], items[i], origins[i], id);
        note_end(ended, maker, place);
        i += 1;
    }
}

// In most chunks id owns nothing.
fn note_chunk<'a>(
    owners: &'a [u16; 1024],
    items: &'a [u32; 1024],
    origins: &'a [u16; 1024],
    from: usize,
    to: usize,
    id: u16,
    place: u16,
    ended: &mut [u16; 1024],
)
    requires { Lent owners.now items.now origins.now to × (from ≤ to) × (to ≤ from + 32) × (from + 32 ≤ 1024) × (length ended.old ≡ 1024) }
    ensures { RowsNoted (row_of owners.now items.now origins.now)
        id place from to ended.old ended.new }
{
    if chunk_has(owners, from, id) {
        note_rows(owners, items, origins, from, to, id, place, ended);
    }
}

// The end of id at this place is that of every member that id has.
fn note_ends<'a>(
    owners: &'a [u16; 1024],
    items: &'a [u32; 1024],
    origins: &'a [u16; 1024],
    n: usize,
    id: u16,
    place: u16,
    ended: &mut [u16; 1024],
)
    requires { Lent owners.now items.now origins.now n × (length ended.old ≡ 1024) }
    ensures { NotedAt place (marks_of id (rows (row_of owners.now items.now origins.now) 0 n))
        ended.old ended.new }
{
    let mut i = 0;
    while i < n {
        let to = chunk_end(i, n);
        note_chunk(owners, items, origins, i, to, id, place, ended);
        i = to;
    }
}

// A reaction ends nothing, and neither does a number that no owner has: whether the move is in order
// is not known yet.
pub fn note_if_end<'a>(
    owners: &'a [u16; 1024],
    items: &'a [u32; 1024],
    origins: &'a [u16; 1024],
    n: usize,
    head: u32,
    place: usize,
    ended: &mut [u16; 1024],
)
    requires { Lent owners.now items.now origins.now n × (place < 1024) × (length ended.old ≡ 1024) }
    ensures { NotedAt place (marks_ended head (rows (row_of owners.now items.now origins.now) 0 n))
        ended.old ended.new }
{
    if head::kind_of(head) == head::REACT {
        return;
    }
    if head::MAX_ID < head::number_of(head) {
        return;
    }
    note_ends(
        owners,
        items,
        origins,
        n,
        head::id_of(head),
        place as u16,
        ended,
    );
}
