// What the end of a transaction leaves.
ghost use Rattle.std.specs.Prelude.{◌≤◌, ◌≡◌, cond, eqb};
ghost use Rattle.words.specs.Item.{as_message};
ghost use Rattle.lists.specs.Lists.{one_if};
ghost use Rattle.semantics.specs.Words.{item_kind};
ghost use Rattle.semantics.specs.Move.{ended};
ghost use Rattle.semantics.specs.Members.{member_count};
ghost use Rattle.state.specs.Working.{held, state_in};
ghost use Rattle.state.specs.Arrays.{Arrays, HoldsIn};
ghost use Rattle.ending.specs.End.{NoneBefore};

use state::Extent;
use words::item;

// What the end of a transaction leaves, and how many member marks (lot marks) it removed.
#[derive(Clone, Copy)]
pub struct Ended {
    pub left: Extent,
    pub members: u32,
}

// The owner of an entry that stays.
fn owner_after(owner: u16, id: u16) -> u16
    ensures { result ≡ cond (eqb owner id) 0 owner }
{
    if owner == id { 0 } else { owner }
}

// The item of an entry that stays: what is freed becomes a message.
fn item_after(owner: u16, item: u32, id: u16) -> u32
    ensures { result ≡ cond (eqb owner id) (as_message item) item }
{
    if owner == id {
        item::as_message(item)
    } else {
        item
    }
}

// An entry's kind if it is the transaction's own. Any other entry stays, and so counts as of the kind that
// stays: one comparison then tells each. It compiles to a conditional move.
fn kind_within(owner: u16, item: u32, id: u16, kind: u32) -> u32
    ensures { result ≡ cond (eqb owner id) (item_kind item) kind }
{
    if owner == id {
        item::kind_of(item)
    } else {
        kind
    }
}

// 1 where two kinds are the same, else 0.
fn same(a: u32, b: u32) -> usize
    ensures { (result ≡ one_if (eqb a b)) × (result ≤ 1) }
{
    if a == b { 1 } else { 0 }
}

// The transaction's entries of this kind become the global owner's in their places; its others go, and
// the member marks among them are counted.
pub fn end_transaction(
    owners: &mut [u16; 1024],
    items: &mut [u32; 1024],
    origins: &mut [u16; 1024],
    from: usize,
    at: Extent,
    id: u16,
    kind: u32,
) -> Ended
    requires { Arrays owners.old items.old origins.old × (at.len ≤ 1024) × NoneBefore owners.old id at.len from × (kind ≤ 1) }
    ensures left { HoldsIn (held owners.new items.new origins.new result.left)
        (ended (λ e. eqb e.kind kind) id (state_in (held owners.old items.old origins.old at))) }
    ensures members { result.members ≡ member_count id (state_in (held owners.old items.old origins.old at)) }
{
    let n = at.len;
    let next = at.next;
    let mut i = from;
    let mut w = from;
    let mut members = 0;
    while i < n {
        let owner = owners[i];
        let item = items[i];
        let origin = origins[i];
        owners[w] = owner_after(owner, id);
        items[w] = item_after(owner, item, id);
        origins[w] = origin;
        let within = kind_within(owner, item, id, kind);
        w += same(within, kind);
        members += same(within, item::MEMBER_MARK);
        i += 1;
    }
    let left = Extent {
        len: w,
        next,
        unmarked: 0,
    };
    let members = members as u32;
    Ended { left, members }
}
