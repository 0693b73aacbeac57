// The preview of a commit (release) or an abort (call-off).
ghost use Rattle.std.specs.Prelude.{ℕ, ◌≤◌, ◌≡◌, not, ◌&&◌, ◌||◌, List, eqb, length};
ghost use Rattle.lists.specs.Lists.{one_if};
ghost use Rattle.semantics.specs.Words.{head_kind, item_kind};
ghost use Rattle.semantics.specs.Table.{table_of};
ghost use Rattle.semantics.specs.Move.{ended};
ghost use Rattle.semantics.specs.Members.{member_count};
ghost use Rattle.semantics.specs.Preview.{previewed};
ghost use Rattle.words.specs.Head.{words_in};
ghost use Rattle.state.specs.Lent.{state_from, Columns};
ghost use Rattle.ending.specs.End.{NoneBefore, end_verdict};
ghost use Rattle.preview.specs.Asked.{Formed};

use ending::verdict::end_verdict;
use semantics::{Foreseen, Previewed, Verdict};
use state::Extent;
use table::parts::sizes_of;
use words::head::MoveWords;
use words::search::chunk_of;
use words::{head, item};

// 1 where an entry stays, else 0. 32 bits wide, so that more entries are compared at once than with a place's 64.
fn stays(owner: u16, item: u32, id: u16, kind: u32) -> u32
    ensures { (result ≡ one_if (not (eqb owner id) || eqb (item_kind item) kind)) × (result ≤ 1) }
{
    if (owner != id) | (item::kind_of(item) == kind) {
        1
    } else {
        0
    }
}

// 1 where an entry is a member mark of the transaction, else 0.
fn member_of(owner: u16, item: u32, id: u16) -> u32
    ensures { (result ≡ one_if (eqb owner id && eqb (item_kind item) 3)) × (result ≤ 1) }
{
    if (owner == id) & (item::kind_of(item) == item::MEMBER_MARK) {
        1
    } else {
        0
    }
}

// How many entries the end of a transaction leaves, and how many member marks it removes.
#[derive(Clone, Copy)]
struct Counts {
    entries: u32,
    members: u32,
}

// All entries before the place from stay, and from there on both are counted.
fn counts_after<'a>(
    owners: &'a [u16; 1024],
    items: &'a [u32; 1024],
    from: usize,
    at: Extent,
    id: u16,
    kind: u32,
) -> Counts
    requires { Columns owners.now items.now at.len × NoneBefore owners.now id at.len from }
    ensures entries { (gs : List ℕ)
        → result.entries ≡ length (ended (λ e. eqb e.kind kind) id (state_from owners.now items.now gs at)).entries }
    ensures members { (gs : List ℕ) → result.members ≡ member_count id (state_from owners.now items.now gs at) }
{
    let n = at.len;
    let mut entries = from as u32;
    let mut members = 0;
    let mut i = from;
    while i < n {
        let owner = owners[i];
        let item = items[i];
        entries += stays(owner, item, id, kind);
        members += member_of(owner, item, id);
        i += 1;
    }
    Counts { entries, members }
}

// 9, 10. In a call of its own an abort is not tested for messages inside, on which it does not depend.
fn verdict_by_kind<'a>(
    owners: &'a [u16; 1024],
    items: &'a [u32; 1024],
    from: usize,
    at: Extent,
    kind: u32,
    id: u16,
    globals: u32,
) -> Verdict
    requires { Columns owners.now items.now at.len × NoneBefore owners.now id at.len from }
    ensures { (gs : List ℕ) → result ≡ end_verdict kind globals id (state_from owners.now items.now gs at) }
{
    if kind == head::COMMIT {
        return end_verdict(owners, items, from, at, head::COMMIT, id, globals);
    }
    end_verdict(owners, items, from, at, head::ABORT, id, globals)
}

// 9, 10, or what the end would leave: a commit (kind 1) frees the transaction's messages (0), an abort its compensations (1).
pub fn preview_end<'a>(
    table: &'a [u32],
    owners: &'a [u16; 1024],
    items: &'a [u32; 1024],
    at: Extent,
    mv: MoveWords,
    ceiling: usize,
) -> Previewed
    requires formed { Formed table.now owners.now items.now at ceiling (words_in mv) }
    requires kind { head_kind mv.head ≡ 0 → ⊥ }
    ensures { (gs : List ℕ)
        → result ≡ previewed ceiling (table_of table.now) (state_from owners.now items.now gs at) (words_in mv) }
{
    let kind = head::kind_of(mv.head);
    let id = head::id_of(mv.head);
    let sizes = sizes_of(table);
    let from = chunk_of(owners, at.len, id);
    let verdict = verdict_by_kind(owners, items, from, at, kind, id, sizes.globals);
    if let Verdict::Denied(refusal) = verdict {
        return Previewed::Rejected(refusal);
    }
    let counts = counts_after(owners, items, from, at, id, kind - 1);
    Previewed::Accepted(Foreseen {
        entries: counts.entries,
        next: at.next,
        id: id as u32,
        members: counts.members,
    })
}
