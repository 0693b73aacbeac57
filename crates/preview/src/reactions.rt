// The preview of a reaction.
ghost use Rattle.std.specs.Prelude.{ℕ, ◌+◌, ◌-◌, ◌≤◌, ◌<◌, ◌≡◌, true, cond, List, eqb, length, take};
ghost use Rattle.lists.specs.Lists.{least};
ghost use Rattle.semantics.specs.Words.{head_kind};
ghost use Rattle.semantics.specs.Table.{sizes_of, numbers_of, table_of};
ghost use Rattle.table.specs.Index.{Starts};
ghost use Rattle.semantics.specs.Preview.{previewed};
ghost use Rattle.words.specs.Head.{words_in};
ghost use Rattle.state.specs.Lent.{state_from};
ghost use Rattle.reaction.specs.Places.{Places, column};
ghost use Rattle.preview.specs.Asked.{Formed};

use reaction::picks::{owners_at, smallest};
use reaction::verdict::{outline_of, outline_verdict};
use rules::decode::rule_at;
use semantics::{Foreseen, Previewed, Verdict};
use state::Extent;
use words::head;
use words::head::MoveWords;

// The entries once k of n are consumed, by a rule of so many atoms.
fn entries_after(n: usize, k: usize, count: usize) -> u32
    requires { (k ≤ n) × (n ≤ 1024) × (k ≤ count) × (count ≤ 16) }
    ensures { result ≡ (n - k) + (count - k) }
{
    ((n - k) + (count - k)) as u32
}

// A begin uses up an id.
fn next_after(next: u32, begins: bool) -> u32
    requires { begins ≡ true → next < 65536 }
    ensures { result ≡ cond begins (next + 1) next }
{
    if begins { next + 1 } else { next }
}

// The transaction concerned: the one begun, none, or the smallest of those that the picks are in.
fn concerned(
    owners: &[u16; 1024],
    next: u32,
    class: u32,
    begins: bool,
    picks: [u32; 4],
    k: usize,
) -> u32
    requires { (1 ≤ k) × (k ≤ 4) × (length owners.now ≡ 1024) × Places 1024 (take k picks) }
    ensures { result ≡ cond begins next (cond (eqb class 0) 0 (least (column owners.now (take k picks)))) }
{
    if begins {
        return next;
    }
    if class == 0 {
        return 0;
    }
    smallest(owners_at(owners, picks, k), k) as u32
}

// 7, 8, 18, 11, 12, or what the reaction would leave.
pub fn preview_reaction<'a>(
    table: &'a [u32],
    starts: &'a [u32; 65],
    owners: &'a [u16; 1024],
    items: &'a [u32; 1024],
    at: Extent,
    mv: MoveWords,
    ceiling: usize,
) -> Previewed
    requires starts { Starts (numbers_of table.now) (sizes_of table.now).rules starts.now }
    requires formed { Formed table.now owners.now items.now at ceiling (words_in mv) }
    requires kind { head_kind mv.head ≡ 0 }
    ensures { (gs : List ℕ)
        → result ≡ previewed ceiling (table_of table.now) (state_from owners.now items.now gs at) (words_in mv) }
{
    let picks = mv.picks;
    let rule = rule_at(table, starts, head::number_of(mv.head));
    let verdict = outline_verdict(owners, items, at, 0, outline_of(rule), picks, ceiling);
    if let Verdict::Denied(refusal) = verdict {
        return Previewed::Rejected(refusal);
    }
    let k = rule.consumes;
    let entries = entries_after(at.len, k, rule.count);
    let next = next_after(at.next, rule.begins);
    let id = concerned(owners, at.next, rule.class, rule.begins, picks, k);
    // A rule consumes messages only, so that no member mark would go.
    let members = 0;
    Previewed::Accepted(Foreseen {
        entries,
        next,
        id,
        members,
    })
}
