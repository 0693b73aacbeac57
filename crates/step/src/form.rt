// The form of a move in words (5).
ghost use Rattle.std.specs.Prelude.{◌≤◌, ◌≡◌, drop};
ghost use Rattle.lists.specs.Lists.{all};
ghost use Rattle.semantics.specs.Table.{table_of};
ghost use Rattle.semantics.specs.Move.{is_zero, move_ok};
ghost use Rattle.words.specs.Head.{words_in};
ghost use Rattle.step.specs.Moves.{end_form};
ghost use Rattle.step.specs.Make.{Indexed};

use rules::decode::consumes_at;
use table::parts::sizes_of;
use words::head;
use words::head::MoveWords;

// Whether the picks from k on are 0.
pub fn unused_zero(picks: [u32; 4], k: usize) -> bool
    requires { k ≤ 4 }
    ensures { result ≡ all is_zero (drop k picks) }
{
    ((1 <= k) | (picks[0] == 0))
        & (((2 <= k) | (picks[1] == 0))
            & (((3 <= k) | (picks[2] == 0)) & ((4 <= k) | (picks[3] == 0))))
}

// Of an end: kind and id within their ranges, no pick.
pub fn end_form(mv: MoveWords) -> bool
    ensures { result ≡ end_form mv.head mv.picks }
{
    let picks = mv.picks;
    let id = head::number_of(mv.head);
    (head::kind_of(mv.head) <= head::ABORT)
        & (1 <= id)
        & (id <= head::MAX_ID)
        & unused_zero(picks, 0)
}

// 5: a kind, a rule or an id that there is not, or a pick that is not used and not 0.
pub fn form_ok<'a>(table: &'a [u32], starts: &'a [u32; 65], mv: MoveWords) -> bool
    requires { Indexed table.now starts.now }
    ensures { result ≡ move_ok (table_of table.now) (words_in mv) }
{
    let picks = mv.picks;
    if head::kind_of(mv.head) != head::REACT {
        return end_form(mv);
    }
    let number = head::number_of(mv.head);
    let sizes = sizes_of(table);
    if sizes.rules <= number {
        return false;
    }
    unused_zero(picks, consumes_at(table, starts, number))
}
