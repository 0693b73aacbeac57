// A table and a state made ready for a call: both checked, with the index of the table's rules.
#![tactic(auto)]

ghost use Rattle.std.specs.Prelude.{◌≡◌, length};
ghost use Rattle.ready.specs.Ready.{ReadyAs};

use semantics::Verdict;

// The verdict on a table and a state, 1 to 4; where it is Allowed the starts are the index of the table's rules.
pub fn ready(table: &[u32], state: &[u32], starts: &mut [u32; 65]) -> Verdict
    requires { length starts.old ≡ 65 }
    ensures { ReadyAs table.now state.now result starts.new }
{
    let of_table = table::check(table, starts);
    if let Verdict::Denied(refusal) = of_table {
        return Verdict::Denied(refusal);
    }
    state_check::check(table::sizes_of(table), state)
}
