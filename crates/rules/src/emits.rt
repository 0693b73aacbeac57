// Whether some rule begins a transaction and emits too (14).
ghost use Rattle.std.specs.Prelude.{◌&&◌, ◌≡◌};
ghost use Rattle.semantics.specs.declared.Sizes.{Sizes};
ghost use Rattle.semantics.specs.Table.{sizes_of, numbers_of, rule_of, table_of, begins, emits};
ghost use Rattle.semantics.specs.Serial.{begins_emit};
ghost use Rattle.semantics.specs.Answers.{table_verdict};
ghost use Rattle.semantics.specs.declared.Verdict.TheVariants.{Allowed};
ghost use Rattle.table.specs.Index.{Starts};

use legal::rule::has_role;
use table::parts::{atom_words_of, rule_words, sizes_of};

fn rule_begins_emits(ws: &[u32]) -> bool
    ensures { (z : Sizes) → result ≡ (begins (rule_of z ws.now) && emits (rule_of z ws.now)) }
{
    has_role(ws, 2) & has_role(ws, 1)
}

pub fn begins_emit<'a>(table: &'a [u32], starts: &'a [u32; 65]) -> bool
    requires { (table_verdict table.now ≡ Allowed) × Starts (numbers_of table.now) (sizes_of table.now).rules starts.now }
    ensures { result ≡ begins_emit (table_of table.now) }
{
    let z = sizes_of(table);
    let rules = z.rules as usize;
    let words = atom_words_of(table);
    let mut r = 0;
    while r < rules {
        if rule_begins_emits(rule_words(words, starts, r)) {
            return true;
        }
        r += 1;
    }
    false
}
