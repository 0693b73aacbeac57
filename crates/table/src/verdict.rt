// The check of a whole table. It fills the index of its rules on the way, in an array that the caller lends: returned by
// value it would be copied.
ghost use Rattle.std.specs.Prelude.{◌≡◌, ℕ, ◌<◌, length};
ghost use Rattle.lists.specs.Lists.{all_below};
ghost use Rattle.semantics.specs.Table.{sizes_of, numbers_of, table_sizes_ok, table_contents_ok, rule_ok};
ghost use Rattle.wellformed.specs.Tables.{TableSized};
ghost use Rattle.table.specs.Index.{Cut, cut, IndexMade};
ghost use Rattle.table.specs.Check.{CheckedAs};

use crate::index::index_rules;
use crate::parts::{atom_words_of, numbers_of, rule_words, sizes_of};
use legal::rule::rule_ok;
use semantics::{Refusal, Sizes, Verdict};

fn sizes_ok(table: &[u32]) -> bool
    ensures { result ≡ table_sizes_ok table.now }
{
    if table.len() < 5 {
        return false;
    }
    let z = sizes_of(table);
    let ports = z.globals as usize + z.locals as usize + z.merges as usize;
    let rules = z.rules;
    let atoms = z.atoms;
    ((ports <= 256) & (rules <= 64) & (atoms <= 512)) & (table.len() == 5 + 2 * (atoms as usize))
}

fn rules_ok<'a>(words: &'a [u32], starts: &'a [u32; 65], z: Sizes) -> bool
    requires { (r : ℕ) → r < z.rules → Cut starts.now r (length words.now) }
    ensures { result ≡ all_below z.rules (λ r. rule_ok z (cut starts.now r words.now)) }
{
    let rules = z.rules as usize;
    let mut r = 0;
    while r < rules {
        if !rule_ok(rule_words(words, starts, r), z) {
            return false;
        }
        r += 1;
    }
    true
}

// The rule numbers, then the rules. Fills the index, which is right where the contents are.
fn contents_ok(table: &[u32], starts: &mut [u32; 65]) -> bool
    requires { TableSized table.now × (length starts.old ≡ 65) }
    ensures { IndexMade (table_contents_ok table.now) (numbers_of table.now)
        (sizes_of table.now).rules result starts.new }
{
    let z = sizes_of(table);
    if !index_rules(numbers_of(table), z.rules, starts) {
        return false;
    }
    rules_ok(atom_words_of(table), starts, z)
}

// 1, 2. Where the verdict is Allowed, the atoms of rule r stand from starts[r] on, up to starts[r + 1].
pub fn check(table: &[u32], starts: &mut [u32; 65]) -> Verdict
    requires { length starts.old ≡ 65 }
    ensures { CheckedAs table.now result starts.new }
{
    if !sizes_ok(table) {
        return Verdict::Denied(Refusal::TableSizes);
    }
    if !contents_ok(table, starts) {
        return Verdict::Denied(Refusal::TableContents);
    }
    Verdict::Allowed
}
