// The parts of a table: its sizes, the rule numbers, the atoms, and the atoms of one rule.
ghost use Rattle.std.specs.Prelude.{◌≡◌, ◌≤◌, ◌-◌, length, take, drop};
ghost use Rattle.semantics.specs.Table.{sizes_of, numbers_of, atom_words_of};
ghost use Rattle.wellformed.specs.Tables.{TableSized};
ghost use Rattle.table.specs.Index.{Cut, cut};

use semantics::Sizes;

pub fn sizes_of(table: &[u32]) -> Sizes
    requires { 5 ≤ length table.now }
    ensures { result ≡ sizes_of table.now }
{
    Sizes {
        globals: table[0],
        locals: table[1],
        merges: table[2],
        rules: table[3],
        atoms: table[4],
    }
}

fn part<'a>(words: &'a [u32], from: usize, to: usize) -> &'a [u32]
    requires { (from ≤ to) × (to ≤ length words.now) }
    ensures { result.now ≡ take (to - from) (drop from words.now) }
{
    &words[from..to]
}

pub fn numbers_of(table: &[u32]) -> &[u32]
    requires { TableSized table.now }
    ensures { result.now ≡ numbers_of table.now }
{
    let z = sizes_of(table);
    part(table, 5, 5 + z.atoms as usize)
}

pub fn atom_words_of(table: &[u32]) -> &[u32]
    requires { TableSized table.now }
    ensures { result.now ≡ atom_words_of table.now }
{
    let z = sizes_of(table);
    part(table, 5 + z.atoms as usize, table.len())
}

// The words of rule r.
pub fn rule_words<'a>(words: &'a [u32], starts: &'a [u32; 65], r: usize) -> &'a [u32]
    requires { Cut starts.now r (length words.now) }
    ensures { result.now ≡ cut starts.now r words.now }
{
    let from = starts[r] as usize;
    let to = starts[r + 1] as usize;
    part(words, from, to)
}
