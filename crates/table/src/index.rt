// The rule numbers: checked, and indexed, in one pass.
ghost use Rattle.std.specs.Prelude.{◌≡◌, ◌≤◌, length};
ghost use Rattle.semantics.specs.Table.{numbers_ok};
ghost use Rattle.table.specs.Index.{IndexMade};

// Where the numbers are right, the atoms of rule r stand from starts[r] on, up to starts[r + 1].
// The numbers go 0, .., 0, 1, .., 1, up to rules − 1, with no gap: a number is that of the rule at
// hand or of the next one. `seen` rules have begun; the atom at hand is the last of its rule so far.
pub fn index_rules(numbers: &[u32], rules: u32, starts: &mut [u32; 65]) -> bool
    requires { (length numbers.now ≤ 512) × (rules ≤ 64) × (length starts.old ≡ 65) }
    ensures { IndexMade (numbers_ok rules numbers.now) numbers.now rules result starts.new }
{
    let limit = rules as usize;
    starts[0] = 0;
    let mut seen = 0;
    let mut i = 0;
    while i < numbers.len() {
        let n = numbers[i] as usize;
        if !((n < limit) & (n <= seen) & (seen <= n + 1)) {
            return false;
        }
        seen = n + 1;
        i += 1;
        starts[seen] = i as u32;
    }
    seen == limit
}
