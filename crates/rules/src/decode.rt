// A rule of a well-formed table, decoded.
ghost use Rattle.std.specs.Prelude.{◌≡◌, ◌≤◌, ◌<◌, eqb, length};
ghost use Rattle.lists.specs.Lists.{one_if};
ghost use Rattle.semantics.specs.Words.{atom_mode, value_of};
ghost use Rattle.semantics.specs.Table.{sizes_of, numbers_of, atom_value, atom_of, rule_of, table_of, rule_at, consumed};
ghost use Rattle.wellformed.specs.Tables.{RuleFits};
ghost use Rattle.semantics.specs.Answers.{table_verdict};
ghost use Rattle.semantics.specs.declared.Verdict.TheVariants.{Allowed};
ghost use Rattle.table.specs.Index.{Starts};
ghost use Rattle.rules.specs.Decode.{Decodes};

use legal::rule::{consumes_of, rule_class};
use semantics::{Atom, AtomValue, Sizes};
use table::parts::{atom_words_of, rule_words, sizes_of};
use words::atom;

// The first count atoms are the rule's, the consumes (takes) first among them.
#[derive(Clone, Copy)]
pub struct Rule {
    pub atoms: [Atom; 16],
    pub count: usize,
    pub consumes: usize,
    pub class: u32,
    pub begins: bool,
}

fn value_of(w: u32) -> AtomValue
    ensures { result ≡ atom_value (eqb (atom_mode w) 1) (value_of w) }
{
    let value = atom::value_of(w) as u16;
    if atom::mode_of(w) == 1 {
        AtomValue::Received(value)
    } else {
        AtomValue::Constant(value)
    }
}

pub fn atom_of(w: u32) -> Atom
    ensures { result ≡ atom_of w }
{
    let value = value_of(w);
    Atom {
        role: atom::role_of(w) as u16,
        port: atom::port_of(w) as u16,
        value: value,
    }
}

fn one_if(b: bool) -> usize
    ensures { (result ≡ one_if b) × (result ≤ 1) }
{
    if b { 1 } else { 0 }
}

// In one pass, and the atoms are written where the answer has them: copying them costs time.
fn rule_of(ws: &[u32], z: Sizes) -> Rule
    requires { RuleFits z ws.now }
    ensures { Decodes result (rule_of z ws.now) }
{
    let blank = atom_of(0);
    let mut rule = Rule {
        atoms: [blank; 16],
        count: ws.len(),
        consumes: 0,
        class: rule_class(ws, z),
        begins: false,
    };
    let mut consumes = 0;
    let mut begins = false;
    let mut i = 0;
    while i < ws.len() {
        let w = ws[i];
        let role = atom::role_of(w);
        rule.atoms[i] = atom_of(w);
        consumes += one_if(role == 0);
        begins = begins | (role == 2);
        i += 1;
    }
    rule.consumes = consumes;
    rule.begins = begins;
    rule
}

pub fn rule_at<'a>(table: &'a [u32], starts: &'a [u32; 65], r: u32) -> Rule
    requires { (table_verdict table.now ≡ Allowed) × (r < (sizes_of table.now).rules)
        × Starts (numbers_of table.now) (sizes_of table.now).rules starts.now }
    ensures { Decodes result (rule_at (table_of table.now) r) }
{
    let z = sizes_of(table);
    rule_of(rule_words(atom_words_of(table), starts, r as usize), z)
}

// How many consumes (takes) rule r has, without decoding it.
pub fn consumes_at<'a>(table: &'a [u32], starts: &'a [u32; 65], r: u32) -> usize
    requires { (table_verdict table.now ≡ Allowed) × (r < (sizes_of table.now).rules)
        × Starts (numbers_of table.now) (sizes_of table.now).rules starts.now }
    ensures { (result ≡ length (consumed (rule_at (table_of table.now) r))) × (result ≤ 4) }
{
    consumes_of(rule_words(atom_words_of(table), starts, r as usize))
}
