// The conditions of a single atom, which is a word.
ghost use Rattle.std.specs.Prelude.{◌≤◌, ◌≡◌};
ghost use Rattle.lists.specs.Runs.{in_run};
ghost use Rattle.semantics.specs.Words.{atom_role};
ghost use Rattle.semantics.specs.Table.{class_of, mode_ok, atom_ok};

use semantics::{Shape, Sizes};
use words::atom;

// The class of a port: 0 global, 1 local, 2 merge. A number, since the definitions compare it as one.
pub fn class_of(z: Sizes, port: u32) -> u32
    ensures { result ≡ class_of z port }
{
    if port < z.globals {
        return 0;
    }
    if (port as usize) < z.globals as usize + z.locals as usize {
        return 1;
    }
    2
}

// A constant (mode 0), or the value that one of the rule's consumes (takes) received (mode 1): with
// the mode in front of the value both are below one bound.
fn value_ok(s: Shape, w: u32) -> bool
    requires { s.consumes ≤ 16 }
    ensures { result ≡ mode_ok s w }
{
    let value = atom::moded_value_of(w);
    (value as usize) < atom::VALUES + s.consumes
}

#[tactic(auto, unfolding(semantics::specs::Table::atom_ok))]
fn atom_ok(z: Sizes, s: Shape, w: u32) -> bool
    requires { s.consumes ≤ 16 }
    ensures { result ≡ atom_ok z s w }
{
    let role = atom::role_of(w);
    let mode = atom::mode_of(w);
    let port = atom::port_of(w);
    let value = atom::value_of(w);
    let globals = z.globals;
    let ports = z.globals as usize + z.locals as usize + z.merges as usize;
    let begins = s.begins;
    let class = s.class;
    let consume_ok = !(role == 0) | (mode == 0) & (value == 0) & (class_of(z, port) == class);
    let emit_ok = !((role == 1) & (class == 0)) | (port < globals);
    let mark_ok = !((role == 2) | (role == 5)) | (mode == 0) & (port == 0) & (value == 0);
    let begin_ok = !((class == 0) & (3 <= role)) | (1 <= begins);
    let inner_ok = !(class != 0) | ((role == 0) | (role == 1) | (role == 5));
    let compensate_ok = !(role == 4) | (port < globals);
    (role <= 5)
        & value_ok(s, w)
        & ((port as usize) < ports)
        & consume_ok
        & emit_ok
        & mark_ok
        & begin_ok
        & inner_ok
        & compensate_ok
}

// An atom of a role that is right. The role goes first: where it is given, the compiler leaves out
// the conditions of the others.
pub fn in_run(z: Sizes, s: Shape, role: u32, w: u32) -> bool
    requires { s.consumes ≤ 16 }
    ensures { result ≡ in_run atom_role (atom_ok z s) role w }
{
    if atom::role_of(w) != role {
        return false;
    }
    atom_ok(z, s, w)
}
