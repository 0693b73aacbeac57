// The conditions of a single rule, which is a slice of atoms.
ghost use Rattle.std.specs.Prelude.{◌&&◌, ◌≡◌, ◌≤◌, leb, length, get_or, drop};
ghost use Rattle.lists.specs.Lists.{any, count_if};
ghost use Rattle.lists.specs.Runs.{in_run, goes, RunEnd};
ghost use Rattle.semantics.specs.Words.{atom_role, port_of};
ghost use Rattle.semantics.specs.Table.{class_of, is_role, atom_ok, rule_ok};

use crate::atom::{class_of, in_run};
use semantics::{Shape, Sizes};
use words::atom::{port_of, role_of};

// The place behind the consumes (takes), which come first.
pub fn consumes_of(ws: &[u32]) -> usize
    ensures { RunEnd (is_role 0) ws.now 0 result }
{
    for i in 0..ws.len() {
        if role_of(ws[i]) != 0 {
            return i;
        }
    }
    ws.len()
}

pub fn has_role(ws: &[u32], role: u32) -> bool
    ensures { result ≡ any (is_role role) ws.now }
{
    ws.iter().any(|w| role_of(*w) == role)
}

// The class of the first atom's port, that of port 0 where there is none.
pub fn rule_class(ws: &[u32], z: Sizes) -> u32
    ensures { result ≡ class_of z (port_of (get_or ws.now 0 0)) }
{
    let first = ws.first().copied().unwrap_or(0);
    class_of(z, port_of(first))
}

// The place behind the atoms of a role from a place on, up to the first that is of another role or
// wrong.
fn run_end(ws: &[u32], from: usize, role: u32, z: Sizes, s: Shape) -> usize
    requires { (from ≤ length ws.now) × (s.consumes ≤ 16) }
    ensures { RunEnd (in_run atom_role (atom_ok z s) role) ws.now from result }
{
    for i in from..ws.len() {
        if !in_run(z, s, role, ws[i]) {
            return i;
        }
    }
    ws.len()
}

// What follows a begin: bodies, compensations and at most one abort, up to the end.
fn rest_ok(ws: &[u32], from: usize, z: Sizes, s: Shape) -> bool
    requires { (from ≤ length ws.now) × (s.consumes ≤ 16) }
    ensures { result ≡ leb (count_if (is_role 5) (drop from ws.now)) 1 && goes atom_role (atom_ok z s) 3 (drop from ws.now) }
{
    let bodies = run_end(ws, from, 3, z, s);
    let compensations = run_end(ws, bodies, 4, z, s);
    let aborts = run_end(ws, compensations, 5, z, s);
    (aborts - compensations <= 1) & (aborts == ws.len())
}

// Roles never fall, so a rule is one run of each role's atoms after another, up to its end.
pub fn rule_ok(ws: &[u32], z: Sizes) -> bool
    ensures { result ≡ rule_ok z ws.now }
{
    if 16 < ws.len() {
        return false;
    }
    let class = rule_class(ws, z);
    let blank = Shape {
        consumes: 0,
        begins: 0,
        class,
    };
    let consumes = run_end(ws, 0, 0, z, blank);
    let consuming = Shape { consumes, ..blank };
    let emits = run_end(ws, consumes, 1, z, consuming);
    let opened = run_end(ws, emits, 2, z, consuming);
    let begins = opened - emits;
    let s = Shape {
        begins,
        ..consuming
    };
    ((1 <= consumes) & (consumes <= 4)) & (begins <= 1) & rest_ok(ws, opened, z, s)
}
