// Case (a) with the table's last atom 0x60000000 in place of 0x50000000: 01 has no role 6, and any
// fault in a table but its sizes is 2.
#![tactic(auto)]

use std::io;

fn main(rt: HostRuntime) -> io::Result<()> {
    report::run(&rt)
}
