// The program of document 01. stdin is case (a) of the two-lot plant, stdout 01's seven lines for it.
#![tactic(auto)]

use std::io;

fn main(rt: HostRuntime) -> io::Result<()> {
    report::run(&rt)
}
