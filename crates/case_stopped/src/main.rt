// A log that breaks off: four moves of case (a), then 01's case (b), release 1, which gives 10, and a
// move that is not reached. The first five lines are those of 01 for (a); the refused move leaves n
// and N as they were after the fourth.
#![tactic(auto)]

use std::io;

fn main(rt: HostRuntime) -> io::Result<()> {
    report::run(&rt)
}
