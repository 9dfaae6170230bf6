// Runs GetIds, Scavenge and Profile as the case file, stdin, asks: on both sides of their limits, on damaged images, in
// walks while the store changes. It writes each line and then what is seen; the case file says what the numbers are.

#![tactic(auto)]

use std::io;
use std::io::Read;
use trial::Trial;

mod calls;
mod cases;
mod changing;
mod trial;
mod walks;

// The most bytes of a case file that are read.
const CASES: u64 = 65_536;

fn main(rt: HostRuntime) -> io::Result<()> {
    let mut cases = Vec::new(rt.alloc());
    rt.reader().take(CASES).read_to_end(&mut cases)?;
    let mut trial = Trial::new(&rt, rt.alloc())?;
    trial.lines(&cases)?;
    trial.total()
}
