// Runs the seven operations on one block, and document 01's fourteen calls, on images of 8 blocks in memory.
// A row: what ran, what document 01 expects, what was seen, and DIFFERS where the two are not the same.

#![tactic(auto)]

use std::io;
use trial::Trial;

mod call;
mod clients;
mod damage;
mod fourteen;
mod groups;
mod ids;
mod kept;
mod named;
mod seen;
mod space;
mod stored;
mod times;
mod trial;

fn main(rt: HostRuntime) -> io::Result<()> {
    let mut t = Trial::new(&rt);
    println!(rt; "Fourteen calls; Status after the third, the sixth and the eleventh")?;
    fourteen::all(&mut t)?;
    clients::all(&mut t)?;
    times::all(&mut t)?;
    space::all(&mut t)?;
    ids::all(&mut t)?;
    damage::all(&mut t)?;
    kept::all(&mut t)?;
    t.total()
}
