// Ids that lead to no block, and blocks of another client.
use crate::call::Call::{Create, Read, Status};
use crate::groups::{naming, owners};
use crate::named::{P1, P405504, P409600, P409601, P409602, P409608, P413697, P4503599627370496};
use crate::seen::Results::{self, BytesOf, Id};
use crate::trial::Want::Done;
use crate::trial::{Trial, rows};
use std::io;

fn two_blocks(t: &mut Trial<impl Print>) -> io::Result<()> {
    t.fresh();
    t.heading("Ids and owners: blocks of clients 3 and 5")?;
    t.rows(&rows![
        Create { client: 3, now: 100, expiry: 500, buffer: 528 } => Done(810, Id(P409600)),
        Create { client: 5, now: 101, expiry: 50, buffer: 528 } => Done(10, Id(P413697)),
        Read { client: 5, id: P409600, buffer: 528 } => Done(10, BytesOf(100)),
        Status { client: 5, id: P409600 } => Done(10, Results::Status { owner: 3, created: 100, expires: 500 }),
    ])
}

fn no_such_block(t: &mut Trial<impl Print>) -> io::Result<()> {
    for (what, id) in [
        ("The id of block 1 with block 0's time", P409601),
        ("The id of block 0 with another time", P405504),
        ("The id of an unused block, 2", P409602),
        ("The id 0", 0),
        ("Not shaped: the number 1", 1),
        ("Not shaped: block 8", P409608),
        ("Not shaped: p = 2^52", P4503599627370496),
        ("Not shaped: time 0", P1),
    ] {
        t.refused(what, &naming(3, id, 102), 10)?;
    }
    Ok(())
}

pub(crate) fn all(t: &mut Trial<impl Print>) -> io::Result<()> {
    two_blocks(t)?;
    no_such_block(t)?;
    t.refused("Another client", &owners(5, P409600, 102), 11)?;
    t.refused("Another client, another time", &owners(5, P405504, 102), 10)
}
