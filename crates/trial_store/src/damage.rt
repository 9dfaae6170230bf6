// Images that are not sound: a wrong length or trailer, a damaged count, a damaged header.
use crate::call::Call::{Create, Destroy, GetCount, Status};
use crate::groups::{naming, seven};
use crate::named::{P405504, P409600, P413697, P417794};
use crate::seen::Results::{Count, Id, Nothing};
use crate::trial::Want::{Done, Refused};
use crate::trial::{Trial, rows};
use std::io;

// Each call also has a client above 63: BadImage comes first. The image is cut for the first seven calls alone.
fn bad_images(t: &mut Trial<impl Print>) -> io::Result<()> {
    t.fresh();
    t.cut = true;
    t.refused("An image one byte short, client 64", &seven(), 1)?;
    t.cut = false;
    t.poke(6143, 51)?;
    t.refused("The last byte of the trailer wrong", &seven(), 1)?;
    t.poke(6143, 50)?;
    t.poke(5652, 1)?;
    t.refused("A zero byte of the trailer not zero", &seven(), 1)
}

// The count of client 3 is at 1048.
fn counts_high(t: &mut Trial<impl Print>) -> io::Result<()> {
    t.fresh();
    t.rows(&rows![
        Create { client: 3, now: 100, expiry: 500, buffer: 528 } => Done(810, Id(P409600)),
    ])?;
    t.poke(1048, 8)?;
    t.rows(&rows![
        GetCount { client: 3 } => Done(10, Count(8)),
        Create { client: 3, now: 101, expiry: 50, buffer: 528 } => Refused(9),
    ])?;
    t.poke(1048, 9)?;
    t.rows(&rows![
        GetCount { client: 3 } => Refused(9),
        Create { client: 3, now: 101, expiry: 50, buffer: 528 } => Refused(9),
    ])?;
    t.poke(1048, 7)?;
    t.rows(&rows![
        Create { client: 3, now: 101, expiry: 50, buffer: 528 } => Done(10, Id(P413697)),
        GetCount { client: 3 } => Done(10, Count(8)),
    ])
}

fn counts_zero(t: &mut Trial<impl Print>) -> io::Result<()> {
    t.poke(1048, 0)?;
    t.rows(&rows![
        Destroy { client: 3, id: P409600, now: 102 } => Refused(9),
        Destroy { client: 3, id: P405504, now: 102 } => Refused(10),
        Destroy { client: 5, id: P409600, now: 102 } => Refused(11),
        Create { client: 3, now: 102, expiry: 102, buffer: 528 } => Done(10, Id(P417794)),
        Destroy { client: 3, id: P409600, now: 103 } => Done(-784, Nothing),
        GetCount { client: 3 } => Done(10, Count(0)),
    ])
}

// The owner in the header of block 0 is made 64.
fn headers_used(t: &mut Trial<impl Print>) -> io::Result<()> {
    t.fresh();
    t.rows(&rows![
        Create { client: 3, now: 100, expiry: 500, buffer: 528 } => Done(810, Id(P409600)),
    ])?;
    t.poke(1, 64)?;
    t.refused(
        "The owner in block 0's header is 64",
        &naming(3, P409600, 102),
        9,
    )?;
    t.refused(
        "The same, the id of another time",
        &naming(3, P405504, 102),
        9,
    )
}

// A byte of the header of block 1, which is free, is made 1.
fn headers_free(t: &mut Trial<impl Print>) -> io::Result<()> {
    t.poke(104, 1)?;
    t.heading("A byte in the free block 1's header is 1")?;
    t.rows(&rows![
        Create { client: 3, now: 101, expiry: 50, buffer: 528 } => Refused(9),
        Status { client: 3, id: P413697 } => Refused(9),
    ])
}

pub(crate) fn all(t: &mut Trial<impl Print>) -> io::Result<()> {
    bad_images(t)?;
    t.heading("Damaged counts")?;
    counts_high(t)?;
    counts_zero(t)?;
    t.heading("Damaged headers")?;
    headers_used(t)?;
    headers_free(t)
}
