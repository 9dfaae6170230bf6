// What is stored stays: Read gives what Create and Replace stored, and no other byte of the image changes.
use crate::call::Call::{Create, Destroy, Read, Replace, SetExpiry, Status};
use crate::named::{P409600, P413697, P417794, P425986};
use crate::seen::Results::{self, BytesOf, Id, Nothing};
use crate::trial::Want::{Done, Refused};
use crate::trial::{Trial, rows};
use std::io;

fn stored(t: &mut Trial<impl Print>) -> io::Result<()> {
    t.fresh();
    t.rows(&rows![
        Create { client: 3, now: 100, expiry: 500, buffer: 528 } => Done(810, Id(P409600)),
        Create { client: 5, now: 101, expiry: 50, buffer: 528 } => Done(10, Id(P413697)),
        Create { client: 3, now: 102, expiry: 500, buffer: 528 } => Done(806, Id(P417794)),
        Read { client: 3, id: P409600, buffer: 528 } => Done(10, BytesOf(100)),
        Read { client: 3, id: P413697, buffer: 528 } => Done(10, BytesOf(101)),
        Read { client: 3, id: P417794, buffer: 528 } => Done(10, BytesOf(102)),
    ])
}

fn destroyed(t: &mut Trial<impl Print>) -> io::Result<()> {
    let old = t.img;
    t.rows(&rows![
        Destroy { client: 5, id: P413697, now: 103 } => Done(14, Nothing),
    ])?;
    t.changed(
        &old,
        &[
            (0..64, 0),
            (128..512, 0),
            (512..1024, 1),
            (1024..1536, 1),
            (1536..5632, 0),
            (5632..6144, 1),
        ],
    )?;
    t.sound()
}

fn replaced(t: &mut Trial<impl Print>) -> io::Result<()> {
    t.rows(&rows![
        Read { client: 3, id: P409600, buffer: 528 } => Done(10, BytesOf(100)),
        Read { client: 3, id: P417794, buffer: 528 } => Done(10, BytesOf(102)),
        Read { client: 5, id: P413697, buffer: 528 } => Refused(10),
        Replace { client: 3, id: P417794, now: 104, buffer: 528 } => Done(10, Id(P425986)),
        Read { client: 3, id: P425986, buffer: 528 } => Done(10, BytesOf(104)),
        Read { client: 3, id: P417794, buffer: 528 } => Refused(10),
        Read { client: 3, id: P409600, buffer: 528 } => Done(10, BytesOf(100)),
    ])
}

// The header's expires is 8 bytes from 24, 500 and then 700; the clock is 8 bytes from 5656.
fn expiry_set(t: &mut Trial<impl Print>) -> io::Result<()> {
    let old = t.img;
    t.rows(&rows![
        SetExpiry { client: 3, id: P409600, now: 105, expiry: 700 } => Done(410, Nothing),
    ])?;
    t.changed(
        &old,
        &[
            (0..24, 0),
            (24..32, 2),
            (32..5656, 0),
            (5656..5664, 1),
            (5664..6144, 0),
        ],
    )?;
    t.rows(&rows![
        Status { client: 3, id: P409600 } => Done(10, Results::Status { owner: 3, created: 100, expires: 700 }),
    ])?;
    t.sound()
}

pub(crate) fn all(t: &mut Trial<impl Print>) -> io::Result<()> {
    t.heading("What is stored stays")?;
    stored(t)?;
    destroyed(t)?;
    replaced(t)?;
    expiry_set(t)
}
