// Clients on both sides of the limit, 63 and 64, and the sizes of data buffers: 527, 528 and 529.
use crate::call::Call::{Create, Destroy, GetCount, Read, Replace, SetExpiry, Status};
use crate::groups::{lending, seven};
use crate::named::{P409600, P413696, P417792};
use crate::seen::Results::{self, BytesOf, Count, Id, Nothing};
use crate::trial::Want::Done;
use crate::trial::{Trial, rows};
use std::io;

fn client_63(t: &mut Trial<impl Print>) -> io::Result<()> {
    t.fresh();
    t.heading("Client 63")?;
    t.rows(&rows![
        Create { client: 63, now: 100, expiry: 500, buffer: 528 } => Done(810, Id(P409600)),
        Read { client: 63, id: P409600, buffer: 528 } => Done(10, BytesOf(100)),
        Status { client: 63, id: P409600 } => Done(10, Results::Status { owner: 63, created: 100, expires: 500 }),
        GetCount { client: 63 } => Done(10, Count(1)),
        SetExpiry { client: 63, id: P409600, now: 101, expiry: 500 } => Done(10, Nothing),
        Replace { client: 63, id: P409600, now: 102, buffer: 528 } => Done(10, Id(P417792)),
        Destroy { client: 63, id: P417792, now: 103 } => Done(-784, Nothing),
    ])
}

fn buffer_528(t: &mut Trial<impl Print>) -> io::Result<()> {
    t.fresh();
    t.heading("A buffer of 528 bytes")?;
    t.rows(&rows![
        Create { client: 3, now: 100, expiry: 500, buffer: 528 } => Done(810, Id(P409600)),
        Read { client: 3, id: P409600, buffer: 528 } => Done(10, BytesOf(100)),
        Replace { client: 3, id: P409600, now: 101, buffer: 528 } => Done(10, Id(P413696)),
    ])
}

pub(crate) fn all(t: &mut Trial<impl Print>) -> io::Result<()> {
    client_63(t)?;
    t.refused("Client 64", &seven(), 2)?;
    buffer_528(t)?;
    t.refused("A buffer of 527 bytes", &lending(3, P413696, 102, 527), 8)?;
    t.refused("A buffer of 529 bytes", &lending(3, P413696, 102, 529), 8)
}
