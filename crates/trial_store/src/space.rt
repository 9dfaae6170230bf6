// Create on the last free block and on a full store, and Replace in a full store.
use crate::call::Call::{Create, Destroy, GetCount, Read, Replace};
use crate::named::{P4096, P8193, P12290, P16387, P20484, P24581, P28678, P32775, P36867, P45061};
use crate::seen::Results::{BytesOf, Count, Id, Nothing};
use crate::trial::Want::{Done, Refused};
use crate::trial::{Trial, rows};
use std::io;

fn all_blocks(t: &mut Trial<impl Print>) -> io::Result<()> {
    t.fresh();
    t.rows(&rows![
        Create { client: 3, now: 1, expiry: 0, buffer: 528 } => Done(10, Id(P4096)),
        Create { client: 3, now: 2, expiry: 0, buffer: 528 } => Done(10, Id(P8193)),
        Create { client: 3, now: 3, expiry: 0, buffer: 528 } => Done(10, Id(P12290)),
        Create { client: 3, now: 4, expiry: 0, buffer: 528 } => Done(10, Id(P16387)),
        Create { client: 3, now: 5, expiry: 0, buffer: 528 } => Done(10, Id(P20484)),
        Create { client: 3, now: 6, expiry: 0, buffer: 528 } => Done(10, Id(P24581)),
        Create { client: 3, now: 7, expiry: 0, buffer: 528 } => Done(10, Id(P28678)),
        Create { client: 3, now: 8, expiry: 0, buffer: 528 } => Done(10, Id(P32775)),
    ])
}

fn no_space(t: &mut Trial<impl Print>) -> io::Result<()> {
    t.rows(&rows![
        Create { client: 3, now: 9, expiry: 0, buffer: 528 } => Refused(12),
        Replace { client: 3, id: P16387, now: 9, buffer: 528 } => Done(10, Id(P36867)),
        Read { client: 3, id: P36867, buffer: 528 } => Done(10, BytesOf(9)),
        Destroy { client: 3, id: P24581, now: 10 } => Done(18, Nothing),
        Create { client: 4, now: 11, expiry: 0, buffer: 528 } => Done(10, Id(P45061)),
        Create { client: 4, now: 12, expiry: 0, buffer: 528 } => Refused(12),
        GetCount { client: 3 } => Done(10, Count(7)),
        GetCount { client: 4 } => Done(10, Count(1)),
    ])
}

pub(crate) fn all(t: &mut Trial<impl Print>) -> io::Result<()> {
    t.heading("A full store")?;
    all_blocks(t)?;
    no_space(t)
}
