// Document 01's fourteen calls, in sequence, with Status after the third, the sixth and the eleventh.
use crate::call::Call::{
    Create, Destroy, GetCount, GetIds, Read, Replace, Scavenge, SetExpiry, Status,
};
use crate::named::{P409600, P413697, P450561};
use crate::seen::Results::{self, Count, Id, Nothing};
use crate::trial::Want::{Done, Refused};
use crate::trial::{Trial, rows};
use std::io;

pub(crate) fn all(t: &mut Trial<impl Print>) -> io::Result<()> {
    t.fresh();
    t.rows(&rows![
        Create { client: 3, now: 100, expiry: 500, buffer: 528 } => Done(810, Id(P409600)),
        Create { client: 3, now: 100, expiry: 500, buffer: 528 } => Refused(4),
        Create { client: 5, now: 101, expiry: 50, buffer: 528 } => Done(10, Id(P413697)),
        Status { client: 5, id: P413697 } => Done(10, Results::Status { owner: 5, created: 101, expires: 101 }),
        SetExpiry { client: 5, id: P409600, now: 102, expiry: 300 } => Refused(11),
        SetExpiry { client: 3, id: P409600, now: 103, expiry: 300 } => Done(-390, Nothing),
        Replace { client: 5, id: P413697, now: 110, buffer: 528 } => Done(10, Id(P450561)),
        Status { client: 5, id: P450561 } => Done(10, Results::Status { owner: 5, created: 110, expires: 101 }),
    ])?;
    t.rows(&rows![
        Read { client: 5, id: P413697, buffer: 528 } => Refused(10),
        GetIds { client: 3, count: 1, key: 0 } => Done(10, Results::Ids { key: 1, entries: 1, id: P409600 }),
        GetIds { client: 3, count: 1, key: 1 } => Done(10, Results::Ids { key: 65535, entries: 0, id: 0 }),
        Scavenge { client: 3, key: 0, now: 200 } => Refused(5),
        Scavenge { client: 0, key: 0, now: 300 } => Done(10, Results::Scavenged { key: 65535, count: 1 }),
        Status { client: 3, id: P409600 } => Done(10, Results::Status { owner: 3, created: 100, expires: 300 }),
        Destroy { client: 3, id: P409600, now: 350 } => Done(110, Nothing),
        GetCount { client: 3 } => Done(10, Count(0)),
        GetIds { client: 3, count: 1, key: 8 } => Refused(6),
    ])
}
