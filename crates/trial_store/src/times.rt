// Times on both sides of their limits: now and the asked expiry.
use crate::call::Call::{Create, Destroy, Replace, SetExpiry, Status};
use crate::groups::changing;
use crate::named::{LAST, OVER, P20480, P24577, P409600, P4503599627366400};
use crate::seen::Results::{self, Id, Nothing};
use crate::trial::Want::{Done, Refused};
use crate::trial::{Trial, rows};
use std::io;

fn expiries(t: &mut Trial<impl Print>) -> io::Result<()> {
    t.fresh();
    t.heading("The asked expiry")?;
    t.rows(&rows![
        Create { client: 3, now: 5, expiry: OVER, buffer: 528 } => Refused(3),
        Create { client: 3, now: 5, expiry: LAST, buffer: 528 } => Done(2199023255550, Id(P20480)),
        Create { client: 3, now: 6, expiry: 0, buffer: 528 } => Done(10, Id(P24577)),
        Status { client: 3, id: P24577 } => Done(10, Results::Status { owner: 3, created: 6, expires: 6 }),
        SetExpiry { client: 3, id: P24577, now: 7, expiry: OVER } => Refused(3),
        SetExpiry { client: 3, id: P24577, now: 7, expiry: LAST } => Done(2199023255548, Nothing),
        SetExpiry { client: 3, id: P24577, now: 8, expiry: 0 } => Done(-2199023255524, Nothing),
        Status { client: 3, id: P24577 } => Done(10, Results::Status { owner: 3, created: 6, expires: 8 }),
    ])
}

fn nows(t: &mut Trial<impl Print>) -> io::Result<()> {
    for (what, now, report) in [
        ("Now 0", 0, 3),
        ("Now 2^40", OVER, 3),
        ("Now equal to the clock, 8", 8, 4),
        ("Now below the clock, 7", 7, 4),
    ] {
        t.refused(what, &changing(3, P24577, now), report)?;
    }
    Ok(())
}

fn last_set(t: &mut Trial<impl Print>) -> io::Result<()> {
    t.heading("Now 2^40 - 1")?;
    t.rows(&rows![
        SetExpiry { client: 3, id: P24577, now: LAST, expiry: 0 } => Done(2199023255544, Nothing),
    ])?;
    t.fresh();
    t.rows(&rows![
        Create { client: 3, now: LAST, expiry: 0, buffer: 528 } => Done(10, Id(P4503599627366400)),
        Status { client: 3, id: P4503599627366400 } =>
            Done(10, Results::Status { owner: 3, created: LAST, expires: LAST }),
    ])
}

fn last_times(t: &mut Trial<impl Print>) -> io::Result<()> {
    t.fresh();
    t.rows(&rows![
        Create { client: 3, now: 100, expiry: 500, buffer: 528 } => Done(810, Id(P409600)),
        Replace { client: 3, id: P409600, now: LAST, buffer: 528 } => Done(10, Id(P4503599627366400)),
        Status { client: 3, id: P4503599627366400 } =>
            Done(10, Results::Status { owner: 3, created: LAST, expires: 500 }),
    ])?;
    t.fresh();
    t.rows(&rows![
        Create { client: 3, now: 100, expiry: 500, buffer: 528 } => Done(810, Id(P409600)),
        Destroy { client: 3, id: P409600, now: LAST } => Done(2199023254560, Nothing),
    ])
}

pub(crate) fn all(t: &mut Trial<impl Print>) -> io::Result<()> {
    expiries(t)?;
    nows(t)?;
    last_set(t)?;
    t.refused(
        "The clock at 2^40 - 1",
        &changing(3, P4503599627366400, LAST),
        4,
    )?;
    last_times(t)
}
