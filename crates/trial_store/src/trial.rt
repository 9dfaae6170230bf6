// A trial of an image of 8 blocks: it runs calls, and writes a row of what document 01 expects and what is seen.
use crate::call::Call;
use crate::seen::{Results, Seen};
use std::ops::Range;
use std::{fmt, io};

const SIZE: usize = 6144;

pub(crate) type Image = [u8; SIZE];

// What document 01 expects of a call. A report is a number, as in its tables.
#[derive(Clone, Copy)]
pub(crate) enum Want {
    // A success, with its charge and results. It changes the image, or a buffer, where the operation does.
    Done(i64, Results),
    // A refusal with a report: it charges the error price, changes no byte, and gives zeros and the key that came.
    Refused(u8),
}

// Calls, each with what is expected of it.
macro_rules! rows {
    ($($call:expr => $want:expr),* $(,)?) => { [$(($call, $want)),*] };
}

pub(crate) use rows;

impl Want {
    // What is to be seen of a call.
    fn of(self, call: Call) -> Seen {
        match self {
            Want::Done(charge, results) => Seen {
                report: 0,
                charge,
                image: call.is_change(),
                buffer: results.is_in_buffer(),
                results,
            },
            Want::Refused(report) => Seen {
                report,
                charge: 1,
                image: false,
                buffer: false,
                results: call.no_results(),
            },
        }
    }
}

#[derive(Drop)]
pub(crate) struct Trial<'a, R: Print> {
    rt: &'a R,
    pub img: Image,
    // Whether the last byte of the image is left out of what calls are lent.
    pub cut: bool,
    rows: u32,
    differ: u32,
}

impl<'a, R: Print> Trial<'a, R> {
    pub(crate) fn new(rt: &'a R) -> Self {
        Trial {
            rt,
            img: [0; SIZE],
            cut: false,
            rows: 0,
            differ: 0,
        }
    }

    // The image is a fresh one.
    pub(crate) fn fresh(&mut self) {
        image::format::format(8, &mut self.img);
    }

    // A line above rows.
    pub(crate) fn heading(&self, what: &str) -> io::Result<()> {
        println!(self.rt; "\n{what}")
    }

    // A byte of the image is made v, where it has one there, and a line says so.
    pub(crate) fn poke(&mut self, at: usize, v: u8) -> io::Result<()> {
        if at < SIZE {
            self.img[at] = v;
        }
        println!(self.rt; "Byte {at} of the image is made {v}")
    }

    // A row: what ran, what is expected, what is seen, and DIFFERS where the two are not the same.
    fn compare<T: PartialEq + fmt::Display>(
        &mut self,
        what: &impl fmt::Display,
        expected: &T,
        seen: &T,
    ) -> io::Result<()> {
        let right = expected == seen;
        let mark = if right { "" } else { "  DIFFERS" };
        println!(self.rt; "{what}: expected {expected}; saw {seen}{mark}")?;
        self.rows = self.rows.saturating_add(1);
        if !right {
            self.differ = self.differ.saturating_add(1);
        }
        Ok(())
    }

    fn row(&mut self, call: Call, want: Want) -> io::Result<()> {
        let old = self.img;
        let lent = if self.cut { SIZE - 1 } else { SIZE };
        let mut seen = call.run(&mut self.img[..lent]);
        seen.image = self.img != old;
        self.compare(&call, &want.of(call), &seen)
    }

    pub(crate) fn rows(&mut self, rows: &[(Call, Want)]) -> io::Result<()> {
        for (call, want) in rows {
            self.row(*call, *want)?;
        }
        Ok(())
    }

    // Calls in one situation, which a line above them names: each is to be refused with one report.
    pub(crate) fn refused(&mut self, what: &str, calls: &[Call], report: u8) -> io::Result<()> {
        self.heading(what)?;
        for call in calls {
            self.row(*call, Want::Refused(report))?;
        }
        Ok(())
    }

    // What Check says of a sound image, 1 for yes.
    pub(crate) fn sound(&mut self) -> io::Result<()> {
        let seen = u8::from(image::sound::check(&self.img));
        self.compare(&"Check", &1, &seen)
    }

    // How many bytes of a range of the image are not as they were.
    pub(crate) fn changed(
        &mut self,
        old: &Image,
        ranges: &[(Range<usize>, usize)],
    ) -> io::Result<()> {
        for (range, want) in ranges {
            let seen = old
                .iter()
                .zip(&self.img)
                .skip(range.start)
                .take(range.len())
                .filter(|(x, y)| x != y)
                .count();
            let from = range.start;
            let to = range.end;
            self.compare(
                &format_args!("Bytes changed from {from} up to {to}"),
                want,
                &seen,
            )?;
        }
        Ok(())
    }

    // The last line.
    pub(crate) fn total(&self) -> io::Result<()> {
        let rows = self.rows;
        let differ = self.differ;
        println!(self.rt; "\n{rows} rows, {differ} differ")
    }
}
