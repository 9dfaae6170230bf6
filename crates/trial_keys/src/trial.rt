// The trial: a store, the room for images, and the rows so far. A row is a line of the case file, which says what runs
// and what is expected; then what is seen.
use crate::calls::{Call, PRICES, Seen};
use crate::cases::Case;
use crate::walks::{Asked, Walked, Walking};
use kinds::{Tick, User};
use std::alloc::{AllocError, Global};
use std::io::Write;
use std::{fmt, io};

// The size of an image of 72 blocks.
const STORE: usize = 43008;

// The size of an image of 4,096 blocks.
const ROOM: usize = 2360832;

// Room for the largest buffer that is lent, and what each byte is before a call.
const BUFFER: usize = 1600;

const UNWRITTEN: u8 = 238;

#[derive(Drop)]
pub(crate) struct Trial<'a, R: Print> {
    rt: &'a R,
    alloc: Global,
    store: Vec<u8>,
    // Begins with the last call's copy of the store, or the last walk's store. It is never cleared: a call that is lent
    // more than the store has, or a walk whose store is not made, finds what stands there.
    room: Vec<u8>,
    rows: u32,
    differ: u32,
}

// The store of the case file: 72 blocks, of which 66 are client 3's and then 4 client 5's.
fn make_store(alloc: Global) -> Result<Vec<u8>, AllocError> {
    let mut img = vec![in alloc; 0; STORE]?;
    image::format::format(72, &mut img);
    for b in 0..70 {
        let client = if b < 66 { 3 } else { 5 };
        store::create::create(
            PRICES,
            User(client),
            Tick(b + 1000),
            &[b'z'; 528],
            Tick(b + 1),
            &mut img,
        );
    }
    Ok(img)
}

// Copies as many bytes as both have: `copy_from_slice` asks for as many on each side.
fn copy(to: &mut [u8], from: &[u8]) {
    for (to, from) in to.iter_mut().zip(from) {
        *to = *from;
    }
}

impl<'a, R: Print> Trial<'a, R> {
    pub(crate) fn new(rt: &'a R, alloc: Global) -> Result<Self, AllocError> {
        Ok(Trial {
            rt,
            alloc,
            store: make_store(alloc)?,
            room: vec![in alloc; 0; ROOM]?,
            rows: 0,
            differ: 0,
        })
    }

    // The end of a row, with a mark where it differs. trial_store has the like: the programs share no crate.
    fn compare<T: PartialEq + fmt::Display>(&mut self, expected: &T, seen: &T) -> io::Result<()> {
        let right = expected == seen;
        let mark = if right { "" } else { " DIFFERS" };
        println!(self.rt; " | {seen}{mark}")?;
        self.rows = self.rows.wrapping_add(1);
        if !right {
            self.differ = self.differ.wrapping_add(1);
        }
        Ok(())
    }

    // What is seen of a call on a copy of the store.
    fn call(&mut self, call: Call) -> Seen {
        let mut buffer = [UNWRITTEN; BUFFER];
        copy(&mut self.room, &self.store);
        let mut seen = call.lent(&mut buffer, &mut self.room);
        seen.image = u64::from(!self.room.starts_with(&self.store));
        let last = buffer.iter().rposition(|byte| *byte != UNWRITTEN);
        seen.written = last.map_or(0, |last| last as u64 + 1);
        seen
    }

    // What is seen of a walk; what is told beside it is written.
    fn walk(&mut self, asked: Asked) -> io::Result<Walked> {
        let walking = Walking::through(self.alloc, &mut self.room, asked)?;
        print!(self.rt; " {walking}")?;
        Ok(walking.walked)
    }

    fn line(&mut self, line: &[u8]) -> io::Result<()> {
        io::writer(self.rt).write_all(line)?;
        match Case::of(line) {
            None => Ok(()),
            Some(Case::Call(call, expected)) => {
                let seen = self.call(call);
                self.compare(&expected, &seen)
            }
            Some(Case::Walk(asked, expected)) => {
                let seen = self.walk(asked)?;
                self.compare(&expected, &seen)
            }
            Some(Case::Byte { at, v }) => {
                if let Some(byte) = self.store.get_mut(at) {
                    *byte = v;
                }
                println!(self.rt)
            }
            Some(Case::Keep) => {
                copy(&mut self.store, &self.room);
                println!(self.rt)
            }
            Some(Case::Text) => println!(self.rt),
        }
    }

    // The lines of a case file, of which each ends with a newline.
    pub(crate) fn lines(&mut self, cases: &[u8]) -> io::Result<()> {
        for line in cases.split_inclusive(|byte| *byte == b'\n') {
            if let Some(line) = line.strip_suffix(b"\n") {
                self.line(line)?;
            }
        }
        Ok(())
    }

    // The last line.
    pub(crate) fn total(&self) -> io::Result<()> {
        let rows = self.rows;
        let differ = self.differ;
        println!(self.rt; "{rows} rows, {differ} differ")
    }
}
