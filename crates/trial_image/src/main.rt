// Runs Format and Check: on both sides of Format's limits, and on an image of 8 blocks with one byte at a time damaged.
// A row of what it writes: what ran, its report or answer, and on what.

#![tactic(auto)]

ghost use Rattle.std.specs.Prelude.{◌≡◌, length};

use kinds::{BlockNum, Tick};
use std::{fmt, io};
use word::Number;

// The size of an image of 4,104 blocks, were there one.
const ROOM: usize = 2365440;

// The size of an image of 8 blocks.
const SIZE: usize = 6144;

// What Format is given: a number of blocks, and an image of so many bytes.
#[derive(Clone, Copy)]
struct Given {
    n: u32,
    size: usize,
}

impl fmt::Display for Given {
    fn fmt<W: fmt::Write>(&self, f: &mut fmt::Formatter<W>) -> fmt::Result {
        let n = self.n;
        match self.size {
            0 => write!(f, "N {n}, no bytes"),
            size => write!(f, "N {n}, {size} bytes"),
        }
    }
}

// Each N with the size that fits it, then a right N with sizes that do not.
const GIVEN: [(u32, usize); 8] = [
    (8, 6144),
    (4096, 2360832),
    (0, 1536),
    (12, 8448),
    (4104, 2365440),
    (8, 6143),
    (8, 6145),
    (8, 0),
];

// A byte of the image, what is added to it, modulo 256, and what that makes of the image.
const DAMAGES: [(usize, u8, &str); 49] = [
    (0, 255, "used is 0"),
    (0, 1, "used is 2"),
    (1, 1, "owner is 4"),
    (1, 61, "owner is 64"),
    (2, 1, "first of the header's 6 zero bytes"),
    (7, 128, "last of the header's 6 zero bytes"),
    (48, 1, "first of the header's 16 zero bytes"),
    (63, 128, "last of the header's 16 zero bytes"),
    (8, 1, "first byte of the id"),
    (15, 128, "last byte of the id"),
    (16, 255, "created is 0"),
    (16, 1, "created is 2, above the clock"),
    (24, 251, "expires is 0"),
    (29, 1, "expires is 2^40 + 5"),
    (24, 1, "expires is 6"),
    (32, 1, "first byte of the tag"),
    (47, 128, "last byte of the tag"),
    (64, 1, "first byte of a free header"),
    (96, 1, "first tag byte of a free header"),
    (511, 128, "last byte of the last free header"),
    (512, 1, "map bit of the used block"),
    (512, 254, "map bit of a free block"),
    (512, 128, "map bit of the last free block"),
    (513, 1, "first spare bit"),
    (1023, 128, "last spare bit"),
    (1048, 255, "count of client 3 is 0"),
    (1048, 1, "count of client 3 is 2"),
    (1055, 128, "last byte of the count of client 3"),
    (1024, 1, "count of client 0 is 1"),
    (1528, 1, "count of client 63 is 1"),
    (1536, 1, "first byte of the data"),
    (5631, 128, "last byte of the data"),
    (5632, 8, "N is 16"),
    (5632, 1, "N is 9"),
    (5636, 1, "distance to the headers is 12"),
    (5640, 1, "distance to the map is 11"),
    (5644, 1, "distance to the counts is 10"),
    (5648, 1, "distance to the data is 9"),
    (5652, 1, "first of the trailer's 4 zero bytes"),
    (5655, 128, "last of the trailer's 4 zero bytes"),
    (5656, 255, "clock is 0, below created"),
    (5656, 1, "clock is 2"),
    (5661, 1, "clock is 2^40 + 1"),
    (5664, 1, "first of the trailer's 476 zero bytes"),
    (6139, 128, "last of the trailer's 476 zero bytes"),
    (6140, 1, "first byte of the mark"),
    (6141, 1, "second byte of the mark"),
    (6142, 1, "third byte of the mark"),
    (6143, 1, "last byte of the mark"),
];

// How many bytes of the image are kept, and what they are.
const CUTS: [(usize, &str); 3] = [
    (6143, "its last byte cut off"),
    (511, "its first 511 bytes"),
    (0, "no bytes"),
];

fn yes_or_no(answer: bool) -> &'static str {
    if answer { "yes" } else { "no" }
}

fn say_check(rt: &impl Print, img: &[u8], what: &impl fmt::Display) -> io::Result<()> {
    let answer = yes_or_no(image::sound::check(img));
    println!(rt; "Check   {answer:<5}{what}")
}

fn say_format(rt: &impl Print, n: u32, img: &mut [u8], what: &impl fmt::Display) -> io::Result<()> {
    let report = u8::from(image::format::format(n, img));
    println!(rt; "Format  {report:<5}{what}")
}

// Format on bytes that are all 7; whether they still are; and what Check says then.
fn formatted(rt: &impl Print, given: Given, img: &mut [u8]) -> io::Result<()> {
    img.fill(7);
    say_format(rt, given.n, img, &given)?;
    let kept = yes_or_no(img.iter().all(|byte| *byte == 7));
    println!(rt; "Kept    {kept:<5}{given}")?;
    say_check(rt, img, &given)
}

// Block 0 of a fresh image is taken: its header, which is client 3's, made at time 1 and to expire at 5; its map bit;
// the client's count; and the clock.
fn take_block(img: &mut [u8; SIZE]) {
    let id = ident::make(Tick(1), BlockNum(0));
    img[0] = 1;
    img[1] = 3;
    u64::put(img, 8, id.0);
    img[16] = 1;
    img[24] = 5;
    img[512] = 254;
    img[1048] = 1;
    img[5656] = 1;
}

// What Check says with one byte at a time damaged. Each is restored.
fn damages(rt: &impl Print, img: &mut [u8; SIZE]) -> io::Result<()> {
    say_check(rt, img, &"one used block")?;
    for (at, by, what) in DAMAGES {
        if at < SIZE {
            let old = img[at];
            img[at] = old.wrapping_add(by);
            say_check(rt, img, &what)?;
            img[at] = old;
        }
    }
    say_check(rt, img, &"all bytes restored")
}

// Format refuses and leaves a sound image with a used block as it is.
fn still_sound(rt: &impl Print, img: &mut [u8; SIZE]) -> io::Result<()> {
    say_format(rt, 16, img, &"N 16 on the image of 8 blocks")?;
    say_check(rt, img, &"the image after that")
}

// Zeros. The promise gives the length, which lending them as a slice needs; it is proved for every N, so no list of
// millions is made.
fn zeros<const N: usize>() -> [u8; N]
    ensures { N ≡ length result }
{
    [0; N]
}

fn main(rt: HostRuntime) -> io::Result<()> {
    let mut room = zeros::<ROOM>();
    for (n, size) in GIVEN {
        if size <= ROOM {
            formatted(&rt, Given { n, size }, &mut room[..size])?;
        }
    }
    let mut img = [0; SIZE];
    image::format::format(8, &mut img);
    take_block(&mut img);
    damages(&rt, &mut img)?;
    still_sound(&rt, &mut img)?;
    for (size, what) in CUTS {
        if size <= SIZE {
            say_check(&rt, &img[..size], &what)?;
        }
    }
    Ok(())
}
