// The data that is stored, by the time at which it is, and the buffers that are lent.
ghost use Rattle.std.specs.Prelude.{◌≡◌, length};

use std::array;

// The most bytes of a data buffer that is lent: one more than a block has.
pub(crate) const LARGEST: usize = 529;

// The bytes of a block.
const BLOCK: usize = 528;

pub(crate) type Buffer = [u8; LARGEST];

// What each byte of a buffer is before a call.
const UNWRITTEN: u8 = 255;

pub(crate) const BLANK: Buffer = [UNWRITTEN; LARGEST];

// The times that runs of bytes tell apart.
const TIMES: u64 = 1024;

// The byte at a place of one long run in which no two runs of 528 are alike: each two bytes spell their number.
fn byte_at(place: u64) -> u8 {
    let pair = place / 2;
    if place % 2 == 0 {
        (pair % 251) as u8
    } else {
        (pair / 251 % 251) as u8
    }
}

// The bytes that are stored at a time: those of the run from that place on. The promise gives the length, which lending
// them as a slice needs.
pub(crate) fn bytes_of(time: u64) -> Buffer
    ensures { 529 ≡ length result }
{
    array::from_fn(|i| byte_at(time % TIMES + i as u64))
}

pub(crate) fn is_written(buffer: &Buffer) -> bool {
    *buffer != BLANK
}

// Whether a buffer has the 528 bytes of a time, and no byte after them changed. The first byte that is another ends it.
fn has_bytes_of(buffer: &Buffer, time: u64) -> bool {
    let block = &buffer[..BLOCK];
    buffer[BLOCK] == UNWRITTEN
        && block
            .iter()
            .zip(time..)
            .all(|(byte, place)| *byte == byte_at(place))
}

// The time whose bytes are in a buffer, or 0.
pub(crate) fn time_of(buffer: &Buffer) -> u64 {
    (0..TIMES)
        .find(|time| has_bytes_of(buffer, *time))
        .unwrap_or(0)
}
