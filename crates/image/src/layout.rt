// Document 01's layout in numbers of bytes. A part of so many bytes is lent as a slice: to have it as an array takes a
// test of its length, which stays in the machine's code. Sums of these are written where a clause asks for the sum.

pub const DISK_BLOCK: usize = 512;

pub const HEADER: usize = 64;

// A service block: the tag, which stands in its header, then its data block.
pub const SERVICE_BLOCK: usize = 528;

pub const TAG: usize = 16;

// The map and the counts, which stand between the headers and the data; and with them the trailer.
pub const MAP_AND_COUNTS: usize = 1024;

pub const ALL_BUT_BLOCKS: usize = 1536;

// The header and the data of one block.
pub const EACH_BLOCK: usize = 576;

// Places in a header.
pub const OWNER_AT: usize = 1;

pub const ID_AT: usize = 8;

pub const CREATED_AT: usize = 16;

pub const EXPIRES_AT: usize = 24;

pub const TAG_AT: usize = 32;

// Places in a trailer, and the number that its last four bytes are.
pub const CLOCK_AT: usize = 24;

pub const MARK_AT: usize = 508;

pub const MARK: u32 = 0x32365250;

// A count, and an id that GetIds writes; an entry that Profile writes, and the room that it asks for.
pub const NUMBER: usize = 8;

pub const ENTRY: usize = 24;

pub const PROFILE_ROOM: usize = 1536;
