// The image in code: its trailer, headers, map, counts and data, and the two entries that are free of charge, Format
// and Check.
// `map` and `counts` take the bytes and n as two, and ask for Laid: a struct that lends bytes to be changed would have
// to promise of each change that it lends the same bytes and is of the same n, two clauses for the one that it saves.
// What reads them takes the same two, since Scavenge reads a count of the image that it is changing.
// A loop's body is a function with a contract, to which is lent what it changes: so loops are `for`, and no chains.

#![tactic(auto)]

pub mod counts;
pub mod format;
pub mod header;
pub mod known;
pub mod layout;
pub mod map;
pub mod sound;
pub mod trailer;
