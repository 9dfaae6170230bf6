// What a call answers, and what it changes. A 0 stands where document 01's tables have one.
use std::fmt;

// An operation's results.
#[derive(Clone, Copy, PartialEq, Eq)]
pub(crate) enum Results {
    Nothing,
    Id(u64),
    // The time whose bytes are in the buffer, or 0.
    BytesOf(u64),
    Status {
        owner: u32,
        created: u64,
        expires: u64,
    },
    Count(u32),
    // The id is the one in the buffer, or 0.
    Ids {
        key: u32,
        entries: u32,
        id: u64,
    },
    Scavenged {
        key: u32,
        count: u32,
    },
}

impl Results {
    // Whether they say that something was written to a lent buffer.
    pub(crate) fn is_in_buffer(self) -> bool {
        match self {
            Results::BytesOf(_) => true,
            Results::Ids { entries, .. } => 0 < entries,
            _ => false,
        }
    }
}

impl fmt::Display for Results {
    fn fmt<W: fmt::Write>(&self, f: &mut fmt::Formatter<W>) -> fmt::Result {
        match *self {
            Results::Nothing => Ok(()),
            Results::Id(id) => write!(f, ", id {id}"),
            Results::BytesOf(time) => write!(f, ", bytes of time {time}"),
            Results::Status {
                owner,
                created,
                expires,
            } => write!(f, ", owner {owner}, created {created}, expires {expires}"),
            Results::Count(count) => write!(f, ", count {count}"),
            Results::Ids { key, entries, id } => {
                write!(f, ", key {key}, entries {entries}, id {id}")
            }
            Results::Scavenged { key, count } => write!(f, ", key {key}, count {count}"),
        }
    }
}

// What is seen of a call: its answer, and whether bytes of the image or of a lent buffer changed. A report is a number,
// as in document 01's tables.
#[derive(Clone, Copy, PartialEq, Eq)]
pub(crate) struct Seen {
    pub report: u8,
    pub charge: i64,
    pub image: bool,
    pub buffer: bool,
    pub results: Results,
}

impl fmt::Display for Seen {
    fn fmt<W: fmt::Write>(&self, f: &mut fmt::Formatter<W>) -> fmt::Result {
        let report = self.report;
        let charge = self.charge;
        let changed = match (self.image, self.buffer) {
            (true, true) => "image changed, buffer changed",
            (true, false) => "image changed",
            (false, true) => "buffer changed",
            (false, false) => "no byte changed",
        };
        let results = self.results;
        write!(f, "{report}, charge {charge}, {changed}{results}")
    }
}
