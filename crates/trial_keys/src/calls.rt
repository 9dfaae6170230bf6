// A call that a line of the case file asks for, and what is seen of it.
use kinds::limits::END_KEY;
use kinds::{Money, Receipt, Tick, User, Walk};
use std::fmt;
use tariff::Tariff;

// A price for each operation, so that no two are taken for each other.
pub(crate) const PRICES: Tariff = Tariff {
    create: 10,
    read: 20,
    status: 30,
    destroy: 40,
    replace: 50,
    setexpiry: 60,
    getids: 70,
    getcount: 80,
    scavenge: 90,
    profile: 100,
    error: 13,
    rate: 2,
};

// The lowest 32 bits of a number.
pub(crate) fn low(x: u64) -> u32 {
    (x % 4_294_967_296) as u32
}

#[derive(Clone, Copy)]
pub(crate) enum Operation {
    GetIds { count: u32 },
    Scavenge { now: u64 },
    Profile,
    // A step of a walk.
    Step { count: u32, ended: bool },
}

// A call and what it is given; `buffer` and `image` are the sizes of what it is lent.
#[derive(Clone, Copy)]
pub(crate) struct Call {
    pub operation: Operation,
    pub client: u32,
    pub key: u32,
    pub buffer: usize,
    pub image: usize,
}

// What is seen of a call, or expected, in the numbers of the case file.
#[derive(Clone, Copy, PartialEq, Eq)]
pub(crate) struct Seen {
    pub report: u64,
    pub charge: u64,
    pub key: u64,
    // Entries, or a count.
    pub number: u64,
    // 1 where the image changed.
    pub image: u64,
    // How many bytes of the buffer there are up to the last that changed.
    pub written: u64,
    // The record of a walk: 0 none or as it was, 1 moved to the key, 2 anything else.
    pub record: u64,
}

impl From<[u64; 7]> for Seen {
    fn from(n: [u64; 7]) -> Seen {
        let [report, charge, key, number, image, written, record] = n;
        Seen {
            report,
            charge,
            key,
            number,
            image,
            written,
            record,
        }
    }
}

impl fmt::Display for Seen {
    fn fmt<W: fmt::Write>(&self, f: &mut fmt::Formatter<W>) -> fmt::Result {
        let Seen {
            report,
            charge,
            key,
            number,
            image,
            written,
            record,
        } = *self;
        write!(
            f,
            "{report} {charge} {key} {number} {image} {written} {record}"
        )
    }
}

// Stands where there is no number to tell: the case file has it.
const UNTOLD: u64 = 999;

// A charge as a number, where it is one of those that a key call has.
fn amount(charge: Money) -> u64 {
    u64::try_from(charge.0)
        .ok()
        .filter(|c| [0, 13, 70, 90, 100].contains(c))
        .unwrap_or(UNTOLD)
}

// What is seen of an answer, with no byte changed.
fn answered(receipt: Receipt, key: u32, number: u32, record: u64) -> Seen {
    Seen {
        report: u64::from(u8::from(receipt.report)),
        charge: amount(receipt.charge),
        key: u64::from(key),
        number: u64::from(number),
        image: 0,
        written: 0,
        record,
    }
}

// The record of a walk after a step that answered a key: 0 as it was, 1 moved to the key, 2 anything else.
pub(crate) fn record_of(before: Walk, after: Walk, key: u32) -> u64 {
    let moved = Walk {
        key,
        ended: key == END_KEY,
        ..before
    };
    if after == before {
        0
    } else if after == moved {
        1
    } else {
        2
    }
}

impl Call {
    // Runs it on what it is lent, of which it is not seen here whether bytes change.
    fn run(self, buffer: &mut [u8], img: &mut [u8]) -> Seen {
        let client = User(self.client);
        let key = self.key;
        match self.operation {
            Operation::GetIds { count } => {
                let a = keys::ids::get_ids(PRICES, client, key, count, buffer, img);
                answered(a.receipt, a.key, a.entries, 0)
            }
            Operation::Scavenge { now } => {
                let a = keys::scavenge::scavenge(PRICES, client, key, Tick(now), img);
                answered(a.receipt, a.key, a.count, 0)
            }
            Operation::Profile => {
                let a = keys::profile::profile(PRICES, client, key, buffer, img);
                answered(a.receipt, a.key, a.entries, 0)
            }
            Operation::Step { count, ended } => {
                let before = Walk {
                    client,
                    count,
                    key,
                    ended,
                };
                let mut walk = before;
                let a = walk::step(PRICES, &mut walk, buffer, img);
                answered(a.receipt, a.key, a.entries, record_of(before, walk, a.key))
            }
        }
    }

    // What is seen of it where it is lent the first bytes of a buffer and of an image; it is not made where there are
    // fewer of them.
    pub(crate) fn lent(self, buffer: &mut [u8], img: &mut [u8]) -> Seen {
        if buffer.len() < self.buffer || img.len() < self.image {
            return Seen::from([UNTOLD; 7]);
        }
        self.run(&mut buffer[..self.buffer], &mut img[..self.image])
    }
}
