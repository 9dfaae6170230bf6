// The operations as calls on an image in memory: what each is given, and what it answers.
use crate::seen::{Results, Seen};
use crate::stored::{BLANK, LARGEST, bytes_of, is_written, time_of};
use kinds::{Id, Receipt, Tick, User};
use std::fmt;
use tariff::Tariff;
use word::Number;

// A call and what it is given; `buffer` is the size of the data buffer that is lent.
#[derive(Clone, Copy)]
pub(crate) enum Call {
    Create {
        client: u32,
        now: u64,
        expiry: u64,
        buffer: usize,
    },
    Read {
        client: u32,
        id: u64,
        buffer: usize,
    },
    Status {
        client: u32,
        id: u64,
    },
    Destroy {
        client: u32,
        id: u64,
        now: u64,
    },
    Replace {
        client: u32,
        id: u64,
        now: u64,
        buffer: usize,
    },
    SetExpiry {
        client: u32,
        id: u64,
        now: u64,
        expiry: u64,
    },
    GetCount {
        client: u32,
    },
    GetIds {
        client: u32,
        count: u32,
        key: u32,
    },
    Scavenge {
        client: u32,
        key: u32,
        now: u64,
    },
}

// The text of what ran.
impl fmt::Display for Call {
    fn fmt<W: fmt::Write>(&self, f: &mut fmt::Formatter<W>) -> fmt::Result {
        match *self {
            Call::Create {
                client,
                now,
                expiry,
                buffer,
            } => write!(
                f,
                "Create, client {client}, now {now}, expiry {expiry}, buffer {buffer}"
            ),
            Call::Read { client, id, buffer } => {
                write!(f, "Read, client {client}, id {id}, buffer {buffer}")
            }
            Call::Status { client, id } => write!(f, "Status, client {client}, id {id}"),
            Call::Destroy { client, id, now } => {
                write!(f, "Destroy, client {client}, id {id}, now {now}")
            }
            Call::Replace {
                client,
                id,
                now,
                buffer,
            } => write!(
                f,
                "Replace, client {client}, id {id}, now {now}, buffer {buffer}"
            ),
            Call::SetExpiry {
                client,
                id,
                now,
                expiry,
            } => write!(
                f,
                "SetExpiry, client {client}, id {id}, now {now}, expiry {expiry}"
            ),
            Call::GetCount { client } => write!(f, "GetCount, client {client}"),
            Call::GetIds { client, count, key } => {
                write!(f, "GetIds, client {client}, count {count}, key {key}")
            }
            Call::Scavenge { client, key, now } => {
                write!(f, "Scavenge, client {client}, key {key}, now {now}")
            }
        }
    }
}

// All ten prices 10, error price 1, rate 2.
const PRICES: Tariff = Tariff {
    create: 10,
    read: 10,
    status: 10,
    destroy: 10,
    replace: 10,
    setexpiry: 10,
    getids: 10,
    getcount: 10,
    scavenge: 10,
    profile: 10,
    error: 1,
    rate: 2,
};

// What is seen of a receipt and results, with no byte changed.
fn seen(receipt: Receipt, results: Results) -> Seen {
    Seen {
        report: u8::from(receipt.report),
        charge: receipt.charge.0,
        image: false,
        buffer: false,
        results,
    }
}

// Create and Replace are lent the bytes of the time.
fn create(img: &mut [u8], client: User, now: u64, expiry: Tick, size: usize) -> Seen {
    let bytes = &bytes_of(now)[..size.min(LARGEST)];
    let a = store::create::create(PRICES, client, expiry, bytes, Tick(now), img);
    seen(a.receipt, Results::Id(a.id.0))
}

fn replace(img: &mut [u8], client: User, id: Id, now: u64, size: usize) -> Seen {
    let bytes = &bytes_of(now)[..size.min(LARGEST)];
    let a = store::replace::replace(PRICES, client, id, bytes, Tick(now), img);
    seen(a.receipt, Results::Id(a.id.0))
}

fn read(img: &[u8], client: User, id: Id, size: usize) -> Seen {
    let mut buffer = BLANK;
    let a = store::read::read(PRICES, client, id, &mut buffer[..size.min(LARGEST)], img);
    Seen {
        buffer: is_written(&buffer),
        ..seen(a.receipt, Results::BytesOf(time_of(&buffer)))
    }
}

// A buffer of 8 bytes, for one id.
fn get_ids(img: &[u8], client: User, key: u32, count: u32) -> Seen {
    let mut ids = [255; 8];
    let a = keys::ids::get_ids(PRICES, client, key, count, &mut ids, img);
    let buffer = ids != [255; 8];
    let results = Results::Ids {
        key: a.key,
        entries: a.entries,
        id: if buffer { u64::get(&ids, 0) } else { 0 },
    };
    Seen {
        buffer,
        ..seen(a.receipt, results)
    }
}

impl Call {
    // Runs it on an image, of which it is not seen here whether bytes change.
    pub(crate) fn run(self, img: &mut [u8]) -> Seen {
        match self {
            Call::Create {
                client,
                now,
                expiry,
                buffer,
            } => create(img, User(client), now, Tick(expiry), buffer),
            Call::Read { client, id, buffer } => read(img, User(client), Id(id), buffer),
            Call::Status { client, id } => {
                let a = store::status::status(PRICES, User(client), Id(id), img);
                let results = Results::Status {
                    owner: a.owner.0,
                    created: a.created.0,
                    expires: a.expires.0,
                };
                seen(a.receipt, results)
            }
            Call::Destroy { client, id, now } => {
                let a = store::destroy::destroy(PRICES, User(client), Id(id), Tick(now), img);
                seen(a.receipt, Results::Nothing)
            }
            Call::Replace {
                client,
                id,
                now,
                buffer,
            } => replace(img, User(client), Id(id), now, buffer),
            Call::SetExpiry {
                client,
                id,
                now,
                expiry,
            } => {
                let a = store::set_expiry::set_expiry(
                    PRICES,
                    User(client),
                    Id(id),
                    Tick(expiry),
                    Tick(now),
                    img,
                );
                seen(a.receipt, Results::Nothing)
            }
            Call::GetCount { client } => {
                let a = store::get_count::get_count(PRICES, User(client), img);
                seen(a.receipt, Results::Count(a.count))
            }
            Call::GetIds { client, count, key } => get_ids(img, User(client), key, count),
            Call::Scavenge { client, key, now } => {
                let a = keys::scavenge::scavenge(PRICES, User(client), key, Tick(now), img);
                let results = Results::Scavenged {
                    key: a.key,
                    count: a.count,
                };
                seen(a.receipt, results)
            }
        }
    }

    // Whether it changes the image where it succeeds.
    pub(crate) fn is_change(self) -> bool {
        !matches!(
            self,
            Call::Read { .. } | Call::Status { .. } | Call::GetCount { .. } | Call::GetIds { .. }
        )
    }

    // The results of a refusal: zeros, and the key that came.
    pub(crate) fn no_results(self) -> Results {
        match self {
            Call::Create { .. } | Call::Replace { .. } => Results::Id(0),
            Call::Read { .. } => Results::BytesOf(0),
            Call::Status { .. } => Results::Status {
                owner: 0,
                created: 0,
                expires: 0,
            },
            Call::Destroy { .. } | Call::SetExpiry { .. } => Results::Nothing,
            Call::GetCount { .. } => Results::Count(0),
            Call::GetIds { key, .. } => Results::Ids {
                key,
                entries: 0,
                id: 0,
            },
            Call::Scavenge { key, .. } => Results::Scavenged { key, count: 0 },
        }
    }
}
