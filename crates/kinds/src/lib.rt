// The given sets of the monograph as types that are never mixed, the reports, and the answer of each operation.

#![tactic(auto)]

ghost use Rattle.std.specs.Prelude.{◌≡◌};
ghost use Rattle.kinds.specs.Report.{number_of};

pub mod limits;

// A time, in ticks of 1 ms. A call takes any and refuses those from 2^40 on. Times are compared by their numbers, which
// are what promises name.
#[repr(C)]
#[derive(Clone, Copy, PartialEq, Eq)]
pub struct Tick(pub u64);

// An amount, negative where it is given back.
#[repr(C)]
#[derive(Clone, Copy, PartialEq, Eq)]
pub struct Money(pub i64);

// A client's number. A call takes any and refuses those above 63.
#[repr(C)]
#[derive(Clone, Copy, PartialEq, Eq)]
pub struct User(pub u32);

// A service block's number, below 4,096 in an id; a place in a slice is had from it by a cast.
#[derive(Clone, Copy, PartialEq, Eq)]
pub struct BlockNum(pub u32);

// A block's identifier. Zero is NullId.
#[repr(C)]
#[derive(Clone, Copy, PartialEq, Eq)]
pub struct Id(pub u64);

// What a call reports, in the order in which the reports are tested.
#[derive(Clone, Copy, PartialEq, Eq)]
pub enum Report {
    Success,
    BadImage,
    BadUser,
    BadTime,
    ClockNotLater,
    NotManager,
    BadKey,
    BadCount,
    BadRoom,
    Damaged,
    NoSuchBlock,
    NotOwner,
    NoSpace,
    NoSeries,
    BadTag,
    SequenceTwice,
}

// The number of a report.
impl From<Report> for u8 {
    ghost from_gives = { λ r number. number ≡ number_of r };

    fn from(r: Report) -> u8 {
        match r {
            Report::Success => 0,
            Report::BadImage => 1,
            Report::BadUser => 2,
            Report::BadTime => 3,
            Report::ClockNotLater => 4,
            Report::NotManager => 5,
            Report::BadKey => 6,
            Report::BadCount => 7,
            Report::BadRoom => 8,
            Report::Damaged => 9,
            Report::NoSuchBlock => 10,
            Report::NotOwner => 11,
            Report::NoSpace => 12,
            Report::NoSeries => 13,
            Report::BadTag => 14,
            Report::SequenceTwice => 15,
        }
    }
}

// What every operation gives: how it ended, and what it costs.
#[derive(Clone, Copy)]
pub struct Receipt {
    pub report: Report,
    pub charge: Money,
}

// The answer of each operation: the receipt, then its results in the monograph's order. Each operation has a struct of
// its own, as the project has it; a refusal has results too, which document 01 gives, so that none is a Result.
#[derive(Clone, Copy)]
pub struct CreateAnswer {
    pub receipt: Receipt,
    pub id: Id,
}

// The data goes to the lent buffer.
#[derive(Clone, Copy)]
pub struct ReadAnswer {
    pub receipt: Receipt,
}

#[derive(Clone, Copy)]
pub struct StatusAnswer {
    pub receipt: Receipt,
    pub owner: User,
    pub created: Tick,
    pub expires: Tick,
}

#[derive(Clone, Copy)]
pub struct DestroyAnswer {
    pub receipt: Receipt,
}

#[derive(Clone, Copy)]
pub struct ReplaceAnswer {
    pub receipt: Receipt,
    pub id: Id,
}

#[derive(Clone, Copy)]
pub struct SetExpiryAnswer {
    pub receipt: Receipt,
}

// The ids go to the lent buffer; `entries` is their number.
#[derive(Clone, Copy)]
pub struct GetIdsAnswer {
    pub receipt: Receipt,
    pub key: u32,
    pub entries: u32,
}

#[derive(Clone, Copy)]
pub struct GetCountAnswer {
    pub receipt: Receipt,
    pub count: u32,
}

#[derive(Clone, Copy)]
pub struct ScavengeAnswer {
    pub receipt: Receipt,
    pub key: u32,
    pub count: u32,
}

// The entries go to the lent buffer; `entries` is their number.
#[derive(Clone, Copy)]
pub struct ProfileAnswer {
    pub receipt: Receipt,
    pub key: u32,
    pub entries: u32,
}

// A walk over a client's ids, kept by its caller: how many ids a step may name, the key to go on with, and whether the
// end key came. C has the same four fields.
#[repr(C)]
#[derive(Clone, Copy, PartialEq, Eq)]
pub struct Walk {
    pub client: User,
    pub count: u32,
    pub key: u32,
    pub ended: bool,
}
