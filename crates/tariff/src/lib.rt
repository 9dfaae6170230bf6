// What each operation costs: a price, and for four of them the storage that is paid for or given back.

#![tactic(auto)]

ghost use Rattle.std.specs.Prelude.{◌≡◌, ◌+◌, ◌*◌, ◌<◌, ◌^◌, pos};
ghost use Rattle.kinds.specs.Kinds.{money};
ghost use Rattle.tariff.specs.Diff.{diff};
ghost use Rattle.tariff.specs.Charges.{create_charge, destroy_charge, replace_charge, set_expiry_charge};

use kinds::{Money, Tick};

// The prices of the ten operations, the error price, and the rate of storage.
#[repr(C)]
#[derive(Clone, Copy)]
pub struct Tariff {
    pub create: u32,
    pub read: u32,
    pub status: u32,
    pub destroy: u32,
    pub replace: u32,
    pub setexpiry: u32,
    pub getids: u32,
    pub getcount: u32,
    pub scavenge: u32,
    pub profile: u32,
    pub error: u32,
    pub rate: u16,
}

// A price alone.
pub fn price(p: u32) -> Money
    ensures { result ≡ money (pos p) }
{
    Money(p as i64)
}

// The rate times a time.
fn worth(rate: u16, at: Tick) -> u64
    requires { at.0 < 2 ^ 40 }
    ensures { (result ≡ rate * at.0) × (result < 2 ^ 56) }
{
    (rate as u64) * at.0
}

// What is owed less what is given back: the one subtraction of signed numbers.
fn net(owed: u64, back: u64) -> Money
    requires { (owed < 2 ^ 63) × (back < 2 ^ 63) }
    ensures { result ≡ money (diff owed back) }
{
    Money((owed as i64) - (back as i64))
}

// A price, and the storage of a block up to one time less that up to another.
fn with_storage(p: u32, rate: u16, until: Tick, paid: Tick) -> Money
    requires { (until.0 < 2 ^ 40) × (paid.0 < 2 ^ 40) }
    ensures { result ≡ money (diff (p + rate * until.0) (rate * paid.0)) }
{
    net(p as u64 + worth(rate, until), worth(rate, paid))
}

pub fn create_charge(t: Tariff, created: Tick, expires: Tick) -> Money
    requires { (created.0 < 2 ^ 40) × (expires.0 < 2 ^ 40) }
    ensures { result ≡ money (create_charge t created.0 expires.0) }
{
    with_storage(t.create, t.rate, expires, created)
}

// `created` stands in document 01's sum once with each sign, so here it is in the promise alone.
pub fn destroy_charge(t: Tariff, created: Tick, expires: Tick, time: Tick) -> Money
    requires { (expires.0 < 2 ^ 40) × (time.0 < 2 ^ 40) }
    ensures { result ≡ money (destroy_charge t created.0 expires.0 time.0) }
{
    with_storage(t.destroy, t.rate, time, expires)
}

// The new block is created at the time of the call, so its storage from then on takes the place of the old block's.
pub fn replace_charge(t: Tariff, created: Tick, expires: Tick, time: Tick, until: Tick) -> Money
    requires { (expires.0 < 2 ^ 40) × (until.0 < 2 ^ 40) }
    ensures { result ≡ money (replace_charge t created.0 expires.0 time.0 time.0 until.0) }
{
    with_storage(t.replace, t.rate, until, expires)
}

pub fn set_expiry_charge(t: Tariff, created: Tick, expires: Tick, until: Tick) -> Money
    requires { (expires.0 < 2 ^ 40) × (until.0 < 2 ^ 40) }
    ensures { result ≡ money (set_expiry_charge t created.0 expires.0 created.0 until.0) }
{
    with_storage(t.setexpiry, t.rate, until, expires)
}
