// The operations by keys and the walk, for C and Rust.
ghost use Rattle.std.specs.Prelude.{◌≡◌};
ghost use Rattle.promise.specs.GetIds.{get_ids_answer, get_ids_buffer};
ghost use Rattle.promise.specs.Scavenge.{scavenge_answer, scavenge_image};
ghost use Rattle.promise.specs.Profile.{profile_answer, profile_buffer};
ghost use Rattle.promise.specs.Walk.{started, step_answer, step_walk, step_buffer};
ghost use Rattle.kinds.specs.Kinds.{user};
ghost use Rattle.zolvortug.specs.Flat.{listed, scavenged, profiled, stepped};

use kinds::{GetIdsAnswer, Money, ProfileAnswer, ScavengeAnswer, Tick, User, Walk};
use tariff::Tariff;

// What GetIds and Profile give: the key to go on with, and how many entries were written.
#[repr(C)]
#[derive(Clone, Copy)]
pub struct Listed {
    pub charge: Money,
    pub key: u32,
    pub entries: u32,
    pub report: u8,
}

// What Scavenge gives: the key to go on with, and how many blocks were removed.
#[repr(C)]
#[derive(Clone, Copy)]
pub struct Scavenged {
    pub charge: Money,
    pub key: u32,
    pub count: u32,
    pub report: u8,
}

// What a step of a walk gives: the record after it, and the rest as GetIds.
#[repr(C)]
#[derive(Clone, Copy)]
pub struct Stepped {
    pub walk: Walk,
    pub charge: Money,
    pub key: u32,
    pub entries: u32,
    pub report: u8,
}

// GetIds and Profile have an answer each, with the same fields, and so a From each.
impl From<GetIdsAnswer> for Listed {
    ghost from_gives = { λ a flat. flat ≡ listed a };

    fn from(a: GetIdsAnswer) -> Listed {
        Listed {
            key: a.key,
            entries: a.entries,
            charge: a.receipt.charge,
            report: u8::from(a.receipt.report),
        }
    }
}

impl From<ScavengeAnswer> for Scavenged {
    ghost from_gives = { λ a flat. flat ≡ scavenged a };

    fn from(a: ScavengeAnswer) -> Scavenged {
        Scavenged {
            key: a.key,
            count: a.count,
            charge: a.receipt.charge,
            report: u8::from(a.receipt.report),
        }
    }
}

impl From<ProfileAnswer> for Listed {
    ghost from_gives = { λ a flat. flat ≡ profiled a };

    fn from(a: ProfileAnswer) -> Listed {
        Listed {
            key: a.key,
            entries: a.entries,
            charge: a.receipt.charge,
            report: u8::from(a.receipt.report),
        }
    }
}

impl From<walk::Stepped> for Stepped {
    ghost from_gives = { λ s flat. flat ≡ stepped s.answer s.walk };

    fn from(s: walk::Stepped) -> Stepped {
        Stepped {
            walk: s.walk,
            charge: s.answer.receipt.charge,
            key: s.answer.key,
            entries: s.answer.entries,
            report: u8::from(s.answer.receipt.report),
        }
    }
}

#[unsafe(no_mangle)]
pub extern "C" fn zolvortug_get_ids(
    t: Tariff,
    client: u32,
    key: u32,
    count: u32,
    ids: &mut [u8],
    img: &[u8],
) -> Listed
    ensures answer { result ≡ listed (get_ids_answer t img.now client key count ids.old) }
    ensures given { ids.new ≡ get_ids_buffer img.now client key count ids.old }
{
    keys::ids::get_ids(t, User(client), key, count, ids, img).into()
}

#[unsafe(no_mangle)]
pub extern "C" fn zolvortug_scavenge(
    t: Tariff,
    client: u32,
    key: u32,
    time: u64,
    img: &mut [u8],
) -> Scavenged
    ensures answer { result ≡ scavenged (scavenge_answer t img.old client key time) }
    ensures image { img.new ≡ scavenge_image img.old client key time }
{
    keys::scavenge::scavenge(t, User(client), key, Tick(time), img).into()
}

#[unsafe(no_mangle)]
pub extern "C" fn zolvortug_profile(
    t: Tariff,
    client: u32,
    key: u32,
    buffer: &mut [u8],
    img: &[u8],
) -> Listed
    ensures answer { result ≡ profiled (profile_answer t img.now client key buffer.old) }
    ensures given { buffer.new ≡ profile_buffer img.now client key buffer.old }
{
    keys::profile::profile(t, User(client), key, buffer, img).into()
}

// A walk over a client's ids from the start key, with so many ids a step at most.
#[unsafe(no_mangle)]
pub extern "C" fn zolvortug_walk_from(client: u32, count: u32) -> Walk
    ensures { result ≡ started (user client) count }
{
    walk::start(User(client), count)
}

// A step of a walk: the caller keeps the record that it gives in the place of the one that it took.
#[unsafe(no_mangle)]
pub extern "C" fn zolvortug_step(t: Tariff, w: Walk, ids: &mut [u8], img: &[u8]) -> Stepped
    ensures answer { result ≡ stepped (step_answer t img.now w ids.old)
        (step_walk t img.now w ids.old) }
    ensures given { ids.new ≡ step_buffer img.now w ids.old }
{
    walk::next(t, w, ids, img).into()
}
