// The operations on one block, for C and Rust.
ghost use Rattle.std.specs.Prelude.{◌≡◌};
ghost use Rattle.promise.specs.Create.{create_answer, create_image};
ghost use Rattle.promise.specs.Read.{read_answer, read_buffer};
ghost use Rattle.promise.specs.Status.{status_answer};
ghost use Rattle.promise.specs.Destroy.{destroy_answer, destroy_image};
ghost use Rattle.promise.specs.Replace.{replace_answer, replace_image};
ghost use Rattle.promise.specs.SetExpiry.{set_expiry_answer, set_expiry_image};
ghost use Rattle.promise.specs.GetCount.{get_count_answer};
ghost use Rattle.zolvortug.specs.Flat.{created, read, status, destroyed, replaced, expiry_set, counted, done};

use kinds::{
    CreateAnswer, GetCountAnswer, Id, Money, Receipt, ReplaceAnswer, StatusAnswer, Tick, User,
};
use tariff::Tariff;

// What Create and Replace give.
#[repr(C)]
#[derive(Clone, Copy)]
pub struct Created {
    pub id: Id,
    pub charge: Money,
    pub report: u8,
}

// What Read, Destroy and SetExpiry give.
#[repr(C)]
#[derive(Clone, Copy)]
pub struct Done {
    pub charge: Money,
    pub report: u8,
}

// What Status gives.
#[repr(C)]
#[derive(Clone, Copy)]
pub struct Told {
    pub created: Tick,
    pub expires: Tick,
    pub charge: Money,
    pub owner: User,
    pub report: u8,
}

// What GetCount gives.
#[repr(C)]
#[derive(Clone, Copy)]
pub struct Counted {
    pub charge: Money,
    pub count: u32,
    pub report: u8,
}

// Create and Replace have an answer each, with the same fields, and so a From each.
impl From<CreateAnswer> for Created {
    ghost from_gives = { λ a flat. flat ≡ created a };

    fn from(a: CreateAnswer) -> Created {
        Created {
            id: a.id,
            charge: a.receipt.charge,
            report: u8::from(a.receipt.report),
        }
    }
}

impl From<ReplaceAnswer> for Created {
    ghost from_gives = { λ a flat. flat ≡ replaced a };

    fn from(a: ReplaceAnswer) -> Created {
        Created {
            id: a.id,
            charge: a.receipt.charge,
            report: u8::from(a.receipt.report),
        }
    }
}

impl From<Receipt> for Done {
    ghost from_gives = { λ r flat. flat ≡ done r };

    fn from(r: Receipt) -> Done {
        Done {
            charge: r.charge,
            report: u8::from(r.report),
        }
    }
}

impl From<StatusAnswer> for Told {
    ghost from_gives = { λ a flat. flat ≡ status a };

    fn from(a: StatusAnswer) -> Told {
        Told {
            created: a.created,
            expires: a.expires,
            owner: a.owner,
            charge: a.receipt.charge,
            report: u8::from(a.receipt.report),
        }
    }
}

impl From<GetCountAnswer> for Counted {
    ghost from_gives = { λ a flat. flat ≡ counted a };

    fn from(a: GetCountAnswer) -> Counted {
        Counted {
            count: a.count,
            charge: a.receipt.charge,
            report: u8::from(a.receipt.report),
        }
    }
}

#[unsafe(no_mangle)]
pub extern "C" fn zolvortug_create(
    t: Tariff,
    client: u32,
    expiry: u64,
    bytes: &[u8],
    time: u64,
    img: &mut [u8],
) -> Created
    ensures answer { result ≡ created (create_answer t img.old client expiry bytes.now time) }
    ensures image { img.new ≡ create_image img.old client expiry bytes.now time }
{
    store::create::create(t, User(client), Tick(expiry), bytes, Tick(time), img).into()
}

#[unsafe(no_mangle)]
pub extern "C" fn zolvortug_read(
    t: Tariff,
    client: u32,
    id: u64,
    buffer: &mut [u8],
    img: &[u8],
) -> Done
    ensures answer { result ≡ read (read_answer t img.now client id buffer.old) }
    ensures given { buffer.new ≡ read_buffer img.now client id buffer.old }
{
    store::read::read(t, User(client), Id(id), buffer, img)
        .receipt
        .into()
}

#[unsafe(no_mangle)]
pub extern "C" fn zolvortug_status(t: Tariff, client: u32, id: u64, img: &[u8]) -> Told
    ensures { result ≡ status (status_answer t img.now client id) }
{
    store::status::status(t, User(client), Id(id), img).into()
}

#[unsafe(no_mangle)]
pub extern "C" fn zolvortug_destroy(
    t: Tariff,
    client: u32,
    id: u64,
    time: u64,
    img: &mut [u8],
) -> Done
    ensures answer { result ≡ destroyed (destroy_answer t img.old client id time) }
    ensures image { img.new ≡ destroy_image img.old client id time }
{
    store::destroy::destroy(t, User(client), Id(id), Tick(time), img)
        .receipt
        .into()
}

#[unsafe(no_mangle)]
pub extern "C" fn zolvortug_replace(
    t: Tariff,
    client: u32,
    id: u64,
    bytes: &[u8],
    time: u64,
    img: &mut [u8],
) -> Created
    ensures answer { result ≡ replaced (replace_answer t img.old client id bytes.now time) }
    ensures image { img.new ≡ replace_image img.old client id bytes.now time }
{
    store::replace::replace(t, User(client), Id(id), bytes, Tick(time), img).into()
}

#[unsafe(no_mangle)]
pub extern "C" fn zolvortug_set_expiry(
    t: Tariff,
    client: u32,
    id: u64,
    expiry: u64,
    time: u64,
    img: &mut [u8],
) -> Done
    ensures answer { result ≡ expiry_set (set_expiry_answer t img.old client id expiry time) }
    ensures image { img.new ≡ set_expiry_image img.old client id expiry time }
{
    store::set_expiry::set_expiry(t, User(client), Id(id), Tick(expiry), Tick(time), img)
        .receipt
        .into()
}

#[unsafe(no_mangle)]
pub extern "C" fn zolvortug_get_count(t: Tariff, client: u32, img: &[u8]) -> Counted
    ensures { result ≡ counted (get_count_answer t img.now client) }
{
    store::get_count::get_count(t, User(client), img).into()
}
