// A block's header: its fields, whether it is good, and its bytes written.
ghost use Rattle.std.specs.Prelude.{◌≡◌, ◌+◌, ◌*◌, ◌^◌, ◌<◌, ◌≤◌, [], ◌∷◌, length};
ghost use Rattle.plain.specs.Tests.{all};
ghost use Rattle.word.specs.Word.{bytes_of, all_zero, Bytes};
ghost use Rattle.word.specs.Write.{over, puts};
ghost use Rattle.kinds.specs.Kinds.{user, ident, tick};
ghost use Rattle.promise.specs.Layout.{header_at};
ghost use Rattle.promise.specs.Header.{header_of, owner_of, id_in, created_of, expires_of, is_used, used_right};
ghost use Rattle.promise.specs.Header.{good_header, header_bytes, header_zeroed};
ghost use Rattle.promise.specs.Counts.{owned_by};
ghost use Rattle.image.specs.Image.{shape_tests, time_tests};

use crate::layout::{CREATED_AT, EXPIRES_AT, HEADER, ID_AT, OWNER_AT, TAG_AT};
use kinds::limits::END_OF_TIME;
use kinds::{BlockNum, Id, Tick, User};
use word::Number;

// The 64 bytes of a header, lent from the image.
#[derive(Clone, Copy)]
pub struct Header<'a> {
    pub bytes: &'a [u8],
    pub ghost whole: { length bytes.now ≡ 64 },
    pub ghost octets: { Bytes bytes.now },
}

// The header of a block. Asks for its bytes and for no Image: a function that changes an image has none.
#[tactic(auto, using(crate::proofs::Tallies::lent_header))]
pub fn of(img: &[u8], b: usize) -> Header<'_>
    requires { header_at b + 64 ≤ length img.now }
    ensures { result.bytes.now ≡ header_of img.now b }
{
    let at = HEADER * b;
    Header {
        bytes: &img[at..at + HEADER],
    }
}

impl Header<'_> {
    pub fn is_used(self) -> bool
        ensures { result ≡ is_used self.entry.bytes.now }
    {
        u8::get(self.bytes, 0) == 1
    }

    pub fn owner(self) -> User
        ensures { result ≡ user (owner_of self.entry.bytes.now) }
    {
        User(u8::get(self.bytes, OWNER_AT) as u32)
    }

    pub fn id(self) -> Id
        ensures { result ≡ ident (id_in self.entry.bytes.now) }
    {
        Id(u64::get(self.bytes, ID_AT))
    }

    pub fn created(self) -> Tick
        ensures { result ≡ tick (created_of self.entry.bytes.now) }
    {
        Tick(u64::get(self.bytes, CREATED_AT))
    }

    pub fn expires(self) -> Tick
        ensures { result ≡ tick (expires_of self.entry.bytes.now) }
    {
        Tick(u64::get(self.bytes, EXPIRES_AT))
    }

    #[tactic(auto, using(word::proofs::Laws::part_whole))]
    pub fn is_zero(self) -> bool
        ensures { result ≡ all_zero self.entry.bytes.now }
    {
        word::is_zero(self.bytes, 0, HEADER)
    }

    // The first 8 bytes as one number: less 1, and without the owner's six bits, it is 0. The difference keeps it one
    // load.
    fn shape_right(self) -> bool
        ensures { result ≡ all (shape_tests self.entry.bytes.now) }
    {
        let x = u64::get(self.bytes, 0);
        let y = x.wrapping_sub(1);
        y - 256 * (y / 256 % 64) == 0 && word::is_zero(self.bytes, 48, 16)
    }

    // By the numbers, which are what the tests name.
    #[tactic(auto, using(plain::specs::Tests::cascade), unfolding(plain::specs::Tests::all))]
    fn times_right(self, clock: Tick) -> bool
        ensures { result ≡ all (time_tests clock.0 self.entry.bytes.now) }
    {
        let created = u64::get(self.bytes, CREATED_AT);
        let expires = u64::get(self.bytes, EXPIRES_AT);
        1 <= created && created <= clock.0 && 1 <= expires && expires < END_OF_TIME
    }

    // Whether it is right for a used block.
    #[tactic(auto, using(crate::proofs::Headers::used_parts))]
    pub(crate) fn used_right(self, clock: Tick, b: BlockNum) -> bool
        requires { (clock.0 < 2 ^ 40) × (b.0 < 4096) }
        ensures { result ≡ used_right clock.0 b.0 self.entry.bytes.now }
    {
        self.shape_right() && self.times_right(clock) && self.id() == ident::make(self.created(), b)
    }

    // Whether it is good, by the block's map bit.
    #[tactic(auto, using(crate::proofs::Headers::good_cases))]
    pub fn is_good(self, clock: Tick, b: BlockNum, free: bool) -> bool
        requires { (clock.0 < 2 ^ 40) × (b.0 < 4096) }
        ensures { result ≡ good_header clock.0 b.0 free self.entry.bytes.now }
    {
        if free {
            self.is_zero()
        } else {
            self.used_right(clock, b)
        }
    }
}

// Whether a block is used and the client's.
#[tactic(auto, unfolding(promise::specs::Counts::owned_by))]
pub fn is_owned(img: &[u8], client: User, b: usize) -> bool
    requires { header_at b + 64 ≤ length img.now }
    ensures { result ≡ owned_by img.now client.0 b }
{
    let h = of(img, b);
    h.is_used() && h.owner() == client
}

// The header of a used block.
pub fn put_header(
    img: &mut [u8],
    b: BlockNum,
    owner: User,
    id: Id,
    created: Tick,
    expires: Tick,
    tag: &[u8],
)
    requires { (header_at b.0 + 64 ≤ length img.old) × (owner.0 < 256) × (length tag.now ≡ 16) }
    ensures { img.new ≡ over img.old (header_at b.0)
        (header_bytes owner.0 id.0 created.0 expires.0 tag.now) }
{
    let at = HEADER * (b.0 as usize);
    u8::put(img, at, 1);
    u8::put(img, at + OWNER_AT, owner.0 as u8);
    word::clear(img, at + 2, 6);
    u64::put(img, at + ID_AT, id.0);
    u64::put(img, at + CREATED_AT, created.0);
    u64::put(img, at + EXPIRES_AT, expires.0);
    word::paste(img, at + TAG_AT, tag);
    word::clear(img, at + 48, 16)
}

#[tactic(auto, unfolding(word::specs::Write::puts))]
pub fn zero_header(img: &mut [u8], b: BlockNum)
    requires { header_at b.0 + 64 ≤ length img.old }
    ensures { img.new ≡ puts img.old (header_zeroed b.0 ∷ []) }
{
    word::clear(img, HEADER * (b.0 as usize), HEADER)
}

// The expires of a header, and nothing else.
pub fn put_expires(img: &mut [u8], b: BlockNum, expires: Tick)
    requires { header_at b.0 + 64 ≤ length img.old }
    ensures { img.new ≡ over img.old (header_at b.0 + 24) (bytes_of 8 expires.0) }
{
    u64::put(img, HEADER * (b.0 as usize) + EXPIRES_AT, expires.0)
}
