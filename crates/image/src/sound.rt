// Check: each header looked at once, with a tally of the owners; then the map's spare bits and the 64 counts. The tally
// is an array: there is no heap. For all headers it begins with zeros, for eight it may have 4,096 at a place, for one
// 8,192: each contract says its own.
ghost use Rattle.std.specs.Prelude.{◌≡◌, ℕ, ◌+◌, ◌*◌, ◌/◌, ◌<◌, ◌≤◌, true, slice_index};
ghost use Rattle.plain.specs.Tests.{when, all};
ghost use Rattle.run.specs.Run.{all_of, times};
ghost use Rattle.word.specs.Word.{word_at};
ghost use Rattle.promise.specs.Layout.{map_at};
ghost use Rattle.promise.specs.Header.{header_of};
ghost use Rattle.promise.specs.Map.{free, good};
ghost use Rattle.promise.specs.Counts.{owners};
ghost use Rattle.promise.specs.Sound.{CheckPromise};
ghost use Rattle.image.specs.Image.{Laid, shape_tests, tallied, owners_from, same_count, body_sound};

use crate::header::Header;
use crate::known::Image;
use crate::layout::HEADER;
use crate::trailer::Trailer;
use crate::{counts, header, map, trailer};
use kinds::limits::{CLIENTS, LAST_CLIENT};
use kinds::{BlockNum, User};
use word::Number;

// One block more for the owner of a used header: in its first 8 bytes, as one number, all that is above used.
fn tally_owner(h: Header, tally: &mut [u32; CLIENTS])
    requires { (all (shape_tests h.bytes.now) ≡ true) × ((u : ℕ) → slice_index tally.old u ≤ 8192) }
    ensures { tally.new ≡ tallied h.entry.bytes.now tally.old }
{
    let x = u64::get(h.bytes, 0);
    let u = (x / 256) as usize;
    tally[u] += 1;
}

// Whether the header of a block is good, by its map bit; if it is, it is tallied. Free and used stand apart, since only
// one of them has an owner.
fn visit(image: Image, b: BlockNum, bit: bool, tally: &mut [u32; CLIENTS]) -> bool
    requires { (b.0 < image.n) × (bit ≡ free image.n image.bytes.now b.0)
        × ((u : ℕ) → slice_index tally.old u ≤ 8192) }
    ensures answer { result ≡ good image.entry.bytes.now b.0 }
    ensures tally { tally.new
        ≡ when result (tallied (header_of image.entry.bytes.now b.0) tally.old) tally.old }
{
    let h = header::of(image.bytes, b.0 as usize);
    if bit {
        return h.is_zero();
    }
    if !h.used_right(image.clock, b) {
        return false;
    }
    tally_owner(h, tally);
    true
}

// Whether the eight headers of byte i of the map, m, are good, one after the other; if they are, they are tallied.
fn visit_each(image: Image, i: usize, m: u8, tally: &mut [u32; CLIENTS]) -> bool
    requires { (i < image.n / 8) × (m ≡ word_at 1 image.bytes.now (map_at image.n + i))
        × ((u : ℕ) → slice_index tally.old u ≤ 4096) }
    ensures answer { result ≡ all_of (good image.entry.bytes.now) (8 * i) 8 }
    ensures tally { result ≡ true → (u : ℕ) → slice_index tally.new u
        ≡ slice_index tally.old u + times u (owners_from image.entry.bytes.now (8 * i) 8) }
{
    for j in 0..8 {
        let b = BlockNum((8 * i + j) as u32);
        let bit = (m >> j) % 2 == 1;
        if !visit(image, b, bit, tally) {
            return false;
        }
    }
    true
}

// The same. Where all eight are free, their 512 bytes are tested at once.
fn visit_eight(image: Image, i: usize, tally: &mut [u32; CLIENTS]) -> bool
    requires { (i < image.n / 8) × ((u : ℕ) → slice_index tally.old u ≤ 4096) }
    ensures answer { result ≡ all_of (good image.entry.bytes.now) (8 * i) 8 }
    ensures tally { result ≡ true → (u : ℕ) → slice_index tally.new u
        ≡ slice_index tally.old u + times u (owners_from image.entry.bytes.now (8 * i) 8) }
{
    let m = u8::get(image.bytes, HEADER * image.n + i);
    if m == 255 {
        return word::is_zero(image.bytes, HEADER * (8 * i), 8 * HEADER);
    }
    visit_each(image, i, m, tally)
}

// Whether all headers are good; if they are, the owners are tallied.
fn visit_all(image: Image, tally: &mut [u32; CLIENTS]) -> bool
    requires { (u : ℕ) → slice_index tally.old u ≡ 0 }
    ensures answer { result ≡ all_of (good image.entry.bytes.now) 0 image.entry.n }
    ensures tally { result ≡ true → (u : ℕ) → u < 64 → slice_index tally.new u
        ≡ times u (owners image.entry.n image.entry.bytes.now) }
{
    for i in 0..image.n / 8 {
        if !visit_eight(image, i, tally) {
            return false;
        }
    }
    true
}

// Whether a client's count is its tally. Scavenge asks for no less, and this for the same: two definitions.
fn same_count(img: &[u8], n: usize, u: User, tally: &[u32; CLIENTS]) -> bool
    requires { Laid img.now n × (u.0 < 64) }
    ensures { result ≡ same_count n img.now tally.now u.0 }
{
    counts::count_of(img, n, u) == tally[u.0 as usize] as u64
}

// Whether each count is its tally. A loop: from what `all` ensures, `all_of` was not proved.
fn same_counts(img: &[u8], n: usize, tally: &[u32; CLIENTS]) -> bool
    requires { Laid img.now n }
    ensures { result ≡ all_of (same_count n img.now tally.now) 0 64 }
{
    for u in 0..=LAST_CLIENT {
        if !same_count(img, n, User(u), tally) {
            return false;
        }
    }
    true
}

// Whether all but the trailer is sound.
#[tactic(auto, using(crate::proofs::Checks::body_cases))]
fn body_sound(image: Image) -> bool
    ensures { result ≡ body_sound image.entry.bytes.now }
{
    let Image { bytes, n, .. } = image;
    let mut tally = [0; CLIENTS];
    visit_all(image, &mut tally) && map::spare_zero(bytes, n) && same_counts(bytes, n, &tally)
}

// Check: whether an image is sound.
#[tactic(auto, using(crate::proofs::Checks::check_cases))]
pub fn check(img: &[u8]) -> bool
    ensures { CheckPromise img.now result }
{
    match trailer::read_trailer(img) {
        Some(Trailer { n, clock }) => {
            let bytes = img;
            body_sound(Image { bytes, n, clock })
        }
        None => false,
    }
}
