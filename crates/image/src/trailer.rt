// The trailer: read and judged, and its clock written.
ghost use Rattle.std.specs.Prelude.{◌≡◌, ◌+◌, ◌^◌, ◌<◌, ◌≤◌, [], ◌∷◌, length, ◌==◌};
ghost use Rattle.plain.specs.Tests.{all};
ghost use Rattle.word.specs.Word.{word_at};
ghost use Rattle.word.specs.Write.{puts};
ghost use Rattle.promise.specs.Layout.{number_right};
ghost use Rattle.promise.specs.Trailer.{right_trailer, clock_set};
ghost use Rattle.image.specs.Image.{Laid, distance_tests, rest_tests, trailer_answer};

use crate::layout::{
    ALL_BUT_BLOCKS, CLOCK_AT, DISK_BLOCK, EACH_BLOCK, MAP_AND_COUNTS, MARK, MARK_AT,
};
use kinds::Tick;
use kinds::limits::{END_OF_TIME, LEAST_BLOCKS, MOST_BLOCKS};
use word::Number;

// What a right trailer says.
#[derive(Clone, Copy)]
pub struct Trailer {
    pub n: usize,
    pub clock: Tick,
}

// N is a multiple of 8 from 8 to 4,096.
#[tactic(auto, using(plain::specs::Tests::cascade), unfolding(promise::specs::Layout::number_right))]
pub fn number_right(n: usize) -> bool
    ensures { result ≡ number_right n }
{
    n % 8 == 0 && LEAST_BLOCKS <= n && n <= MOST_BLOCKS
}

// Whether the 4 bytes at a place are this number.
fn is32(t: &[u8], at: usize, v: usize) -> bool
    requires { at + 4 ≤ length t.now }
    ensures { result ≡ (word_at 4 t.now at == v) }
{
    u32::get(t, at) as usize == v
}

#[tactic(auto, using(plain::specs::Tests::cascade), unfolding(plain::specs::Tests::all))]
fn distances_right(t: &[u8], n: usize) -> bool
    requires { (length t.now ≡ 512) × (n < 2 ^ 32) }
    ensures { result ≡ all (distance_tests t.now n) }
{
    is32(t, 4, n / 8 + n + 2) && is32(t, 8, n + 2) && is32(t, 12, n + 1) && is32(t, 16, n)
}

#[tactic(auto, using(plain::specs::Tests::cascade), unfolding(plain::specs::Tests::all, word::specs::Word::le))]
fn rest_right(t: &[u8]) -> bool
    requires { length t.now ≡ 512 }
    ensures { result ≡ all (rest_tests t.now) }
{
    word::is_zero(t, 20, 4)
        && u64::get(t, CLOCK_AT) < END_OF_TIME
        && word::is_zero(t, 32, 476)
        && is32(t, MARK_AT, MARK as usize)
}

// Whether 512 bytes are right as the trailer of an image of this size.
#[tactic(auto, using(crate::proofs::Trailers::parts))]
fn right_trailer(t: &[u8], size: usize) -> bool
    requires { length t.now ≡ 512 }
    ensures { result ≡ right_trailer size t.now }
{
    let n = u32::get(t, 0) as usize;
    number_right(n)
        && size == EACH_BLOCK * n + ALL_BUT_BLOCKS
        && distances_right(t, n)
        && rest_right(t)
}

#[tactic(auto, using(crate::proofs::Trailers::trailer_cases))]
pub fn read_trailer(img: &[u8]) -> Option<Trailer>
    ensures { result ≡ trailer_answer img.now }
{
    let size = img.len();
    let at = size.checked_sub(DISK_BLOCK)?;
    let t = &img[at..];
    if !right_trailer(t, size) {
        return None;
    }
    let n = u32::get(t, 0) as usize;
    let clock = Tick(u64::get(t, CLOCK_AT));
    Some(Trailer { n, clock })
}

// The clock becomes this time.
#[tactic(auto, unfolding(word::specs::Write::puts))]
pub fn set_clock(img: &mut [u8], n: usize, time: Tick)
    requires { Laid img.old n }
    ensures { img.new ≡ puts img.old (clock_set n time.0 ∷ []) }
{
    u64::put(img, EACH_BLOCK * n + MAP_AND_COUNTS + CLOCK_AT, time.0)
}
