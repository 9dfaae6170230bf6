// The map: which blocks are free.
ghost use Rattle.std.specs.Prelude.{◌≡◌, ◌-◌, ◌*◌, ◌/◌, ◌^◌, ◌<◌, ◌≤◌, true, [], ◌∷◌};
ghost use Rattle.word.specs.Write.{puts};
ghost use Rattle.promise.specs.Map.{free, spare_zero, bit_taken, bit_freed};
ghost use Rattle.image.specs.Image.{Laid, lowest_from};

use crate::layout::{DISK_BLOCK, HEADER};
use kinds::BlockNum;
use word::Number;

#[tactic(auto, unfolding(promise::specs::Map::free))]
pub fn is_free(img: &[u8], n: usize, b: BlockNum) -> bool
    requires { Laid img.now n × (b.0 < n) }
    ensures { result ≡ free n img.now b.0 }
{
    let i = b.0 as usize;
    let m = u8::get(img, HEADER * n + i / 8);
    (m >> (i % 8)) % 2 == 1
}

// Whether the bits from n on are 0.
#[tactic(auto, unfolding(promise::specs::Map::spare_zero))]
pub fn spare_zero(img: &[u8], n: usize) -> bool
    requires { Laid img.now n }
    ensures { result ≡ spare_zero n img.now }
{
    word::is_zero(img, HEADER * n + n / 8, DISK_BLOCK - n / 8)
}

// The weight of bit i of a byte.
fn weight(i: usize) -> u8
    requires { i < 8 }
    ensures { result ≡ 2 ^ i }
{
    1u8 << i
}

// Makes a free block's bit 0.
pub fn take_bit(img: &mut [u8], n: usize, b: BlockNum)
    requires { Laid img.old n × (b.0 < n) × (free n img.old b.0 ≡ true) }
    ensures { img.new ≡ puts img.old (bit_taken n img.old b.0 ∷ []) }
{
    let i = b.0 as usize;
    let at = HEADER * n + i / 8;
    let m = u8::get(img, at);
    u8::put(img, at, m - weight(i % 8))
}

// Makes a used block's bit 1. A bit that is 1 already is not asked about: the sum is cut to a byte, as the definition
// has it.
pub fn free_bit(img: &mut [u8], n: usize, b: BlockNum)
    requires { Laid img.old n × (b.0 < n) }
    ensures { img.new ≡ puts img.old (bit_freed n img.old b.0 ∷ []) }
{
    let i = b.0 as usize;
    let at = HEADER * n + i / 8;
    let m = u8::get(img, at);
    u8::put(img, at, m.wrapping_add(weight(i % 8)))
}

// The lowest free block from byte `from` of the map on. Of a byte that is 0 no bit is looked at. The next function has
// the same loop over 8 bytes: one for both would need `trailing_zeros` of a trait, with its law.
fn free_from(img: &[u8], n: usize, from: usize) -> Option<BlockNum>
    requires { Laid img.now n × (from ≤ n / 8) }
    ensures { result ≡ lowest_from n img.now (8 * from) }
{
    for i in from..n / 8 {
        let m = u8::get(img, HEADER * n + i);
        if m != 0 {
            return Some(BlockNum((8 * i + m.trailing_zeros() as usize) as u32));
        }
    }
    None
}

// The lowest free block: 8 bytes of the map at a time, then what is left.
pub fn lowest_free(img: &[u8], n: usize) -> Option<BlockNum>
    requires { Laid img.now n }
    ensures { result ≡ lowest_from n img.now 0 }
{
    for i in 0..n / 64 {
        let m = u64::get(img, HEADER * n + 8 * i);
        if m != 0 {
            return Some(BlockNum((64 * i + m.trailing_zeros() as usize) as u32));
        }
    }
    free_from(img, n, n / 64 * 8)
}
