// The library for C and Rust. A lent slice passes as a pointer and then a length, a report as its number, an answer as
// a flat struct by value. Inputs stand in the monograph's order, the time and then the image last.

#![tactic(auto)]

ghost use Rattle.std.specs.Prelude.{◌≡◌};
ghost use Rattle.kinds.specs.Report.{number_of};
ghost use Rattle.plain.specs.Tests.{when};
ghost use Rattle.promise.specs.Layout.{number_right, size_of};
ghost use Rattle.promise.specs.Format.{format_report, format_image};
ghost use Rattle.promise.specs.Sound.{CheckPromise};

use image::layout::{ALL_BUT_BLOCKS, EACH_BLOCK};

pub mod keyed;
pub mod places;
pub mod single;

// The bytes of an image of n service blocks, 0 where there is no such image.
#[unsafe(no_mangle)]
pub extern "C" fn zolvortug_size(n: u32) -> usize
    ensures { result ≡ when (number_right n) (size_of n) 0 }
{
    let m = n as usize;
    if image::trailer::number_right(m) {
        return EACH_BLOCK * m + ALL_BUT_BLOCKS;
    }
    0
}

#[unsafe(no_mangle)]
pub extern "C" fn zolvortug_format(n: u32, img: &mut [u8]) -> u8
    ensures report { result ≡ number_of (format_report n img.old) }
    ensures image { img.new ≡ format_image n img.old }
{
    u8::from(image::format::format(n, img))
}

#[unsafe(no_mangle)]
pub extern "C" fn zolvortug_check(img: &[u8]) -> bool
    ensures { CheckPromise img.now result }
{
    image::sound::check(img)
}
