// Format: a fresh image of n service blocks.
ghost use Rattle.std.specs.Prelude.{◌≡◌, ◌+◌, ◌≤◌, length};
ghost use Rattle.word.specs.Word.{part, blank};
ghost use Rattle.word.specs.Write.{over};
ghost use Rattle.promise.specs.Layout.{trailer_at};
ghost use Rattle.promise.specs.Trailer.{trailer_bytes};
ghost use Rattle.promise.specs.Format.{FormatPromise};
ghost use Rattle.promise.proofs.TrailerLaws.{Number};
ghost use Rattle.image.specs.Fresh.{numbers};
ghost use Rattle.image.specs.Image.{Laid};

use crate::layout::{ALL_BUT_BLOCKS, EACH_BLOCK, HEADER, MAP_AND_COUNTS, MARK, MARK_AT};
use crate::trailer;
use kinds::Report;
use word::Number;

// The trailer's first five numbers: N and the distances.
fn write_numbers(img: &mut [u8], at: usize, n: usize)
    requires { Number n × (at + 20 ≤ length img.old) }
    ensures { img.new ≡ over img.old at (numbers n) }
{
    let m = n as u32;
    u32::put(img, at, m);
    u32::put(img, at + 4, m / 8 + m + 2);
    u32::put(img, at + 8, m + 2);
    u32::put(img, at + 12, m + 1);
    u32::put(img, at + 16, m);
}

// The trailer of a fresh image, over zeros: its other bytes and its clock are zero already.
fn write_trailer(img: &mut [u8], n: usize)
    requires { Laid img.old n × (part img.old (trailer_at n) 512 ≡ blank 512) }
    ensures { img.new ≡ over img.old (trailer_at n) (trailer_bytes n 0) }
{
    let at = EACH_BLOCK * n + MAP_AND_COUNTS;
    write_numbers(img, at, n);
    u32::put(img, at + MARK_AT, MARK);
}

// Zeroes the image, sets its N map bits and writes its trailer; refuses an N or a length that is not right, and then
// changes no byte. Its answer is a report alone, as document 01 has it.
pub fn format(n: u32, img: &mut [u8]) -> Report
    ensures { FormatPromise n img.old result img.new }
{
    let m = n as usize;
    if !trailer::number_right(m) {
        return Report::BadImage;
    }
    let size = img.len();
    if size != EACH_BLOCK * m + ALL_BUT_BLOCKS {
        return Report::BadImage;
    }
    word::clear(img, 0, size);
    word::fill(img, HEADER * m, m / 8, 255);
    write_trailer(img, m);
    Report::Success
}
