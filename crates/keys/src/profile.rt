// Profile: the tests, then the entries.
ghost use Rattle.std.specs.Prelude.{◌≡◌, ◌+◌, ◌*◌, ◌≤◌, length};
ghost use Rattle.word.specs.Write.{over};
ghost use Rattle.kinds.specs.declared.Report.TheVariants.{Success};
ghost use Rattle.tariff.specs.Charges.{profile_charge};
ghost use Rattle.run.specs.Run.{one, just, picked, rows};
ghost use Rattle.promise.specs.Layout.{header_at};
ghost use Rattle.promise.specs.Refusals.{receipt};
ghost use Rattle.promise.specs.Keys.{key_at, reach};
ghost use Rattle.promise.specs.Profile.{profile_row, profile_report, ProfilePromise};
ghost use Rattle.image.specs.Image.{Laid};
ghost use Rattle.keys.specs.Visit.{used, entry_of};
ghost use Rattle.front.specs.Rows.{answered};
ghost use Rattle.keys.specs.Asked.{span};

use crate::visit::Span;
use crate::{key_at, managed, reach, visit};
use image::header;
use image::header::Header;
use image::known::Image;
use image::layout::{ENTRY, PROFILE_ROOM};
use image::trailer::Trailer;
use kinds::{ProfileAnswer, Report, User};
use tariff::Tariff;
use word::Number;

// The entry of a header: owner, created, expires.
fn put_entry(buffer: &mut [u8], at: usize, h: Header)
    requires { at + 24 ≤ length buffer.old }
    ensures { buffer.new ≡ over buffer.old at (entry_of h.entry.bytes.now) }
{
    u64::put(buffer, at, h.owner().0 as u64);
    u64::put(buffer, at + 8, h.created().0);
    u64::put(buffer, at + 16, h.expires().0)
}

// Enters a block in the buffer, where it is used, after k entries; the number of entries then.
fn enter_block(img: &[u8], b: usize, buffer: &mut [u8], k: usize) -> usize
    requires { (header_at b + 64 ≤ length img.now) × (24 * (k + one (used img.now) b) ≤ length buffer.old)
        × (k ≤ 64) }
    ensures entries { result ≡ k + one (used img.now) b }
    ensures bytes { buffer.new
        ≡ over buffer.old (24 * k) (rows (profile_row img.now) (just (used img.now) b)) }
{
    let h = header::of(img, b);
    if !h.is_used() {
        return k;
    }
    put_entry(buffer, ENTRY * k, h);
    k + 1
}

// Enters the used blocks among those visited; their number.
fn enter_blocks(img: &[u8], span: Span, buffer: &mut [u8]) -> usize
    requires { (header_at (span.from + span.visited) ≤ length img.now) × (span.visited ≤ 64)
        × (1536 ≤ length buffer.old) }
    ensures entries { result ≡ length (picked (used img.now) span.from span.visited) }
    ensures bytes { buffer.new
        ≡ over buffer.old 0
        (rows (profile_row img.now) (picked (used img.now) span.from span.visited)) }
{
    let Span { from, visited, .. } = span;
    let mut k = 0;
    for b in from..from + visited {
        k = enter_block(img, b, buffer, k);
    }
    k
}

// All tests of Profile: what it visits, or the report that refuses it.
fn tried(client: User, key: u32, buffer: &[u8], img: &[u8]) -> Result<Span, Report>
    ensures { result ≡ answered (profile_report img.now client.0 key buffer.now)
        (span img.now key (reach img.now key)) }
{
    let Trailer { n, clock } = front::reading(client, img)?;
    managed(n, client, key, buffer.len() < PROFILE_ROOM)?;
    let from = key as usize;
    let visited = reach(n, from);
    let image = Image {
        bytes: img,
        n,
        clock,
    };
    if !visit::all_good(image, from, visited) {
        return Err(Report::Damaged);
    }
    Ok(Span { n, from, visited })
}

// The answer of a call that is not refused, its entries in the buffer.
fn give_profile(t: Tariff, span: Span, buffer: &mut [u8], img: &[u8]) -> ProfileAnswer
    requires { Laid img.now span.n × (span.from + span.visited ≤ span.n) × (span.visited ≤ 64)
        × (1536 ≤ length buffer.old) }
    ensures answer { result ≡ record {
      receipt = receipt Success (profile_charge t);
      key = key_at span.n (span.from + span.visited);
      entries = length (picked (used img.now) span.from span.visited);
    } }
    ensures bytes { buffer.new
        ≡ over buffer.old 0
        (rows (profile_row img.now) (picked (used img.now) span.from span.visited)) }
{
    let Span { n, from, visited } = span;
    let entries = enter_blocks(img, span, buffer);
    ProfileAnswer {
        receipt: front::done(tariff::price(t.profile)),
        key: key_at(n, from + visited),
        entries: entries as u32,
    }
}

// Profile: enters the used blocks among the headers that it visits from the key upward.
pub fn profile(t: Tariff, client: User, key: u32, buffer: &mut [u8], img: &[u8]) -> ProfileAnswer
    ensures { ProfilePromise t img.now client.0 key buffer.old result
        buffer.new }
{
    match tried(client, key, buffer, img) {
        Err(r) => ProfileAnswer {
            receipt: front::refused(t, r),
            key,
            entries: 0,
        },
        Ok(span) => give_profile(t, span, buffer, img),
    }
}
