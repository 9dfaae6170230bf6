// GetIds: the tests, then the ids.
ghost use Rattle.std.specs.Prelude.{◌≡◌, ◌+◌, ◌*◌, ◌≤◌, length};
ghost use Rattle.word.specs.Write.{over};
ghost use Rattle.kinds.specs.declared.Report.TheVariants.{Success};
ghost use Rattle.tariff.specs.Charges.{get_ids_charge};
ghost use Rattle.run.specs.Run.{one, just, picked, rows};
ghost use Rattle.promise.specs.Layout.{header_at};
ghost use Rattle.promise.specs.Counts.{owned_by};
ghost use Rattle.promise.specs.Refusals.{lowest, receipt};
ghost use Rattle.promise.specs.Keys.{key_at};
ghost use Rattle.promise.specs.GetIds.{id_row, ids_visited, get_ids_report, GetIdsPromise};
ghost use Rattle.image.specs.Image.{Laid};
ghost use Rattle.front.specs.Rows.{answered};
ghost use Rattle.keys.specs.Asked.{ids_rows, span};

use crate::visit::Span;
use crate::{key_at, reach, visit};
use image::header;
use image::known::Image;
use image::layout::NUMBER;
use image::trailer::Trailer;
use kinds::limits::MOST_IDS;
use kinds::{GetIdsAnswer, Report, User};
use tariff::Tariff;
use word::Number;

// Names a block in the buffer, where it is the client's, after k ids; the number of ids then.
fn name_id(img: &[u8], client: User, b: usize, ids: &mut [u8], k: usize) -> usize
    requires { (header_at b + 64 ≤ length img.now)
        × (8 * (k + one (owned_by img.now client.0) b) ≤ length ids.old) × (k ≤ 64) }
    ensures entries { result ≡ k + one (owned_by img.now client.0) b }
    ensures bytes { ids.new ≡ over ids.old (8 * k)
        (rows (id_row img.now) (just (owned_by img.now client.0) b)) }
{
    if !header::is_owned(img, client, b) {
        return k;
    }
    u64::put(ids, NUMBER * k, header::of(img, b).id().0);
    k + 1
}

// Names the client's among the blocks visited; their number. Profile has the same loop over its entries: a test and a
// store of a trait, an impl of both for each, a turn and a loop would be six functions for these four.
fn name_ids(img: &[u8], client: User, span: Span, ids: &mut [u8]) -> usize
    requires { (header_at (span.from + span.visited) ≤ length img.now)
        × (length (picked (owned_by img.now client.0) span.from span.visited) ≤ 64)
        × (8 * length (picked (owned_by img.now client.0) span.from span.visited) ≤ length ids.old) }
    ensures entries { result ≡ length (picked (owned_by img.now client.0) span.from span.visited) }
    ensures bytes { ids.new ≡ over ids.old 0
        (rows (id_row img.now) (picked (owned_by img.now client.0) span.from span.visited)) }
{
    let Span { from, visited, .. } = span;
    let mut k = 0;
    for b in from..from + visited {
        k = name_id(img, client, b, ids, k);
    }
    k
}

// The tests that numbers decide, after those in front.
fn asked(n: usize, key: u32, count: u32, room: usize) -> Result<(), Report>
    ensures { result ≡ answered (lowest (ids_rows n key count room)) tt }
{
    if n <= key as usize {
        return Err(Report::BadKey);
    }
    if count == 0 || MOST_IDS < count {
        return Err(Report::BadCount);
    }
    if room < NUMBER * count as usize {
        return Err(Report::BadRoom);
    }
    Ok(())
}

// All tests of GetIds: what it visits, or the report that refuses it. Each key call has its own tests, in the order of
// its rows: alike are only the lines that make what is visited.
fn tried(client: User, key: u32, count: u32, ids: &[u8], img: &[u8]) -> Result<Span, Report>
    ensures { result ≡ answered (get_ids_report img.now client.0 key count ids.now)
        (span img.now key (ids_visited img.now client.0 key count)) }
{
    let Trailer { n, clock } = front::reading(client, img)?;
    asked(n, key, count, ids.len())?;
    let from = key as usize;
    let image = Image {
        bytes: img,
        n,
        clock,
    };
    let found = visit::visit(image, client, from, reach(n, from), count);
    let visited = found.ok_or(Report::Damaged)?;
    Ok(Span { n, from, visited })
}

// The answer of a call that is not refused, its ids in the buffer.
fn give_ids(t: Tariff, client: User, span: Span, ids: &mut [u8], img: &[u8]) -> GetIdsAnswer
    requires { Laid img.now span.n × (span.from + span.visited ≤ span.n)
        × (length (picked (owned_by img.now client.0) span.from span.visited) ≤ 64)
        × (8 * length (picked (owned_by img.now client.0) span.from span.visited) ≤ length ids.old) }
    ensures answer { result ≡ record {
      receipt = receipt Success (get_ids_charge t);
      key = key_at span.n (span.from + span.visited);
      entries = length (picked (owned_by img.now client.0) span.from span.visited);
    } }
    ensures bytes { ids.new ≡ over ids.old 0
        (rows (id_row img.now) (picked (owned_by img.now client.0) span.from span.visited)) }
{
    let Span { n, from, visited } = span;
    let entries = name_ids(img, client, span, ids);
    GetIdsAnswer {
        receipt: front::done(tariff::price(t.getids)),
        key: key_at(n, from + visited),
        entries: entries as u32,
    }
}

// GetIds: names the client's ids among the headers that it visits from the key upward.
pub fn get_ids(
    t: Tariff,
    client: User,
    key: u32,
    count: u32,
    ids: &mut [u8],
    img: &[u8],
) -> GetIdsAnswer
    ensures { GetIdsPromise t img.now client.0 key count ids.old result ids.new }
{
    match tried(client, key, count, ids, img) {
        Err(r) => GetIdsAnswer {
            receipt: front::refused(t, r),
            key,
            entries: 0,
        },
        Ok(span) => give_ids(t, client, span, ids, img),
    }
}
