// Scavenge: all is decided before a byte is stored. What is to go is kept in marks, one for each header visited.
ghost use Rattle.std.specs.Prelude.{◌≡◌, true, not, cond, ℕ, ◌+◌, ◌≤◌, ◌<◌, ltb, length, get_or, IfSome};
ghost use Rattle.plain.specs.Tests.{when};
ghost use Rattle.kinds.specs.declared.Report.TheVariants.{Success};
ghost use Rattle.tariff.specs.Charges.{scavenge_charge};
ghost use Rattle.run.specs.Run as Run;
ghost use Rattle.run.specs.Run.{picked, all_of, each};
ghost use Rattle.promise.specs.Layout.{header_at};
ghost use Rattle.promise.specs.Refusals.{receipt};
ghost use Rattle.promise.specs.Keys.{key_at, visited_good};
ghost use Rattle.promise.specs.Scavenge.{scavenge_damaged, scavenge_report, scavenge_answer, scavenge_image};
ghost use Rattle.promise.specs.Scavenge.{ScavengePromise};
ghost use Rattle.image.specs.Image.{Laid};
ghost use Rattle.keys.specs.Marks.{loser_of, marked, raised_by, has_count, freed, lowered, owes, lowered_by};
ghost use Rattle.keys.specs.Marks.{removed_by, Lost};
ghost use Rattle.front.specs.Rows.{answered};

use crate::visit::Span;
use crate::{key_at, managed, reach, visit};
use image::known::Image;
use image::trailer::Trailer;
use image::{counts, header, map, trailer};
use kinds::limits::{CLIENTS, MOST_HEADERS};
use kinds::{BlockNum, Report, ScavengeAnswer, Tick, User};
use tariff::Tariff;

// What is to go: a mark for each header visited, and how many blocks each client loses. Two arrays: there is no heap.
#[derive(Drop)]
struct Losses {
    marks: [bool; MOST_HEADERS],
    tally: [u32; CLIENTS],
}

// The client that loses a block: its owner, where it is expired.
fn loser(img: &[u8], time: Tick, b: usize) -> Option<User>
    requires { header_at b + 64 ≤ length img.now }
    ensures { result ≡ loser_of img.now time.0 b }
{
    let h = header::of(img, b);
    if !h.is_used() || time.0 <= h.expires().0 {
        return None;
    }
    Some(h.owner())
}

// One more for a client that loses a block.
fn tally_loss(who: Option<User>, tally: &mut [u32; CLIENTS])
    requires { ((u : ℕ) → u < 64 → get_or tally.old u 0 ≤ 64) × IfSome who (λ u. u.0 < 64) }
    ensures { tally.new ≡ raised_by who tally.old }
{
    if let Some(u) = who {
        tally[u.0 as usize] += 1;
    }
}

// Marks the blocks visited, and counts those that each client loses.
fn mark_all(img: &[u8], time: Tick, span: Span, losses: &mut Losses)
    requires { (header_at (span.from + span.visited) ≤ length img.now) × (span.visited ≤ 64)
        × ((u : ℕ) → get_or losses.old.tally u 0 ≡ 0) × (visited_good img.now span.from span.visited ≡ true) }
    ensures { Lost img.now time.0 span.from span.visited losses.new.marks losses.new.tally }
{
    let Span { from, visited, .. } = span;
    for i in 0..visited {
        let who = loser(img, time, from + i);
        losses.marks[i] = who.is_some();
        tally_loss(who, &mut losses.tally);
    }
}

// Whether a client's count is not below its tally.
fn has_count(img: &[u8], n: usize, u: User, tally: &[u32; CLIENTS]) -> bool
    requires { Laid img.now n × (u.0 < 64) }
    ensures { result ≡ has_count n img.now tally.now u.0 }
{
    let k = u64::from(tally[u.0 as usize]);
    k <= counts::count_of(img, n, u)
}

// Whether no client's count is below its tally. All are looked at: a loop that stops early does not vectorize.
fn has_counts(img: &[u8], n: usize, tally: &[u32; CLIENTS]) -> bool
    requires { Laid img.now n }
    ensures { result ≡ all_of (has_count n img.now tally.now) 0 64 }
{
    let mut enough = true;
    for u in 0..CLIENTS as u32 {
        enough &= has_count(img, n, User(u), tally);
    }
    enough
}

// Zeroes the header of a block and frees its bit, where it is to go; how many went, 1 or 0, which are added up.
fn free_one(img: &mut [u8], n: usize, b: usize, goes: bool) -> usize
    requires { Laid img.old n × (b < n) }
    ensures gone { result ≡ cond goes 1 0 }
    ensures image { img.new ≡ when goes (freed n img.old b) img.old }
{
    if !goes {
        return 0;
    }
    header::zero_header(img, BlockNum(b as u32));
    map::free_bit(img, n, BlockNum(b as u32));
    1
}

// Zeroes the headers and frees the bits of the blocks that are to go, from the lowest; their number.
fn free_blocks(img: &mut [u8], span: Span, marks: &[bool; MOST_HEADERS]) -> usize
    requires { Laid img.old span.n × (span.from + span.visited ≤ span.n) × (span.visited ≤ 64) }
    ensures gone { result ≡ length (picked (marked marks.now span.from) span.from span.visited) }
    ensures image { img.new ≡ each (freed span.n) img.old
        (picked (marked marks.now span.from) span.from span.visited) }
{
    let Span { n, from, visited } = span;
    let mut k = 0;
    for b in from..from + visited {
        k += free_one(img, n, b, marks[b - from]);
    }
    k
}

// Lowers a client's count by k, and not below 0.
fn lower_one(img: &mut [u8], n: usize, u: User, k: u32)
    requires { Laid img.old n × (u.0 < 64) }
    ensures { img.new ≡ when (ltb 0 k) (lowered n u.0 k img.old) img.old }
{
    if 0 < k {
        let count = counts::count_of(img, n, u);
        counts::set_count(img, n, u, count.saturating_sub(k as u64));
    }
}

// Lowers the counts of the clients that have a tally, each by as much.
fn lower_counts(img: &mut [u8], n: usize, tally: &[u32; CLIENTS])
    requires { Laid img.old n }
    ensures { img.new ≡ each (lowered_by n tally.now) img.old
        (picked (owes tally.now) 0 64) }
{
    for (u, k) in tally.iter().enumerate() {
        lower_one(img, n, User(u as u32), *k);
    }
}

// Removes the blocks that are to go: the clock, their headers and bits from the lowest, the counts. Their number.
fn remove(img: &mut [u8], span: Span, time: Tick, losses: &Losses) -> usize
    requires { Laid img.old span.n × (span.from + span.visited ≤ span.n) × (span.visited ≤ 64)
        × Lost img.old time.0 span.from span.visited losses.now.marks losses.now.tally }
    ensures gone { result ≡ length (picked (marked losses.now.marks span.from) span.from span.visited) }
    ensures image { img.new ≡ removed_by span.n time.0 losses.now.marks losses.now.tally
        span.from span.visited img.old }
{
    trailer::set_clock(img, span.n, time);
    let count = free_blocks(img, span, &losses.marks);
    if 0 < count {
        lower_counts(img, span.n, &losses.tally);
    }
    count
}

// Whether all is well: the headers visited are good, and no count would fall below 0. Where it is, the blocks visited
// are marked, and those that are to go are tallied by their owners.
fn decide(image: Image, span: Span, time: Tick, losses: &mut Losses) -> bool
    requires { (span.from + span.visited ≤ image.n) × (span.visited ≡ Run.reach image.n span.from)
        × ((u : ℕ) → get_or losses.old.tally u 0 ≡ 0) }
    ensures answer { result ≡ not (scavenge_damaged image.entry.bytes.now span.from time.0) }
    ensures losses { result ≡ true
        → Lost image.entry.bytes.now time.0 span.from span.visited losses.new.marks losses.new.tally }
{
    if !visit::all_good(image, span.from, span.visited) {
        return false;
    }
    mark_all(image.bytes, time, span, losses);
    has_counts(image.bytes, image.n, &losses.tally)
}

// The answer of a call that is not refused, its blocks removed.
fn give_scavenge(
    t: Tariff,
    time: Tick,
    span: Span,
    losses: &Losses,
    img: &mut [u8],
) -> ScavengeAnswer
    requires { Laid img.old span.n × (span.from + span.visited ≤ span.n) × (span.visited ≤ 64)
        × Lost img.old time.0 span.from span.visited losses.now.marks losses.now.tally }
    ensures answer { result ≡ record {
      receipt = receipt Success (scavenge_charge t);
      key = key_at span.n (span.from + span.visited);
      count = length (picked (marked losses.now.marks span.from) span.from span.visited);
    } }
    ensures image { img.new ≡ removed_by span.n time.0 losses.now.marks losses.now.tally
        span.from span.visited img.old }
{
    let count = remove(img, span, time, losses);
    ScavengeAnswer {
        receipt: front::done(tariff::price(t.scavenge)),
        key: key_at(span.n, span.from + span.visited),
        count: count as u32,
    }
}

// All tests of Scavenge, and its answer, the blocks removed; or the report that refuses it. A call that numbers refuse
// has made no marks yet.
fn tried(
    t: Tariff,
    client: User,
    key: u32,
    time: Tick,
    img: &mut [u8],
) -> Result<ScavengeAnswer, Report>
    ensures answer { result ≡ answered (scavenge_report img.old client.0 key time.0)
        (scavenge_answer t img.old client.0 key time.0) }
    ensures image { img.new ≡ scavenge_image img.old client.0 key time.0 }
{
    let Trailer { n, clock } = front::changing(client, Tick(0), time, img)?;
    managed(n, client, key, false)?;
    let from = key as usize;
    let visited = reach(n, from);
    let span = Span { n, from, visited };
    let image = Image {
        bytes: img,
        n,
        clock,
    };
    let mut losses = Losses {
        marks: [false; MOST_HEADERS],
        tally: [0; CLIENTS],
    };
    if !decide(image, span, time, &mut losses) {
        return Err(Report::Damaged);
    }
    Ok(give_scavenge(t, time, span, &losses, img))
}

// Scavenge: removes the blocks that are expired among the headers that it visits from the key upward.
pub fn scavenge(t: Tariff, client: User, key: u32, time: Tick, img: &mut [u8]) -> ScavengeAnswer
    ensures { ScavengePromise t img.old client.0 key time.0 result img.new }
{
    match tried(t, client, key, time, img) {
        Err(r) => ScavengeAnswer {
            receipt: front::refused(t, r),
            key,
            count: 0,
        },
        Ok(answer) => answer,
    }
}
