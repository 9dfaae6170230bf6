// Create: the lowest free block becomes the client's.
ghost use Rattle.std.specs.Prelude.{◌≡◌, ◌+◌, true, ◌<◌, length};
ghost use Rattle.word.specs.Write.{puts};
ghost use Rattle.promise.specs.Map.{free};
ghost use Rattle.promise.specs.Refusals.{lowest};
ghost use Rattle.promise.specs.Create.{create_rows, CreatePromise};
ghost use Rattle.image.specs.Image.{Laid};
ghost use Rattle.front.specs.Rows.{answered};
ghost use Rattle.store.specs.Store.{fill_writes};
ghost use Rattle.store.specs.Places.{place_for};

use crate::block::Fresh;
use crate::{block, later_of};
use image::known::Image;
use image::layout::SERVICE_BLOCK;
use image::trailer::Trailer;
use image::{counts, map};
use kinds::{BlockNum, CreateAnswer, Id, Report, Tick, User};
use tariff::Tariff;

// A block for the client: the image's N, the lowest free block, and how many the client has.
#[derive(Clone, Copy)]
struct Place {
    n: usize,
    b: BlockNum,
    count: u64,
}

// All tests, the count's last.
fn seek_free(
    client: User,
    expiry: Tick,
    bytes: &[u8],
    time: Tick,
    img: &[u8],
) -> Result<Place, Report>
    ensures { result ≡ answered (lowest (create_rows img.now client.0 expiry.0 bytes.now time.0))
        (place_for img.now client.0) }
{
    let Trailer { n, clock } = front::changing(client, expiry, time, img)?;
    if bytes.len() != SERVICE_BLOCK {
        return Err(Report::BadRoom);
    }
    let b = map::lowest_free(img, n).ok_or(Report::NoSpace)?;
    let image = Image {
        bytes: img,
        n,
        clock,
    };
    if !image.is_good(b) {
        return Err(Report::Damaged);
    }
    let count = counts::count_of(img, n, client);
    if (n as u64) <= count {
        return Err(Report::Damaged);
    }
    Ok(Place { n, b, count })
}

// The stores.
fn fill(img: &mut [u8], place: Place, fresh: Fresh)
    requires { Laid img.old place.n × (place.b.0 < place.n) × (free place.n img.old place.b.0 ≡ true)
        × (place.count < place.n) }
    ensures { img.new ≡ puts img.old
        (fill_writes img.old place.n place.b.0 fresh.entry.owner.0 fresh.entry.id.0
        fresh.entry.expires.0 (place.count + 1) fresh.entry.bytes.now fresh.entry.time.0) }
{
    let Place { n, b, count } = place;
    block::write(img, n, b, fresh);
    map::take_bit(img, n, b);
    counts::set_count(img, n, fresh.owner, count + 1)
}

pub fn create(
    t: Tariff,
    client: User,
    expiry: Tick,
    bytes: &[u8],
    time: Tick,
    img: &mut [u8],
) -> CreateAnswer
    ensures { CreatePromise t img.old client.0 expiry.0 bytes.now time.0 result
        img.new }
{
    match seek_free(client, expiry, bytes, time, img) {
        Err(r) => CreateAnswer {
            receipt: front::refused(t, r),
            id: Id(0),
        },
        Ok(place) => {
            let expires = later_of(time, expiry);
            let id = ident::make(time, place.b);
            let fresh = Fresh {
                owner: client,
                id,
                time,
                expires,
                bytes,
            };
            fill(img, place, fresh);
            CreateAnswer {
                receipt: front::done(tariff::create_charge(t, time, expires)),
                id,
            }
        }
    }
}
