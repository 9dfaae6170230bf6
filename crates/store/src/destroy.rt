// Destroy: the header is zeroed, the bit freed and the count lowered. The data block's bytes stay.
ghost use Rattle.std.specs.Prelude.{◌≡◌, false, [], ◌∷◌, ◌<◌};
ghost use Rattle.word.specs.Write.{puts};
ghost use Rattle.promise.specs.Trailer.{clock_set};
ghost use Rattle.promise.specs.Header.{header_zeroed};
ghost use Rattle.promise.specs.Map.{free, bit_freed};
ghost use Rattle.promise.specs.Counts.{count_set};
ghost use Rattle.promise.specs.Refusals.{lowest};
ghost use Rattle.promise.specs.Lookup.{leads_to};
ghost use Rattle.promise.specs.Destroy.{destroy_rows, DestroyPromise};
ghost use Rattle.image.specs.Image.{Laid};
ghost use Rattle.front.specs.Rows.{answered};
ghost use Rattle.store.specs.Store.{found, left_of};

use crate::lookup;
use crate::lookup::Found;
use image::{counts, header, map, trailer};
use kinds::{BlockNum, DestroyAnswer, Id, Report, Tick, User};
use tariff::Tariff;

// The stores.
fn erase(img: &mut [u8], n: usize, b: BlockNum, owner: User, count: u64, time: Tick)
    requires { Laid img.old n × (b.0 < n) × (free n img.old b.0 ≡ false) × (owner.0 < 64) }
    ensures { img.new ≡ puts img.old
        (clock_set n time.0 ∷ header_zeroed b.0 ∷ bit_freed n img.old b.0 ∷ count_set n
        owner.0 count ∷ []) }
{
    trailer::set_clock(img, n, time);
    header::zero_header(img, b);
    map::free_bit(img, n, b);
    counts::set_count(img, n, owner, count)
}

// All tests, and how many blocks the client has after it: a pair, since it is taken apart at once.
fn seek(client: User, id: Id, time: Tick, img: &[u8]) -> Result<(Found, u64), Report>
    ensures { result ≡ answered (lowest (destroy_rows img.now client.0 id.0 time.0))
        (found img.now (leads_to id.0), left_of img.now client.0) }
{
    let f = lookup::seek_own(client, id, true, Tick(0), time, img)?;
    let left = counts::count_of(img, f.n, client)
        .checked_sub(1)
        .ok_or(Report::Damaged)?;
    Ok((f, left))
}

pub fn destroy(t: Tariff, client: User, id: Id, time: Tick, img: &mut [u8]) -> DestroyAnswer
    ensures { DestroyPromise t img.old client.0 id.0 time.0 result img.new }
{
    match seek(client, id, time, img) {
        Err(r) => DestroyAnswer {
            receipt: front::refused(t, r),
        },
        Ok((Found { n, b }, left)) => {
            let h = header::of(img, b.0 as usize);
            let charge = tariff::destroy_charge(t, h.created(), h.expires(), time);
            erase(img, n, b, client, left, time);
            DestroyAnswer {
                receipt: front::done(charge),
            }
        }
    }
}
