// SetExpiry: a block's expires becomes the later of now and the asked expiry.
ghost use Rattle.std.specs.Prelude.{◌≡◌, [], ◌∷◌, ◌+◌, ◌<◌};
ghost use Rattle.word.specs.Word.{bytes_of};
ghost use Rattle.word.specs.Write.{puts};
ghost use Rattle.promise.specs.Layout.{header_at};
ghost use Rattle.promise.specs.Trailer.{clock_set};
ghost use Rattle.promise.specs.SetExpiry.{SetExpiryPromise};
ghost use Rattle.image.specs.Image.{Laid};

use crate::lookup::Found;
use crate::{later_of, lookup};
use image::{header, trailer};
use kinds::{BlockNum, Id, SetExpiryAnswer, Tick, User};
use tariff::Tariff;

// The stores.
fn keep(img: &mut [u8], n: usize, b: BlockNum, until: Tick, time: Tick)
    requires { Laid img.old n × (b.0 < n) }
    ensures { img.new ≡ puts img.old
        (clock_set n time.0 ∷ record { at = header_at b.0 + 24; bytes = bytes_of 8 until.0 } ∷ []) }
{
    trailer::set_clock(img, n, time);
    header::put_expires(img, b, until)
}

pub fn set_expiry(
    t: Tariff,
    client: User,
    id: Id,
    expiry: Tick,
    time: Tick,
    img: &mut [u8],
) -> SetExpiryAnswer
    ensures { SetExpiryPromise t img.old client.0 id.0 expiry.0 time.0 result
        img.new }
{
    match lookup::seek_own(client, id, true, expiry, time, img) {
        Err(r) => SetExpiryAnswer {
            receipt: front::refused(t, r),
        },
        Ok(Found { n, b }) => {
            let until = later_of(time, expiry);
            let h = header::of(img, b.0 as usize);
            let charge = tariff::set_expiry_charge(t, h.created(), h.expires(), until);
            keep(img, n, b, until, time);
            SetExpiryAnswer {
                receipt: front::done(charge),
            }
        }
    }
}
