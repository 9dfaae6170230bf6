// Status: a block's owner, when it was created and when it expires.
ghost use Rattle.promise.specs.Status.{StatusPromise};

use crate::lookup;
use crate::lookup::Found;
use image::header;
use kinds::{Id, StatusAnswer, Tick, User};
use tariff::Tariff;

pub fn status(t: Tariff, client: User, id: Id, img: &[u8]) -> StatusAnswer
    ensures { StatusPromise t img.now client.0 id.0 result }
{
    match lookup::seek(client, id, true, img) {
        Err(r) => StatusAnswer {
            receipt: front::refused(t, r),
            owner: User(0),
            created: Tick(0),
            expires: Tick(0),
        },
        Ok(Found { b, .. }) => {
            let h = header::of(img, b.0 as usize);
            StatusAnswer {
                receipt: front::done(tariff::price(t.status)),
                owner: h.owner(),
                created: h.created(),
                expires: h.expires(),
            }
        }
    }
}
