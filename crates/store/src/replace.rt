// Replace: new bytes and a new id in the block's place, which keeps its number and its expires.
ghost use Rattle.promise.specs.Replace.{ReplacePromise};

use crate::block::Fresh;
use crate::lookup::Found;
use crate::{block, lookup};
use image::header;
use image::layout::SERVICE_BLOCK;
use kinds::{Id, ReplaceAnswer, Tick, User};
use tariff::Tariff;

pub fn replace(
    t: Tariff,
    client: User,
    id: Id,
    bytes: &[u8],
    time: Tick,
    img: &mut [u8],
) -> ReplaceAnswer
    ensures { ReplacePromise t img.old client.0 id.0 bytes.now time.0 result
        img.new }
{
    match lookup::seek_own(client, id, bytes.len() == SERVICE_BLOCK, Tick(0), time, img) {
        Err(r) => ReplaceAnswer {
            receipt: front::refused(t, r),
            id: Id(0),
        },
        Ok(Found { n, b }) => {
            let h = header::of(img, b.0 as usize);
            let expires = h.expires();
            let charge = tariff::replace_charge(t, h.created(), expires, time, expires);
            let made = ident::make(time, b);
            let fresh = Fresh {
                owner: client,
                id: made,
                time,
                expires,
                bytes,
            };
            block::write(img, n, b, fresh);
            ReplaceAnswer {
                receipt: front::done(charge),
                id: made,
            }
        }
    }
}
