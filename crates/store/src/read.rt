// Read: the 528 bytes of a block, to the lent buffer.
ghost use Rattle.promise.specs.Read.{ReadPromise};

use crate::lookup;
use crate::lookup::Found;
use image::counts;
use image::layout::SERVICE_BLOCK;
use kinds::{Id, ReadAnswer, User};
use tariff::Tariff;

pub fn read(t: Tariff, client: User, id: Id, buffer: &mut [u8], img: &[u8]) -> ReadAnswer
    ensures { ReadPromise t img.now client.0 id.0 buffer.old result
        buffer.new }
{
    match lookup::seek(client, id, buffer.len() == SERVICE_BLOCK, img) {
        Err(r) => ReadAnswer {
            receipt: front::refused(t, r),
        },
        Ok(Found { n, b }) => {
            counts::get_block(img, n, b, buffer);
            ReadAnswer {
                receipt: front::done(tariff::price(t.read)),
            }
        }
    }
}
