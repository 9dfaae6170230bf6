// What Create and Replace share: a block that is new as of now.
ghost use Rattle.std.specs.Prelude.{◌≡◌, ◌<◌, length};
ghost use Rattle.word.specs.Write.{puts};
ghost use Rattle.image.specs.Image.{Laid};
ghost use Rattle.store.specs.Store.{block_writes};

use image::layout::TAG;
use image::{counts, header, trailer};
use kinds::{BlockNum, Id, Tick, User};

// A block as it is written: whose it is, its id, its created, which is now, its expires, and its bytes.
#[derive(Clone, Copy)]
pub(crate) struct Fresh<'a> {
    pub(crate) owner: User,
    pub(crate) id: Id,
    pub(crate) time: Tick,
    pub(crate) expires: Tick,
    pub(crate) bytes: &'a [u8],
    pub(crate) ghost known: { owner.0 < 64 },
    pub(crate) ghost whole: { length bytes.now ≡ 528 },
}

// The stores: the clock, the data, the header.
pub(crate) fn write(img: &mut [u8], n: usize, b: BlockNum, fresh: Fresh)
    requires { Laid img.old n × (b.0 < n) }
    ensures { img.new ≡ puts img.old
        (block_writes n b.0 fresh.entry.owner.0 fresh.entry.id.0 fresh.entry.expires.0
        fresh.entry.bytes.now fresh.entry.time.0) }
{
    let Fresh {
        owner,
        id,
        time,
        expires,
        bytes,
    } = fresh;
    trailer::set_clock(img, n, time);
    counts::put_data(img, n, b, bytes);
    header::put_header(img, b, owner, id, time, expires, &bytes[0..TAG])
}
