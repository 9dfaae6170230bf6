// An id looked up, and with it all tests of the operations that name a block by its id.
ghost use Rattle.std.specs.Prelude.{◌≡◌, ◌++◌};
ghost use Rattle.kinds.specs.Kinds.{block_num};
ghost use Rattle.promise.specs.Lookup.{leads_to};
ghost use Rattle.promise.specs.Refusals.{lowest};
ghost use Rattle.front.specs.Rows.{reading_rows, changing_rows, answered};
ghost use Rattle.store.specs.Store.{find_rows, own_rows, found};

use image::header;
use image::known::Image;
use image::trailer::Trailer;
use kinds::{BlockNum, Id, Report, Tick, User};

// The block that an operation is about, and the image's N.
#[derive(Clone, Copy)]
pub(crate) struct Found {
    pub n: usize,
    pub b: BlockNum,
}

// The buffer's room, as `find_rows` has it, then the block that the id leads to.
#[tactic(auto, using(crate::proofs::Lookups::find_cases))]
fn find(id: Id, room: bool, image: Image) -> Result<BlockNum, Report>
    ensures { result ≡ answered (lowest (find_rows image.entry.bytes.now id.0 room))
        (block_num (leads_to id.0)) }
{
    if !room {
        return Err(Report::BadRoom);
    }
    let b = ident::shaped(id, image.n as u32).ok_or(Report::NoSuchBlock)?;
    if !image.is_good(b) {
        return Err(Report::Damaged);
    }
    let h = header::of(image.bytes, b.0 as usize);
    if !h.is_used() || h.id() != id {
        return Err(Report::NoSuchBlock);
    }
    Ok(b)
}

// All tests of Read and Status.
pub(crate) fn seek(client: User, id: Id, room: bool, img: &[u8]) -> Result<Found, Report>
    ensures { result ≡ answered (lowest (reading_rows img.now client.0 ++ find_rows img.now id.0 room))
        (found img.now (leads_to id.0)) }
{
    let Trailer { n, clock } = front::reading(client, img)?;
    let bytes = img;
    let b = find(id, room, Image { bytes, n, clock })?;
    Ok(Found { n, b })
}

// All tests of Replace and SetExpiry, and those of Destroy but its count's. It has other tests in front than `seek`,
// and one behind.
pub(crate) fn seek_own(
    client: User,
    id: Id,
    room: bool,
    expiry: Tick,
    time: Tick,
    img: &[u8],
) -> Result<Found, Report>
    ensures { result ≡ answered
        (lowest (changing_rows img.now client.0 expiry.0 time.0 ++ own_rows img.now client.0 id.0 room))
        (found img.now (leads_to id.0)) }
{
    let Trailer { n, clock } = front::changing(client, expiry, time, img)?;
    let bytes = img;
    let b = find(id, room, Image { bytes, n, clock })?;
    if header::of(img, b.0 as usize).owner() != client {
        return Err(Report::NotOwner);
    }
    Ok(Found { n, b })
}
