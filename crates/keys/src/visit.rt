// The headers that a call visits, tested: one function for the three operations.
ghost use Rattle.std.specs.Prelude.{◌≡◌, ◌+◌, ◌≤◌};
ghost use Rattle.run.specs.Run.{visits};
ghost use Rattle.promise.specs.Counts.{owned_by};
ghost use Rattle.promise.specs.Keys.{visited_good};
ghost use Rattle.keys.specs.Visit.{visited_of};

use image::header;
use image::known::Image;
use kinds::limits::MOST_IDS;
use kinds::{BlockNum, User};

// The headers that a call visits, where the image has n: how many, and the block number of the first. That they are of
// the image is said in contracts: `span` names a Span for every input, and so can't give it a fact.
#[derive(Clone, Copy)]
pub(crate) struct Span {
    pub(crate) n: usize,
    pub(crate) from: usize,
    pub(crate) visited: usize,
}

// Tests headers from a block number upward, up to `most`, and none after `count` of the client's blocks have been met;
// how many are visited, or None where one of them is not good.
pub(crate) fn visit(
    image: Image,
    client: User,
    from: usize,
    most: usize,
    count: u32,
) -> Option<usize>
    requires { from + most ≤ image.n }
    ensures { result ≡ visited_of image.entry.bytes.now from
        (visits (owned_by image.entry.bytes.now client.0) most count from) }
{
    let mut wanted = count;
    for b in from..from + most {
        if wanted == 0 {
            return Some(b - from);
        }
        if !image.is_good(BlockNum(b as u32)) {
            return None;
        }
        wanted -= u32::from(header::is_owned(image.bytes, client, b));
    }
    Some(most)
}

// Tests all of `most` headers, which are 64 at most: so many of a client's blocks are not met before the last of them.
// It is no loop of its own, so that the three operations have one.
pub(crate) fn all_good(image: Image, from: usize, most: usize) -> bool
    requires { (from + most ≤ image.n) × (most ≤ 64) }
    ensures { result ≡ visited_good image.entry.bytes.now from most }
{
    visit(image, User(0), from, most, MOST_IDS).is_some()
}
