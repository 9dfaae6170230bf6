// An image whose trailer is right, with what its trailer says.
ghost use Rattle.std.specs.Prelude.{◌≡◌, ◌<◌};
ghost use Rattle.promise.specs.Map.{good};
ghost use Rattle.image.specs.Image.{Known};

use crate::{header, map};
use kinds::{BlockNum, Tick};

#[derive(Clone, Copy)]
pub struct Image<'a> {
    pub bytes: &'a [u8],
    pub n: usize,
    pub clock: Tick,
    pub ghost known: { Known bytes.now n clock.0 },
}

impl Image<'_> {
    // Whether the header of a block is good. The walks call it once for each block.
    #[inline]
    #[tactic(auto, unfolding(promise::specs::Map::good))]
    pub fn is_good(self, b: BlockNum) -> bool
        requires { b.0 < self.n }
        ensures { result ≡ good self.entry.bytes.now b.0 }
    {
        let free = map::is_free(self.bytes, self.n, b);
        header::of(self.bytes, b.0 as usize).is_good(self.clock, b, free)
    }
}
