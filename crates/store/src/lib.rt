// The seven operations on one block. Each reads and decides first; where no row of document 01's table applies, one
// function does the stores and nothing else, in the order trailer, data, header, map, count.

#![tactic(auto)]

ghost use Rattle.std.specs.Prelude.{◌≡◌};
ghost use Rattle.kinds.specs.Kinds.{tick};
ghost use Rattle.promise.specs.Header.{later_of};

use kinds::Tick;

mod block;
pub mod create;
pub mod destroy;
pub mod get_count;
mod lookup;
pub mod read;
pub mod replace;
pub mod set_expiry;
pub mod status;

// The later of now and the asked expiry.
#[tactic(auto, unfolding(promise::specs::Header::later_of))]
pub(crate) fn later_of(time: Tick, expiry: Tick) -> Tick
    ensures { result ≡ tick (later_of time.0 expiry.0) }
{
    Tick(time.0.max(expiry.0))
}
