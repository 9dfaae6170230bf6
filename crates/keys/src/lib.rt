// The three key-linked operations: GetIds, Scavenge and Profile. Each decides its report before it writes a byte.
// A loop's body is a function with a contract, to which is lent what it changes: so loops are `for`, and no chains.

#![tactic(auto)]

ghost use Rattle.std.specs.Prelude.{◌≡◌, ◌≤◌, ◌<◌};
ghost use Rattle.run.specs.Run as Run;
ghost use Rattle.promise.specs.Keys.{key_at};
ghost use Rattle.promise.specs.Refusals.{lowest};
ghost use Rattle.front.specs.Rows.{answered};
ghost use Rattle.keys.specs.Asked.{manager_rows};

use kinds::limits::{END_KEY, MANAGER, MOST_HEADERS};
use kinds::{Report, User};

pub mod ids;
pub mod profile;
pub mod scavenge;
mod visit;

// The tests of Scavenge and Profile that numbers decide, after those in front: the manager, the key, and whether the
// buffer is too small, as `manager_rows` has it.
pub(crate) fn managed(n: usize, client: User, key: u32, small: bool) -> Result<(), Report>
    ensures { result ≡ answered (lowest (manager_rows n client.0 key small)) tt }
{
    let u = client.0;
    if u != MANAGER {
        return Err(Report::NotManager);
    }
    if n <= key as usize {
        return Err(Report::BadKey);
    }
    if small {
        return Err(Report::BadRoom);
    }
    Ok(())
}

// How many headers a call may visit: 64, or those up to N.
pub(crate) fn reach(n: usize, key: usize) -> usize
    requires { key ≤ n }
    ensures { result ≡ Run.reach n key }
{
    MOST_HEADERS.min(n - key)
}

// The key of a call that stopped at a block number.
pub(crate) fn key_at(n: usize, stopped: usize) -> u32
    requires { stopped < 65536 }
    ensures { result ≡ key_at n stopped }
{
    if stopped == n {
        END_KEY
    } else {
        stopped as u32
    }
}
