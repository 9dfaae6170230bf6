// Identifiers: a time and a block number, disguised by four rounds, and undone.

#![tactic(auto)]

ghost use Rattle.std.specs.Prelude.{◌≡◌, ◌<◌, ◌^◌, reverse};
ghost use Rattle.std.specs.List.{fold};
ghost use Rattle.kinds.specs.Kinds.{ident};
ghost use Rattle.ident.specs.Ident.{round_of, unround_of, disguised, undone, id_of, shape_of};

use kinds::{BlockNum, Id, Tick};

// The constants of the four rounds, in turn.
const KEYS: [u32; 4] = [2654435761, 2246822519, 3266489917, 668265263];

// One round: the halves (L, R) become (R, (L + R·K) mod 2^32). In u64 throughout: halves of u32 would be cast.
fn round(k: u32, x: u64) -> u64
    ensures { result ≡ round_of k x }
{
    let high = x / 4294967296;
    let low = x % 4294967296;
    low * 4294967296 + (high + low * (k as u64)) % 4294967296
}

// Its undoing.
fn unround(k: u32, y: u64) -> u64
    ensures { result ≡ unround_of k y }
{
    let high = y / 4294967296;
    let low = y % 4294967296;
    (low + (4294967296 - high * (k as u64) % 4294967296)) % 4294967296 * 4294967296 + high
}

// The rounds, up a list of constants.
fn up(keys: &[u32], p: u64) -> u64
    ensures { result ≡ fold (λ x k. round_of k x) p keys.now }
{
    keys.iter().fold(p, |x, k| round(*k, x))
}

// Their undoing, down the list.
fn down(keys: &[u32], y: u64) -> u64
    ensures { result ≡ fold (λ x k. unround_of k x) y (reverse keys.now) }
{
    keys.iter().rev().fold(y, |x, k| unround(*k, x))
}

fn disguise(p: u64) -> u64
    ensures { result ≡ disguised p }
{
    up(&KEYS, p)
}

// What a number was before the rounds.
pub fn undo(id: Id) -> u64
    ensures { result ≡ undone id.0 }
{
    down(&KEYS, id.0)
}

// The id of a time and a block number.
pub fn make(time: Tick, b: BlockNum) -> Id
    requires { (time.0 < 2 ^ 40) × (b.0 < 4096) }
    ensures { result ≡ ident (id_of time.0 b.0) }
{
    let t = time.0;
    let n = b.0 as u64;
    Id(disguise(t * 4096 + n))
}

// The block of a number that is shaped as an id.
pub fn shaped(id: Id, n: u32) -> Option<BlockNum>
    ensures { result ≡ shape_of (undone id.0) n }
{
    let p = undo(id);
    if 4503599627370496 <= p || p / 4096 < 1 {
        return None;
    }
    let b = (p % 4096) as u32;
    if b < n { Some(BlockNum(b)) } else { None }
}
