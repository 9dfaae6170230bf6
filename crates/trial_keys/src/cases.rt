// A line of the case file as what it asks for: its first byte says what, and its numbers, by their places, say of what.
use crate::calls::{Call, Operation, Seen, low};
use crate::walks::{Asked, Walked};

pub(crate) enum Case {
    // A call, and what is expected of it.
    Call(Call, Seen),
    // A walk while the store changes, and what is expected of it.
    Walk(Asked, Walked),
    // A byte of the store is made another.
    Byte { at: usize, v: u8 },
    // The store becomes the last call's copy of it.
    Keep,
    // Words to read.
    Text,
}

// A number with one more digit; of a long one the last sixteen.
fn longer(x: u64, digit: u8) -> u64 {
    (x % 1_000_000_000_000_000) * 10 + u64::from(digit.wrapping_sub(b'0'))
}

// The numbers of a line are its runs of digits, in order; zeros follow the last.
fn numbers(line: &[u8]) -> [u64; 12] {
    let mut out = [0; 12];
    let runs = line
        .split(|byte| !byte.is_ascii_digit())
        .filter(|run| !run.is_empty());
    for (place, run) in out.iter_mut().zip(runs) {
        *place = run.iter().fold(0, |x, digit| longer(x, *digit));
    }
    out
}

// What is expected: the seven numbers that follow the first five.
fn expected(n: [u64; 12]) -> [u64; 7] {
    let [_, _, _, _, _, a, b, c, d, e, f, g] = n;
    [a, b, c, d, e, f, g]
}

fn call(operation: Operation, n: [u64; 12]) -> Case {
    let call = Call {
        operation,
        client: low(n[0]),
        key: low(n[1]),
        buffer: n[3] as usize,
        image: n[4] as usize,
    };
    Case::Call(call, Seen::from(expected(n)))
}

fn walk(n: [u64; 12]) -> Case {
    let asked = Asked {
        n: n[0] as usize,
        count: low(n[1]),
        changes: n[2],
        blocks: n[3],
        seed: n[4],
    };
    Case::Walk(asked, Walked::from(expected(n)))
}

impl Case {
    // None for an empty line.
    pub(crate) fn of(line: &[u8]) -> Option<Case> {
        let letter = *line.first()?;
        let n = numbers(line);
        let count = low(n[2]);
        Some(match letter {
            b'G' => call(Operation::GetIds { count }, n),
            b'S' => call(Operation::Scavenge { now: n[2] }, n),
            b'P' => call(Operation::Profile, n),
            b'N' | b'E' => {
                let ended = letter == b'E';
                call(Operation::Step { count, ended }, n)
            }
            b'W' => walk(n),
            b'B' => Case::Byte {
                at: n[0] as usize,
                v: (n[1] % 256) as u8,
            },
            b'K' => Case::Keep,
            _ => Case::Text,
        })
    }
}
