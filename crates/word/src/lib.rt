// Little-endian numbers and runs of bytes, read from and written to a lent slice.

#![tactic(auto)]

ghost use Rattle.std.specs.Prelude.{◌≡◌, ℕ, ◌+◌, ◌*◌, ◌≤◌, length, replicate, bit_or};
ghost use Rattle.std.specs.Int.{w64, from_le_bytes};
ghost use Rattle.std.specs.List.{fold};
ghost use Rattle.word.specs.Word.{part, word_at, bytes_of, blank, all_zero};
ghost use Rattle.word.specs.Write.{over};

// A number that is stored in so many bytes, the lowest first: read from a place of a slice and written to one. What is
// read is named byte by byte: that becomes one load, and a chunk that is asked for does not. The two longer ones are
// written alike: `to_le_bytes` is of no trait.
pub trait Number: Copy {
    ghost width: { ℕ };

    ghost value: { Self → ℕ };

    fn get(s: &[u8], at: usize) -> Self
        requires { at + width ≤ length s.now }
        ensures { value result ≡ word_at width s.now at };

    fn put(s: &mut [u8], at: usize, v: Self)
        requires { at + width ≤ length s.old }
        ensures { s.new ≡ over s.old at (bytes_of width (value v)) };
}

impl Number for u8 {
    ghost width = { 1 };

    ghost value = { λ v. v };

    fn get(s: &[u8], at: usize) -> u8 {
        s[at]
    }

    fn put(s: &mut [u8], at: usize, v: u8) {
        s[at] = v;
    }
}

impl Number for u32 {
    ghost width = { 4 };

    ghost value = { λ v. v };

    fn get(s: &[u8], at: usize) -> u32 {
        u32::from_le_bytes([s[at], s[at + 1], s[at + 2], s[at + 3]])
    }

    fn put(s: &mut [u8], at: usize, v: u32) {
        paste(s, at, &v.to_le_bytes())
    }
}

impl Number for u64 {
    ghost width = { 8 };

    ghost value = { λ v. v };

    fn get(s: &[u8], at: usize) -> u64 {
        u64::from_le_bytes([
            s[at],
            s[at + 1],
            s[at + 2],
            s[at + 3],
            s[at + 4],
            s[at + 5],
            s[at + 6],
            s[at + 7],
        ])
    }

    fn put(s: &mut [u8], at: usize, v: u64) {
        paste(s, at, &v.to_le_bytes())
    }
}

// Makes each of k bytes from a place v.
pub fn fill(s: &mut [u8], at: usize, k: usize, v: u8)
    requires { at + k ≤ length s.old }
    ensures { s.new ≡ over s.old at (replicate k v) }
{
    s[at..at + k].fill(v)
}

// Zeroes k bytes from a place.
pub fn clear(s: &mut [u8], at: usize, k: usize)
    requires { at + k ≤ length s.old }
    ensures { s.new ≡ over s.old at (blank k) }
{
    fill(s, at, k, 0)
}

// Copies all of src to a place.
pub fn paste(s: &mut [u8], at: usize, src: &[u8])
    requires { at + length src.now ≤ length s.old }
    ensures { s.new ≡ over s.old at src.now }
{
    s[at..at + src.len()].copy_from_slice(src)
}

// The bits that any of these words has. All are looked at: a search that stops early does not vectorize.
fn bits_of_words(words: &[[u8; 8]]) -> u64
    ensures { result ≡ fold (λ any w. bit_or any (from_le_bytes w64 w)) 0 words.now }
{
    words.iter().fold(0, |any, w| any | u64::from_le_bytes(*w))
}

// These bits, and those that any of these bytes has.
fn bits_of_bytes(bits: u64, bytes: &[u8]) -> u64
    ensures { result ≡ fold bit_or bits bytes.now }
{
    bytes.iter().fold(bits, |any, b| any | u64::from(*b))
}

// Whether the k bytes from a place are all zero.
pub fn is_zero(s: &[u8], at: usize, k: usize) -> bool
    requires { at + k ≤ length s.now }
    ensures { result ≡ all_zero (part s.now at k) }
{
    let (words, rest) = s[at..at + k].as_chunks();
    bits_of_bytes(bits_of_words(words), rest) == 0
}
