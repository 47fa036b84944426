#![tactic(auto)]
// Little-endian words in a slice of bytes, read at a position, and the bytes of a word. A byte past the slice's end counts as 0.
ghost use Rattle.std.specs.Prelude.{◌≡◌, ℕ, ◌+◌, ◌<◌, ◌≤◌, get_or};
ghost use Rattle.spec_format.specs.Words.{word2_at, word4_at, bytes4};

// The byte at a position.
pub fn byte(s: &[u8], at: usize) -> u8
    ensures { result ≡ get_or s.now at 0 }
{
    s.get(at).copied().unwrap_or(0)
}

// The first N bytes.
fn first<const N: usize>(s: &[u8]) -> [u8; N]
    ensures { (k : ℕ) → k < N → get_or result k 0 ≡ get_or s.now k 0 }
{
    let mut bytes = [0; N];
    for (k, b) in bytes.iter_mut().enumerate() {
        *b = byte(s, k);
    }
    bytes
}

// The N bytes at a position. Where all are within the slice, it is held against its end once and not for each byte.
fn bytes<const N: usize>(s: &[u8], at: usize) -> [u8; N]
    requires { N ≤ 4 }
    ensures { (k : ℕ) → k < N → get_or result k 0 ≡ get_or s.now (at + k) 0 }
{
    if s.len() <= at {
        return [0; N];
    }
    if at + N <= s.len() {
        return first(&s[at..at + N]);
    }
    first(&s[at..])
}

// The number of the two bytes at a position.
pub fn word2(s: &[u8], at: usize) -> u32
    ensures value { result ≡ word2_at s.now at }
    ensures upper_bound { result < 65536 }
{
    u32::from(u16::from_le_bytes(bytes(s, at)))
}

// The number of the four bytes at a position.
pub fn word4(s: &[u8], at: usize) -> u32
    ensures { result ≡ word4_at s.now at }
{
    u32::from_le_bytes(bytes(s, at))
}

// The k-th byte of a word, the lowest first. Of a word of two bytes, the first two are those.
pub fn byte_of(n: u32, k: usize) -> u8
    ensures { result ≡ get_or (bytes4 n) k 0 }
{
    byte(&n.to_le_bytes(), k)
}
