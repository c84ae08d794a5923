// Bits, little-endian numbers, and laws on lists that several crates cite.
#![tactic(auto)]

ghost use Rattle.std.specs.Prelude.{◌≡◌, ◌+◌, min, get_or};
ghost use Rattle.numbers.specs.Number.{le2, le4};

// The byte at i. A byte past the end counts 0, here and below.
pub fn byte_at(b: &[u8], i: usize) -> u8
    ensures { result ≡ get_or b.now i 0 }
{
    b.get(i).copied().unwrap_or(0)
}

// The byte after i. Past the end i + 1 need not be a usize.
fn byte_after(b: &[u8], i: usize) -> u8
    ensures { result ≡ get_or b.now (i + 1) 0 }
{
    if i < b.len() { byte_at(b, i + 1) } else { 0 }
}

// The little-endian number of the two bytes at i.
pub fn two_at(b: &[u8], i: usize) -> u16
    ensures { result ≡ le2 b.now i }
{
    u16::from_le_bytes([byte_at(b, i), byte_after(b, i)])
}

// The two bytes after those at i, likewise.
fn two_after(b: &[u8], i: usize) -> u16
    ensures { result ≡ le2 b.now (i + 2) }
{
    if i < b.len() { two_at(b, i + 2) } else { 0 }
}

// The little-endian number of the four bytes at i.
pub fn four_at(b: &[u8], i: usize) -> u32
    ensures { result ≡ le4 b.now i }
{
    u32::from(two_at(b, i)) + 65536 * u32::from(two_after(b, i))
}

// A number of 16 bits as an index. This and the next have theorems of their own, and both programs and the exports that check, test or
// search go by them, by one or both; elsewhere the crates above say `usize::from` and `min`.
pub fn wide(x: u16) -> usize
    ensures { result ≡ x }
{
    usize::from(x)
}

pub fn smaller(a: usize, b: usize) -> usize
    ensures { result ≡ min a b }
{
    a.min(b)
}
