// Little-endian numbers at an offset of a slice of bytes. Any offset will do: past the end a byte counts as 0. A float that is
// infinite or a NaN reads as 0, so that no caller has to know that it is finite before it is read. The functions whose names end in
// `_inside`, and `same_bytes`, are for callers that have tested the length: they ask for it, and test nothing.
#![tactic(auto)]

ghost use Rattle.std.specs.Prelude.{◌≡◌, true, ℕ, ◌+◌, ◌≤◌, ◌<◌, length, get_or};
ghost use Rattle.std.specs.Float.{binary32, binary64};
ghost use Rattle.std.specs.Float.Ieee.{of_bits};
ghost use Rattle.std.specs.Float.Ieee.Scale.{finite};
ghost use Rattle.base_little_endian.specs.Words.{u16_at, u32_at, u64_at, f32_at, f64_at};
ghost use Rattle.base_little_endian.specs.Same.{SameBytes};

// The byte at an offset.
pub fn byte_at(s: &[u8], at: usize) -> u8
    ensures { result ≡ get_or s.now at 0 }
{
    if at < s.len() { s[at] } else { 0 }
}

// The N bytes from an offset on, which are all there: none is asked for its place.
fn bytes_inside<const N: usize>(s: &[u8], at: usize) -> [u8; N]
    requires { at + N ≤ length s.now }
    ensures { (i : ℕ) → i < N → get_or result i 0 ≡ get_or s.now (at + i) 0 }
{
    *s[at..at + N].as_array().unwrap()
}

// The bytes there are, and then 0. By itself, so that what calls it only where the end cuts stays small.
#[inline(never)]
fn filled_up<const N: usize>(rest: &[u8]) -> [u8; N]
    requires { length rest.now < N }
    ensures { (i : ℕ) → i < N → get_or result i 0 ≡ get_or rest.now i 0 }
{
    let mut bytes = [0; N];
    bytes[..rest.len()].copy_from_slice(rest);
    bytes
}

// The N bytes from an offset on, which the end may cut.
fn bytes_at<const N: usize>(s: &[u8], at: usize) -> [u8; N]
    ensures { (i : ℕ) → i < N → get_or result i 0 ≡ get_or s.now (at + i) 0 }
{
    let rest = &s[at.min(s.len())..];
    match rest.first_chunk() {
        Some(bytes) => *bytes,
        None => filled_up(rest),
    }
}

// A reader for each type, here and below: std has `from_le_bytes` at each by itself, and it is no trait's.
#[tactic(auto, using(crate::proofs::Read::u16_read))]
pub fn u16_at(s: &[u8], at: usize) -> u16
    ensures { result ≡ u16_at s.now at }
{
    u16::from_le_bytes(bytes_at(s, at))
}

#[tactic(auto, using(crate::proofs::Read::u32_read))]
pub fn u32_at(s: &[u8], at: usize) -> u32
    ensures { result ≡ u32_at s.now at }
{
    u32::from_le_bytes(bytes_at(s, at))
}

#[tactic(auto, using(crate::proofs::Read::u32_read))]
pub fn u32_inside(s: &[u8], at: usize) -> u32
    requires { at + 4 ≤ length s.now }
    ensures { result ≡ u32_at s.now at }
{
    u32::from_le_bytes(bytes_inside(s, at))
}

#[tactic(auto, using(crate::proofs::Read::u64_read))]
pub fn u64_at(s: &[u8], at: usize) -> u64
    ensures { result ≡ u64_at s.now at }
{
    u64::from_le_bytes(bytes_at(s, at))
}

#[tactic(auto, using(crate::proofs::Read::u64_read))]
pub fn u64_inside(s: &[u8], at: usize) -> u64
    requires { at + 8 ≤ length s.now }
    ensures { result ≡ u64_at s.now at }
{
    u64::from_le_bytes(bytes_inside(s, at))
}

// Whether a pattern is a finite f64's: its exponent is not all ones. std's `is_finite` asks a float, and one of a pattern that may be a NaN's is
// made by a branch (`f64_from_bits_with_nan`), to test what the pattern shows.
pub fn finite64(bits: u64) -> bool
    ensures { result ≡ finite (of_bits binary64 bits) }
{
    bits % 0x8000_0000_0000_0000 < 0x7ff0_0000_0000_0000
}

// By itself at each type, as the readers below.
pub fn finite32(bits: u32) -> bool
    ensures { result ≡ finite (of_bits binary32 bits) }
{
    bits % 0x8000_0000 < 0x7f80_0000
}

// What reads f32 stays beside what reads f64: std has their patterns at each type by itself, and a trait over both would need four members at each for what
// are functions of one line.
pub fn f64_at(s: &[u8], at: usize) -> f64
    ensures { result ≡ f64_at s.now at }
{
    let bits = u64_at(s, at);
    if finite64(bits) {
        f64::from_bits(bits)
    } else {
        0.0
    }
}

pub fn f32_at(s: &[u8], at: usize) -> f32
    ensures { result ≡ f32_at s.now at }
{
    let bits = u32_at(s, at);
    if finite32(bits) {
        f32::from_bits(bits)
    } else {
        0.0
    }
}

// Whether the f64 at an offset is finite.
pub fn finite64_inside(s: &[u8], at: usize) -> bool
    requires { at + 8 ≤ length s.now }
    ensures { result ≡ finite (of_bits binary64 (u64_at s.now at)) }
{
    finite64(u64_inside(s, at))
}

pub fn finite32_inside(s: &[u8], at: usize) -> bool
    requires { at + 4 ≤ length s.now }
    ensures { result ≡ finite (of_bits binary32 (u32_at s.now at)) }
{
    finite32(u32_inside(s, at))
}

// A float that was found to be finite: it is not tested again.
pub fn f64_inside(s: &[u8], at: usize) -> f64
    requires { (at + 8 ≤ length s.now) × (finite (of_bits binary64 (u64_at s.now at)) ≡ true) }
    ensures { result ≡ f64_at s.now at }
{
    f64::from_bits(u64_inside(s, at))
}

// True only where the n bytes from p on are those from q on. A row of eight or more, short of 128, is compared eight at a time, and the last eight even if
// some of them were: std's `==` takes a third longer there where n is known when this is compiled (45 bytes: 7.8 ns, not 5.8), and less past it
// (1,000 bytes: 34, not 57).
// By number, since each step reads eight bytes at two places of one slice.
pub fn same_bytes(s: &[u8], p: usize, q: usize, n: usize) -> bool
    requires { (p + n ≤ length s.now) × (q + n ≤ length s.now) }
    ensures { result ≡ true → SameBytes s.now p q n }
{
    if n < 8 || 128 <= n {
        return s[p..p + n] == s[q..q + n];
    }
    for k in 0..n / 8 {
        if u64_inside(s, p + 8 * k) != u64_inside(s, q + 8 * k) {
            return false;
        }
    }
    u64_inside(s, p + (n - 8)) == u64_inside(s, q + (n - 8))
}
