// Numbers in bytes, lowest byte first: 16 bits, and an f32 by its bit pattern.
//
// Every function is total: a byte past the end reads as 0, and a store past the end changes nothing.
// Any pattern becomes a float, every NaN's the one NaN; a reader that refuses by the bits asks `is_finite_bits`.
// A word is a sum of products of its bytes, so no order of bytes in a memory plays a part. Each width is a function, since it has its own sum.
#![tactic(auto)]

ghost use Rattle.std.specs.Prelude.{◌≡◌, ◌+◌, ◌<◌, get_or, set};
ghost use Rattle.wire.specs.Wire.{u16_at, bits_at, put_u16, put_bits, finite_bits, float_of, bits_of};

// The byte k places after `at`; their sum is made only where it is a place.
fn byte_at(s: &[u8], at: usize, k: usize) -> u8
    ensures { result ≡ get_or s.now (at + k) 0 }
{
    if at < s.len() {
        if k < s.len() - at {
            return s[at + k];
        }
    }
    0
}

// Stores b at the place that `byte_at` reads.
fn put_byte(s: &mut [u8], at: usize, k: usize, b: u8)
    ensures { s.new ≡ set s.old (at + k) b }
{
    if at < s.len() {
        if k < s.len() - at {
            s[at + k] = b;
            return;
        }
    }
}

// That byte as a number that has room for three more.
fn wide(s: &[u8], at: usize, k: usize) -> u32
    ensures { (result ≡ get_or s.now (at + k) 0) × (result < 256) }
{
    byte_at(s, at, k) as u32
}

// The byte at `at`.
pub fn u8_at(s: &[u8], at: usize) -> u8
    ensures { result ≡ get_or s.now at 0 }
{
    s.get(at).copied().unwrap_or(0)
}

// The 16-bit number at `at`.
pub fn u16_at(s: &[u8], at: usize) -> u16
    ensures { result ≡ u16_at s.now at }
{
    (wide(s, at, 0) + 256 * wide(s, at, 1)) as u16
}

// The bit pattern at `at`.
pub fn bits_at(s: &[u8], at: usize) -> u32
    ensures { result ≡ bits_at s.now at }
{
    wide(s, at, 0) + 256 * wide(s, at, 1) + 65536 * wide(s, at, 2) + 16777216 * wide(s, at, 3)
}

// Writes the 16-bit number n at `at`.
pub fn put_u16(s: &mut [u8], at: usize, n: u16)
    ensures { s.new ≡ put_u16 s.old at n }
{
    put_byte(s, at, 0, (n % 256) as u8);
    put_byte(s, at, 1, (n / 256) as u8);
}

// Writes the pattern n at `at`.
pub fn put_bits(s: &mut [u8], at: usize, n: u32)
    ensures { s.new ≡ put_bits s.old at n }
{
    put_byte(s, at, 0, (n % 256) as u8);
    put_byte(s, at, 1, (n / 256 % 256) as u8);
    put_byte(s, at, 2, (n / 65536 % 256) as u8);
    put_byte(s, at, 3, (n / 16777216) as u8);
}

// Whether a pattern is a finite number's: its exponent field is not all ones.
#[tactic(auto, unfolding(crate::specs::Wire::finite_bits))]
pub fn is_finite_bits(n: u32) -> bool
    ensures { result ≡ finite_bits n }
{
    n % 0x8000_0000 < 0x7F80_0000
}

// The float of a pattern.
pub fn float_of(n: u32) -> f32
    ensures { result ≡ float_of n }
{
    std::num::f32_from_bits_with_nan(n)
}

// The float whose pattern stands at `at`.
pub fn float_at(s: &[u8], at: usize) -> f32
    ensures { result ≡ float_of (bits_at s.now at) }
{
    float_of(bits_at(s, at))
}

// The pattern of a float; one stands for every NaN.
pub fn bits_of(x: f32) -> u32
    ensures { result ≡ bits_of x }
{
    std::num::f32_to_bits_with_nan(x)
}
