// Numbers in the bytes of a sheet, the lowest byte first. Past the end a byte counts as 0.
ghost use Rattle.std.specs.Prelude.{◌≡◌, ◌+◌, ◌*◌, ◌<◌};
ghost use Rattle.std.specs.Float.{binary32};
ghost use Rattle.std.specs.Float.Ieee.{of_bits};
ghost use Rattle.sheet.specs.Bytes.{byte_at, u16_at, u32_at, float_at, zeros, floats};

use geom::float_ok;

#[tactic(auto, using(crate::proofs::Places::past_byte))]
pub fn byte_at(s: &[u8], at: usize) -> u8
    ensures { result ≡ byte_at s.now at }
{
    if at < s.len() { s[at] } else { 0 }
}

// A number of two bytes.
#[tactic(auto, using(crate::proofs::Places::past_u16))]
pub fn u16_at(s: &[u8], at: usize) -> usize
    ensures { (result ≡ u16_at s.now at) × (result < 65536) }
{
    if s.len() <= at {
        return 0;
    }
    u16::from_le_bytes([byte_at(s, at), byte_at(s, at + 1)]) as usize
}

// A number of four bytes.
#[tactic(auto, using(crate::proofs::Places::past_u32))]
fn u32_at(s: &[u8], at: usize) -> u32
    ensures { result ≡ u32_at s.now at }
{
    if s.len() <= at {
        return 0;
    }
    u32::from_le_bytes([
        byte_at(s, at),
        byte_at(s, at + 1),
        byte_at(s, at + 2),
        byte_at(s, at + 3),
    ])
}

// The float of a bit pattern. `from_bits` is defined at no NaN's pattern, so a NaN is made of 0 / 0.
fn float_of(bits: u32) -> f32
    ensures { result ≡ of_bits binary32 bits }
{
    if 0x7F80_0000 < bits % 0x8000_0000 {
        0.0 / 0.0
    } else {
        f32::from_bits(bits)
    }
}

// The float whose bits four bytes are.
pub fn f32_at(s: &[u8], at: usize) -> f32
    ensures { result ≡ float_at s.now at }
{
    float_of(u32_at(s, at))
}

// Whether n bytes from a place on are zero. A loop: the check does not show `zeros` of `(0..n).all(..)`.
pub(crate) fn all_zero(s: &[u8], at: usize, n: usize) -> bool
    requires { at + n < 0x100_0000_0000 }
    ensures { result ≡ zeros s.now at n }
{
    for i in 0..n {
        if byte_at(s, at + i) != 0 {
            return false;
        }
    }
    true
}

// Whether n floats from a place on are finite and within 8,192 of 0. A loop, as above.
pub(crate) fn all_floats(s: &[u8], at: usize, n: usize) -> bool
    requires { at + 4 * n < 0x100_0000_0000 }
    ensures { result ≡ floats s.now at n }
{
    for i in 0..n {
        if !float_ok(f32_at(s, at + 4 * i)) {
            return false;
        }
    }
    true
}
