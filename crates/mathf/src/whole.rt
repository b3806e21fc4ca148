// The nearest whole number below a float, and above it: exact, for every float.
ghost use Rattle.std.specs.Prelude.{◌≡◌, true, false, T, ◌⊎◌, pos};
ghost use Rattle.std.specs.Float.Ieee as Ieee;
ghost use Rattle.std.specs.Float.{fin};
ghost use Rattle.mathf.specs.Whole.{floor_of, ceil_of};
ghost use Rattle.mathf.specs.Convert.{to_i32};

use crate::convert::to_i32;

// x without its fraction, for an x from 0 up to 2^23, from where on a float has none. The sum with
// 2^23 is one of the two whole numbers next to it, and from there on patterns count the whole numbers.
pub(crate) fn cut(x: f32) -> u32
    requires not_negative { T (Ieee.lt (fin false 0 (pos 0)) x) ⊎ (x ≡ fin false 0 (pos 0)) }
    requires in_range { T (Ieee.lt x (fin false 1 (pos 23))) }
    ensures { result ≡ Ieee.to_unsigned 23 x }
{
    let n = f32::to_bits(x + 8388608.0) - 0x4b00_0000;
    if (n as f32) > x { n - 1 } else { n }
}

// From 2^23 up either way a float is whole, and comes back as it is, as a NaN and a zero do.
pub fn floor(x: f32) -> f32
    ensures { result ≡ floor_of x }
{
    if x > 0.0 {
        if x < 8388608.0 { cut(x) as f32 } else { x }
    } else if x < 0.0 {
        if x > -8388608.0 {
            let n = cut(-x);
            if (n as f32) < -x {
                -((n + 1) as f32)
            } else {
                -(n as f32)
            }
        } else {
            x
        }
    } else {
        x
    }
}

#[tactic(auto, using(crate::proofs::Floors::ceil_is))]
pub fn ceil(x: f32) -> f32
    ensures { result ≡ ceil_of x }
{
    -floor(-x)
}

// The floor of a float as an i32: above zero the cut is the number itself.
pub fn floor_i(x: f32) -> i32
    ensures { result ≡ to_i32 (floor_of x) }
{
    if x > 0.0 && x < 8388608.0 {
        return cut(x) as i32;
    }
    to_i32(floor(x))
}

// The ceiling as an i32: above zero it is the sum's whole number of `cut`, or the next one where that lies below x.
pub fn ceil_i(x: f32) -> i32
    ensures { result ≡ to_i32 (ceil_of x) }
{
    if x > 0.0 && x < 8388608.0 {
        let n = f32::to_bits(x + 8388608.0) - 0x4b00_0000;
        if (n as f32) < x {
            return (n + 1) as i32;
        }
        return n as i32;
    }
    to_i32(ceil(x))
}
