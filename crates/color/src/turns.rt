// The remainder of an angle by a whole turn of 360, in whole numbers: what `%` of two floats gives, without a call of the C
// library.
ghost use Rattle.std.specs.Prelude.{◌≡◌, ◌*◌, ◌%◌, ◌^◌, ◌<◌, false};
ghost use Rattle.std.specs.Float.Ieee as Ieee;
ghost use Rattle.mathf.specs.F32.{◌%ᶠ◌, f0, f360};

// What is left of a significand after k doublings, 11,796,480 being a turn in steps of 2^-15.
fn doubled(sig: u32, k: u32) -> u32
    requires { sig < 2 ^ 24 }
    ensures { result ≡ sig * 2 ^ k % 11796480 }
{
    let mut r = sig % 11796480;
    for i in 0..k {
        r = r * 2 % 11796480;
    }
    r
}

// The remainder of an angle that is not below 0.
fn rest(h: f32) -> f32
    requires { Ieee.lt h f0 ≡ false }
    ensures { result ≡ h %ᶠ f360 }
{
    if h < 360.0 {
        return h;
    }
    if h < f32::INFINITY {
        let b = f32::to_bits(h);
        let r = doubled(b % 8388608 + 8388608, b / 8388608 - 135);
        return r as f32 / 32768.0;
    }
    h - h
}

#[tactic(auto, using(crate::proofs::Remainders::upright, crate::proofs::Remainders::turned_over))]
pub(crate) fn turned(h: f32) -> f32
    ensures { result ≡ h %ᶠ f360 }
{
    if h < 0.0 {
        return -rest(-h);
    }
    rest(h)
}
