// Source over. Alpha 0 leaves the pixel as it is, 255 and above is the plain ink; between them each
// channel is the nearest to the exact mix. Channels are taken by `/` and `%`, which compile to shifts and masks.
ghost use Rattle.std.specs.Prelude.{◌≡◌, cond, leb, eqb, ◌<◌, ◌≤◌, ◌-◌, ◌/◌};
ghost use Rattle.color.specs.Inks as Inks;
ghost use Rattle.color.specs.Inks.{channel, covered_by, over_c, inked_of, blend_of};

use crate::{BlendAnswer, Color, Inked};

// A value put in the place of a pixel's old one.
pub fn put(old: u32, value: u32) -> Inked
    ensures { result ≡ inked_of old value }
{
    Inked {
        value,
        altered: value != old,
    }
}

// A 255th part cut down, of a number below 65,535, with no division.
fn part255(n: u32) -> u32
    requires { n < 65535 }
    ensures { result ≡ n / 255 }
{
    (n + 1 + n / 256) / 256
}

// One channel of an ink over another, with what alpha a leaves of 255.
#[tactic(auto, using(crate::proofs::Weights::weighted_le))]
fn mixed(ink: u32, old: u32, a: u32, left: u32) -> u32
    requires { (ink ≤ 255) × (old ≤ 255) × (a ≤ 255) × (left ≡ 255 - a) }
    ensures { (result ≡ channel ink old a) × (result ≤ 255) }
{
    part255(ink * a + old * left + 127)
}

// The inks of a colour over a pixel at alpha a. The remainder tells the compiler that what is left of 255 is a byte.
#[tactic(auto, unfolding(crate::specs::Inks::blended))]
fn mix_over(dst: u32, c: Color, a: u32) -> u32
    ensures { result ≡ Inks.over dst c a }
{
    if a == 0 {
        return dst;
    }
    let r = c.r as u32;
    let g = c.g as u32;
    let b = c.b as u32;
    if a >= 255 {
        return r * 65536 + g * 256 + b;
    }
    let left = (255 - a) % 256;
    let nr = mixed(r, dst / 65536 % 256, a, left);
    let ng = mixed(g, dst / 256 % 256, a, left);
    let nb = mixed(b, dst % 256, a, left);
    nr * 65536 + ng * 256 + nb
}

pub fn over(dst: u32, c: Color, a: u32) -> Inked
    ensures { result ≡ inked_of dst (Inks.over dst c a) }
{
    put(dst, mix_over(dst, c, a))
}

// An alpha scaled by a coverage; a coverage of 255 or more keeps it.
#[tactic(auto, unfolding(crate::specs::Inks::covered_by))]
fn covered(a: u8, cov: u32) -> u32
    ensures { result ≡ covered_by a cov }
{
    let a = a as u32;
    if cov >= 255 {
        return a;
    }
    part255(a * cov + 127)
}

// A colour over a pixel, its alpha scaled by a coverage first.
pub fn blend_c(dst: u32, c: Color, cov: u32) -> Inked
    ensures { result ≡ inked_of dst (over_c dst c cov) }
{
    over(dst, c, covered(c.a, cov))
}

// The old pixel at alpha 0, the plain ink from 255 on, the mix between them.
fn chosen(dst: u32, ink: u32, mix: u32, a: u32) -> u32
    ensures { result ≡ cond (eqb a 0) dst (cond (leb 255 a) ink mix) }
{
    if a == 0 {
        dst
    } else if a >= 255 {
        ink
    } else {
        mix
    }
}

// The same as `over`, for a loop whose alpha differs from pixel to pixel: the mix of a byte is worked out first, then chosen or
// not, so that several pixels can be done at once.
#[tactic(auto, using(crate::proofs::Overs::byte_choice), unfolding(crate::specs::Inks::blended))]
fn mix_wide(dst: u32, c: Color, a: u32) -> u32
    ensures { result ≡ Inks.over dst c a }
{
    let r = c.r as u32;
    let g = c.g as u32;
    let b = c.b as u32;
    let byte = a % 256;
    let left = 255 - byte;
    let nr = mixed(r, dst / 65536 % 256, byte, left);
    let ng = mixed(g, dst / 256 % 256, byte, left);
    let nb = mixed(b, dst % 256, byte, left);
    let mix = nr * 65536 + ng * 256 + nb;
    let ink = r * 65536 + g * 256 + b;
    chosen(dst, ink, mix, a)
}

pub fn over_wide(dst: u32, c: Color, a: u32) -> Inked
    ensures { result ≡ inked_of dst (Inks.over dst c a) }
{
    put(dst, mix_wide(dst, c, a))
}

// The same as `covered` and `blend_c`, for such a loop.
#[tactic(auto, unfolding(crate::specs::Inks::covered_by))]
fn covered_wide(a: u8, cov: u32) -> u32
    ensures { result ≡ covered_by a cov }
{
    let a = a as u32;
    let part = part255(a * (cov % 256) + 127);
    if cov < 255 { part } else { a }
}

pub fn blend_c_wide(dst: u32, c: Color, cov: u32) -> Inked
    ensures { result ≡ inked_of dst (over_c dst c cov) }
{
    over_wide(dst, c, covered_wide(c.a, cov))
}

// 11 as a number, since this crate stands beside geom, which has `Refusal`.
const REFUSED: BlendAnswer = BlendAnswer {
    number: 11,
    value: 0,
    altered: false,
};

// The blend of any three inks. An ink over 255 is refused, whatever the alpha.
#[tactic(auto, unfolding(crate::specs::Inks::blend_of))]
pub fn blend(dst: u32, r: u32, g: u32, b: u32, a: u32) -> BlendAnswer
    ensures { result ≡ blend_of dst r g b a }
{
    let (Ok(r), Ok(g), Ok(b)) = (u8::try_from(r), u8::try_from(g), u8::try_from(b)) else {
        return REFUSED;
    };
    let q = over(dst, Color::rgb(r, g, b), a);
    BlendAnswer {
        number: 0,
        value: q.value,
        altered: q.altered,
    }
}
