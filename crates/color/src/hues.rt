// Hue, saturation and value.
ghost use Rattle.std.specs.Prelude.{◌≡◌};
ghost use Rattle.color.specs.Colours.{byte_of, tones_of, sector_of, hsv_of};

use crate::Color;
use crate::turns::turned;

// A part from 0 to 1 as a byte, rounded.
pub(crate) fn level(x: f32) -> u8
    ensures { result ≡ byte_of x }
{
    mathf::to_u8(x * 255.0 + 0.5)
}

fn tones(r: f32, g: f32, b: f32) -> Color
    ensures { result ≡ tones_of r g b }
{
    Color::rgb(level(r), level(g), level(b))
}

// The colour of sector i of the circle of hues.
#[tactic(auto, using(crate::proofs::Sectors::sector_is, crate::proofs::Sectors::sector_last), unfolding(crate::specs::Colours::sector_of))]
fn sector(i: i32, v: f32, p: f32, q: f32, t: f32) -> Color
    ensures { result ≡ sector_of i v p q t }
{
    match i {
        0 => tones(v, t, p),
        1 => tones(q, v, p),
        2 => tones(p, v, t),
        3 => tones(p, q, v),
        4 => tones(t, p, v),
        _ => tones(v, p, q),
    }
}

// h in degrees, s and v from 0 to 1.
#[tactic(auto, unfolding(crate::specs::Colours::hsv_of))]
pub fn hsv(h: f32, s: f32, v: f32) -> Color
    ensures { result ≡ hsv_of h s v }
{
    let rest = turned(h);
    let h = turned(rest + 360.0) / 60.0;
    let i = mathf::floor(h);
    let f = h - i;
    let p = v * (1.0 - s);
    let q = v * (1.0 - s * f);
    let t = v * (1.0 - s * (1.0 - f));
    sector(mathf::to_i32(i), v, p, q, t)
}
