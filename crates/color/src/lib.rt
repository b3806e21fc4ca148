// Colours with straight alpha, and pixels 0x00RRGGBB.
#![tactic(auto)]

ghost use Rattle.std.specs.Prelude.{◌≡◌};
ghost use Rattle.color.specs.Colours.{rgb_of, rgba_of, hex_of, from_pix_of, pix_of};
ghost use Rattle.color.specs.Colours.{fade_of, alpha_of, mix_of, lighten_of, darken_of, luma_of};

use crate::hues::level;
use crate::mixing::between;

pub mod blending;
pub mod hues;
pub mod mixing;
mod turns;

pub use crate::blending::{blend, blend_c, blend_c_wide, over, over_wide, put};
pub use crate::hues::hsv;
pub use crate::mixing::mix_pix;

// A colour: red, green, blue and straight alpha.
#[repr(C)]
#[derive(Clone, Copy)]
pub struct Color {
    pub r: u8,
    pub g: u8,
    pub b: u8,
    pub a: u8,
}

// A pixel that a call returns, beside its number: C is given it, and no Result.
#[repr(C)]
#[derive(Clone, Copy)]
pub struct Pixel {
    pub number: u32,
    pub value: u32,
}

// The new value of a pixel, and whether it differs from the old one.
#[derive(Clone, Copy)]
pub struct Inked {
    pub value: u32,
    pub altered: bool,
}

// The same, beside the number of a call, as C is given it.
#[repr(C)]
#[derive(Clone, Copy)]
pub struct BlendAnswer {
    pub number: u32,
    pub value: u32,
    pub altered: bool,
}

impl Color {
    pub const BLACK: Color = Color {
        r: 0,
        g: 0,
        b: 0,
        a: 255,
    };

    pub fn rgba(r: u8, g: u8, b: u8, a: u8) -> Color
        ensures { result ≡ rgba_of r g b a }
    {
        Color { r, g, b, a }
    }

    pub fn rgb(r: u8, g: u8, b: u8) -> Color
        ensures { result ≡ rgb_of r g b }
    {
        Color { r, g, b, a: 255 }
    }

    pub fn hex(h: u32) -> Color
        ensures { result ≡ hex_of h }
    {
        Color::rgb(
            (h / 65536 % 256) as u8,
            (h / 256 % 256) as u8,
            (h % 256) as u8,
        )
    }

    // Multiplies alpha by f, from 0 to 1.
    pub fn fade(self, f: f32) -> Color
        ensures { result ≡ fade_of self f }
    {
        let a = mathf::to_u8(self.a as f32 * mathf::saturate(f) + 0.5);
        Color::rgba(self.r, self.g, self.b, a)
    }

    pub fn alpha(self, a: f32) -> Color
        ensures { result ≡ alpha_of self a }
    {
        Color::rgba(self.r, self.g, self.b, level(mathf::saturate(a)))
    }

    pub fn pix(self) -> u32
        ensures { result ≡ pix_of self }
    {
        self.r as u32 * 65536 + self.g as u32 * 256 + self.b as u32
    }

    pub fn from_pix(p: u32) -> Color
        ensures { result ≡ from_pix_of p }
    {
        Color::hex(p)
    }

    #[tactic(auto, unfolding(crate::specs::Colours::mix_of))]
    pub fn mix(self, o: Color, t: f32) -> Color
        ensures { result ≡ mix_of self o t }
    {
        let t = mathf::saturate(t);
        let r = between(self.r, o.r, t);
        let g = between(self.g, o.g, t);
        let b = between(self.b, o.b, t);
        let a = between(self.a, o.a, t);
        Color { r, g, b, a }
    }

    pub fn lighten(self, t: f32) -> Color
        ensures { result ≡ lighten_of self t }
    {
        self.mix(Color::rgba(255, 255, 255, self.a), t)
    }

    pub fn darken(self, t: f32) -> Color
        ensures { result ≡ darken_of self t }
    {
        self.mix(Color::rgba(0, 0, 0, self.a), t)
    }

    pub fn luma(self) -> f32
        ensures { result ≡ luma_of self }
    {
        (0.2126 * self.r as f32 + 0.7152 * self.g as f32 + 0.0722 * self.b as f32) / 255.0
    }
}
