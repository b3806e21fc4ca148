// What the proved functions of mathf and color answer. A case has the function's number, its inputs, and the answer's low and
// high word.
use crate::word::{float, float_of, int, pair, pattern, word};
use color::Color;

fn mathf_float(f: u32, a: f32, b: f32, c: f32) -> f32 {
    match f {
        1 => mathf::sqrt(a),
        2 => mathf::floor(a),
        3 => mathf::ceil(a),
        8 => mathf::min(a, b),
        9 => mathf::max(a, b),
        10 => mathf::fabs(a),
        11 => mathf::clamp(a, b, c),
        12 => mathf::saturate(a),
        13 => mathf::lerp(a, b, c),
        _ => mathf::smoothstep(a, b, c),
    }
}

fn mathf_answer(f: u32, a: f32, b: f32, c: f32) -> u64 {
    match f {
        4 => mathf::to_u8(a) as u64,
        5 => mathf::to_u32(a) as u64,
        6 => mathf::to_usize(a) as u64,
        _ => pattern(mathf_float(f, a, b, c)) as u64,
    }
}

// Three floats.
pub(crate) fn mathf(case: &[u8]) -> bool {
    let f = word(case, 0);
    let a = float(case, 1);
    if f == 7 {
        return mathf::to_i32(a) == int(case, 4) && word(case, 5) == 0;
    }
    mathf_answer(f, a, float(case, 2), float(case, 3)) == pair(word(case, 4), word(case, 5))
}

// A colour is stored as the bytes red, green, blue, alpha of a word, the lowest first.
pub fn color_of(w: u32) -> Color {
    let [r, g, b, a] = w.to_le_bytes();
    Color::rgba(r, g, b, a)
}

pub(crate) fn color_word(c: Color) -> u32 {
    u32::from_le_bytes([c.r, c.g, c.b, c.a])
}

fn color_color(f: u32, a: u32, b: u32, c: u32) -> Color {
    match f {
        3 => color_of(a).mix(color_of(b), float_of(c)),
        4 => color_of(a).fade(float_of(b)),
        5 => color_of(a).alpha(float_of(b)),
        6 => color_of(a).lighten(float_of(b)),
        7 => color_of(a).darken(float_of(b)),
        8 => Color::hex(a),
        9 => Color::from_pix(a),
        14 => Color::BLACK,
        _ => color::hsv(float_of(a), float_of(b), float_of(c)),
    }
}

// A number, and 256 more where a blend altered the pixel's value.
fn noted(number: u32, altered: bool) -> u32 {
    number.wrapping_add(256 * altered as u32)
}

fn color_blend(dst: u32, r: u32, g: u32, b: u32, a: u32) -> u64 {
    let p = color::blend(dst, r, g, b, a);
    pair(p.value, noted(p.number, p.altered))
}

fn color_blend_c(dst: u32, c: Color, cov: u32) -> u64 {
    let q = color::blend_c(dst, c, cov);
    pair(q.value, noted(0, q.altered))
}

// Function 14 is the constant black. The low word of an answer is a pixel, a colour or a float's pattern, the high word a
// refusal's number, and what a blend notes.
fn color_answer(f: u32, a: u32, b: u32, c: u32, d: u32, e: u32) -> u64 {
    match f {
        1 => color_blend(a, b, c, d, e),
        2 => color_blend_c(a, color_of(b), c),
        11 => color_of(a).pix() as u64,
        12 => pattern(color_of(a).luma()) as u64,
        13 => color::mix_pix(a, b, c) as u64,
        _ => color_word(color_color(f, a, b, c)) as u64,
    }
}

fn color_result(case: &[u8]) -> u64 {
    let a = word(case, 1);
    let b = word(case, 2);
    let c = word(case, 3);
    let d = word(case, 4);
    color_answer(word(case, 0), a, b, c, d, word(case, 5))
}

// Five words.
pub(crate) fn color(case: &[u8]) -> bool {
    color_result(case) == pair(word(case, 6), word(case, 7))
}
