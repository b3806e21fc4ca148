// Shape calls: a case has the function, two sides, a pitch, four words of clip, the paint's kind or `skip_inside`, four floats
// and two colours of a paint, a radius, a width or blur, the count of coordinates, 12 of them, the count, base and step of px,
// the words of scratch that are left +0, what is left in px (a pitch, so many columns, up to 64 pixels), the number, and the
// steps that altered a pixel's value. Coordinates past the 12 are the words that follow.
#![tactic(auto)]

use cases::canvas::framed;
use cases::word::{float, from, word};
use cases::{color_of, paint, point, rect};
use color::Color;
use geom::{IRect, Rect};
use gfx::{Canvas, Counted};
use paints::Paint;

fn canvas(case: &[u8]) -> Canvas {
    framed(from(case, 1), [IRect::ZERO; 16], 0)
}

fn brush(case: &[u8]) -> Paint {
    paint(word(case, 8), from(case, 9))
}

fn ink(case: &[u8]) -> Color {
    color_of(word(case, 13))
}

fn place(case: &[u8]) -> Rect {
    rect(from(case, 18))
}

// What a shape call tells: its number, or 99 where it does not leave the state as it was, and its steps that altered a pixel's
// value. C is given it, and no Result.
#[repr(C)]
#[derive(Clone, Copy)]
pub struct Told {
    pub number: u32,
    pub steps: u64,
}

fn answer(d: Counted, case: &[u8]) -> Told {
    let number = if d.canvas == canvas(case) {
        d.number
    } else {
        99
    };
    Told {
        number,
        steps: d.steps,
    }
}

fn lined(case: &[u8], px: &mut [u32]) -> Told {
    let width = float(case, 16);
    let a = point(from(case, 18));
    let b = point(from(case, 20));
    let ink = ink(case);
    answer(line::line(canvas(case), px, a, b, width, ink), case)
}

fn outlined(case: &[u8], px: &mut [u32]) -> Told {
    let r = float(case, 15);
    let width = float(case, 16);
    let ink = ink(case);
    let at = place(case);
    answer(
        stroke::stroke_rrect(canvas(case), px, at, r, width, ink),
        case,
    )
}

fn ringed(case: &[u8], px: &mut [u32]) -> Told {
    let r = float(case, 15);
    let width = float(case, 16);
    let c = point(from(case, 18));
    let ink = ink(case);
    answer(
        stroke::ring(canvas(case), px, c.x, c.y, r, width, ink),
        case,
    )
}

fn shadowed(case: &[u8], px: &mut [u32]) -> Told {
    let skip = word(case, 8) == 1;
    let r = float(case, 15);
    let blur = float(case, 16);
    let ink = ink(case);
    let at = place(case);
    answer(
        shadow::shadow_rrect(canvas(case), px, at, r, blur, ink, skip),
        case,
    )
}

fn rounded(case: &[u8], px: &mut [u32]) -> Told {
    let r = float(case, 15);
    let at = place(case);
    let paint = brush(case);
    answer(fill::fill_rrect(canvas(case), px, at, r, paint), case)
}

fn rectangle(case: &[u8], px: &mut [u32]) -> Told {
    let at = place(case);
    let paint = brush(case);
    answer(fill::fill_rect(canvas(case), px, at, paint), case)
}

fn circle(case: &[u8], px: &mut [u32]) -> Told {
    let r = float(case, 15);
    let c = point(from(case, 18));
    let paint = brush(case);
    answer(
        fill::fill_circle(canvas(case), px, c.x, c.y, r, paint),
        case,
    )
}

fn polyline(case: &[u8], px: &mut [u32], pts: &[f32]) -> Told {
    let width = float(case, 16);
    let ink = ink(case);
    answer(line::polyline(canvas(case), px, pts, width, ink), case)
}

fn polygon(case: &[u8], px: &mut [u32], pts: &[f32], scratch: &mut [f32]) -> Told {
    let paint = brush(case);
    answer(poly::fill_poly(canvas(case), px, pts, paint, scratch), case)
}

// The 130 floats of the first words.
fn points(words: &[u8]) -> [f32; 130] {
    let mut out = [0.0; 130];
    for (i, x) in out.iter_mut().enumerate() {
        *x = float(words, i as u32);
    }
    out
}

fn joined(case: &[u8], px: &mut [u32], scratch: &mut [f32]) -> Told {
    let n = (word(case, 17) as usize).min(130);
    let space = points(from(case, 18));
    if word(case, 0) == 2 {
        polyline(case, px, &space[..n])
    } else {
        polygon(case, px, &space[..n], scratch)
    }
}

// The shapes that go through no list of points.
fn placed(case: &[u8], px: &mut [u32]) -> Told {
    match word(case, 0) {
        1 => lined(case, px),
        3 => outlined(case, px),
        4 => ringed(case, px),
        5 => rounded(case, px),
        6 => rectangle(case, px),
        7 => circle(case, px),
        _ => shadowed(case, px),
    }
}

// Draws the shape of a case's words.
pub fn shape(case: &[u8], px: &mut [u32], scratch: &mut [f32]) -> Told {
    let f = word(case, 0);
    if f == 2 || f == 8 {
        joined(case, px, scratch)
    } else {
        placed(case, px)
    }
}
