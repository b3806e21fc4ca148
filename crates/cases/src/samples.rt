// What the proved functions of paints answer at a point: coverage, distance and the colour of a paint.
use crate::answer::{color_of, color_word};
use crate::word::{float, from, pattern, word};
use geom::Pt;
use paints::Paint;

// The point of the first two words.
pub fn point(words: &[u8]) -> Pt {
    Pt::new(float(words, 0), float(words, 1))
}

// The paint of a kind: four floats and two colours, of which a kind takes what it needs.
pub fn paint(kind: u32, words: &[u8]) -> Paint {
    let c0 = color_of(word(words, 4));
    let c1 = color_of(word(words, 5));
    match kind {
        0 => Paint::Solid(c0),
        1 => Paint::VGrad {
            y0: float(words, 0),
            y1: float(words, 1),
            c0,
            c1,
        },
        2 => Paint::Linear {
            p0: point(words),
            p1: point(from(words, 2)),
            c0,
            c1,
        },
        _ => Paint::Radial {
            c: point(words),
            r: float(words, 2),
            c0,
            c1,
        },
    }
}

fn distance(words: &[u8]) -> u32 {
    let p = point(words);
    let c = point(from(words, 2));
    let half = point(from(words, 4));
    pattern(paints::rrect_sd(p.x, p.y, c.x, c.y, half.x, half.y, float(words, 6)))
}

fn color_at(kind: u32, words: &[u8]) -> u32 {
    let p = point(from(words, 6));
    color_word(paint(kind, words).at(p.x, p.y))
}

// Functions 3 to 6 are the paints of the kinds 0 to 3.
fn answer(f: u32, words: &[u8]) -> u32 {
    match f {
        1 => paints::cov8(float(words, 0)),
        2 => distance(words),
        _ => color_at(f.wrapping_sub(3), words),
    }
}

// A case: the function, eight words, the answer's one.
pub(crate) fn agrees(case: &[u8]) -> bool {
    answer(word(case, 0), from(case, 1)) == word(case, 9)
}
