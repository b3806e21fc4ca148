// What the proved functions of geom answer: a rectangle or a box. A number is a rectangle's x, a flag a box's x0, beside zeros.
use crate::word::{float, from, int, pattern, word};
use geom::{IRect, Rect};

// The rectangle of the first four words.
pub fn rect(words: &[u8]) -> Rect {
    Rect::new(
        float(words, 0),
        float(words, 1),
        float(words, 2),
        float(words, 3),
    )
}

// The box of the first four words.
pub fn irect(words: &[u8]) -> IRect {
    IRect::new(int(words, 0), int(words, 1), int(words, 2), int(words, 3))
}

// Whether the first four words are a rectangle's.
fn same_rect(r: Rect, words: &[u8]) -> bool {
    let sides = [r.x, r.y, r.w, r.h].map(pattern);
    sides
        == [
            word(words, 0),
            word(words, 1),
            word(words, 2),
            word(words, 3),
        ]
}

fn number(x: f32) -> Rect {
    Rect::new(x, 0.0, 0.0, 0.0)
}

fn flag(t: bool) -> IRect {
    IRect::new(t as i32, 0, 0, 0)
}

fn rect_of(f: u32, r: Rect, o: Rect) -> Rect {
    match f {
        1 => number(r.right()),
        2 => number(r.bottom()),
        3 => number(r.cx()),
        4 => number(r.cy()),
        5 => r.inset(o.x),
        6 => r.offset(o.x, o.y),
        7 => r.intersect(o),
        8 => r.union(o),
        _ => Rect::ZERO,
    }
}

fn box_of(f: u32, words: &[u8]) -> IRect {
    match f {
        9 => flag(rect(words).is_empty()),
        10 => IRect::from_rect_outer(rect(words)),
        11 => irect(words).intersect(irect(from(words, 4))),
        _ => flag(irect(words).is_empty()),
    }
}

// A case: the function, two rectangles or two boxes, and the answer's four words. Functions 1 to 8 answer a rectangle, and 13 is
// the constant of zeros.
pub(crate) fn agrees(case: &[u8]) -> bool {
    let f = word(case, 0);
    let words = from(case, 1);
    let answer = from(case, 9);
    if f <= 8 || f == 13 {
        return same_rect(rect_of(f, rect(words), rect(from(words, 4))), answer);
    }
    box_of(f, words) == irect(answer)
}
