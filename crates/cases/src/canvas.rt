// Canvas calls: a case has the call, four words of arguments, the count of the words of px with their base and step, the state
// (72 words), then the number, four words of answer, what is left in px (a pitch, so many columns, and the value of the first
// words of each row), and the state left.
use crate::answer::color_of;
use crate::boxes::{irect, rect};
use crate::word::{from, int, word};
use color::Pixel;
use geom::IRect;
use gfx::{Boxed, Canvas, Done};

// The canvas whose first seven words are its sides, its pitch and its clip.
pub fn framed(words: &[u8], saved: [IRect; 16], depth: usize) -> Canvas {
    let w = int(words, 0);
    let h = int(words, 1);
    let pitch = word(words, 2) as usize;
    let clip = irect(from(words, 3));
    Canvas {
        w,
        h,
        pitch,
        clip,
        saved,
        depth,
    }
}

fn saved(words: &[u8]) -> [IRect; 16] {
    let mut out = [IRect::ZERO; 16];
    for (i, area) in out.iter_mut().enumerate() {
        *area = irect(from(words, 4 * i as u32));
    }
    out
}

// The state of 72 words: sides, pitch, clip, depth, saved clips.
pub fn state(words: &[u8]) -> Canvas {
    let depth = word(words, 7) as usize;
    framed(words, saved(from(words, 8)), depth)
}

// Whether a call that returns a state answered as stored: the number, four zeros, and, past what is left in px, the state.
fn same_done(d: Done, case: &[u8]) -> bool {
    let none = irect(from(case, 81)) == IRect::ZERO;
    d.number == word(case, 80) && none && d.canvas == state(from(case, 88))
}

// Whether the stored state is the given one.
fn kept(case: &[u8]) -> bool {
    state(from(case, 8)) == state(from(case, 88))
}

fn same_boxed(b: Boxed, case: &[u8]) -> bool {
    b.number == word(case, 80) && b.area == irect(from(case, 81)) && kept(case)
}

fn same_pixel(p: Pixel, case: &[u8]) -> bool {
    let said = p.number == word(case, 80) && p.value == word(case, 81);
    said && (82..85).all(|i| word(case, i) == 0)
}

fn made(case: &[u8], px: &mut [u32]) -> bool {
    let pitch = word(case, 3) as usize;
    same_done(Canvas::new(int(case, 1), int(case, 2), pitch, px), case)
}

fn resized(case: &[u8], px: &mut [u32]) -> bool {
    let w = int(case, 1);
    let h = int(case, 2);
    same_done(state(from(case, 8)).resize(w, h, px), case)
}

fn pushed(case: &[u8]) -> bool {
    let r = rect(from(case, 1));
    same_done(state(from(case, 8)).push_clip(r), case)
}

fn pushed_box(case: &[u8]) -> bool {
    let b = irect(from(case, 1));
    same_done(state(from(case, 8)).push_clip_i(b), case)
}

fn popped(case: &[u8]) -> bool {
    same_done(state(from(case, 8)).pop_clip(), case)
}

fn cleared(case: &[u8], px: &mut [u32]) -> bool {
    let ink = color_of(word(case, 1));
    same_done(state(from(case, 8)).clear(px, ink), case)
}

fn got(case: &[u8], px: &[u32]) -> bool {
    let x = int(case, 1);
    let y = int(case, 2);
    same_pixel(state(from(case, 8)).get(px, x, y), case) && kept(case)
}

fn bounded(case: &[u8]) -> bool {
    same_boxed(state(from(case, 8)).bounds(), case)
}

fn clipped(case: &[u8]) -> bool {
    same_boxed(state(from(case, 8)).clip(), case)
}

// Whether the call of a case answers as stored.
pub fn said(case: &[u8], px: &mut [u32]) -> bool {
    match word(case, 0) {
        1 => made(case, px),
        2 => resized(case, px),
        3 => pushed(case),
        4 => pushed_box(case),
        5 => popped(case),
        6 => cleared(case, px),
        7 => got(case, px),
        8 => bounded(case),
        _ => clipped(case),
    }
}
