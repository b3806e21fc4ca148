// Drawing into lent pixels, in rows of a pitch: the definitions are in specs/, the laws of its loops in proofs/. No public call.
#![tactic(auto)]

ghost use Rattle.std.specs.Prelude.{◌≡◌, ◌≤◌, ◌<◌, ℕ, length};
ghost use Rattle.geom.specs.Refusals.{number_of};
ghost use Rattle.draw.specs.Areas.{area_of, clip_to, SpanFits, DrewSpan, TakesPixels, Inks, TakesColumns, TakesCovered, InksCovered};
ghost use Rattle.draw.specs.Areas.{AreaFits, DrewIn, TakesRows, DrawsRows};
ghost use Rattle.draw.specs.Held.{Holds};
ghost use Rattle.draw.specs.Frame.{pitch_number, frame_number};

use color::Inked;
use geom::checks::{Refusal, ensure};
use geom::{IRect, nat_of};

// A half-open box of pixels within the canvas: columns x0 up to x1, rows y0 up to y1.
#[derive(Clone, Copy)]
pub struct Area {
    pub x0: usize,
    pub y0: usize,
    pub x1: usize,
    pub y1: usize,
}

impl Area {
    // No pixel.
    pub const NONE: Area = Area {
        x0: 0,
        y0: 0,
        x1: 0,
        y1: 0,
    };
}

// The columns from x0 up to x1 of row y, in rows of `pitch` words. That they lie in px is asked where px is lent beside it
// (`SpanFits`), and no fact of the struct's: with px in it each part of a row would borrow the whole anew.
#[derive(Clone, Copy)]
pub struct Span {
    pub pitch: usize,
    pub y: usize,
    pub x0: usize,
    pub x1: usize,
}

// A box as an area, its negative sides raised to 0.
impl From<IRect> for Area {
    ghost from_gives = { λ b a. a ≡ area_of b };

    fn from(b: IRect) -> Area {
        Area {
            x0: nat_of(b.x0),
            y0: nat_of(b.y0),
            x1: nat_of(b.x1),
            y1: nat_of(b.y1),
        }
    }
}

// What a clip lets through of a shape's reach: four zeros where that is empty.
#[tactic(auto, unfolding(crate::specs::Areas::clip_to))]
pub fn clipped(reach: IRect, clip: IRect) -> Area
    ensures { result ≡ clip_to reach clip }
{
    let b = reach.intersect(clip);
    if b.is_empty() {
        Area::NONE
    } else {
        Area::from(b)
    }
}

// A pitch for a canvas of w columns: refused with 15 outside its range.
#[tactic(auto, unfolding(crate::specs::Frame::pitch_number, crate::specs::Frame::pitch_ok))]
pub fn check_pitch(w: usize, pitch: usize) -> Result<(), Refusal>
    ensures { number_of result ≡ pitch_number w pitch }
{
    ensure((w <= pitch) & (pitch <= 4096), Refusal::Pitch)
}

// px of n words, in rows of `pitch` words, for a canvas of w columns and h rows: refused with 15, then with 8.
#[tactic(auto, unfolding(crate::specs::Frame::frame_number))]
pub fn check_frame(w: usize, h: usize, pitch: usize, n: usize) -> Result<(), Refusal>
    requires { h ≤ 65535 }
    ensures { number_of result ≡ frame_number w h pitch n }
{
    check_pitch(w, pitch)?;
    ensure(n == pitch * h, Refusal::Pixels)
}

// Fills the places from x0 up to x1 of a row of numbers by a function, which is told of the place.
pub fn fill_in<const N: usize, F: Fn(usize) -> u32>(row: &mut [u32; N], x0: usize, x1: usize, f: F)
    requires places { (x0 ≤ x1) × (x1 ≤ N) }
    requires callable { (x : ℕ) → x0 ≤ x → x < x1 → F.pre f x }
    ensures { (g : ℕ → ℕ) → ((x v : ℕ) → x0 ≤ x → x < x1 → F.post f x v → v ≡ g x) → Holds g x0 x1 row.new }
{
    for x in x0..x1 {
        row[x] = f(x);
    }
}

// Numbers of which the places from x0 up to x1 are filled by a function, which is told of the place.
pub fn filled<const N: usize, F: Fn(usize) -> u32>(x0: usize, x1: usize, f: F) -> [u32; N]
    requires places { (x0 ≤ x1) × (x1 ≤ N) }
    requires callable { (x : ℕ) → x0 ≤ x → x < x1 → F.pre f x }
    ensures { (g : ℕ → ℕ) → ((x v : ℕ) → x0 ≤ x → x < x1 → F.post f x v → v ≡ g x) → Holds g x0 x1 result }
{
    let mut row = [0; N];
    fill_in(&mut row, x0, x1, f);
    row
}

impl Span {
    // Stores at each pixel what an ink makes of its column and its old value, and counts the values that it alters. The loop goes
    // through the columns' numbers, as the ink is told of them.
    pub fn draw<F: Fn(usize, u32) -> Inked>(self, px: &mut [u32], ink: F) -> u32
        requires span_fits { SpanFits self (length px.old) }
        requires callable { TakesPixels (F.pre ink) self }
        ensures { (f : ℕ → ℕ → ℕ → ℕ) → Inks (F.post ink) self f → DrewSpan self f px.old result px.new }
    {
        let row = self.y * self.pitch;
        let mut n = 0;
        for x in self.x0..self.x1 {
            let i = row + x;
            let q = ink(x, px[i]);
            px[i] = q.value;
            n += q.altered as u32;
        }
        n
    }

    // The same by the coverage of each column, of which the ink is told: where that is 0 the pixel is neither read nor stored.
    pub fn draw_covered<C: Fn(usize) -> u32, F: Fn(usize, u32, u32) -> Inked>(
        self,
        px: &mut [u32],
        cover: C,
        ink: F,
    ) -> u32
        requires span_fits { SpanFits self (length px.old) }
        requires columns { TakesColumns (C.pre cover) self }
        requires callable { TakesCovered (C.post cover) (F.pre ink) self }
        ensures { (f : ℕ → ℕ → ℕ → ℕ) → InksCovered (C.post cover) (F.post ink) self f → DrewSpan self f px.old result px.new }
    {
        let Span { pitch, y, x0, x1 } = self;
        let row = y * pitch;
        let mut n = 0;
        for x in x0..x1 {
            let cv = cover(x);
            if cv == 0 {
                continue;
            }
            let i = row + x;
            let inked = ink(x, px[i], cv);
            px[i] = inked.value;
            n += inked.altered as u32;
        }
        n
    }
}

impl Area {
    // Draws each row by a function, in rows of `pitch` words, and sums what it counts.
    pub fn draw<F: Fn(&mut [u32], Span) -> u32>(self, px: &mut [u32], pitch: usize, row: F) -> u32
        requires area_fits { AreaFits pitch self (length px.old) }
        requires callable { TakesRows (F.pre row) pitch self }
        requires draws { (f : ℕ → ℕ → ℕ → ℕ) × DrawsRows (F.post row) pitch self f }
        ensures { (f : ℕ → ℕ → ℕ → ℕ) → DrawsRows (F.post row) pitch self f → DrewIn pitch self f px.old result px.new }
    {
        let mut n = 0;
        for y in self.y0..self.y1 {
            n += row(
                px,
                Span {
                    pitch,
                    y,
                    x0: self.x0,
                    x1: self.x1,
                },
            );
        }
        n
    }
}
