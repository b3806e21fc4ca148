// The canvas: its state, the calls on its clips and pixels, and what its shapes share. A state goes in by value and comes back
// beside a number; px is lent. A refused call returns the given state and alters nothing.
#![tactic(auto)]

mod checks;
pub mod points;

ghost use Rattle.std.specs.Prelude.{◌≡◌, ◌+◌, ◌*◌, ◌<◌, ◌≤◌, length, pos};
ghost use Rattle.geom.specs.Plane.{outer_of};
ghost use Rattle.geom.specs.Box.{box_of};
ghost use Rattle.geom.specs.Int.{up};
ghost use Rattle.color.specs.Colours.{pix_of};
ghost use Rattle.draw.specs.Areas.{RowFits, AreaFits, drawn_in, area};
ghost use Rattle.draw.specs.Frame.{framed};
ghost use Rattle.gfx.specs.State.{in_canvas, places_ok, frame_ok, valid_of, fresh_of, pushed, unsaved, popped};
ghost use Rattle.geom.specs.Refusals.{number_of};
ghost use Rattle.gfx.specs.Calls.{done_of, counted_of, boxed_of, pixel_of};
ghost use Rattle.gfx.specs.Calls.{Called, answer, box_answer, pixel_answer, raised, new_number, resize_number, same_size};
ghost use Rattle.gfx.specs.Calls.{resized, resized_px, state_number, push_box_number, push_number, px_number, cleared_to};
ghost use Rattle.gfx.specs.Calls.{shape_number, nearest_in, pixel_at};

use crate::checks::{check_new, check_size, clip_ok, in_canvas, place_ok, raise, side_ok};
pub use crate::points::{check_points, coords_ok, points_ok};
use color::{Color, Pixel};
use draw::{check_frame, check_pitch};
use geom::checks::{Refusal, ensure};
use geom::{IRect, Rect, nat_of};

// A canvas without its pixels: its sides, the words of a row of px, its clip, and up to 16 saved clips, of which `depth` are in
// use. The pixel in column x and row y is the word y × pitch + x; words of a row past w are no pixels, and no call alters them.
#[repr(C)]
#[derive(Clone, Copy, PartialEq, Eq)]
pub struct Canvas {
    pub w: i32,
    pub h: i32,
    pub pitch: usize,
    pub clip: IRect,
    pub saved: [IRect; 16],
    pub depth: usize,
}

// What a call on a canvas returns: its number, 0 where it is accepted, and the state. C is given it, and no Result, as it is the
// two that follow.
#[repr(C)]
#[derive(Clone, Copy)]
pub struct Done {
    pub number: u32,
    pub canvas: Canvas,
}

// What a shape call returns: besides, how many of its steps altered a pixel's value.
#[repr(C)]
#[derive(Clone, Copy)]
pub struct Counted {
    pub number: u32,
    pub canvas: Canvas,
    pub steps: u64,
}

// A box that a call returns, beside its number.
#[repr(C)]
#[derive(Clone, Copy)]
pub struct Boxed {
    pub number: u32,
    pub area: IRect,
}

impl Done {
    // The answer of a call that was given a state: the next state, or the refusal beside the given one.
    #[inline(always)]
    pub fn of(given: Canvas, next: Result<Canvas, Refusal>) -> Done
        ensures { result ≡ done_of given next }
    {
        match next {
            Ok(canvas) => Done { number: 0, canvas },
            Err(refusal) => Done {
                number: refusal.into(),
                canvas: given,
            },
        }
    }
}

impl Counted {
    // The answer of a shape call on a canvas: its steps, or the refusal.
    #[inline(always)]
    pub fn of(canvas: Canvas, drawn: Result<u64, Refusal>) -> Counted
        ensures { result ≡ counted_of canvas drawn }
    {
        let (number, steps) = match drawn {
            Ok(steps) => (0, steps),
            Err(refusal) => (refusal.into(), 0),
        };
        Counted {
            number,
            canvas,
            steps,
        }
    }
}

impl Boxed {
    // The answer of a call that asks for a box: the box, or four zeros beside the refusal.
    #[inline(always)]
    fn of(asked: Result<IRect, Refusal>) -> Boxed
        ensures { result ≡ boxed_of asked }
    {
        match asked {
            Ok(area) => Boxed { number: 0, area },
            Err(refusal) => Boxed {
                number: refusal.into(),
                area: IRect::ZERO,
            },
        }
    }
}

// The answer of a call that asks for a pixel: its value, or 0 beside the refusal.
#[inline(always)]
fn pixel_of(asked: Result<u32, Refusal>) -> Pixel
    ensures { result ≡ pixel_of asked }
{
    match asked {
        Ok(value) => Pixel { number: 0, value },
        Err(refusal) => Pixel {
            number: refusal.into(),
            value: 0,
        },
    }
}

// The first w words of row y set to one value.
fn store_row(px: &mut [u32], pitch: usize, y: usize, w: usize, v: u32)
    requires { RowFits pitch y 0 w (length px.old) }
    ensures { px.new ≡ drawn_in pitch (area 0 y w (y + 1)) (λ _ _ _. v) px.old }
{
    let row = y * pitch;
    for p in px[row..row + w].iter_mut() {
        *p = v;
    }
}

// The first w words of each of h rows set to one value. Rows go by their numbers, as in `framed`.
fn store_rows(px: &mut [u32], pitch: usize, w: usize, h: usize, v: u32)
    requires { AreaFits pitch (area 0 0 w h) (length px.old) × (length px.old ≡ pitch * h) }
    ensures { px.new ≡ framed pitch w v px.old }
{
    for y in 0..h {
        store_row(px, pitch, y, w, v);
    }
}

// The number of 0 to n - 1 that is nearest to x.
fn nearest_in(n: i32, x: i32) -> usize
    ensures { result ≡ nearest_in n x }
{
    nat_of(x).min(nat_of(n).saturating_sub(1))
}

impl Canvas {
    // A canvas with all of it as clip and nothing saved.
    #[tactic(auto, unfolding(crate::specs::State::fresh_of))]
    fn fresh(w: i32, h: i32, pitch: usize) -> Canvas
        ensures { result ≡ fresh_of w h pitch }
    {
        Canvas {
            w,
            h,
            pitch,
            clip: IRect::new(0, 0, w, h),
            saved: [IRect::ZERO; 16],
            depth: 0,
        }
    }

    // Whether each place of the saved clips is all right. They are copied first: a compiler then takes the state apart, and need
    // not copy the whole of it at each call.
    #[inline(always)]
    fn places_ok(&self) -> bool
        ensures { result ≡ places_ok self.now 16 }
    {
        let saved = self.saved;
        saved
            .iter()
            .enumerate()
            .all(|(i, b)| place_ok(self.w, self.h, i < self.depth, *b))
    }

    // Whether the sides, the depth and the clip are all right.
    #[tactic(auto, unfolding(crate::specs::State::frame_ok))]
    #[inline(always)]
    fn frame_ok(&self) -> bool
        ensures { result ≡ frame_ok self.now }
    {
        side_ok(self.w) & side_ok(self.h) & (self.depth <= 16) & clip_ok(self.w, self.h, self.clip)
    }

    // Whether a state is one that a canvas can be in: refusal 12 is given for any other.
    #[tactic(auto, unfolding(crate::specs::State::valid_of))]
    #[inline(always)]
    pub fn valid(self) -> bool
        ensures { result ≡ valid_of self }
    {
        self.frame_ok() && self.places_ok()
    }

    // Whether a box lies in the canvas.
    pub fn has(self, b: IRect) -> bool
        ensures { result ≡ in_canvas self.w self.h b }
    {
        in_canvas(self.w, self.h, b)
    }

    // What a call without pixels tests before it looks at its own arguments: refused with 12, then 15.
    #[tactic(auto, unfolding(crate::specs::Calls::state_number))]
    #[inline(always)]
    pub fn check_state(self) -> Result<(), Refusal>
        ensures { number_of result ≡ state_number self }
    {
        ensure(self.valid(), Refusal::State)?;
        check_pitch(nat_of(self.w), self.pitch)
    }

    // The same of a call on n lent words: 12, 15, then 8.
    #[tactic(auto, unfolding(crate::specs::Calls::px_number))]
    #[inline(always)]
    pub fn check_px(self, n: usize) -> Result<(), Refusal>
        ensures { number_of result ≡ px_number self n }
    {
        ensure(self.valid(), Refusal::State)?;
        check_frame(nat_of(self.w), nat_of(self.h), self.pitch, n)
    }

    // The same of a shape call, by whether the floats given are finite and within 8,192 of 0: then 6.
    #[tactic(auto, unfolding(crate::specs::Calls::shape_number))]
    #[inline(always)]
    pub fn check_shape(self, n: usize, ok: bool) -> Result<(), Refusal>
        ensures { number_of result ≡ shape_number self n ok }
    {
        self.check_px(n)?;
        ensure(ok, Refusal::Float)
    }

    // What `resize` tests: the pitch must be neither below the width of the state nor below the one wanted.
    #[tactic(auto, unfolding(crate::specs::Calls::resize_number))]
    #[inline(always)]
    fn check_resize(self, w: i32, h: i32, n: usize) -> Result<(), Refusal>
        ensures { number_of result ≡ resize_number self w h n }
    {
        ensure(self.valid(), Refusal::State)?;
        let a = raise(w);
        let least = nat_of(self.w).max(nat_of(a));
        check_size(least, a, raise(h), self.pitch, n)
    }

    // A new canvas with the sides raised, its pixels set to zeros.
    fn blank(w: i32, h: i32, pitch: usize, px: &mut [u32]) -> Canvas
        requires { new_number w h pitch (length px.old) ≡ 0 }
        ensures { (result ≡ fresh_of (raised w) (raised h) pitch)
            × (px.new ≡ framed pitch (up (raised w)) 0 px.old) }
    {
        let a = raise(w);
        let b = raise(h);
        store_rows(px, pitch, nat_of(a), nat_of(b), 0);
        Canvas::fresh(a, b, pitch)
    }

    // Whether the canvas has the sides w and h, raised.
    fn same_size(self, w: i32, h: i32) -> bool
        ensures { result ≡ same_size self w h }
    {
        (self.w == raise(w)) & (self.h == raise(h))
    }

    // The clip saved, and cut to a box.
    #[tactic(auto, unfolding(crate::specs::State::pushed))]
    fn push(self, b: IRect) -> Canvas
        requires { self.depth < 16 }
        ensures { result ≡ pushed self b }
    {
        let mut saved = self.saved;
        saved[self.depth] = self.clip;
        Canvas {
            clip: self.clip.intersect(b),
            saved,
            depth: self.depth + 1,
            ..self
        }
    }

    // Back to the clip saved last; its place holds zeros again.
    #[tactic(auto, unfolding(crate::specs::State::unsaved))]
    fn unsave(self) -> Canvas
        requires { (0 < self.depth) × (self.depth ≤ 16) }
        ensures { result ≡ unsaved self }
    {
        let depth = self.depth - 1;
        let mut saved = self.saved;
        let clip = saved[depth];
        saved[depth] = IRect::ZERO;
        Canvas {
            clip,
            saved,
            depth,
            ..self
        }
    }

    // `new`, or its refusal: 2, 15, then 8.
    fn try_new(w: i32, h: i32, pitch: usize, px: &mut [u32]) -> Result<Canvas, Refusal>
        ensures { Called (new_number w h pitch (length px.old)) (fresh_of (pos 0) (pos 0) 0)
            (fresh_of (raised w) (raised h) pitch) px.old (framed pitch (up (raised w)) 0 px.old)
            (done_of (fresh_of (pos 0) (pos 0) 0) result) px.new }
    {
        check_new(w, h, pitch, px.len())?;
        Ok(Canvas::blank(w, h, pitch, px))
    }

    // A new canvas, whose pixels are zeros. A side below 1 is raised to 1.
    pub fn new(w: i32, h: i32, pitch: usize, px: &mut [u32]) -> Done
        ensures { Called (new_number w h pitch (length px.old)) (fresh_of (pos 0) (pos 0) 0)
            (fresh_of (raised w) (raised h) pitch) px.old (framed pitch (up (raised w)) 0 px.old) result
            px.new }
    {
        Done::of(Canvas::fresh(0, 0, 0), Canvas::try_new(w, h, pitch, px))
    }

    // `resize`, or its refusal: 12, 2, 15, then 8.
    fn try_resize(self, w: i32, h: i32, px: &mut [u32]) -> Result<Canvas, Refusal>
        ensures { Called (resize_number self w h (length px.old)) self (resized self w h) px.old
            (resized_px self w h px.old) (done_of self result) px.new }
    {
        self.check_resize(w, h, px.len())?;
        if self.same_size(w, h) {
            return Ok(self);
        }
        Ok(Canvas::blank(w, h, self.pitch, px))
    }

    // Another size, whose pixels are zeros, in rows as long as before; the same size alters nothing.
    // A side below 1 is raised to 1.
    pub fn resize(self, w: i32, h: i32, px: &mut [u32]) -> Done
        ensures { Called (resize_number self w h (length px.old)) self (resized self w h) px.old
            (resized_px self w h px.old) result px.new }
    {
        Done::of(self, self.try_resize(w, h, px))
    }

    // The whole canvas.
    pub fn bounds(self) -> Boxed
        ensures { result ≡ box_answer (state_number self) (box_of (pos 0) (pos 0) self.w self.h) }
    {
        Boxed::of(self.check_state().and(Ok(IRect::new(0, 0, self.w, self.h))))
    }

    // The clip.
    pub fn clip(self) -> Boxed
        ensures { result ≡ box_answer (state_number self) self.clip }
    {
        Boxed::of(self.check_state().and(Ok(self.clip)))
    }

    // `push_clip`, or its refusal: 12, 15, 6, then 7.
    #[tactic(auto, unfolding(crate::specs::Calls::push_number, crate::specs::Calls::answer))]
    fn try_push(self, r: Rect) -> Result<Canvas, Refusal>
        ensures { done_of self result ≡ answer (push_number self r) self (pushed self (outer_of r)) }
    {
        self.check_state()?;
        ensure(r.in_range(), Refusal::Float)?;
        ensure(self.depth < 16, Refusal::Clips)?;
        Ok(self.push(IRect::from_rect_outer(r)))
    }

    // Save the clip, and cut it to the pixels around a rectangle.
    pub fn push_clip(self, r: Rect) -> Done
        ensures { result ≡ answer (push_number self r) self (pushed self (outer_of r)) }
    {
        Done::of(self, self.try_push(r))
    }

    // `push_clip_i`, or its refusal: 12, 15, then 7.
    #[tactic(auto, unfolding(crate::specs::Calls::push_box_number, crate::specs::Calls::answer))]
    fn try_push_box(self, b: IRect) -> Result<Canvas, Refusal>
        ensures { done_of self result ≡ answer (push_box_number self) self (pushed self b) }
    {
        self.check_state()?;
        ensure(self.depth < 16, Refusal::Clips)?;
        Ok(self.push(b))
    }

    // Save the clip, and cut it to a box.
    pub fn push_clip_i(self, b: IRect) -> Done
        ensures { result ≡ answer (push_box_number self) self (pushed self b) }
    {
        Done::of(self, self.try_push_box(b))
    }

    // `pop_clip`, or its refusal: 12, then 15.
    #[tactic(auto, unfolding(crate::specs::State::popped, crate::specs::Calls::answer))]
    fn try_pop(self) -> Result<Canvas, Refusal>
        ensures { done_of self result ≡ answer (state_number self) self (popped self) }
    {
        self.check_state()?;
        if self.depth == 0 {
            return Ok(self);
        }
        Ok(self.unsave())
    }

    // Go back to the clip saved last; with nothing saved, nothing happens.
    pub fn pop_clip(self) -> Done
        ensures { result ≡ answer (state_number self) self (popped self) }
    {
        Done::of(self, self.try_pop())
    }

    // `clear`, or its refusal: 12, 15, then 8.
    fn try_clear(self, px: &mut [u32], c: Color) -> Result<Canvas, Refusal>
        ensures { Called (px_number self (length px.old)) self self px.old
            (cleared_to self (pix_of c) px.old) (done_of self result) px.new }
    {
        self.check_px(px.len())?;
        store_rows(px, self.pitch, nat_of(self.w), nat_of(self.h), c.pix());
        Ok(self)
    }

    // Every pixel set to a colour, whatever the clip.
    pub fn clear(self, px: &mut [u32], c: Color) -> Done
        ensures { Called (px_number self (length px.old)) self self px.old
            (cleared_to self (pix_of c) px.old) result px.new }
    {
        Done::of(self, self.try_clear(px, c))
    }

    // `get`, or its refusal: 12, 15, then 8.
    fn try_get(self, px: &[u32], x: i32, y: i32) -> Result<u32, Refusal>
        ensures { pixel_of result ≡ pixel_answer (px_number self (length px.now)) (pixel_at self px.now x y) }
    {
        self.check_px(px.len())?;
        let at = nearest_in(self.h, y) * self.pitch + nearest_in(self.w, x);
        Ok(px[at])
    }

    // The pixel at x and y, each brought to the nearest inside.
    pub fn get(self, px: &[u32], x: i32, y: i32) -> Pixel
        ensures { result ≡ pixel_answer (px_number self (length px.now)) (pixel_at self px.now x y) }
    {
        pixel_of(self.try_get(px, x, y))
    }
}
