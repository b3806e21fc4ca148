// The canvas calls on clips and pixels. The state goes in and comes back by value, beside the number; px is lent.
ghost use Rattle.std.specs.Prelude.{◌≡◌, pos, length};
ghost use Rattle.geom.specs.Plane.{outer_of};
ghost use Rattle.geom.specs.Box.{box_of};
ghost use Rattle.geom.specs.Int.{up};
ghost use Rattle.color.specs.Colours.{pix_of};
ghost use Rattle.draw.specs.Frame.{framed};
ghost use Rattle.gfx.specs.State.{fresh_of, pushed, popped};
ghost use Rattle.gfx.specs.Calls.{Called, answer, box_answer, pixel_answer, raised, new_number, resize_number, resized, resized_px};
ghost use Rattle.gfx.specs.Calls.{state_number, push_box_number, push_number, px_number, cleared_to, pixel_at};

use color::{Color, Pixel};
use geom::{IRect, Rect};
use gfx::{Boxed, Canvas, Done};

// A new canvas, whose pixels are zeros. A side below 1 is raised to 1.
#[unsafe(no_mangle)]
pub extern "C" fn maldjupp_new(w: i32, h: i32, pitch: usize, px: &mut [u32]) -> Done
    ensures { Called (new_number w h pitch (length px.old)) (fresh_of (pos 0) (pos 0) 0)
        (fresh_of (raised w) (raised h) pitch) px.old (framed pitch (up (raised w)) 0 px.old) result
        px.new }
{
    Canvas::new(w, h, pitch, px)
}

// Another size, whose pixels are zeros, in rows as long as before; the same size alters nothing. A side below 1 is raised to 1.
#[unsafe(no_mangle)]
pub extern "C" fn maldjupp_resize(canvas: Canvas, w: i32, h: i32, px: &mut [u32]) -> Done
    ensures { Called (resize_number canvas w h (length px.old)) canvas (resized canvas w h) px.old
        (resized_px canvas w h px.old) result px.new }
{
    canvas.resize(w, h, px)
}

// The whole canvas.
#[unsafe(no_mangle)]
pub extern "C" fn maldjupp_bounds(canvas: Canvas) -> Boxed
    ensures { result ≡ box_answer (state_number canvas) (box_of (pos 0) (pos 0) canvas.w canvas.h) }
{
    canvas.bounds()
}

// The clip.
#[unsafe(no_mangle)]
pub extern "C" fn maldjupp_clip(canvas: Canvas) -> Boxed
    ensures { result ≡ box_answer (state_number canvas) canvas.clip }
{
    canvas.clip()
}

// Save the clip, and cut it to the pixels around a rectangle.
#[unsafe(no_mangle)]
pub extern "C" fn maldjupp_push_clip(canvas: Canvas, r: Rect) -> Done
    ensures { result ≡ answer (push_number canvas r) canvas (pushed canvas (outer_of r)) }
{
    canvas.push_clip(r)
}

// Save the clip, and cut it to a box.
#[unsafe(no_mangle)]
pub extern "C" fn maldjupp_push_clip_i(canvas: Canvas, b: IRect) -> Done
    ensures { result ≡ answer (push_box_number canvas) canvas (pushed canvas b) }
{
    canvas.push_clip_i(b)
}

// Go back to the clip saved last; with nothing saved, nothing happens.
#[unsafe(no_mangle)]
pub extern "C" fn maldjupp_pop_clip(canvas: Canvas) -> Done
    ensures { result ≡ answer (state_number canvas) canvas (popped canvas) }
{
    canvas.pop_clip()
}

// Every pixel set to a colour, whatever the clip.
#[unsafe(no_mangle)]
pub extern "C" fn maldjupp_clear(canvas: Canvas, px: &mut [u32], c: Color) -> Done
    ensures { Called (px_number canvas (length px.old)) canvas canvas px.old
        (cleared_to canvas (pix_of c) px.old) result px.new }
{
    canvas.clear(px, c)
}

// The pixel at x and y, each brought to the nearest inside.
#[unsafe(no_mangle)]
pub extern "C" fn maldjupp_get(canvas: Canvas, px: &[u32], x: i32, y: i32) -> Pixel
    ensures { result ≡ pixel_answer (px_number canvas (length px.now)) (pixel_at canvas px.now x y) }
{
    canvas.get(px, x, y)
}
