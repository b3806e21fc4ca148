// The canvas calls on clips and pixels.
ghost use Rattle.std.specs.Prelude.{◌≡◌, pos, length};
ghost use Rattle.geom.specs.Plane.{outer_of};
ghost use Rattle.geom.specs.Box.{box_of};
ghost use Rattle.geom.specs.Int.{up};
ghost use Rattle.color.specs.Colours.{pix_of};
ghost use Rattle.draw.specs.Frame.{framed};
ghost use Rattle.gfx.specs.State.{fresh_of, pushed, popped};
ghost use Rattle.gfx.specs.Calls.{Called, answer, box_answer, pixel_answer, raised, new_number, resize_number, resized, resized_px};
ghost use Rattle.gfx.specs.Calls.{state_number, push_box_number, push_number, px_number, cleared_to, pixel_at};

use color::{Color, Pixel};
use geom::{IRect, Rect};
use gfx::{Boxed, Canvas, Done};

#[unsafe(no_mangle)]
pub extern "C" fn maldjupp_new(w: i32, h: i32, pitch: usize, px: &mut [u32]) -> Done
    ensures { Called (new_number w h pitch (length px.old)) (fresh_of (pos 0) (pos 0) 0)
        (fresh_of (raised w) (raised h) pitch) px.old (framed pitch (up (raised w)) 0 px.old) result
        px.new }
{
    maldjupp::canvas::maldjupp_new(w, h, pitch, px)
}

#[unsafe(no_mangle)]
pub extern "C" fn maldjupp_resize(canvas: Canvas, w: i32, h: i32, px: &mut [u32]) -> Done
    ensures { Called (resize_number canvas w h (length px.old)) canvas (resized canvas w h) px.old
        (resized_px canvas w h px.old) result px.new }
{
    maldjupp::canvas::maldjupp_resize(canvas, w, h, px)
}

#[unsafe(no_mangle)]
pub extern "C" fn maldjupp_bounds(canvas: Canvas) -> Boxed
    ensures { result ≡ box_answer (state_number canvas) (box_of (pos 0) (pos 0) canvas.w canvas.h) }
{
    maldjupp::canvas::maldjupp_bounds(canvas)
}

#[unsafe(no_mangle)]
pub extern "C" fn maldjupp_clip(canvas: Canvas) -> Boxed
    ensures { result ≡ box_answer (state_number canvas) canvas.clip }
{
    maldjupp::canvas::maldjupp_clip(canvas)
}

#[unsafe(no_mangle)]
pub extern "C" fn maldjupp_push_clip(canvas: Canvas, r: Rect) -> Done
    ensures { result ≡ answer (push_number canvas r) canvas (pushed canvas (outer_of r)) }
{
    maldjupp::canvas::maldjupp_push_clip(canvas, r)
}

#[unsafe(no_mangle)]
pub extern "C" fn maldjupp_push_clip_i(canvas: Canvas, b: IRect) -> Done
    ensures { result ≡ answer (push_box_number canvas) canvas (pushed canvas b) }
{
    maldjupp::canvas::maldjupp_push_clip_i(canvas, b)
}

#[unsafe(no_mangle)]
pub extern "C" fn maldjupp_pop_clip(canvas: Canvas) -> Done
    ensures { result ≡ answer (state_number canvas) canvas (popped canvas) }
{
    maldjupp::canvas::maldjupp_pop_clip(canvas)
}

#[unsafe(no_mangle)]
pub extern "C" fn maldjupp_clear(canvas: Canvas, px: &mut [u32], c: Color) -> Done
    ensures { Called (px_number canvas (length px.old)) canvas canvas px.old
        (cleared_to canvas (pix_of c) px.old) result px.new }
{
    maldjupp::canvas::maldjupp_clear(canvas, px, c)
}

#[unsafe(no_mangle)]
pub extern "C" fn maldjupp_get(canvas: Canvas, px: &[u32], x: i32, y: i32) -> Pixel
    ensures { result ≡ pixel_answer (px_number canvas (length px.now)) (pixel_at canvas px.now x y) }
{
    maldjupp::canvas::maldjupp_get(canvas, px, x, y)
}
