// The calls of the static library for C and Rust: sheet calls, clip orders, the blend of one pixel, canvas calls, and the panel's
// registers. A slice passes as a pointer and a length, a struct by value.
#![tactic(auto)]

pub mod brush;
pub mod canvas;
pub mod registers;
pub mod shapes;

ghost use Rattle.std.specs.Prelude.{◌≡◌, length};
ghost use Rattle.color.specs.Inks.{blend_of};
ghost use Rattle.encode.specs.Encode.{Wrote};
ghost use Rattle.items.specs.Format.{format, zero_word};
ghost use Rattle.orders.specs.Orders.{order_number, order_sheet};
ghost use Rattle.redraw.specs.Calls.{Painted, Patched};
ghost use Rattle.redraw.specs.Measure.{measuring};

use color::{BlendAnswer, blend};
use encode::Written;
use measure::measure;
use orders::clip_order;
use paint::paint;
use patch::patch;
use redraw::{Reply, Room};

// What painting a sheet takes: the scratch words that it needs, the most clips saved at once, the pixels of its shapes. Neither
// pixels nor scratch are lent.
#[unsafe(no_mangle)]
pub extern "C" fn maldjupp_measure(sheet: &[u8]) -> Room
    ensures { result ≡ measuring format sheet.now }
{
    measure(sheet)
}

// Paints a sheet: every pixel the ground, then its items in their order. The pixel in column x and row y is the word y × pitch +
// x of px.
#[unsafe(no_mangle)]
pub extern "C" fn maldjupp_paint(
    sheet: &[u8],
    pitch: usize,
    px: &mut [u32],
    scratch: &mut [f32],
) -> Reply
    ensures { Painted zero_word format sheet.now pitch px.old scratch.old result
        px.new scratch.new }
{
    paint(sheet, pitch, px, scratch)
}

// Patches px, which shows the old sheet, to the new one.
#[unsafe(no_mangle)]
pub extern "C" fn maldjupp_patch(
    old: &[u8],
    new: &[u8],
    pitch: usize,
    px: &mut [u32],
    scratch: &mut [f32],
) -> Reply
    ensures { Patched zero_word format old.now new.now pitch px.old scratch.old
        result px.new scratch.new }
{
    patch(old, new, pitch, px, scratch)
}

// Writes the small clip order of a number, from 0: 23 for a number of 1,093 or more, 19 for a buffer in which it does not fit.
#[unsafe(no_mangle)]
pub extern "C" fn maldjupp_clip_order(number: usize, buf: &mut [u8]) -> Written
    ensures { Wrote (order_number number (length buf.old)) 0 (order_sheet number) buf.old result
        buf.new }
{
    clip_order(number, buf)
}

// The blend of three inks over an old pixel at an alpha, and whether the value differs from the old one. An ink over 255 is
// refused by 11, whatever the alpha: the value is then 0, and nothing is altered.
#[unsafe(no_mangle)]
pub extern "C" fn maldjupp_blend(old: u32, r: u32, g: u32, b: u32, a: u32) -> BlendAnswer
    ensures { result ≡ blend_of old r g b a }
{
    blend(old, r, g, b, a)
}
