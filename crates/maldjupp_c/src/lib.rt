// The static library for C and Rust, libmaldjupp.a: each call of the crate maldjupp under its own name, with its clauses.
#![tactic(auto)]

mod canvas;
mod registers;
mod shapes;

ghost use Rattle.std.specs.Prelude.{◌≡◌, length};
ghost use Rattle.color.specs.Inks.{blend_of};
ghost use Rattle.encode.specs.Encode.{Wrote};
ghost use Rattle.items.specs.Format.{format, zero_word};
ghost use Rattle.orders.specs.Orders.{order_number, order_sheet};
ghost use Rattle.redraw.specs.Calls.{Painted, Patched};
ghost use Rattle.redraw.specs.Measure.{measuring};

use color::BlendAnswer;
use encode::Written;
use redraw::{Reply, Room};

#[unsafe(no_mangle)]
pub extern "C" fn maldjupp_measure(sheet: &[u8]) -> Room
    ensures { result ≡ measuring format sheet.now }
{
    maldjupp::maldjupp_measure(sheet)
}

#[unsafe(no_mangle)]
pub extern "C" fn maldjupp_paint(
    sheet: &[u8],
    pitch: usize,
    px: &mut [u32],
    scratch: &mut [f32],
) -> Reply
    ensures { Painted zero_word format sheet.now pitch px.old scratch.old result
        px.new scratch.new }
{
    maldjupp::maldjupp_paint(sheet, pitch, px, scratch)
}

#[unsafe(no_mangle)]
pub extern "C" fn maldjupp_patch(
    old: &[u8],
    new: &[u8],
    pitch: usize,
    px: &mut [u32],
    scratch: &mut [f32],
) -> Reply
    ensures { Patched zero_word format old.now new.now pitch px.old scratch.old
        result px.new scratch.new }
{
    maldjupp::maldjupp_patch(old, new, pitch, px, scratch)
}

#[unsafe(no_mangle)]
pub extern "C" fn maldjupp_clip_order(number: usize, buf: &mut [u8]) -> Written
    ensures { Wrote (order_number number (length buf.old)) 0 (order_sheet number) buf.old result
        buf.new }
{
    maldjupp::maldjupp_clip_order(number, buf)
}

#[unsafe(no_mangle)]
pub extern "C" fn maldjupp_blend(old: u32, r: u32, g: u32, b: u32, a: u32) -> BlendAnswer
    ensures { result ≡ blend_of old r g b a }
{
    maldjupp::maldjupp_blend(old, r, g, b, a)
}
