// The state of the canvas along the items of a sheet: its sides, its pitch, the clip and the saved clips, before the first item
// and after each. No pixel is asked for.
#![tactic(auto)]

ghost use Rattle.std.specs.Prelude.{◌≡◌, ◌<◌, pos};
ghost use Rattle.sheet.specs.Bytes.{u16_at};
ghost use Rattle.sheet.specs.Check.{width_of, height_of};
ghost use Rattle.items.specs.Items.{item_of};
ghost use Rattle.items.specs.Format.{item_in, sheet_of};
ghost use Rattle.redraw.specs.Sheet.{canvas};
ghost use Rattle.clips.specs.States.{state_in, start_of, state_after, is_shape};

use geom::IRect;
use gfx::Canvas;
use items::rect_of;
use sheet::{Kind, kind_at, u16_at};

// A canvas with a first clip and nothing saved.
#[tactic(auto, unfolding(crate::specs::States::state_in, geom::specs::Box::no_box))]
pub fn state_in(w: i32, h: i32, pitch: usize, first: IRect) -> Canvas
    ensures { result ≡ state_in w h pitch first }
{
    Canvas {
        w,
        h,
        pitch,
        clip: first,
        saved: [IRect::ZERO; 16],
        depth: 0,
    }
}

// A side of a sheet's canvas, by its place in the header.
fn side(s: &[u8], at: usize) -> i32
    requires { at < 16 }
    ensures { result ≡ pos (u16_at s.now at) }
{
    u16_at(s, at) as i32
}

// The whole canvas of a sheet.
#[tactic(auto, unfolding(redraw::specs::Sheet::canvas))]
pub fn canvas_of(s: &[u8]) -> IRect
    ensures { result ≡ canvas (sheet_of s.now) }
{
    IRect::new(0, 0, side(s, 0), side(s, 2))
}

// The state in which a sheet is drawn with a first clip, in rows of `pitch` words.
pub fn first_state(s: &[u8], pitch: usize, first: IRect) -> Canvas
    ensures { result ≡ state_in (pos (width_of s.now)) (pos (height_of s.now)) pitch first }
{
    state_in(side(s, 0), side(s, 2), pitch, first)
}

// The state in which a sheet is painted from nothing, in rows as long as its canvas.
pub fn start_state(s: &[u8]) -> Canvas
    ensures { result ≡ start_of s.now }
{
    first_state(s, u16_at(s, 0), canvas_of(s))
}

// Whether the item that some bytes are is a shape: neither a push nor a pop.
#[tactic(auto, using(sheet::proofs::Tables::no_kind), unfolding(items::specs::Items::read_item, items::specs::Format::drawn_as, crate::specs::States::is_shape))]
pub fn is_shape(b: &[u8]) -> bool
    ensures { result ≡ is_shape (item_in b.now) }
{
    !matches!(kind_at(b, 0), Ok(Kind::Push | Kind::Pop))
}

// The state after the item that some bytes are: a push or a pop alters it.
#[tactic(auto, using(sheet::proofs::Tables::no_kind), unfolding(items::specs::Items::read_item, crate::specs::States::state_after))]
pub fn state_after(b: &[u8], canvas: Canvas) -> Canvas
    ensures { result ≡ state_after (item_of b.now) canvas }
{
    match kind_at(b, 0) {
        Ok(Kind::Push) => canvas.push_clip(rect_of(b)).canvas,
        Ok(Kind::Pop) => canvas.pop_clip().canvas,
        _ => canvas,
    }
}
