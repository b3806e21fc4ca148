// Painting a sheet, and what patching shares with it.
#![tactic(auto)]

ghost use Rattle.std.specs.Prelude.{◌≡◌};
ghost use Rattle.geom.specs.Refusals.{code, number_of};
ghost use Rattle.items.specs.Format.{sheet_of, format, zero_word};
ghost use Rattle.redraw.specs.Sheet.{lent_number};
ghost use Rattle.redraw.specs.Calls.{refused_by, Painted};
ghost use Rattle.paint.specs.Paint.{need_in, DrewSheet, reply_of};

use clips::{canvas_of, first_state};
use draw::check_frame;
use fill::fill_ground;
use geom::IRect;
use geom::checks::{Refusal, ensure};
use items::ground;
use items::reaches::need;
use items::reader::Items;
use redraw::{Answer, Reply};
use render::render;
use sheet::{Fault, check_sheet, u16_at};

// The reply of a refused call: its box is four zeros, and it altered nothing.
#[tactic(auto, unfolding(geom::specs::Box::no_box, redraw::specs::Sheet::refusal))]
pub fn refusal(number: u32, item: u32) -> Reply
    ensures { result ≡ refused_by number item }
{
    let area = IRect::ZERO;
    Reply {
        answer: Answer { number, item, area },
        steps: 0,
        grounded: 0,
    }
}

// The same by why a sheet is refused.
pub fn refused(fault: Fault) -> Reply
    ensures { result ≡ refused_by (code fault.refusal) fault.item }
{
    refusal(fault.refusal.into(), fault.item)
}

// The scratch words that a sheet needs. A loop: over `map` and `max` the proof does not close.
pub fn sheet_need(s: &[u8]) -> usize
    ensures { result ≡ need_in s.now }
{
    let mut most = 0;
    for b in Items::of(s) {
        most = most.max(need(b));
    }
    most
}

// What is lent to a sheet: n words of px in rows of `pitch`, and so many scratch words. Refused with 15, 8, then 9.
#[tactic(auto, unfolding(redraw::specs::Sheet::lent_number))]
pub fn check_lent(s: &[u8], pitch: usize, n: usize, words: usize) -> Result<(), Refusal>
    ensures { number_of result ≡ lent_number format (sheet_of s.now) pitch n words }
{
    check_frame(u16_at(s, 0), u16_at(s, 2), pitch, n)?;
    ensure(sheet_need(s) <= words, Refusal::Scratch)
}

// Sets an area to the ground, and draws the sheet with the area as first clip: the reply of an accepted call.
pub fn draw_in(s: &[u8], pitch: usize, area: IRect, px: &mut [u32], scratch: &mut [f32]) -> Reply
    ensures { DrewSheet s.now pitch area px.old scratch.old result px.new
        scratch.new }
{
    let state = first_state(s, pitch, area);
    let grounded = fill_ground(state, px, ground(s)).steps;
    let steps = render(s, state, px, scratch);
    let answer = Answer {
        number: 0,
        item: 0,
        area,
    };
    Reply {
        answer,
        steps,
        grounded,
    }
}

// Paints a sheet, or tells why it is refused.
fn try_paint(
    sheet: &[u8],
    pitch: usize,
    px: &mut [u32],
    scratch: &mut [f32],
) -> Result<Reply, Fault>
    ensures { Painted zero_word format sheet.now pitch px.old scratch.old
        (reply_of result) px.new scratch.new }
{
    check_sheet(sheet)?;
    check_lent(sheet, pitch, px.len(), scratch.len())?;
    Ok(draw_in(sheet, pitch, canvas_of(sheet), px, scratch))
}

// Paints a sheet: every pixel the ground, then its items in their order. The pixel in column x and row y is the word y × pitch +
// x of px.
pub fn paint(sheet: &[u8], pitch: usize, px: &mut [u32], scratch: &mut [f32]) -> Reply
    ensures { Painted zero_word format sheet.now pitch px.old scratch.old result
        px.new scratch.new }
{
    try_paint(sheet, pitch, px, scratch).unwrap_or_else(refused)
}
