// Patching: the canvas of one sheet altered to that of another, in the box where they differ.
#![tactic(auto)]

ghost use Rattle.items.specs.Format.{format, zero_word};
ghost use Rattle.redraw.specs.Calls.{Patched};
ghost use Rattle.paint.specs.Paint.{reply_of};

use compare::{changed, same_header};
use geom::checks::{Refusal, ensure};
use paint::{check_lent, draw_in, refused};
use redraw::Reply;
use sheet::{Fault, check_sheet};

// Patches px, or tells why a patch is refused: as either sheet is, then with 10, 14, 15, 8, 9.
fn try_patch(
    old: &[u8],
    new: &[u8],
    pitch: usize,
    px: &mut [u32],
    scratch: &mut [f32],
) -> Result<Reply, Fault>
    ensures { Patched zero_word format old.now new.now pitch px.old scratch.old
        (reply_of result) px.new scratch.new }
{
    check_sheet(old)?;
    check_sheet(new)?;
    ensure(same_header(old, new), Refusal::Difference)?;
    let area = changed(old, new)?;
    check_lent(new, pitch, px.len(), scratch.len())?;
    Ok(draw_in(new, pitch, area, px, scratch))
}

// Patches px, which shows the old sheet, to the new one.
pub fn patch(old: &[u8], new: &[u8], pitch: usize, px: &mut [u32], scratch: &mut [f32]) -> Reply
    ensures { Patched zero_word format old.now new.now pitch px.old scratch.old
        result px.new scratch.new }
{
    try_patch(old, new, pitch, px, scratch).unwrap_or_else(refused)
}
