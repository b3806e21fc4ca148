// A painting and a list of patches, run on lent memory: demand 3 as the contract of a function.
#![tactic(auto)]

ghost use Rattle.std.specs.Prelude.{◌≡◌, ◌+◌, ◌-◌, ◌≤◌, min, length, take, drop};
ghost use Rattle.items.specs.Format.{format, zero_word};
ghost use Rattle.replay.specs.Ran.{part, cut, next, run, replayed, standing, Ran};

use paint::paint;
use patch::patch;
use redraw::Reply;

// What the last call returned, and where the sheet accepted last lies; after a refused painting there is none, and both bounds
// are 0. The bounds are two fields and no range, since `standing` and `Ran`, the contract of `replay`, name them.
#[derive(Clone, Copy)]
pub struct Replayed {
    pub reply: Reply,
    pub from: usize,
    pub to: usize,
}

// Where a sheet of n bytes that begins at a place ends: where the bytes end, if there are fewer.
fn end_of(sheets: &[u8], at: usize, n: usize) -> usize
    requires { at ≤ length sheets.now }
    ensures { result ≡ at + min n (length sheets.now - at) }
{
    at + n.min(sheets.len() - at)
}

// A patch from the kept sheet to sheets[at..end].
fn advance(
    sheets: &[u8],
    kept: Replayed,
    at: usize,
    end: usize,
    pitch: usize,
    px: &mut [u32],
    scratch: &mut [f32],
) -> Replayed
    requires { (kept.from ≤ kept.to) × (kept.to ≤ length sheets.now) × (at ≤ end) × (end ≤ length sheets.now) }
    ensures { Ran sheets.now
        (next zero_word format pitch (standing sheets.now kept px.old scratch.old)
        (part at end sheets.now)) result px.new scratch.new }
{
    let reply = patch(
        &sheets[kept.from..kept.to],
        &sheets[at..end],
        pitch,
        px,
        scratch,
    );
    if reply.answer.number == 0 {
        Replayed {
            reply,
            from: at,
            to: end,
        }
    } else {
        Replayed { reply, ..kept }
    }
}

// A patch to each of the sheets that begin at `start`, by their lengths.
fn patches(
    sheets: &[u8],
    start: usize,
    lens: &[usize],
    state: Replayed,
    pitch: usize,
    px: &mut [u32],
    scratch: &mut [f32],
) -> Replayed
    requires { (state.from ≤ state.to) × (state.to ≤ length sheets.now) × (start ≤ length sheets.now) }
    ensures { Ran sheets.now
        (run zero_word format pitch (standing sheets.now state px.old scratch.old)
        (cut lens.now (drop start sheets.now))) result px.new scratch.new }
{
    let mut s = state;
    let mut at = start;
    for &n in lens {
        let end = end_of(sheets, at, n);
        s = advance(sheets, s, at, end, pitch, px, scratch);
        at = end;
    }
    s
}

// Paints the first sheet, sheets[..first], and where that is accepted patches to each of the sheets that follow it, by their
// lengths, each from the sheet accepted last, all in rows of `pitch` words. Of a sheet that runs past the bytes, the first
// included, what there is of it is painted or patched to. What the calls before the last returned, a shorter list tells.
pub fn replay(
    sheets: &[u8],
    first: usize,
    lens: &[usize],
    pitch: usize,
    px: &mut [u32],
    scratch: &mut [f32],
) -> Replayed
    ensures { Ran sheets.now
        (replayed zero_word format pitch (take first sheets.now)
        (cut lens.now (drop first sheets.now)) px.old scratch.old) result px.new
        scratch.new }
{
    let end = end_of(sheets, 0, first);
    let reply = paint(&sheets[..end], pitch, px, scratch);
    if reply.answer.number != 0 {
        return Replayed {
            reply,
            from: 0,
            to: 0,
        };
    }
    let state = Replayed {
        reply,
        from: 0,
        to: end,
    };
    patches(sheets, end, lens, state, pitch, px, scratch)
}
