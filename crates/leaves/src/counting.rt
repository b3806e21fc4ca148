// Counting a function's stored cases and those that differ.
ghost use Rattle.std.specs.Prelude.{◌<◌, ◌≤◌};

use crate::lent::{as_stored, fill, same_frame, scratch};
use crate::{clip_orders, panels, sheets};
use cases::word::{from, upto, word};
use cases::{Area, canvas};

// Every function of an area.
pub const ALL: u32 = 0xffff_ffff;

#[derive(Clone, Copy)]
pub struct Tally {
    pub ran: u32,
    pub differ: u32,
}

// How many words the case has that begins the bytes. Only that of an order, or of no area's, says it itself.
fn width(area: Area, bytes: &[u8]) -> u32
    ensures { result < 65536 }
{
    match area {
        Area::Mathf => 6,
        Area::Color => 8,
        Area::Geom => 13,
        Area::Canvas => 160,
        Area::Paints => 10,
        Area::Shapes => 102,
        Area::Sheets | Area::Patches => 254,
        Area::Panel => 95,
        Area::Orders | Area::Other => 17 + word(bytes, 0) % 65536 / 4,
    }
}

// What of a case says which words of px a call is lent: their count, base and step.
fn lent(area: Area, case: &[u8]) -> &[u8] {
    match area {
        Area::Canvas | Area::Panel => from(case, 5),
        Area::Shapes => from(case, 30),
        _ => from(case, 3),
    }
}

// How many words of scratch a call is lent.
fn lent_scratch(area: Area, case: &[u8]) -> usize
    ensures { result ≤ 4096 }
{
    let n = match area {
        Area::Sheets | Area::Patches => word(case, 6),
        _ => 4096,
    };
    (n as usize).min(4096)
}

// Whether a shape call answers as stored: number and steps.
fn shaped(case: &[u8], px: &mut [u32], scratch: &mut [f32]) -> bool {
    let told = shape_cases::shape(case, px, scratch);
    told.number == word(case, 100) && told.steps == word(case, 101) as u64
}

// Whether a call answers as stored.
fn said(area: Area, case: &[u8], px: &mut [u32], scratch: &mut [f32]) -> bool {
    match area {
        Area::Canvas => canvas::said(case, px),
        Area::Shapes => shaped(case, px, scratch),
        Area::Panel => panels::said(case, px),
        _ => sheets::said(case, px, scratch),
    }
}

// Whether a call left px and scratch as stored. Of a step on the panel's registers nothing is stored past its 95 words: px are as
// they were.
fn left(area: Area, case: &[u8], px: &[u32], scratch: &[f32]) -> bool {
    let steps = from(lent(area, case), 1);
    match area {
        Area::Canvas => same_frame(px, steps, from(case, 85), 0),
        Area::Shapes => as_stored(px, scratch, steps, from(case, 33)),
        Area::Panel => same_frame(px, steps, from(case, 95), 0),
        _ => as_stored(px, scratch, steps, from(case, 16)),
    }
}

fn on_pixels(area: Area, case: &[u8], px: &mut [u32], scratch: &mut [f32]) -> bool {
    fill(px, from(lent(area, case), 1));
    said(area, case, px, scratch) && left(area, case, px, scratch)
}

// Whether a call on pixels does what is stored.
fn drawn(area: Area, case: &[u8]) -> bool {
    let n = (word(lent(area, case), 0) as usize).min(4096);
    let m = lent_scratch(area, case);
    let mut space = [0; 4096];
    let mut scratch = scratch();
    on_pixels(area, case, &mut space[..n], &mut scratch[..m])
}

// Whether the proved functions answer as a case says.
fn agrees(area: Area, case: &[u8]) -> bool {
    match area.agrees(case) {
        Some(same) => same,
        None => drawn(area, case),
    }
}

// Whether case i is one of function f. What is done with an order is f, and four numbers past the last are tried.
fn of_function(area: Area, case: &[u8], f: u32, i: u32) -> bool {
    match area {
        Area::Orders => f != 5 || i < 4,
        _ => f == ALL || f == word(case, 0),
    }
}

// Whether case i, which begins the bytes, agrees; None where it is another function's. A case that is not all there agrees with
// nothing.
fn judged(area: Area, bytes: &[u8], f: u32, i: u32) -> Option<bool> {
    let size = 4 * width(area, bytes);
    let case = upto(bytes, size);
    if !of_function(area, case, f, i) {
        return None;
    }
    if case.len() < size as usize {
        return Some(false);
    }
    Some(match area {
        Area::Orders => clip_orders::said(case, f, i),
        _ => agrees(area, case),
    })
}

// The cases of function f, and those of them whose answer is another than the stored one. Cases are as long as each says, so they
// are counted.
pub fn count(bytes: &[u8], area: u32, f: u32) -> Tally {
    let n = word(bytes, 0) % 65536;
    let area = Area::from(area);
    let mut tally = Tally { ran: 0, differ: 0 };
    let mut rest = from(bytes, 1);
    for i in 0..n {
        if let Some(same) = judged(area, rest, f, i) {
            tally.ran += 1;
            tally.differ += !same as u32;
        }
        rest = from(rest, width(area, rest));
    }
    tally
}
