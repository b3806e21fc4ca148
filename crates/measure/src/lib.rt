// What a sheet takes, told before it is painted: scratch words, saved clips, pixels. It is lent neither pixels nor scratch.
#![tactic(auto)]

ghost use Rattle.std.specs.Prelude.{◌≡◌, ◌≤◌};
ghost use Rattle.items.specs.Items.{item_of};
ghost use Rattle.items.specs.Format.{reach_of, need_of, format};
ghost use Rattle.redraw.specs.Measure.{measuring};
ghost use Rattle.measure.specs.Walked.{Read, Small, cells_of, Walked};

use clips::{is_shape, start_state, state_after};
use draw::{Area, clipped};
use items::reaches::{need, reach_of};
use items::reader::Items;
use redraw::Room;
use sheet::check_sheet;

// What the items of a sheet take: scratch words, the most clips saved at once, and the pixels in reach and clip together.
#[derive(Clone, Copy)]
struct Tally {
    words: usize,
    most: usize,
    pixels: u64,
}

// The pixels of an area within a canvas.
fn cells(a: Area) -> u64
    requires { Small a }
    ensures { (result ≡ cells_of a) × (result ≤ 4194304) }
{
    let w = a.x1 - a.x0;
    let h = a.y1 - a.y0;
    (w * h) as u64
}

// The items of an accepted sheet, one after the other.
fn walk(s: &[u8]) -> Tally
    requires { Read s.now }
    ensures { Walked s.now result.words result.most result.pixels }
{
    let mut canvas = start_state(s);
    let mut words = 0;
    let mut most = 0;
    let mut pixels: u64 = 0;
    for b in Items::of(s) {
        if is_shape(b) {
            words = words.max(need(b));
            let area = reach_of(b);
            let clip = canvas.clip;
            pixels += cells(clipped(area, clip));
            continue;
        }
        canvas = state_after(b, canvas);
        most = most.max(canvas.depth);
    }
    Tally {
        words,
        most,
        pixels,
    }
}

// The room that painting a sheet takes.
pub fn measure(sheet: &[u8]) -> Room
    ensures { result ≡ measuring format sheet.now }
{
    match check_sheet(sheet) {
        Ok(()) => {
            let tally = walk(sheet);
            Room {
                number: 0,
                item: 0,
                words: tally.words,
                saved: tally.most,
                pixels: tally.pixels,
            }
        }
        Err(fault) => Room {
            number: fault.refusal.into(),
            item: fault.item,
            words: 0,
            saved: 0,
            pixels: 0,
        },
    }
}
