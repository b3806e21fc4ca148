// A sheet without its dead shapes, written into a lent buffer: shapes that have nothing in view under their clip are dropped.
// Neither pixels nor scratch are lent.
#![tactic(auto)]

ghost use Rattle.std.specs.Prelude.{◌≡◌, ◌≤◌, not, length, take};
ghost use Rattle.geom.specs.Box.{meet, empty};
ghost use Rattle.sheet.specs.Check.{verdict, sheet_check};
ghost use Rattle.encode.specs.Encode.{Wrote};
ghost use Rattle.items.specs.Items.{item_of};
ghost use Rattle.items.specs.Format.{reach_of};
ghost use Rattle.chosen.specs.Chosen.{chosen};
ghost use Rattle.compact.specs.Compact.{kept_in, compacted, compact_number};

use chosen::write_chosen;
use clips::{is_shape, start_state, state_after};
use encode::{Written, refused};
use geom::IRect;
use items::reaches::reach_of;
use items::reader::Items;
use sheet::check_sheet;

// Whether something of a shape's reach lies in a clip.
fn in_view(b: &[u8], clip: IRect) -> bool
    ensures { result ≡ not (empty (meet clip (reach_of b.now (item_of b.now)))) }
{
    !clip.intersect(reach_of(b)).is_empty()
}

// The numbers of the items that stay, put into the first of the places lent; how many there are is returned. A place is filled
// for each item, and counts where the item stays.
fn keep(s: &[u8], kept: &mut [u16]) -> usize
    requires { (sheet_check s.now ≡ verdict 0 0) × (length kept.old ≡ 1024) }
    ensures { (chosen s.now (take result kept.new) ≡ kept_in s.now) × (result ≤ 1024) }
{
    let mut canvas = start_state(s);
    let mut count = 0;
    for (k, b) in Items::of(s).enumerate() {
        kept[count] = k as u16;
        if is_shape(b) {
            let clip = canvas.clip;
            count += in_view(b, clip) as usize;
            continue;
        }
        canvas = state_after(b, canvas);
        count += 1;
    }
    count
}

// Writes a sheet without its dead shapes: number and item of its own checks, then 19 for a buffer in which the result does not
// fit.
pub fn compact(sheet: &[u8], buf: &mut [u8]) -> Written
    ensures { Wrote (compact_number sheet.now (length buf.old))
        (sheet_check sheet.now).item (compacted sheet.now) buf.old result buf.new }
{
    if let Err(fault) = check_sheet(sheet) {
        return refused(fault.refusal.into(), fault.item);
    }
    let mut kept = [0; 1024];
    let count = keep(sheet, &mut kept);
    write_chosen(buf, sheet, &kept[..count])
}
