// A sheet of chosen items of another sheet, written into a lent buffer. They are chosen by their numbers, counted from 0.
#![tactic(auto)]

ghost use Rattle.std.specs.Prelude.{length};
ghost use Rattle.encode.specs.Encode.{fit_number, Wrote};
ghost use Rattle.chosen.specs.Chosen.{Small, chosen_sheet};

use encode::{Written, write_sheet};
use items::reader::item_bytes;

// Writes the sheet that the items of some numbers make, or 19: bytes 0 to 7 of its header are those of the other sheet.
pub fn write_chosen(buf: &mut [u8], s: &[u8], numbers: &[u16]) -> Written
    requires { Small s.now numbers.now }
    ensures { Wrote (fit_number (chosen_sheet s.now numbers.now) (length buf.old)) 0
        (chosen_sheet s.now numbers.now) buf.old result buf.new }
{
    write_sheet(buf, &s[..8], numbers, |k| item_bytes(s, k))
}
