// Small clip orders: the call with a buffer of which every byte is known, and what it must answer and leave.
// The file holds the number of sheets; each sheet then has its length in bytes, its 16 pixels and its bytes, which are whole
// words.
use crate::lent::same_words;
use cases::word::{from, upto, word};
use geom::IRect;
use orders::clip_order;
use paint::paint;

// The bytes of a buffer: more than any sheet has.
const ROOM: usize = 360;

// The byte at place i of a buffer before the call.
fn mark(i: usize) -> u8 {
    (65 + i % 61) as u8
}

// A buffer before the call.
fn marked() -> [u8; ROOM] {
    let mut out = [0; ROOM];
    for (i, x) in out.iter_mut().enumerate() {
        *x = mark(i);
    }
    out
}

// Whether a buffer is a sheet, and past it what it was before.
fn holds(buf: &[u8], before: &[u8], sheet: &[u8]) -> bool {
    let n = sheet.len().min(buf.len());
    match before.get(n..) {
        Some(rest) => buf[..n] == sheet[..n] && buf[n..] == rest[..],
        None => false,
    }
}

fn leaves_in(
    buf: &mut [u8],
    before: &[u8],
    lent: usize,
    k: usize,
    number: u32,
    sheet: &[u8],
) -> bool {
    let n = lent.min(buf.len());
    let w = clip_order(k, &mut buf[..n]);
    let said = w.number == number && w.item == 0 && w.len == sheet.len();
    said && holds(buf, before, sheet)
}

// Whether the call, lent so many bytes of a buffer, answers with a number and leaves a sheet in it; an empty one where it
// refuses.
fn leaves(lent: usize, k: usize, number: u32, sheet: &[u8]) -> bool {
    let before = marked();
    let mut buf = before;
    leaves_in(&mut buf, &before, lent, k, number, sheet)
}

// Whether a sheet paints the stored pixels, over a colour that no sheet here has, with no scratch; it is accepted, with the whole
// canvas as its box.
fn paints(sheet: &[u8], case: &[u8]) -> bool {
    let mut px = [0x1234_5678; 16];
    let mut scratch = [0.0; 0];
    let a = paint(sheet, 4, &mut px, &mut scratch).answer;
    let whole = a.area == IRect::new(0, 0, 4, 4);
    a.number == 0 && a.item == 0 && whole && same_words(&px, from(case, 1))
}

// Four numbers past the last.
fn past(k: usize) -> usize {
    match k {
        0 => 1093,
        1 => 1094,
        2 => 4294967301,
        _ => 18446744073709551615,
    }
}

// Whether sheet i is as stored. The kinds: 2, written into a buffer of just its length; 3, refused in one of a byte less, where a
// byte less than none is a whole buffer; 4, written and painted; 5, the i-th number past the last, refused in a whole buffer and
// in none; any other, written into a whole buffer. A sheet of another length than its words say agrees with nothing.
pub(crate) fn said(case: &[u8], kind: u32, i: u32) -> bool {
    let k = i as usize;
    let len = word(case, 0);
    let sheet = upto(from(case, 17), len);
    if sheet.len() != len as usize {
        return false;
    }
    match kind {
        2 => leaves(sheet.len(), k, 0, sheet),
        3 => leaves(sheet.len().wrapping_sub(1), k, 19, b""),
        4 => leaves(ROOM, k, 0, sheet) && paints(sheet, case),
        5 => leaves(ROOM, past(k), 23, b"") && leaves(0, past(k), 23, b""),
        _ => leaves(ROOM, k, 0, sheet),
    }
}
