// Sheet calls: a case has the call's kind, what is lent, what the call must answer and leave, and the bytes of the old and the
// new sheet.
use crate::lent::scratch;
use cases::irect;
use cases::word::{from, upto, word};
use paint::paint;
use patch::patch;
use redraw::{Answer, Reply};

// The old sheet of a patch.
fn old_sheet(case: &[u8]) -> &[u8] {
    upto(from(case, 83), word(case, 1))
}

// How many words n bytes fill.
fn words(n: u32) -> u32 {
    n.div_ceil(4)
}

// The sheet that is painted, or the new one of a patch: it stands after the old one.
fn new_sheet(case: &[u8]) -> &[u8] {
    let sheets = from(case, 83);
    upto(from(sheets, words(word(case, 1))), word(case, 2))
}

// Whether a reply is as stored: number, item, box, and both counts.
fn same_reply(r: Reply, words: &[u8]) -> bool {
    let answer = Answer {
        number: word(words, 0),
        item: word(words, 1),
        area: irect(from(words, 2)),
    };
    r == Reply {
        answer,
        steps: word(words, 6) as u64,
        grounded: word(words, 7) as u64,
    }
}

fn painted(case: &[u8], px: &mut [u32], scratch: &mut [f32]) -> bool {
    let pitch = word(case, 7) as usize;
    same_reply(paint(new_sheet(case), pitch, px, scratch), from(case, 8))
}

fn patched(case: &[u8], px: &mut [u32], scratch: &mut [f32]) -> bool {
    let pitch = word(case, 7) as usize;
    same_reply(
        patch(old_sheet(case), new_sheet(case), pitch, px, scratch),
        from(case, 8),
    )
}

// Paints the old sheet, at the pitch of the rows that are left, with scratch of its own.
fn paint_old(case: &[u8], px: &mut [u32]) {
    let pitch = word(case, 17) as usize;
    let mut scratch = scratch();
    paint(old_sheet(case), pitch, px, &mut scratch);
}

// Whether the call of a case answers as stored.
pub(crate) fn said(case: &[u8], px: &mut [u32], scratch: &mut [f32]) -> bool {
    match word(case, 0) {
        1 => painted(case, px, scratch),
        2 => patched(case, px, scratch),
        _ => {
            paint_old(case, px);
            patched(case, px, scratch)
        }
    }
}
