// Steps on the panel's registers: a case has the step, a box, the count of the words of px with their base and step, the state
// (72 words), the byte written and the panel, then the number, the pixel and the panel left. A panel has six words: eight bytes,
// and the held box.
use cases::canvas::state;
use cases::irect;
use cases::word::{from, word};
use panel::Panel;
use sheet::byte_at;

// The first eight bytes; zeros past the end.
fn registers(bytes: &[u8]) -> [u8; 8] {
    std::array::from_fn(|i| byte_at(bytes, i))
}

// The panel that a step is given.
fn given(case: &[u8]) -> Panel {
    let regs = registers(from(case, 81));
    let held = irect(from(case, 83));
    Panel { regs, held }
}

// The byte that a step writes.
fn written(case: &[u8]) -> u8 {
    byte_at(from(case, 80), 0)
}

// Whether a step answered as stored: number, pixel, every byte of the registers, and the held box.
fn same(number: u32, value: u32, left: Panel, case: &[u8]) -> bool {
    let told = number == word(case, 87) && value == word(case, 88);
    let regs = registers(from(case, 89));
    let held = irect(from(case, 91));
    told && left == Panel { regs, held }
}

fn commanded(case: &[u8], px: &[u32]) -> bool {
    let area = irect(from(case, 1));
    let s = given(case).write_command(state(from(case, 8)), px, written(case), area);
    same(s.number, 0, s.panel, case)
}

fn flagged(case: &[u8], px: &[u32]) -> bool {
    let s = given(case).write_flags(state(from(case, 8)), px, written(case));
    same(s.number, 0, s.panel, case)
}

fn taken(case: &[u8], px: &[u32]) -> bool {
    let t = given(case).take(state(from(case, 8)), px);
    same(t.number, t.value, t.panel, case)
}

// Whether the step of a case answers as stored. The fresh panel, 4, is given nothing.
pub(crate) fn said(case: &[u8], px: &[u32]) -> bool {
    match word(case, 0) {
        1 => commanded(case, px),
        2 => flagged(case, px),
        3 => taken(case, px),
        _ => same(0, 0, Panel::fresh(), case),
    }
}
