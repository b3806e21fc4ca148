// Stored answers of the oracle for the leaf functions and the canvas calls: reading a case, and whether the proved functions
// answer as it says. A file holds words of 32 bits. The first is the number of cases; each case then has its function's number,
// from 1, its inputs and the Rust's answer, in as many words as its area's cases have. A function goes by its number in the code
// too: one match says which it is, and a name would be read nowhere else.
#![tactic(auto)]

mod answer;
mod boxes;
pub mod canvas;
mod samples;
pub mod word;

ghost use Rattle.cases.specs.Areas.{IsArea};

pub use crate::answer::color_of;
pub use crate::boxes::{irect, rect};
pub use crate::samples::{paint, point};

// What the cases of a file are of. A number that no area has stands for other cases: they are as long as those of orders, and read
// as sheets to be painted or patched.
#[derive(Clone, Copy)]
pub enum Area {
    Mathf,
    Color,
    Geom,
    Canvas,
    Paints,
    Shapes,
    Sheets,
    Patches,
    Orders,
    Panel,
    Other,
}

// The area with a number.
impl From<u32> for Area {
    ghost from_gives = { IsArea };

    fn from(number: u32) -> Area {
        match number {
            0 => Area::Mathf,
            1 => Area::Color,
            2 => Area::Geom,
            3 => Area::Canvas,
            4 => Area::Paints,
            5 => Area::Shapes,
            6 => Area::Sheets,
            7 => Area::Patches,
            8 => Area::Orders,
            9 => Area::Panel,
            _ => Area::Other,
        }
    }
}

impl Area {
    // Whether a case has the answer of the proved functions, for the areas whose functions take no pixels.
    pub fn agrees(self, case: &[u8]) -> Option<bool> {
        match self {
            Area::Mathf => Some(answer::mathf(case)),
            Area::Color => Some(answer::color(case)),
            Area::Geom => Some(boxes::agrees(case)),
            Area::Paints => Some(samples::agrees(case)),
            _ => None,
        }
    }
}

// Whether a case has the answer of the proved functions, its area given by the number: mathf, color, geom; of any other number the
// case is one of paints.
pub fn agrees(area: u32, case: &[u8]) -> bool {
    match Area::from(area).agrees(case) {
        Some(same) => same,
        None => samples::agrees(case),
    }
}
