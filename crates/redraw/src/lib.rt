// The types that the definitions of specs/ speak of. There is no code here: the definitions and theorems are over any kind of
// shape and any reading of a sheet.
#![tactic(auto)]

use geom::IRect;

// What a sheet call returns: number, item and box. C is given it, and no Result, as it is the two that follow.
#[repr(C)]
#[derive(Clone, Copy, PartialEq, Eq)]
pub struct Answer {
    pub number: u32,
    pub item: u32,
    pub area: IRect,
}

// The same, with the count of shape steps that altered a pixel's value, and of pixels whose value the ground altered.
#[repr(C)]
#[derive(Clone, Copy, PartialEq, Eq)]
pub struct Reply {
    pub answer: Answer,
    pub steps: u64,
    pub grounded: u64,
}

// What a sheet takes: the scratch words that it needs, the most clips that it has saved at once, and the pixels in reach and clip
// together, summed over its shapes; refused, number and item, and three zeros.
#[repr(C)]
#[derive(Clone, Copy)]
pub struct Room {
    pub number: u32,
    pub item: u32,
    pub words: usize,
    pub saved: usize,
    pub pixels: u64,
}
