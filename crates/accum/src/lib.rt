// Signed areas of a polygon's edges, row by row, in a lent accumulator.
#![tactic(auto)]

mod accum;
pub mod edge;

pub use crate::edge::accum_line;
