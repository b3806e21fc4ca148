// The sheet: numbers in its bytes, and its check.
#![tactic(auto)]

pub mod bytes;
pub mod check;
mod kinds;

pub use crate::bytes::{byte_at, f32_at, u16_at};
pub use crate::check::{Fault, check_sheet};
pub use crate::kinds::{Kind, PaintKind, kind_at, paint_kind_at};
