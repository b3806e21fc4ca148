// The canvas's small layer of f32 functions. Each contract names a definition over the logic's account
// of IEEE 754 (Rattle.std.specs.Float.Ieee), where a float is `nan`, an infinity or a signed number `fin s m e`.
#![tactic(auto)]

pub mod convert;
pub mod order;
pub mod root;
pub mod whole;

pub use crate::convert::{to_i32, to_u8, to_u32, to_usize};
pub use crate::order::{clamp, fabs, lerp, max, min, saturate, smoothstep};
pub use crate::root::sqrt;
pub use crate::whole::{ceil, ceil_i, floor, floor_i};
