// The proved functions as the oracle calls them, for the comparison at scale and for speed: the leaf functions over whole slices,
// stored cases, shapes. Whether the calls on pixels answer and leave what a stored case says, and counting the cases of every
// area. A call goes by its number, as in the files (cases).
#![tactic(auto)]

mod clip_orders;
mod counting;
mod lent;
mod panels;
mod sheets;

ghost use Rattle.std.specs.Prelude.{◌≡◌, map};
ghost use Rattle.mathf.specs.Convert.{to_u8, to_u32, to_usize, to_i32};
ghost use Rattle.mathf.specs.Root.{sqrt_of};
ghost use Rattle.mathf.specs.Whole.{floor_of, ceil_of};
ghost use Rattle.color.specs.Inks.{blended};
ghost use Rattle.slices.specs.Each.{each};

pub use crate::counting::{ALL, Tally, count};
use shape_cases::{Told, shape};

#[unsafe(no_mangle)]
pub extern "C" fn leaves_sqrt(xs: &mut [f32])
    ensures { xs.new ≡ map sqrt_of xs.old }
{
    slices::sqrt(xs)
}

#[unsafe(no_mangle)]
pub extern "C" fn leaves_floor(xs: &mut [f32])
    ensures { xs.new ≡ map floor_of xs.old }
{
    slices::floor(xs)
}

#[unsafe(no_mangle)]
pub extern "C" fn leaves_ceil(xs: &mut [f32])
    ensures { xs.new ≡ map ceil_of xs.old }
{
    slices::ceil(xs)
}

#[unsafe(no_mangle)]
pub extern "C" fn leaves_to_u8(xs: &[f32], out: &mut [u8])
    ensures { out.new ≡ each to_u8 xs.now out.old }
{
    slices::to_u8(xs, out)
}

#[unsafe(no_mangle)]
pub extern "C" fn leaves_to_u32(xs: &[f32], out: &mut [u32])
    ensures { out.new ≡ each to_u32 xs.now out.old }
{
    slices::to_u32(xs, out)
}

#[unsafe(no_mangle)]
pub extern "C" fn leaves_to_usize(xs: &[f32], out: &mut [usize])
    ensures { out.new ≡ each to_usize xs.now out.old }
{
    slices::to_usize(xs, out)
}

#[unsafe(no_mangle)]
pub extern "C" fn leaves_to_i32(xs: &[f32], out: &mut [i32])
    ensures { out.new ≡ each to_i32 xs.now out.old }
{
    slices::to_i32(xs, out)
}

// The colour's inks over a slice, at its own alpha.
#[unsafe(no_mangle)]
pub extern "C" fn leaves_blend(px: &mut [u32], r: u8, g: u8, b: u8, a: u8)
    ensures { px.new ≡ map (λ p. blended p r g b a) px.old }
{
    slices::blend(px, r, g, b, a)
}

// How many of the cases of an area differ, in the form in which they are stored.
#[unsafe(no_mangle)]
pub extern "C" fn leaves_differing(bytes: &[u8], area: u32) -> u32 {
    count(bytes, area, ALL).differ
}

// Draws the shape of a case's words.
#[unsafe(no_mangle)]
pub extern "C" fn leaves_shape(bytes: &[u8], px: &mut [u32], scratch: &mut [f32]) -> Told {
    shape(bytes, px, scratch)
}
