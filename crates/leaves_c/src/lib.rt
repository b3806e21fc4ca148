// The static library of the oracle, libleaves.a: each call of the crate leaves under its own name, with its clauses.
#![tactic(auto)]

ghost use Rattle.std.specs.Prelude.{◌≡◌, map};
ghost use Rattle.mathf.specs.Convert.{to_u8, to_u32, to_usize, to_i32};
ghost use Rattle.mathf.specs.Root.{sqrt_of};
ghost use Rattle.mathf.specs.Whole.{floor_of, ceil_of};
ghost use Rattle.color.specs.Inks.{blended};
ghost use Rattle.slices.specs.Each.{each};

use shape_cases::Told;

#[unsafe(no_mangle)]
pub extern "C" fn leaves_sqrt(xs: &mut [f32])
    ensures { xs.new ≡ map sqrt_of xs.old }
{
    leaves::leaves_sqrt(xs)
}

#[unsafe(no_mangle)]
pub extern "C" fn leaves_floor(xs: &mut [f32])
    ensures { xs.new ≡ map floor_of xs.old }
{
    leaves::leaves_floor(xs)
}

#[unsafe(no_mangle)]
pub extern "C" fn leaves_ceil(xs: &mut [f32])
    ensures { xs.new ≡ map ceil_of xs.old }
{
    leaves::leaves_ceil(xs)
}

#[unsafe(no_mangle)]
pub extern "C" fn leaves_to_u8(xs: &[f32], out: &mut [u8])
    ensures { out.new ≡ each to_u8 xs.now out.old }
{
    leaves::leaves_to_u8(xs, out)
}

#[unsafe(no_mangle)]
pub extern "C" fn leaves_to_u32(xs: &[f32], out: &mut [u32])
    ensures { out.new ≡ each to_u32 xs.now out.old }
{
    leaves::leaves_to_u32(xs, out)
}

#[unsafe(no_mangle)]
pub extern "C" fn leaves_to_usize(xs: &[f32], out: &mut [usize])
    ensures { out.new ≡ each to_usize xs.now out.old }
{
    leaves::leaves_to_usize(xs, out)
}

#[unsafe(no_mangle)]
pub extern "C" fn leaves_to_i32(xs: &[f32], out: &mut [i32])
    ensures { out.new ≡ each to_i32 xs.now out.old }
{
    leaves::leaves_to_i32(xs, out)
}

#[unsafe(no_mangle)]
pub extern "C" fn leaves_blend(px: &mut [u32], r: u8, g: u8, b: u8, a: u8)
    ensures { px.new ≡ map (λ p. blended p r g b a) px.old }
{
    leaves::leaves_blend(px, r, g, b, a)
}

#[unsafe(no_mangle)]
pub extern "C" fn leaves_differing(bytes: &[u8], area: u32) -> u32 {
    leaves::leaves_differing(bytes, area)
}

#[unsafe(no_mangle)]
pub extern "C" fn leaves_shape(bytes: &[u8], px: &mut [u32], scratch: &mut [f32]) -> Told {
    leaves::leaves_shape(bytes, px, scratch)
}
