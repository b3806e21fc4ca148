// The leaf functions over whole slices.
#![tactic(auto)]

ghost use Rattle.std.specs.Prelude.{◌≡◌, map};
ghost use Rattle.mathf.specs.Convert.{to_u8, to_u32, to_usize, to_i32};
ghost use Rattle.mathf.specs.Root.{sqrt_of};
ghost use Rattle.mathf.specs.Whole.{floor_of, ceil_of};
ghost use Rattle.color.specs.Inks.{blended};
ghost use Rattle.slices.specs.Each.{each};

// Each element becomes what f makes of it.
fn turn<T: Copy + Drop, F: Fn(T) -> T>(xs: &mut [T], f: F)
    requires { F.IsAlwaysCallable f }
    ensures { (g : T → T) → ((x y : T) → F.post f x y → y ≡ g x) → xs.new ≡ map g xs.old }
{
    for x in xs.iter_mut() {
        *x = f(*x);
    }
}

// What f makes of each element, where out is as long; else out as it came.
fn convert<T: Drop, F: Fn(f32) -> T>(xs: &[f32], out: &mut [T], f: F)
    requires { F.IsAlwaysCallable f }
    ensures { (g : _ → T) → ((x : _) (y : T) → F.post f x y → y ≡ g x) → out.new ≡ each g xs.now out.old }
{
    if xs.len() == out.len() {
        // A zip with `iter_mut` would leave the proof nothing of what is written.
        for (i, y) in out.iter_mut().enumerate() {
            *y = f(xs[i]);
        }
    }
}

pub fn sqrt(xs: &mut [f32])
    ensures { xs.new ≡ map sqrt_of xs.old }
{
    turn(xs, mathf::sqrt);
}

pub fn floor(xs: &mut [f32])
    ensures { xs.new ≡ map floor_of xs.old }
{
    turn(xs, mathf::floor);
}

pub fn ceil(xs: &mut [f32])
    ensures { xs.new ≡ map ceil_of xs.old }
{
    turn(xs, mathf::ceil);
}

pub fn to_u8(xs: &[f32], out: &mut [u8])
    ensures { out.new ≡ each to_u8 xs.now out.old }
{
    convert(xs, out, mathf::to_u8);
}

pub fn to_u32(xs: &[f32], out: &mut [u32])
    ensures { out.new ≡ each to_u32 xs.now out.old }
{
    convert(xs, out, mathf::to_u32);
}

pub fn to_usize(xs: &[f32], out: &mut [usize])
    ensures { out.new ≡ each to_usize xs.now out.old }
{
    convert(xs, out, mathf::to_usize);
}

pub fn to_i32(xs: &[f32], out: &mut [i32])
    ensures { out.new ≡ each to_i32 xs.now out.old }
{
    convert(xs, out, mathf::to_i32);
}

// The colour's inks over a slice, at its own alpha.
pub fn blend(px: &mut [u32], r: u8, g: u8, b: u8, a: u8)
    ensures { px.new ≡ map (λ p. blended p r g b a) px.old }
{
    let c = color::Color { r, g, b, a };
    let alpha = a as u32;
    turn(px, |p| color::over(p, c, alpha).value);
}
