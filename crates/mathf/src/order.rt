// Choosing between floats and blending them: one f32 operation after another, in the order written.
ghost use Rattle.std.specs.Prelude.{◌≡◌};
ghost use Rattle.mathf.specs.Order.{min_of, max_of, fabs_of, clamp_of, saturate_of};
ghost use Rattle.mathf.specs.Lerp.{lerp_of, smoothstep_of};

// The smaller; the other where one is a NaN; the first of two zeros.
pub fn min(a: f32, b: f32) -> f32
    ensures { result ≡ min_of a b }
{
    if b < a {
        b
    } else if a != a {
        b
    } else {
        a
    }
}

// The larger; the other where one is a NaN; the first of two zeros.
pub fn max(a: f32, b: f32) -> f32
    ensures { result ≡ max_of a b }
{
    if a < b {
        b
    } else if a != a {
        b
    } else {
        a
    }
}

pub fn fabs(x: f32) -> f32
    ensures { result ≡ fabs_of x }
{
    if x < 0.0 { -x } else { x }
}

pub fn clamp(x: f32, lo: f32, hi: f32) -> f32
    ensures { result ≡ clamp_of x lo hi }
{
    if x < lo {
        lo
    } else if x > hi {
        hi
    } else {
        x
    }
}

pub fn saturate(x: f32) -> f32
    ensures { result ≡ saturate_of x }
{
    clamp(x, 0.0, 1.0)
}

pub fn lerp(a: f32, b: f32, t: f32) -> f32
    ensures { result ≡ lerp_of a b t }
{
    a + (b - a) * t
}

pub fn smoothstep(e0: f32, e1: f32, x: f32) -> f32
    ensures { result ≡ smoothstep_of e0 e1 x }
{
    let t = saturate((x - e0) / (e1 - e0));
    t * t * (3.0 - 2.0 * t)
}
