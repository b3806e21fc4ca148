// The points of a call: a slice of coordinates x y x y.
ghost use Rattle.std.specs.Prelude.{◌≡◌};
ghost use Rattle.geom.specs.Refusals.{number_of};
ghost use Rattle.gfx.specs.Points.{points_ok, coords_ok, points_number};

use crate::Canvas;
use geom::checks::{Refusal, ensure};
use geom::float_ok;

// An even count of coordinates, of at most 64 points: refusal 13 is given for any other.
pub fn points_ok(pts: &[f32]) -> bool
    ensures { result ≡ points_ok pts.now }
{
    let n = pts.len();
    (n % 2 == 0) & (n <= 128)
}

// Whether every coordinate is finite and within 8,192 of 0.
pub fn coords_ok(pts: &[f32]) -> bool
    ensures { result ≡ coords_ok pts.now }
{
    pts.iter().all(|x| float_ok(*x))
}

// A shape call with points, by whether the other floats given are finite and within 8,192 of 0: refused with 12, 15, 8, 13, then
// 6.
#[tactic(auto, unfolding(crate::specs::Points::points_number))]
pub fn check_points(canvas: Canvas, n: usize, pts: &[f32], others: bool) -> Result<(), Refusal>
    ensures { number_of result ≡ points_number canvas n pts.now others }
{
    canvas.check_px(n)?;
    ensure(points_ok(pts), Refusal::Points)?;
    ensure(coords_ok(pts) & others, Refusal::Float)
}
