// Polygons: signed areas, edge by edge, in a lent accumulator, and from it the pixels.
#![tactic(auto)]

mod fill;
mod outline;
mod rows;

ghost use Rattle.std.specs.Prelude.{◌≡◌, length};
ghost use Rattle.gfx.specs.Calls.{counted_of};
ghost use Rattle.poly.specs.Poly.{poly_ok, need_in, reach_in, poly_number, Filled};

use crate::fill::fill_planned;
use bounds::{plan_of, reach_of};
use geom::IRect;
use geom::checks::{Refusal, ensure};
use gfx::{Canvas, Counted, check_points, coords_ok, points_ok};
use paints::Paint;

// Whether the calls accept such points: an even count of coordinates, of at most 64 points, each within 8,192 of 0.
#[tactic(auto, unfolding(crate::specs::Poly::poly_ok))]
fn poly_ok(pts: &[f32]) -> bool
    ensures { result ≡ poly_ok pts.now }
{
    points_ok(pts) & coords_ok(pts)
}

// The scratch words that a polygon needs: none for points that are not accepted.
pub fn poly_need(pts: &[f32]) -> usize
    ensures { result ≡ need_in pts.now }
{
    if !poly_ok(pts) {
        return 0;
    }
    plan_of(pts).need
}

// The pixels around a polygon: four zeros for points that are not accepted, or where nothing is painted.
pub fn poly_reach(pts: &[f32]) -> IRect
    ensures { result ≡ reach_in pts.now }
{
    if !poly_ok(pts) {
        return IRect::ZERO;
    }
    reach_of(plan_of(pts).g)
}

// A polygon, or the refusal: 12, 15, 8, 13, 6, then 9 for a scratch below the words that it needs.
fn try_fill_poly(
    canvas: Canvas,
    px: &mut [u32],
    pts: &[f32],
    paint: Paint,
    scratch: &mut [f32],
) -> Result<u64, Refusal>
    ensures { Filled (poly_number canvas (length px.old) pts.now paint
        (length scratch.old)) canvas px.old pts.now paint scratch.old (counted_of canvas result)
        px.new scratch.new }
{
    check_points(canvas, px.len(), pts, paint.in_range())?;
    let plan = plan_of(pts);
    ensure(plan.need <= scratch.len(), Refusal::Scratch)?;
    Ok(fill_planned(px, scratch, canvas.pitch, canvas.clip, pts, plan, paint) as u64)
}

// Fills a polygon, whose points are coordinates x y x y, with a paint. The scratch words that it needs are left +0.
pub fn fill_poly(
    canvas: Canvas,
    px: &mut [u32],
    pts: &[f32],
    paint: Paint,
    scratch: &mut [f32],
) -> Counted
    ensures { Filled (poly_number canvas (length px.old) pts.now paint
        (length scratch.old)) canvas px.old pts.now paint scratch.old result
        px.new scratch.new }
{
    Counted::of(canvas, try_fill_poly(canvas, px, pts, paint, scratch))
}
