// A polygon in the pixels, by a lent scratch.
ghost use Rattle.std.specs.Prelude.{◌≡◌, true, ◌≤◌, length, replicate};
ghost use Rattle.mathf.specs.F32.{f0};
ghost use Rattle.draw.specs.Areas.{clip_to, AreaFits, DrewIn};
ghost use Rattle.gfx.specs.Points.{coords_ok};
ghost use Rattle.bounds.specs.Bounds.{reach_of, need_of};
ghost use Rattle.bounds.specs.Plans.{Near, plan_of};
ghost use Rattle.poly.specs.Poly.{poly_reach, poly_need, accumulated, ink_in, poly_ink, cleared};

use crate::outline::accumulate;
use crate::rows::draw_box;
use bounds::{Plan, PolyBox};
use geom::IRect;
use paints::Paint;

// The polygon under a clip, by its box. The accumulator is exactly as long as it needs to be, and is left +0.
fn fill_part(
    px: &mut [u32],
    acc: &mut [f32],
    pitch: usize,
    clip: IRect,
    pts: &[f32],
    g: PolyBox,
    paint: Paint,
) -> u32
    requires area_fits { AreaFits pitch (clip_to (reach_of g) clip) (length px.old) }
    requires near { Near g × (length acc.old ≡ need_of g) × (length pts.now ≤ 128) }
    ensures drew_in { DrewIn pitch (clip_to (reach_of g) clip) (ink_in (accumulated pts.now g) g paint) px.old result
        px.new }
    ensures acc_after { acc.new ≡ replicate (need_of g) f0 }
{
    accumulate(acc, pts, g);
    let n = draw_box(px, acc, pitch, clip, g, paint);
    acc.fill(0.0);
    n
}

// The same by its plan, on a scratch that has the words of it; later words stay as they came. Where nothing is painted, none is
// touched.
pub(crate) fn fill_planned(
    px: &mut [u32],
    scratch: &mut [f32],
    pitch: usize,
    clip: IRect,
    pts: &[f32],
    plan: Plan,
    paint: Paint,
) -> u32
    requires area_fits { AreaFits pitch (clip_to (poly_reach pts.now) clip) (length px.old) }
    requires pts_len_bound { (length pts.now ≤ 128) × (coords_ok pts.now ≡ true) }
    requires planned { (plan ≡ plan_of pts.now) × (plan.need ≤ length scratch.old) }
    ensures drew { DrewIn pitch (clip_to (poly_reach pts.now) clip) (poly_ink pts.now paint) px.old result px.new }
    ensures scratch_after { scratch.new ≡ cleared (poly_need pts.now) scratch.old }
{
    if plan.need == 0 {
        return 0;
    }
    fill_part(
        px,
        &mut scratch[..plan.need],
        pitch,
        clip,
        pts,
        plan.g,
        paint,
    )
}
