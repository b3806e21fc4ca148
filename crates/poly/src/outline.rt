// The edges of a polygon in the accumulator.
ghost use Rattle.std.specs.Prelude.{◌≡◌, ◌+◌, ◌*◌, ◌≤◌, ◌<◌, length};
ghost use Rattle.accum.specs.Lines.{line_accum};
ghost use Rattle.accum.specs.Rooms.{Room};
ghost use Rattle.bounds.specs.Bounds.{point_count, need_of};
ghost use Rattle.bounds.specs.Plans.{Near};
ghost use Rattle.poly.specs.Poly.{point_from, edges_accum, accumulated};

use accum::accum_line;
use bounds::{PolyBox, point_at};
use geom::Pt;

// Point i from the box's corner.
fn point_from(pts: &[f32], g: PolyBox, i: usize) -> Pt
    requires { (i * 2 + 1 < length pts.now) × Near g }
    ensures { result ≡ point_from pts.now g i }
{
    let p = point_at(pts, i);
    Pt::new(p.x - g.ox as f32, p.y - g.oy as f32)
}

// The edge from point i to point j.
fn edge_between(acc: &mut [f32], pts: &[f32], g: PolyBox, i: usize, j: usize)
    requires near { Near g × Room g.bw g.bh (length acc.old) }
    requires i_in_bounds { (i * 2 + 1 < length pts.now) × (j * 2 + 1 < length pts.now) }
    ensures { acc.new ≡ line_accum acc.old g.bw g.bh (point_from pts.now g i)
        (point_from pts.now g j) }
{
    let p0 = point_from(pts, g, i);
    let p1 = point_from(pts, g, j);
    accum_line(acc, g.bw, g.bh, p0, p1);
}

// Every edge: from point i to the next, and from the last to point 0. An edge reads two points, so the loop counts them.
fn edges(acc: &mut [f32], pts: &[f32], g: PolyBox)
    requires { Near g × Room g.bw g.bh (length acc.old) × (length pts.now ≤ 128) }
    ensures { acc.new ≡ edges_accum acc.old pts.now g (point_count pts.now) }
{
    let n = pts.len() / 2;
    for i in 0..n {
        edge_between(acc, pts, g, i, (i + 1) % n);
    }
}

// The polygon in the accumulator, whatever it held before.
pub(crate) fn accumulate(acc: &mut [f32], pts: &[f32], g: PolyBox)
    requires { Near g × (length acc.old ≡ need_of g) × (length pts.now ≤ 128) }
    ensures { acc.new ≡ accumulated pts.now g }
{
    acc.fill(0.0);
    edges(acc, pts, g);
}
