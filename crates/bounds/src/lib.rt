// The box of a polygon.
#![tactic(auto)]

ghost use Rattle.std.specs.Prelude.{◌≡◌, true, ◌+◌, ◌*◌, ◌≤◌, ◌<◌, nat_abs, length};
ghost use Rattle.mathf.specs.Convert.{to_i32};
ghost use Rattle.mathf.specs.Whole.{floor_of, ceil_of};
ghost use Rattle.gfx.specs.Points.{coords_ok};
ghost use Rattle.bounds.specs.Bounds.{point_count, point_at, widened, extent_of, origin_of, span_of, poly_box, reach_of};
ghost use Rattle.bounds.specs.Plans.{Ranged, Near, plan_of};

use geom::{IRect, Pt, nat_of};

// The least and the greatest coordinates.
#[derive(Clone, Copy)]
pub struct Extent {
    pub minx: f32,
    pub miny: f32,
    pub maxx: f32,
    pub maxy: f32,
}

// A box by its first column and row, and by its width and height.
#[derive(Clone, Copy)]
pub struct PolyBox {
    pub ox: i32,
    pub oy: i32,
    pub bw: usize,
    pub bh: usize,
}

// What is painted: its box, and the scratch words that it needs. All zeros where nothing is painted, as `plan_of` (specs/Plans)
// has it: an Option would be no plainer, since each caller reads one of both off, and answers its zeros.
#[derive(Clone, Copy)]
pub struct Plan {
    pub g: PolyBox,
    pub need: usize,
}

pub fn point_at(pts: &[f32], i: usize) -> Pt
    requires { i * 2 + 1 < length pts.now }
    ensures { result ≡ point_at pts.now i }
{
    Pt {
        x: pts[i * 2],
        y: pts[i * 2 + 1],
    }
}

fn widen(e: Extent, p: Pt) -> Extent
    ensures { result ≡ widened e p }
{
    Extent {
        minx: mathf::min(e.minx, p.x),
        miny: mathf::min(e.miny, p.y),
        maxx: mathf::max(e.maxx, p.x),
        maxy: mathf::max(e.maxy, p.y),
    }
}

fn extent_of(pts: &[f32]) -> Extent
    ensures { result ≡ extent_of pts.now (point_count pts.now) }
{
    let mut e = Extent {
        minx: f32::MAX,
        miny: f32::MAX,
        maxx: f32::MIN,
        maxy: f32::MIN,
    };
    for p in pts.chunks_exact(2) {
        e = widen(e, Pt { x: p[0], y: p[1] });
    }
    e
}

// ox or oy.
fn origin(least: f32) -> i32
    requires { nat_abs (to_i32 (floor_of least)) ≤ 8192 }
    ensures value { result ≡ origin_of least }
    ensures near { nat_abs result ≤ 8193 }
{
    mathf::to_i32(mathf::floor(least)) - 1
}

// bw or bh.
fn span(most: f32, origin: i32) -> usize
    requires { (nat_abs (to_i32 (ceil_of most)) ≤ 8192) × (nat_abs origin ≤ 8193) }
    ensures { result ≡ span_of most origin }
{
    nat_of(mathf::to_i32(mathf::ceil(most)) + 1 - origin)
}

pub(crate) fn poly_box(pts: &[f32]) -> PolyBox
    requires { Ranged pts.now }
    ensures value { result ≡ poly_box pts.now }
    ensures near { Near result }
{
    let e = extent_of(pts);
    let ox = origin(e.minx);
    let oy = origin(e.miny);
    let bw = span(e.maxx, ox);
    let bh = span(e.maxy, oy);
    PolyBox { ox, oy, bw, bh }
}

pub fn reach_of(g: PolyBox) -> IRect
    requires { Near g }
    ensures { result ≡ reach_of g }
{
    IRect::new(g.ox, g.oy, g.ox + g.bw as i32, g.oy + g.bh as i32)
}

// The box and the need of what is painted.
#[tactic(auto, using(crate::proofs::Needs::box_cells, crate::proofs::Needs::box_words))]
pub fn plan_of(pts: &[f32]) -> Plan
    requires { (length pts.now ≤ 128) × (coords_ok pts.now ≡ true) }
    ensures { result ≡ plan_of pts.now }
{
    let zero = PolyBox {
        ox: 0,
        oy: 0,
        bw: 0,
        bh: 0,
    };
    let none = Plan { g: zero, need: 0 };
    if pts.len() / 2 < 3 {
        return none;
    }
    let g = poly_box(pts);
    let PolyBox { bw, bh, .. } = g;
    if bw * bh > 4000000 {
        return none;
    }
    let need = (bw + 2) * bh + 2;
    Plan { g, need }
}
