// One edge of a polygon, row by row: the Rust's `accum_line`.
ghost use Rattle.std.specs.Prelude.{◌≡◌, cond, ◌+◌, ◌-◌, ◌*◌, ◌≤◌, length};
ghost use Rattle.mathf.specs.F32.{◌<ᶠ◌};
ghost use Rattle.accum.specs.Lines.{row_between, row_height, row_next, edge_row, edge_rows, start_x, edge_down, edge_of, first_row};
ghost use Rattle.accum.specs.Lines.{end_row, line_accum};
ghost use Rattle.accum.specs.Rooms.{Room};

use crate::accum::{f32_of, row_accum};
use geom::Pt;

// An edge that runs down from top to bottom, with x where its first row begins. dir is -1 where it ran up.
#[derive(Clone, Copy)]
pub struct Edge {
    pub x: f32,
    pub top: f32,
    pub bottom: f32,
    pub dxdy: f32,
    pub dir: f32,
}

// Two floats, exchanged where the first is not below the second.
fn ordered(x: f32, y: f32) -> (f32, f32)
    ensures { (result.0 ≡ cond (x <ᶠ y) x y) × (result.1 ≡ cond (x <ᶠ y) y x) }
{
    if x < y { (x, y) } else { (y, x) }
}

// Row y, which an edge enters at x and leaves at xnext.
fn row_between(a: &mut [f32], bw: usize, y: usize, x: f32, xnext: f32, d: f32)
    requires { (bw ≤ 16386) × (y * (bw + 2) + (bw + 2) ≤ length a.old) }
    ensures { a.new ≡ row_between a.old bw y x xnext d }
{
    let maxx = f32_of(bw);
    let (left, right) = ordered(x, xnext);
    let xa = mathf::clamp(left, 0.0, maxx);
    let xb = mathf::clamp(right, 0.0, maxx);
    row_accum(a, y * (bw + 2), d, xa, xb);
}

// How much of row y the edge crosses.
#[tactic(auto, unfolding(crate::specs::Lines::row_height))]
fn row_height(e: Edge, y: usize) -> f32
    requires { y ≤ 16386 }
    ensures { result ≡ row_height e y }
{
    mathf::min(f32_of(y + 1), e.bottom) - mathf::max(f32_of(y), e.top)
}

// Row y of the edge, which enters it at x. Returns where it leaves.
#[tactic(auto, unfolding(crate::specs::Lines::row_next, crate::specs::Lines::edge_row))]
fn edge_row(a: &mut [f32], bw: usize, e: Edge, y: usize, x: f32) -> f32
    requires { (bw ≤ 16386) × (y ≤ 16386) × (y * (bw + 2) + (bw + 2) ≤ length a.old) }
    ensures { (result ≡ row_next e y x) × (a.new ≡ edge_row a.old bw e y x) }
{
    let dy = row_height(e, y);
    let xnext = x + e.dxdy * dy;
    row_between(a, bw, y, x, xnext, dy * e.dir);
    xnext
}

// The rows from `from` up to `to` of the edge, by their numbers, on which a row's height hangs.
fn edge_rows(a: &mut [f32], bw: usize, bh: usize, e: Edge, from: usize, to: usize)
    requires { Room bw bh (length a.old) × (to ≤ bh) }
    ensures { a.new ≡ edge_rows a.old bw e from (to - from) }
{
    let mut x = e.x;
    for y in from..to {
        x = edge_row(a, bw, e, y, x);
    }
}

// Where an edge down from p0 is where its first row begins: above row 0 it is cut off.
#[tactic(auto, unfolding(crate::specs::Lines::start_x))]
fn start_x(p0: Pt, dxdy: f32) -> f32
    ensures { result ≡ start_x p0 dxdy }
{
    if p0.y < 0.0 { p0.x - p0.y * dxdy } else { p0.x }
}

// The edge from p0 down to p1.
#[tactic(auto, unfolding(crate::specs::Lines::edge_down))]
fn edge_down(dir: f32, p0: Pt, p1: Pt) -> Edge
    ensures { result ≡ edge_down dir p0 p1 }
{
    let dxdy = (p1.x - p0.x) / (p1.y - p0.y);
    Edge {
        x: start_x(p0, dxdy),
        top: p0.y,
        bottom: p1.y,
        dxdy,
        dir,
    }
}

// The edge between two points, turned downwards.
#[tactic(auto, unfolding(crate::specs::Lines::edge_of))]
fn edge_of(p0: Pt, p1: Pt) -> Edge
    ensures { result ≡ edge_of p0 p1 }
{
    if p0.y < p1.y {
        edge_down(1.0, p0, p1)
    } else {
        edge_down(-1.0, p1, p0)
    }
}

#[tactic(auto, unfolding(crate::specs::Lines::first_row))]
fn first_row(e: Edge) -> usize
    ensures { result ≡ first_row e }
{
    if e.top < 0.0 {
        0
    } else {
        mathf::to_usize(e.top)
    }
}

// The row past the edge's last.
#[tactic(auto, unfolding(crate::specs::Lines::end_row))]
fn end_row(e: Edge, bh: usize) -> usize
    ensures { (result ≡ end_row e bh) × (result ≤ bh) }
{
    bh.min(mathf::to_usize(mathf::ceil(e.bottom)))
}

// Signed-area accumulation of one edge, in a box of bw by bh.
#[tactic(auto, unfolding(crate::specs::Lines::line_accum))]
pub fn accum_line(a: &mut [f32], bw: usize, bh: usize, p0: Pt, p1: Pt)
    requires { Room bw bh (length a.old) }
    ensures { a.new ≡ line_accum a.old bw bh p0 p1 }
{
    if p0.y == p1.y {
        return;
    }
    let e = edge_of(p0, p1);
    edge_rows(a, bw, bh, e, first_row(e), end_row(e, bh));
}
