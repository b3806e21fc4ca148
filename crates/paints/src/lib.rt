// Paints, coverage and distances: one f32 operation after another, in the order of gfx.rs.
#![tactic(auto)]

pub mod edges;

ghost use Rattle.std.specs.Prelude.{◌≡◌, ◌&&◌};
ghost use Rattle.geom.specs.Plane.{float_ok, pt_ok};
ghost use Rattle.mathf.specs.F32.{◌<ᶠ◌, f0};
ghost use Rattle.paints.specs.Paints.{along_down, along_line, along_radius, paint_at, row_paint, paint_ok, centre_of, radius_of};
ghost use Rattle.paints.specs.Paints.{corner_sd, rrect_sd, rounded_of, rounded_sd, cov8_of};

pub use crate::edges::{Edge, side_cover};
use color::Color;
use geom::{Pt, Rect, float_ok, floats_ok};

// What a shape is filled with.
#[derive(Clone, Copy)]
pub enum Paint {
    Solid(Color),
    VGrad {
        y0: f32,
        y1: f32,
        c0: Color,
        c1: Color,
    },
    Linear {
        p0: Pt,
        p1: Pt,
        c0: Color,
        c1: Color,
    },
    Radial {
        c: Pt,
        r: f32,
        c0: Color,
        c1: Color,
    },
}

// How far down a vertical gradient a row lies.
#[tactic(auto, unfolding(crate::specs::Paints::along_down))]
fn along_down(y0: f32, y1: f32, y: f32) -> f32
    ensures { result ≡ along_down y0 y1 y }
{
    (y - y0) / mathf::max(y1 - y0, 0.001)
}

// How far along a linear gradient a point lies.
#[tactic(auto, unfolding(crate::specs::Paints::along_line))]
pub fn along_line(p0: Pt, p1: Pt, x: f32, y: f32) -> f32
    ensures { result ≡ along_line p0 p1 x y }
{
    let dx = p1.x - p0.x;
    let dy = p1.y - p0.y;
    ((x - p0.x) * dx + (y - p0.y) * dy) / mathf::max(dx * dx + dy * dy, 0.001)
}

// How far from the centre of a radial gradient a point lies.
#[tactic(auto, unfolding(crate::specs::Paints::along_radius))]
fn along_radius(c: Pt, r: f32, x: f32, y: f32) -> f32
    ensures { result ≡ along_radius c r x y }
{
    let dx = x - c.x;
    let dy = y - c.y;
    mathf::sqrt(dx * dx + dy * dy) / mathf::max(r, 0.001)
}

impl Paint {
    // The colour of a paint at a point.
    #[tactic(auto, unfolding(crate::specs::Paints::paint_at))]
    pub fn at(self, x: f32, y: f32) -> Color
        ensures { result ≡ paint_at self x y }
    {
        match self {
            Paint::Solid(c) => c,
            Paint::VGrad { y0, y1, c0, c1 } => c0.mix(c1, along_down(y0, y1, y)),
            Paint::Linear { p0, p1, c0, c1 } => c0.mix(c1, along_line(p0, p1, x, y)),
            Paint::Radial { c, r, c0, c1 } => c0.mix(c1, along_radius(c, r, x, y)),
        }
    }

    // The paint as the points of a row have it: a vertical gradient has one colour there.
    #[tactic(auto, unfolding(crate::specs::Paints::row_paint))]
    pub fn in_row(self, y: f32) -> Paint
        ensures { result ≡ row_paint self y }
    {
        match self {
            Paint::VGrad { y0, y1, c0, c1 } => Paint::Solid(c0.mix(c1, along_down(y0, y1, y))),
            other => other,
        }
    }

    // Whether every float of a paint is finite and within 8,192 of 0: refusal 6 is given for any other.
    #[tactic(auto, unfolding(crate::specs::Paints::paint_ok))]
    pub fn in_range(self) -> bool
        ensures { result ≡ paint_ok self }
    {
        match self {
            Paint::Solid(_) => true,
            Paint::VGrad { y0, y1, .. } => floats_ok(y0, y1),
            Paint::Linear { p0, p1, .. } => p0.in_range() & p1.in_range(),
            Paint::Radial { c, r, .. } => c.in_range() & float_ok(r),
        }
    }
}

// The centre of column or row i.
pub fn centre(i: u16) -> f32
    ensures { result ≡ centre_of i }
{
    i as f32 + 0.5
}

// The radius of a rectangle's corners: at most half of each side, at least 0.
#[tactic(auto, unfolding(crate::specs::Paints::radius_of))]
pub fn radius(rect: Rect, r: f32) -> f32
    ensures { result ≡ radius_of rect r }
{
    mathf::max(mathf::min(mathf::min(r, rect.w * 0.5), rect.h * 0.5), 0.0)
}

pub fn both_positive(a: f32, b: f32) -> bool
    ensures { result ≡ ((f0 <ᶠ a) && (f0 <ᶠ b)) }
{
    (a > 0.0) & (b > 0.0)
}

// The distance from how far a point is past the straight parts of the sides, rounded by r.
#[tactic(auto, unfolding(crate::specs::Paints::corner_sd))]
pub fn corner_sd(qx: f32, qy: f32, r: f32) -> f32
    ensures { result ≡ corner_sd qx qy r }
{
    if both_positive(qx, qy) {
        mathf::sqrt(qx * qx + qy * qy) - r
    } else if qx > qy {
        qx - r
    } else {
        qy - r
    }
}

// The signed distance of a point to a rounded rectangle, negative inside.
#[tactic(auto, unfolding(crate::specs::Paints::rrect_sd))]
pub fn rrect_sd(px: f32, py: f32, cx: f32, cy: f32, hw: f32, hh: f32, r: f32) -> f32
    ensures { result ≡ rrect_sd px py cx cy hw hh r }
{
    let qx = mathf::fabs(px - cx) - (hw - r);
    let qy = mathf::fabs(py - cy) - (hh - r);
    corner_sd(qx, qy, r)
}

// A rectangle with rounded corners: its middle, its half sides, its radius and its edges.
#[derive(Clone, Copy)]
pub struct Rounded {
    pub cx: f32,
    pub cy: f32,
    pub hw: f32,
    pub hh: f32,
    pub r: f32,
    pub left: f32,
    pub right: f32,
    pub top: f32,
    pub bottom: f32,
}

impl Rounded {
    pub fn of(rect: Rect, r: f32) -> Rounded
        ensures { result ≡ rounded_of rect r }
    {
        Rounded {
            cx: rect.cx(),
            cy: rect.cy(),
            hw: rect.w * 0.5,
            hh: rect.h * 0.5,
            r: radius(rect, r),
            left: rect.x,
            right: rect.right(),
            top: rect.y,
            bottom: rect.bottom(),
        }
    }

    // The signed distance of a point, negative inside.
    pub fn sd(self, x: f32, y: f32) -> f32
        ensures { result ≡ rounded_sd self x y }
    {
        rrect_sd(x, y, self.cx, self.cy, self.hw, self.hh, self.r)
    }
}

// The coverage, 0 to 255, of a pixel whose centre lies at a signed distance of an edge.
#[tactic(auto, unfolding(crate::specs::Paints::cov8_of))]
pub fn cov8(d: f32) -> u32
    ensures { result ≡ cov8_of d }
{
    mathf::to_u32(mathf::saturate(0.5 - d) * 255.0 + 0.5)
}
