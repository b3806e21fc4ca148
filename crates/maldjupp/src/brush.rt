// A paint as C lays it out, since an enum does not cross.
ghost use Rattle.std.specs.Prelude.{◌≡◌};
ghost use Rattle.geom.specs.Refusals.{number_of, unless, and_then};
ghost use Rattle.gfx.specs.Calls.{px_number};
ghost use Rattle.gfx.specs.Points.{points_ok};
ghost use Rattle.maldjupp.specs.Brushes.{paint_of, five_number, points_kind_number};

use color::Color;
use geom::Pt;
use geom::checks::{Refusal, ensure};
use gfx::{Canvas, Counted, points_ok};
use paints::Paint;

// As in a sheet: a kind of 0 to 3, two colours and four numbers. What the kind does not use is not read.
#[repr(C)]
#[derive(Clone, Copy)]
pub struct Brush {
    pub kind: u32,
    pub c0: Color,
    pub c1: Color,
    pub v0: f32,
    pub v1: f32,
    pub v2: f32,
    pub v3: f32,
}

impl Brush {
    // The paint; a kind over 3, which every call refuses, counts as 3.
    pub fn paint(self) -> Paint
        ensures { result ≡ paint_of self }
    {
        let kind = self.kind;
        let c0 = self.c0;
        let c1 = self.c1;
        match kind {
            0 => Paint::Solid(c0),
            1 => Paint::VGrad {
                y0: self.v0,
                y1: self.v1,
                c0,
                c1,
            },
            2 => Paint::Linear {
                p0: Pt::new(self.v0, self.v1),
                p1: Pt::new(self.v2, self.v3),
                c0,
                c1,
            },
            3..=4294967295 => Paint::Radial {
                c: Pt::new(self.v0, self.v1),
                r: self.v2,
                c0,
                c1,
            },
        }
    }
}

// The answer of a call on n lent words that 5 is given for: its brush has a kind over 3, or the `skip` of its shadow is over 1.
// 12, 15 and 8 come before.
#[tactic(auto, unfolding(crate::specs::Brushes::five_number))]
#[inline(always)]
pub fn refused_kind(canvas: Canvas, n: usize) -> Counted
    ensures { result ≡ record { number = five_number canvas n; canvas = canvas; steps = 0 } }
{
    Counted::of(canvas, canvas.check_px(n).and(Err(Refusal::ZeroByte)))
}

// What is tested before 5 in a call with points: 12, 15, 8, then 13.
fn check_before(canvas: Canvas, n: usize, pts: &[f32]) -> Result<(), Refusal>
    ensures { number_of result ≡ and_then (px_number canvas n) (unless (points_ok pts.now) 13 0) }
{
    canvas.check_px(n)?;
    ensure(points_ok(pts), Refusal::Points)
}

// The answer of a call with points, whose brush has a kind over 3: 5 after all these.
#[tactic(auto, unfolding(crate::specs::Brushes::points_kind_number))]
#[inline(always)]
pub fn refused_points_kind(canvas: Canvas, n: usize, pts: &[f32]) -> Counted
    ensures { result ≡ record { number = points_kind_number canvas n pts.now; canvas = canvas; steps = 0 } }
{
    Counted::of(
        canvas,
        check_before(canvas, n, pts).and(Err(Refusal::ZeroByte)),
    )
}
