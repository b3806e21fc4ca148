// The canvas calls that draw a shape, and count its steps that altered a pixel's value. A paint comes as a brush.
ghost use Rattle.std.specs.Prelude.{length};
ghost use Rattle.mathf.specs.F32.{f0};
ghost use Rattle.geom.specs.Plane.{float_ok};
ghost use Rattle.draw.specs.Draw.{drawn};
ghost use Rattle.gfx.specs.Calls.{CalledCounted, ShapeCalled, shape_number};
ghost use Rattle.gfx.specs.Points.{points_number};
ghost use Rattle.paints.specs.Paints.{circle_rect};
ghost use Rattle.fill.specs.Fill.{rrect_floats, rect_floats, circle_floats};
ghost use Rattle.stroke.specs.Stroke.{stroke_ok, stroke_reach, stroke_ink, ring_ok};
ghost use Rattle.line.specs.Lines.{line_reach, line_ink, line_ok};
ghost use Rattle.line.specs.Polylines.{polylined, polyline_steps};
ghost use Rattle.poly.specs.Poly.{Filled};
ghost use Rattle.shadow.specs.Shadow.{shadow_ok, shadow_reach, shadow_ink};
ghost use Rattle.maldjupp.specs.Brushes.{paint_of, Brushed, points_brush_number};
ghost use Rattle.maldjupp.specs.Skips.{skip_of, skip_number};

use crate::brush::{Brush, refused_kind, refused_points_kind};
use color::Color;
use fill::{fill_circle, fill_rect, fill_rrect};
use geom::{Pt, Rect};
use gfx::{Canvas, Counted};
use line::{line, polyline};
use poly::fill_poly;
use shadow::shadow_rrect;
use stroke::{ring, stroke_rrect};

// A rectangle with round corners.
#[unsafe(no_mangle)]
pub extern "C" fn maldjupp_fill_rrect(
    canvas: Canvas,
    px: &mut [u32],
    rect: Rect,
    r: f32,
    brush: Brush,
) -> Counted
    ensures { Brushed canvas brush (rrect_floats rect r (paint_of brush)) rect r px.old result px.new }
{
    if brush.kind > 3 {
        return refused_kind(canvas, px.len());
    }
    fill_rrect(canvas, px, rect, r, brush.paint())
}

// A rectangle.
#[unsafe(no_mangle)]
pub extern "C" fn maldjupp_fill_rect(
    canvas: Canvas,
    px: &mut [u32],
    rect: Rect,
    brush: Brush,
) -> Counted
    ensures { Brushed canvas brush (rect_floats rect (paint_of brush)) rect f0 px.old result px.new }
{
    if brush.kind > 3 {
        return refused_kind(canvas, px.len());
    }
    fill_rect(canvas, px, rect, brush.paint())
}

// A circle around cx and cy.
#[unsafe(no_mangle)]
pub extern "C" fn maldjupp_fill_circle(
    canvas: Canvas,
    px: &mut [u32],
    cx: f32,
    cy: f32,
    r: f32,
    brush: Brush,
) -> Counted
    ensures { Brushed canvas brush (circle_floats cx cy r (paint_of brush)) (circle_rect cx cy r) r px.old result
        px.new }
{
    if brush.kind > 3 {
        return refused_kind(canvas, px.len());
    }
    fill_circle(canvas, px, cx, cy, r, brush.paint())
}

// The outline of a rectangle with round corners, inside its edge.
#[unsafe(no_mangle)]
pub extern "C" fn maldjupp_stroke_rrect(
    canvas: Canvas,
    px: &mut [u32],
    rect: Rect,
    r: f32,
    width: f32,
    color: Color,
) -> Counted
    ensures { ShapeCalled (shape_number canvas (length px.old) (stroke_ok rect r width)) canvas px.old
        (drawn canvas.pitch canvas.clip (stroke_reach rect color) (stroke_ink rect r width color) px.old) result
        px.new }
{
    stroke_rrect(canvas, px, rect, r, width, color)
}

// The outline of a circle around cx and cy.
#[unsafe(no_mangle)]
pub extern "C" fn maldjupp_ring(
    canvas: Canvas,
    px: &mut [u32],
    cx: f32,
    cy: f32,
    r: f32,
    width: f32,
    color: Color,
) -> Counted
    ensures { ShapeCalled (shape_number canvas (length px.old) (ring_ok cx cy r width)) canvas px.old
        (drawn canvas.pitch canvas.clip (stroke_reach (circle_rect cx cy r) color)
        (stroke_ink (circle_rect cx cy r) r width color) px.old) result px.new }
{
    ring(canvas, px, cx, cy, r, width, color)
}

// A line with round ends.
#[unsafe(no_mangle)]
pub extern "C" fn maldjupp_line(
    canvas: Canvas,
    px: &mut [u32],
    a: Pt,
    b: Pt,
    width: f32,
    color: Color,
) -> Counted
    ensures { ShapeCalled (shape_number canvas (length px.old) (line_ok a b width)) canvas px.old
        (drawn canvas.pitch canvas.clip (line_reach a b width) (line_ink a b width color) px.old) result
        px.new }
{
    line(canvas, px, a, b, width, color)
}

// Lines from point to point, one after the other. The points are coordinates x y x y.
#[unsafe(no_mangle)]
pub extern "C" fn maldjupp_polyline(
    canvas: Canvas,
    px: &mut [u32],
    pts: &[f32],
    width: f32,
    color: Color,
) -> Counted
    ensures { CalledCounted (points_number canvas (length px.old) pts.now (float_ok width)) canvas
        px.old (polylined canvas.pitch canvas.clip pts.now width color px.old)
        (polyline_steps canvas.pitch canvas.clip pts.now width color px.old) result px.new }
{
    polyline(canvas, px, pts, width, color)
}

// A polygon, whose points are coordinates x y x y. The scratch words that it needs are left +0.
#[unsafe(no_mangle)]
pub extern "C" fn maldjupp_fill_poly(
    canvas: Canvas,
    px: &mut [u32],
    pts: &[f32],
    brush: Brush,
    scratch: &mut [f32],
) -> Counted
    ensures { Filled (points_brush_number canvas (length px.old) pts.now brush
        (length scratch.old)) canvas px.old pts.now (paint_of brush) scratch.old result
        px.new scratch.new }
{
    if brush.kind > 3 {
        return refused_points_kind(canvas, px.len(), pts);
    }
    fill_poly(canvas, px, pts, brush.paint(), scratch)
}

// The soft shadow of a rectangle with round corners. `skip` is 0 or 1, and 1 leaves out the middle; over 1 is refused by 5.
#[unsafe(no_mangle)]
pub extern "C" fn maldjupp_shadow_rrect(
    canvas: Canvas,
    px: &mut [u32],
    rect: Rect,
    r: f32,
    blur: f32,
    color: Color,
    skip: u32,
) -> Counted
    ensures { ShapeCalled (skip_number canvas (length px.old) skip (shadow_ok rect r blur)) canvas
        px.old (drawn canvas.pitch canvas.clip (shadow_reach rect blur color)
        (shadow_ink rect r blur color (skip_of skip)) px.old) result px.new }
{
    if skip > 1 {
        return refused_kind(canvas, px.len());
    }
    shadow_rrect(canvas, px, rect, r, blur, color, skip == 1)
}
