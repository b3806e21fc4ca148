// Lines with round ends, as gfx.rs draws them: each pixel by its distance to the segment. What draws returns how many of its
// steps altered a pixel's value.
#![tactic(auto)]

ghost use Rattle.std.specs.Prelude.{◌≡◌, ◌/◌, ◌<◌, ◌≤◌, length};
ghost use Rattle.geom.specs.declared.IRect.{IRect};
ghost use Rattle.geom.specs.Plane.{float_ok};
ghost use Rattle.color.specs.declared.Color.{Color};
ghost use Rattle.draw.specs.Draw.{drawn};
ghost use Rattle.draw.specs.Parts.{reach_all};
ghost use Rattle.draw.specs.Areas.{clip_to, SpanFits, AreaFits, Drew, DrewSpan};
ghost use Rattle.gfx.specs.Calls.{CalledCounted, ShapeCalled, shape_number, counted_of};
ghost use Rattle.gfx.specs.Points.{points_number};
ghost use Rattle.paints.specs.Edges.{edge_of};
ghost use Rattle.line.specs.Lines.{line_reach, segment_of, cover_of, segment_ink, line_ink, line_ok};
ghost use Rattle.line.specs.Polylines.{point_at, polylined, polyline_steps, chain_of, DrewLines};

use color::{Color, blend_c};
use draw::{Span, clipped};
use geom::checks::Refusal;
use geom::{IRect, Pt, Rect, float_ok, join};
use gfx::{Canvas, Counted, check_points};
use paints::{Edge, centre};

// The pixels around the segment, half the width and one more on each side.
pub fn line_reach(a: Pt, b: Pt, width: f32) -> IRect
    ensures { result ≡ line_reach a b width }
{
    let pad = width * 0.5 + 1.0;
    let x = mathf::min(a.x, b.x) - pad;
    let y = mathf::min(a.y, b.y) - pad;
    let w = (a.x - b.x).abs() + 2.0 * pad;
    let h = (a.y - b.y).abs() + 2.0 * pad;
    IRect::from_rect_outer(Rect { x, y, w, h })
}

// What the pixels of a line share: its start, its direction, the square of its length and half its width.
#[derive(Clone, Copy)]
struct Segment {
    a: Pt,
    dx: f32,
    dy: f32,
    len2: f32,
    hw: f32,
}

impl Segment {
    #[tactic(auto, unfolding(crate::specs::Lines::segment_of))]
    fn of(a: Pt, b: Pt, width: f32) -> Segment
        ensures { result ≡ segment_of a b width }
    {
        let dx = b.x - a.x;
        let dy = b.y - a.y;
        let len2 = mathf::max(dx * dx + dy * dy, 0.0001);
        let hw = width * 0.5;
        Segment {
            a,
            dx,
            dy,
            len2,
            hw,
        }
    }
}

// A segment and the edge at half its width.
#[derive(Clone, Copy)]
struct Edged {
    segment: Segment,
    edge: Edge,
    ghost own: { edge ≡ edge_of segment.hw },
}

impl Edged {
    fn of(segment: Segment) -> Edged
        ensures { result.segment ≡ segment }
    {
        Edged {
            segment,
            edge: Edge::of(segment.hw),
        }
    }

    // The coverage of a pixel by its centre.
    #[tactic(auto, using(paints::proofs::Covers::edge_cover_lem), unfolding(crate::specs::Lines::cover_of))]
    fn cover(self, xc: f32, yc: f32) -> u32
        ensures { result ≡ cover_of self.segment xc yc }
    {
        let s = self.segment;
        let a = s.a;
        let t = mathf::saturate(((xc - a.x) * s.dx + (yc - a.y) * s.dy) / s.len2);
        let px = a.x + s.dx * t - xc;
        let py = a.y + s.dy * t - yc;
        self.edge.cover(px, py)
    }
}

// A part of a row: where the line doesn't reach, no pixel is read or stored.
fn segment_row(px: &mut [u32], row: Span, s: Edged, color: Color) -> u32
    requires { SpanFits row (length px.old) }
    ensures { DrewSpan row (segment_ink s.segment color) px.old result px.new }
{
    let yc = centre(row.y as u16);
    row.draw_covered(
        px,
        |x| s.cover(centre(x as u16), yc),
        |_, p, cv| blend_c(p, color, cv),
    )
}

// One line under a clip within px: what its rows share is worked out first, where it has rows.
fn draw_line(
    px: &mut [u32],
    pitch: usize,
    clip: IRect,
    a: Pt,
    b: Pt,
    width: f32,
    color: Color,
) -> u32
    requires { AreaFits pitch (clip_to (line_reach a b width) clip) (length px.old) }
    ensures { Drew 4194304 px.old
        (drawn pitch clip (line_reach a b width) (line_ink a b width color) px.old) result px.new }
{
    let bb = clipped(line_reach(a, b, width), clip);
    if bb.y0 >= bb.y1 {
        return 0;
    }
    let s = Edged::of(Segment::of(a, b, width));
    bb.draw(px, pitch, |px, row| segment_row(px, row, s, color))
}

#[tactic(auto, unfolding(crate::specs::Lines::line_ok))]
fn line_ok(a: Pt, b: Pt, width: f32) -> bool
    ensures { result ≡ line_ok a b width }
{
    a.in_range() & b.in_range() & float_ok(width)
}

// A line between two points, or the refusal.
fn try_line(
    canvas: Canvas,
    px: &mut [u32],
    a: Pt,
    b: Pt,
    width: f32,
    color: Color,
) -> Result<u64, Refusal>
    ensures { ShapeCalled (shape_number canvas (length px.old) (line_ok a b width)) canvas px.old
        (drawn canvas.pitch canvas.clip (line_reach a b width) (line_ink a b width color) px.old) (counted_of canvas result)
        px.new }
{
    canvas.check_shape(px.len(), line_ok(a, b, width))?;
    Ok(draw_line(px, canvas.pitch, canvas.clip, a, b, width, color) as u64)
}

// A line between two points.
pub fn line(canvas: Canvas, px: &mut [u32], a: Pt, b: Pt, width: f32, color: Color) -> Counted
    ensures { ShapeCalled (shape_number canvas (length px.old) (line_ok a b width)) canvas px.old
        (drawn canvas.pitch canvas.clip (line_reach a b width) (line_ink a b width color) px.old) result
        px.new }
{
    Counted::of(canvas, try_line(canvas, px, a, b, width, color))
}

// Point i of coordinates x y x y.
fn point(pts: &[f32], i: usize) -> Pt
    requires { i < length pts.now / 2 }
    ensures { result ≡ point_at pts.now i }
{
    let k = 2 * i;
    Pt {
        x: pts[k],
        y: pts[k + 1],
    }
}

// The smallest box around the reaches of the lines between successive points, from the last line to the first; four zeros where
// no line reaches a pixel. A line reads two points, so the loop counts them.
pub fn polyline_reach(pts: &[f32], width: f32) -> IRect
    ensures { (c : Color) → result ≡ reach_all (chain_of pts.now width c) }
{
    let n = pts.len() / 2;
    let mut area = IRect::ZERO;
    for i in (1..n).rev() {
        area = join(line_reach(point(pts, i - 1), point(pts, i), width), area);
    }
    area
}

// The lines between successive points, under a clip within px; the loop counts points, as above.
fn draw_lines(
    px: &mut [u32],
    pitch: usize,
    clip: IRect,
    pts: &[f32],
    width: f32,
    color: Color,
) -> u32
    requires area_fits { (reach : IRect) → AreaFits pitch (clip_to reach clip) (length px.old) }
    requires pts_len_bound { length pts.now ≤ 128 }
    ensures { DrewLines pitch clip pts.now width color px.old result px.new }
{
    let mut n = 0;
    for i in 1..pts.len() / 2 {
        n += draw_line(
            px,
            pitch,
            clip,
            point(pts, i - 1),
            point(pts, i),
            width,
            color,
        );
    }
    n
}

// Lines between successive points, or the refusal.
fn try_polyline(
    canvas: Canvas,
    px: &mut [u32],
    pts: &[f32],
    width: f32,
    color: Color,
) -> Result<u64, Refusal>
    ensures { CalledCounted (points_number canvas (length px.old) pts.now (float_ok width)) canvas
        px.old (polylined canvas.pitch canvas.clip pts.now width color px.old)
        (polyline_steps canvas.pitch canvas.clip pts.now width color px.old) (counted_of canvas result) px.new }
{
    check_points(canvas, px.len(), pts, float_ok(width))?;
    Ok(draw_lines(px, canvas.pitch, canvas.clip, pts, width, color) as u64)
}

// Lines between successive points, whose coordinates stand one after another.
pub fn polyline(canvas: Canvas, px: &mut [u32], pts: &[f32], width: f32, color: Color) -> Counted
    ensures { CalledCounted (points_number canvas (length px.old) pts.now (float_ok width)) canvas
        px.old (polylined canvas.pitch canvas.clip pts.now width color px.old)
        (polyline_steps canvas.pitch canvas.clip pts.now width color px.old) result px.new }
{
    Counted::of(canvas, try_polyline(canvas, px, pts, width, color))
}
