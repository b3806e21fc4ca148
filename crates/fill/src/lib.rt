// Filled rectangles and circles, as gfx.rs fills them: the rims of each row by distance, its middle whole. What draws returns how
// many pixels' values it altered.
#![tactic(auto)]

ghost use Rattle.std.specs.Prelude.{true, false, ◌≡◌, ◌≤◌, Float, length};
ghost use Rattle.mathf.specs.F32.{f0};
ghost use Rattle.mathf.specs.Convert.{to_i32};
ghost use Rattle.geom.specs.Int.{up};
ghost use Rattle.color.specs.Colours.{pix_of};
ghost use Rattle.draw.specs.Draw.{drawn};
ghost use Rattle.draw.specs.Areas.{SpanFits, AreaFits, DrewSpan, DrewIn};
ghost use Rattle.gfx.specs.Calls.{ShapeCalled, px_number, counted_of};
ghost use Rattle.paints.specs.declared.Paint.TheVariants.{Solid};
ghost use Rattle.paints.specs.Paints.{paint_at, centre_of};
ghost use Rattle.paints.specs.Edges.{edge_of};
ghost use Rattle.fill.specs.Fill.{fill_reach, edge_row, corner_row, cover_of, rim_ink, middle_ink, round_ink, fill_ink};
ghost use Rattle.fill.specs.Fill.{Filled, rrect_floats, rect_floats, circle_floats};
ghost use Rattle.paints.specs.Paints.{circle_rect};
ghost use Rattle.fill.specs.Rows.{ends_of, clamped_of, Cuts, past_of, LevelOf};

use color::{Color, blend_c, over, put};
use draw::{Area, Span, clipped};
use geom::checks::Refusal;
use geom::{IRect, Rect, float_ok, nat_of};
use gfx::{Canvas, Counted};
use paints::{Edge, Paint, along_line, centre, radius, side_cover};

// The pixels around the rectangle; none where it has no width or no height.
#[tactic(auto, unfolding(crate::specs::Fill::fill_reach, geom::specs::Box::no_box))]
pub fn fill_reach(rect: Rect) -> IRect
    ensures { result ≡ fill_reach rect }
{
    if rect.is_empty() {
        return IRect::ZERO;
    }
    IRect::from_rect_outer(rect)
}

// Whether a row lies less than 1 below the top or above the bottom.
fn edge_row(rect: Rect, yc: f32) -> bool
    ensures { result ≡ edge_row rect yc }
{
    (yc < rect.y + 1.0) | (yc > rect.bottom() - 1.0)
}

// Whether a row lies beside a round corner.
fn corner_row(rect: Rect, r: f32, yc: f32) -> bool
    ensures { result ≡ corner_row rect r yc }
{
    (r > 0.0) & ((yc < rect.y + r) | (yc > rect.bottom() - r))
}

// A float as a column: 0 where it is negative.
fn column(x: f32) -> usize
    ensures { result ≡ up (to_i32 x) }
{
    nat_of(mathf::to_i32(x))
}

// How far p is past the straight part of a side, from c to a corner of radius r and then h.
fn past(p: f32, c: f32, h: f32, r: f32) -> f32
    ensures { result ≡ past_of p c h r }
{
    mathf::fabs(p - c) - (h - r)
}

// Columns of a row: where its left rim ends, and where its right rim starts.
#[derive(Clone, Copy)]
struct Ends {
    le: usize,
    rs: usize,
}

impl Ends {
    // The ends of a row that lies beside a round corner, or of any other.
    #[tactic(auto, unfolding(crate::specs::Rows::ends_of))]
    fn of(rect: Rect, r: f32, corner: bool) -> Ends
        ensures { result ≡ ends_of corner rect r }
    {
        if corner {
            let le = column(mathf::ceil(rect.x + r));
            let rs = column(mathf::floor(rect.right() - r));
            return Ends { le, rs };
        }
        let le = column(mathf::ceil(rect.x) + 1.0);
        let rs = column(mathf::floor(rect.right()) - 1.0);
        Ends { le, rs }
    }

    // The ends brought to the columns x0 up to x1.
    fn clamped(self, x0: usize, x1: usize) -> Ends
        ensures { result ≡ clamped_of self x0 x1 }
    {
        let le = self.le.min(x1).max(x0);
        let rs = self.rs.min(x1).max(le);
        Ends { le, rs }
    }
}

// What the columns of a row share: how far it is past the sides, and its coverage beside the corners.
#[derive(Clone, Copy)]
struct Level {
    qy: f32,
    level: u32,
}

// A rectangle with round corners, their edge, and the ends of its rows: beside a corner, and elsewhere.
#[derive(Clone, Copy)]
struct Round {
    rect: Rect,
    edge: Edge,
    bent: Ends,
    straight: Ends,
    ghost own: { edge ≡ edge_of edge.r },
    ghost own_bent: { bent ≡ ends_of true rect edge.r },
    ghost own_straight: { straight ≡ ends_of false rect edge.r },
}

impl Round {
    // The edge and the ends are worked out once, for all rows.
    fn of(rect: Rect, r: f32) -> Round
        ensures { (result.rect ≡ rect) × (result.edge.r ≡ r) }
    {
        let edge = Edge::of(r);
        let bent = Ends::of(rect, r, true);
        let straight = Ends::of(rect, r, false);
        Round {
            rect,
            edge,
            bent,
            straight,
        }
    }

    // Where a row is cut: an edge row has no middle.
    fn cut(self, row: Span) -> Ends
        requires { (row.x0 ≤ row.x1) × (row.y ≤ 2048) }
        ensures { Cuts self.rect self.edge.r row.y row.x0 row.x1 result }
    {
        let rect = self.rect;
        let yc = centre(row.y as u16);
        if edge_row(rect, yc) {
            return Ends {
                le: row.x1,
                rs: row.x1,
            };
        }
        if corner_row(rect, self.edge.r, yc) {
            return self.bent.clamped(row.x0, row.x1);
        }
        self.straight.clamped(row.x0, row.x1)
    }

    // What the columns of row y share.
    fn level(self, y: usize) -> Level
        requires { y ≤ 2048 }
        ensures { LevelOf self.rect self.edge.r (centre_of y) result }
    {
        let rect = self.rect;
        let r = self.edge.r;
        let qy = past(centre(y as u16), rect.cy(), rect.h * 0.5, r);
        Level {
            qy,
            level: side_cover(qy - r),
        }
    }

    // The coverage of a point of a row of level l.
    #[tactic(auto, using(paints::proofs::Covers::edge_beside), unfolding(crate::specs::Fill::cover_of, paints::specs::Paints::rrect_sd))]
    fn cover(self, l: Level, xc: f32) -> u32
        ensures { (yc : Float) → LevelOf self.rect self.edge.r yc l → result ≡ cover_of self.rect self.edge.r xc yc }
    {
        let rect = self.rect;
        let qx = past(xc, rect.cx(), rect.w * 0.5, self.edge.r);
        self.edge.beside(qx, l.qy, l.level)
    }
}

// Columns of a row by coverage: a root is taken only near the edge, and where the coverage is 0 no pixel is read or stored. A
// plain colour costs no call.
fn rim(px: &mut [u32], row: Span, s: Round, l: Level, paint: Paint) -> u32
    requires { SpanFits row (length px.old) × LevelOf s.rect s.edge.r (centre_of row.y) l }
    ensures { DrewSpan row (rim_ink s.rect s.edge.r paint) px.old result px.new }
{
    let yc = centre(row.y as u16);
    let cover = |x| s.cover(l, centre(x as u16));
    match paint {
        Paint::Solid(c) => row.draw_covered(px, cover, |_, p, cv| blend_c(p, c, cv)),
        _ => row.draw_covered(px, cover, |x, p, cv| {
            blend_c(p, paint.at(centre(x as u16), yc), cv)
        }),
    }
}

// Columns of a row set to one value.
fn store_span(px: &mut [u32], row: Span, v: u32) -> u32
    requires { SpanFits row (length px.old) }
    ensures { DrewSpan row (λ _ _ _. v) px.old result px.new }
{
    row.draw(px, |_, p| put(p, v))
}

// Columns of a row under a colour: plain stores at full alpha, nothing at alpha 0.
fn solid_span(px: &mut [u32], row: Span, c: Color) -> u32
    requires { SpanFits row (length px.old) }
    ensures { DrewSpan row (middle_ink (Solid c)) px.old result px.new }
{
    match c.a {
        255 => store_span(px, row, c.pix()),
        0 => 0,
        a => row.draw(px, |_, p| over(p, c, a as u32)),
    }
}

// The middle of a row, by the kind of its paint.
fn middle_span(px: &mut [u32], row: Span, paint: Paint) -> u32
    requires { SpanFits row (length px.old) }
    ensures { DrewSpan row (middle_ink paint) px.old result px.new }
{
    let yc = centre(row.y as u16);
    match paint {
        Paint::Solid(c) => solid_span(px, row, c),
        Paint::Linear { p0, p1, c0, c1 } => row.draw(px, |x, p| {
            let c = c0.mix(c1, along_line(p0, p1, centre(x as u16), yc));
            over(p, c, c.a as u32)
        }),
        _ => row.draw(px, |x, p| {
            let c = paint.at(centre(x as u16), yc);
            over(p, c, c.a as u32)
        }),
    }
}

// A row by the paint as the row has it: rim, middle, rim.
fn fill_row(px: &mut [u32], row: Span, s: Round, paint: Paint) -> u32
    requires { SpanFits row (length px.old) }
    ensures { DrewSpan row (round_ink s.rect s.edge.r paint) px.old result px.new }
{
    let here = paint.in_row(centre(row.y as u16));
    let Ends { le, rs } = s.cut(row);
    let l = s.level(row.y);
    let left = rim(px, Span { x1: le, ..row }, s, l, here);
    let middle = middle_span(
        px,
        Span {
            x0: le,
            x1: rs,
            ..row
        },
        here,
    );
    let right = rim(px, Span { x0: rs, ..row }, s, l, here);
    left + middle + right
}

// An area of a rounded rectangle: what its rows share is worked out first, where it has rows.
fn fill_area(px: &mut [u32], pitch: usize, bb: Area, rect: Rect, r: f32, paint: Paint) -> u32
    requires { AreaFits pitch bb (length px.old) }
    ensures { DrewIn pitch bb (fill_ink rect r paint) px.old result px.new }
{
    if bb.y0 >= bb.y1 {
        return 0;
    }
    let short = radius(rect, r);
    let s = Round::of(rect, short);
    bb.draw(px, pitch, |px, row| fill_row(px, row, s, paint))
}

// A rounded rectangle under the clip, or the refusal.
fn try_fill(
    canvas: Canvas,
    px: &mut [u32],
    ok: bool,
    rect: Rect,
    r: f32,
    paint: Paint,
) -> Result<u64, Refusal>
    ensures { Filled canvas ok rect r paint px.old (counted_of canvas result) px.new }
{
    canvas.check_shape(px.len(), ok)?;
    let bb = clipped(fill_reach(rect), canvas.clip);
    Ok(fill_area(px, canvas.pitch, bb, rect, r, paint) as u64)
}

// The same as the answer of a call.
fn filled(canvas: Canvas, px: &mut [u32], ok: bool, rect: Rect, r: f32, paint: Paint) -> Counted
    ensures { Filled canvas ok rect r paint px.old result px.new }
{
    Counted::of(canvas, try_fill(canvas, px, ok, rect, r, paint))
}

// A rectangle with round corners.
pub fn fill_rrect(canvas: Canvas, px: &mut [u32], rect: Rect, r: f32, paint: Paint) -> Counted
    ensures { Filled canvas (rrect_floats rect r paint) rect r paint px.old result px.new }
{
    let ok = rect.in_range() & float_ok(r) & paint.in_range();
    filled(canvas, px, ok, rect, r, paint)
}

// A rectangle.
pub fn fill_rect(canvas: Canvas, px: &mut [u32], rect: Rect, paint: Paint) -> Counted
    ensures { Filled canvas (rect_floats rect paint) rect f0 paint px.old result px.new }
{
    let ok = rect.in_range() & paint.in_range();
    filled(canvas, px, ok, rect, 0.0, paint)
}

// A circle around cx and cy.
pub fn fill_circle(
    canvas: Canvas,
    px: &mut [u32],
    cx: f32,
    cy: f32,
    r: f32,
    paint: Paint,
) -> Counted
    ensures { Filled canvas (circle_floats cx cy r paint) (circle_rect cx cy r) r paint px.old result px.new }
{
    let ok = float_ok(cx) & float_ok(cy) & float_ok(r) & paint.in_range();
    let rect = Rect::new(cx - r, cy - r, r * 2.0, r * 2.0);
    filled(canvas, px, ok, rect, r, paint)
}

// The pixels of an area set to one value.
fn store_box(px: &mut [u32], pitch: usize, bb: Area, v: u32) -> u32
    requires { AreaFits pitch bb (length px.old) }
    ensures { DrewIn pitch bb (λ _ _ _. v) px.old result px.new }
{
    bb.draw(px, pitch, |px, row| store_span(px, row, v))
}

// The pixels of the clip set to a colour, or the refusal.
fn try_ground(canvas: Canvas, px: &mut [u32], c: Color) -> Result<u64, Refusal>
    ensures { ShapeCalled (px_number canvas (length px.old)) canvas px.old
        (drawn canvas.pitch canvas.clip canvas.clip (λ _ _ _. pix_of c) px.old) (counted_of canvas result)
        px.new }
{
    canvas.check_px(px.len())?;
    let bb = clipped(canvas.clip, canvas.clip);
    Ok(store_box(px, canvas.pitch, bb, c.pix()) as u64)
}

// The pixels of the clip set to a colour, as a sheet's ground is, whatever its alpha.
pub fn fill_ground(canvas: Canvas, px: &mut [u32], c: Color) -> Counted
    ensures { ShapeCalled (px_number canvas (length px.old)) canvas px.old
        (drawn canvas.pitch canvas.clip canvas.clip (λ _ _ _. pix_of c) px.old) result px.new }
{
    Counted::of(canvas, try_ground(canvas, px, c))
}
