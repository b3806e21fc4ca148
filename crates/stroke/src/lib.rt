// The outline of a rounded rectangle, and of a circle. What draws returns how many pixels' values it altered.
#![tactic(auto)]

ghost use Rattle.std.specs.Prelude.{◌≡◌, true, false, ℕ, ◌+◌, ◌<◌, ◌≤◌, T, Float, length};
ghost use Rattle.mathf.specs.F32.{◌+ᶠ◌, ◌-ᶠ◌, ◌*ᶠ◌, ◌≤ᶠ◌, f0, f1};
ghost use Rattle.mathf.specs.Order.{fabs_of};
ghost use Rattle.mathf.specs.Root.{sqrt_of};
ghost use Rattle.draw.specs.Draw.{drawn};
ghost use Rattle.draw.specs.Held.{Holds};
ghost use Rattle.draw.specs.Areas.{SpanFits, DrewSpan, AreaFits, DrewIn};
ghost use Rattle.gfx.specs.Calls.{ShapeCalled, shape_number, counted_of};
ghost use Rattle.paints.specs.Paints.{circle_rect, rounded_sd, centre_of};
ghost use Rattle.stroke.specs.Stroke.{stroke_ok, stroke_reach, band_cover, full_row, corner_row, band_ink, outline_ink, stroke_ink};
ghost use Rattle.stroke.specs.Stroke.{ring_ok};
ghost use Rattle.stroke.specs.Rows.{BlankFrom, BlankUpto, width_of, GapOf, RowGap, LevelIn, LevelPart, column_cover};

use color::{Color, blend_c, blend_c_wide};
use draw::{Area, Span, clipped, fill_in, filled};
use geom::checks::Refusal;
use geom::{IRect, Rect, floats_ok, nat_of};
use gfx::{Canvas, Counted};
use paints::{Rounded, both_positive, centre};

// The reach: nothing where the rectangle has no width or no height, or the colour no alpha.
#[tactic(auto, unfolding(crate::specs::Stroke::stroke_reach, geom::specs::Box::no_box))]
pub fn stroke_reach(rect: Rect, c: Color) -> IRect
    ensures { result ≡ stroke_reach rect c }
{
    if rect.is_empty() {
        return IRect::ZERO;
    }
    let a = c.a;
    if a == 0 {
        return IRect::ZERO;
    }
    IRect::from_rect_outer(rect)
}

// The coverage of a band of the width inside the edge, at a signed distance from it.
fn band_cover(d: f32, width: f32) -> u32
    ensures { result ≡ band_cover d width }
{
    let c_out = mathf::saturate(0.5 - d);
    let c_in = mathf::saturate(0.5 - (d + width));
    mathf::to_u32((c_out * (1.0 - c_in)) * 255.0 + 0.5)
}

// Whether a row passes the top or the bottom band.
fn full_row(s: Rounded, band: f32, yc: f32) -> bool
    ensures { result ≡ full_row s band yc }
{
    (yc < s.top + band) | (yc > s.bottom - band)
}

// Whether a row passes a rounded corner.
fn corner_row(s: Rounded, yc: f32) -> bool
    ensures { result ≡ corner_row s yc }
{
    (s.r > 0.0) & ((yc < s.top + s.r + 1.0) | (yc > s.bottom - s.r - 1.0))
}

// Columns: the first, and the first past them.
#[derive(Clone, Copy)]
struct Columns {
    from: usize,
    upto: usize,
}

// How far the two sides reach in, in a row that is not full: in one that passes a rounded corner, or in any other.
fn side_width(s: Rounded, width: f32, corner: bool) -> f32
    ensures { result ≡ width_of corner s width }
{
    if corner { s.r + 1.0 } else { width + 1.0 }
}

// The columns between the two sides of a row that is not full: of one that passes a rounded corner, or of any other.
fn gap(s: Rounded, width: f32, corner: bool) -> Columns
    ensures { GapOf s width corner result }
{
    let wdt = side_width(s, width, corner);
    let from = nat_of(mathf::to_i32(mathf::ceil(s.left + wdt)));
    let upto = nat_of(mathf::to_i32(mathf::floor(s.right - wdt)));
    Columns { from, upto }
}

// How far a point is past the straight parts of the top and the bottom.
fn past_sides(s: Rounded, xc: f32) -> f32
    ensures { result ≡ fabs_of (xc -ᶠ s.cx) -ᶠ (s.hw -ᶠ s.r) }
{
    mathf::fabs(xc - s.cx) - (s.hw - s.r)
}

// Whether no column from a up to b is past the straight parts of the top and the bottom.
fn level_columns(s: Rounded, a: usize, b: usize) -> bool
    requires { b ≤ 2048 }
    ensures { T result → LevelIn s a b }
{
    (a..b).all(|x| past_sides(s, centre(x as u16)) <= 0.0)
}

// Such columns between x0 and x1; none where they were not found.
#[tactic(auto, using(crate::proofs::Levels::level_none))]
fn level_part(s: Rounded, x0: usize, x1: usize) -> Columns
    requires { (x0 ≤ x1) × (x1 ≤ 2048) }
    ensures { LevelPart s x0 x1 result }
{
    let half = s.hw - s.r;
    let from = nat_of(mathf::to_i32(mathf::ceil(s.cx - half)))
        .min(x1)
        .max(x0);
    let upto = nat_of(mathf::to_i32(mathf::floor(s.cx + half)))
        .min(x1)
        .max(from);
    if level_columns(s, from, upto) {
        return Columns { from, upto };
    }
    Columns { from: x1, upto: x1 }
}

// An outline as its rows ask for it: the gaps of rows beside the corners and of others, the columns beside no corner, and the
// squared distances of a corner's centre beyond which it covers nothing.
#[derive(Clone, Copy)]
struct Frame {
    s: Rounded,
    width: f32,
    c: Color,
    bent: Columns,
    straight: Columns,
    level: Columns,
    far: f32,
    near: f32,
    ghost outside: { BlankFrom s.r width far },
    ghost inside: { BlankUpto s.r width near },
    ghost bent_gap: { GapOf s width true bent },
    ghost straight_gap: { GapOf s width false straight },
}

// A squared distance of a corner's centre just over half a pixel outside the band, from which on it covers nothing; a NaN where
// none was found.
fn blank_from(r: f32) -> f32
    ensures { (width : Float) → BlankFrom r width result }
{
    let e = r + 0.51;
    let k = e * e;
    if mathf::sqrt(k) - r >= 0.5 {
        k
    } else {
        f32::NAN
    }
}

// One just over half a pixel inside the band, up to which it covers nothing.
fn blank_upto(r: f32, width: f32) -> f32
    ensures { BlankUpto r width result }
{
    let e = mathf::max(r - width - 0.51, 0.0);
    let k = e * e;
    let m = mathf::sqrt(k) - r;
    let small = (-1048576.0 <= m) & (m <= 1048576.0);
    if small & (m + width <= -0.5) {
        k
    } else {
        f32::NAN
    }
}

// What the columns of a row share: the outline, the row's centre, how far that is past the sides, and its coverage beside the
// corners.
#[derive(Clone, Copy)]
struct Level {
    o: Frame,
    yc: f32,
    qy: f32,
    level: u32,
    ghost past: { qy ≡ fabs_of (yc -ᶠ o.s.cy) -ᶠ (o.s.hh -ᶠ o.s.r) },
    ghost covered: { level ≡ band_cover (qy -ᶠ o.s.r) o.width },
}

// The coverage of column x by its own distance.
#[tactic(auto, unfolding(crate::specs::Rows::column_cover))]
fn column_cover(s: Rounded, width: f32, x: usize) -> u32
    requires { x < 2048 }
    ensures { result ≡ column_cover s width x }
{
    let qx = past_sides(s, centre(x as u16));
    band_cover(qx - s.r, width)
}

impl Level {
    // The coverage of a point qx past one side and as far past the other as its row is: a root only near the band.
    fn corner_cover(self, qx: f32) -> u32
        ensures { result ≡ band_cover (sqrt_of (qx *ᶠ qx +ᶠ self.qy *ᶠ self.qy) -ᶠ self.o.s.r) self.o.width }
    {
        let d = qx * qx + self.qy * self.qy;
        if self.o.far <= d {
            return 0;
        }
        if d <= self.o.near {
            return 0;
        }
        band_cover(mathf::sqrt(d) - self.o.s.r, self.o.width)
    }

    // The coverage of a point of the row.
    #[tactic(auto, unfolding(paints::specs::Paints::corner_sd, paints::specs::Paints::rrect_sd))]
    fn cover(self, xc: f32) -> u32
        ensures { result ≡ band_cover (rounded_sd self.o.s xc self.yc) self.o.width }
    {
        let qx = past_sides(self.o.s, xc);
        if both_positive(qx, self.qy) {
            return self.corner_cover(qx);
        }
        if qx > self.qy {
            return band_cover(qx - self.o.s.r, self.o.width);
        }
        self.level
    }

    // The coverage of column x of a row that is past no side, from that of its column.
    fn side_cover(self, x: usize, col: u32) -> u32
        requires { x < 2048 }
        ensures { (self.qy ≤ᶠ f0) ≡ true → col ≡ column_cover self.o.s self.o.width x → result
            ≡ band_cover (rounded_sd self.o.s (centre_of x) self.yc) self.o.width }
    {
        let qx = past_sides(self.o.s, centre(x as u16));
        if qx > self.qy { col } else { self.level }
    }

    // A part of such a row.
    fn side_span(&self, px: &mut [u32], cols: &[u32; 2048], row: Span) -> u32
        requires row_fits { SpanFits row (length px.old) }
        requires at { self.now.yc ≡ centre_of row.y }
        requires low { (self.now.qy ≤ᶠ f0) ≡ true }
        requires holds { Holds (column_cover self.now.o.s self.now.o.width) row.x0 row.x1 cols.now }
        ensures { DrewSpan row (band_ink self.now.o.s self.now.o.width self.now.o.c) px.old result px.new }
    {
        row.draw(
            px,
            |x, p| blend_c_wide(p, self.o.c, self.side_cover(x, cols[x])),
        )
    }

    // At most 128 columns of any other row, by distance: their coverages first, then all pixels, several of which are blended
    // at once.
    fn corner_part(self, px: &mut [u32], row: Span) -> u32
        requires row_fits { SpanFits row (length px.old) }
        requires at { self.yc ≡ centre_of row.y }
        requires x1_bound { row.x1 ≤ row.x0 + 128 }
        ensures { DrewSpan row (band_ink self.o.s self.o.width self.o.c) px.old result px.new }
    {
        let covers: [u32; 128] = filled(
            0,
            row.x1 - row.x0,
            |k| self.cover(centre((row.x0 + k) as u16)),
        );
        row.draw(px, |x, p| blend_c_wide(p, self.o.c, covers[x - row.x0]))
    }

    // A part of such a row. Without a column it asks for nothing that its columns share.
    fn corner_span(&self, px: &mut [u32], row: Span) -> u32
        requires row_fits { SpanFits row (length px.old) }
        requires at { self.now.yc ≡ centre_of row.y }
        ensures { DrewSpan row (band_ink self.now.o.s self.now.o.width self.now.o.c) px.old result px.new }
    {
        if row.x0 >= row.x1 {
            return 0;
        }
        let mut n = 0;
        for x in (row.x0..row.x1).step_by(128) {
            let part = Span {
                x0: x,
                x1: (x + 128).min(row.x1),
                ..row
            };
            n += self.corner_part(px, part);
        }
        n
    }

    // A part of a row.
    #[inline(always)]
    fn band_span(&self, px: &mut [u32], cols: &[u32; 2048], row: Span) -> u32
        requires row_fits { SpanFits row (length px.old) }
        requires at { self.now.yc ≡ centre_of row.y }
        requires holds { Holds (column_cover self.now.o.s self.now.o.width) row.x0 row.x1 cols.now }
        ensures { DrewSpan row (band_ink self.now.o.s self.now.o.width self.now.o.c) px.old result px.new }
    {
        if self.qy <= 0.0 {
            self.side_span(px, cols, row)
        } else {
            self.corner_span(px, row)
        }
    }

    // A row where it is full: beside no corner it has one coverage.
    fn full_span(&self, px: &mut [u32], row: Span) -> u32
        requires row_fits { SpanFits row (length px.old) }
        requires at { self.now.yc ≡ centre_of row.y }
        requires part { LevelPart self.now.o.s row.x0 row.x1 self.now.o.level }
        ensures { DrewSpan row (band_ink self.now.o.s self.now.o.width self.now.o.c) px.old result px.new }
    {
        if self.qy >= 0.0 {
            let Columns { from, upto } = self.o.level;
            let middle = Span {
                x0: from,
                x1: upto,
                ..row
            };
            let left = self.corner_span(px, Span { x1: from, ..row });
            let between = middle.draw(px, |_, p| blend_c(p, self.o.c, self.level));
            let right = self.corner_span(px, Span { x0: upto, ..row });
            left + between + right
        } else {
            self.corner_span(px, row)
        }
    }

    // The two sides of a row, with a gap between them.
    fn side_spans(&self, px: &mut [u32], cols: &[u32; 2048], row: Span, g: Columns) -> u32
        requires row_fits { SpanFits row (length px.old) }
        requires at { self.now.yc ≡ centre_of row.y }
        requires gap { RowGap self.now.o.s self.now.o.width (centre_of row.y) g }
        requires not_full { full_row self.now.o.s (self.now.o.width +ᶠ f1) (centre_of row.y) ≡ false }
        requires holds { Holds (column_cover self.now.o.s self.now.o.width) row.x0 row.x1 cols.now }
        ensures { DrewSpan row (outline_ink self.now.o.s self.now.o.width self.now.o.c) px.old result px.new }
    {
        let a = g.from.min(row.x1).max(row.x0);
        let b = g.upto.min(row.x1).max(a);
        let left = self.band_span(px, cols, Span { x1: a, ..row });
        let right = self.band_span(px, cols, Span { x0: b, ..row });
        left + right
    }
}

impl Frame {
    // What the columns of a row share.
    fn level_at(self, yc: f32) -> Level
        ensures { (result.o ≡ self) × (result.yc ≡ yc) }
    {
        let qy = mathf::fabs(yc - self.s.cy) - (self.s.hh - self.s.r);
        let level = band_cover(qy - self.s.r, self.width);
        Level {
            o: self,
            yc,
            qy,
            level,
        }
    }

    // The gap of a row.
    #[tactic(auto, unfolding(crate::specs::Stroke::side_width, crate::specs::Stroke::gap_from, crate::specs::Stroke::gap_upto))]
    fn gap_at(self, yc: f32) -> Columns
        ensures { RowGap self.s self.width yc result }
    {
        if corner_row(self.s, yc) {
            self.bent
        } else {
            self.straight
        }
    }

    // A row: whole, or its two sides.
    fn draw_row(self, px: &mut [u32], cols: &[u32; 2048], row: Span) -> u32
        requires row_fits { SpanFits row (length px.old) }
        requires part { LevelPart self.s row.x0 row.x1 self.level }
        requires holds { Holds (column_cover self.s self.width) row.x0 row.x1 cols.now }
        ensures { DrewSpan row (outline_ink self.s self.width self.c) px.old result px.new }
    {
        let yc = centre(row.y as u16);
        let l = self.level_at(yc);
        if full_row(self.s, self.width + 1.0, yc) {
            l.full_span(px, row)
        } else {
            l.side_spans(px, cols, row, self.gap_at(yc))
        }
    }
}

// An area of the outline of a rectangle: what its rows share is worked out first.
fn outline_area(px: &mut [u32], pitch: usize, b: Area, s: Rounded, width: f32, c: Color) -> u32
    requires { AreaFits pitch b (length px.old) }
    ensures { DrewIn pitch b (outline_ink s width c) px.old result px.new }
{
    if b.y0 >= b.y1 {
        return 0;
    }
    let bent = gap(s, width, true);
    let straight = gap(s, width, false);
    let level = level_part(s, b.x0, b.x1);
    let o = Frame {
        s,
        width,
        c,
        bent,
        straight,
        level,
        far: blank_from(s.r),
        near: blank_upto(s.r, width),
    };
    let mut cols = [0; 2048];
    fill_in(&mut cols, b.x0, b.x1, |x| column_cover(s, width, x));
    b.draw(px, pitch, |px, row| o.draw_row(px, &cols, row))
}

// The outline of a rectangle whose floats were tested by the caller, or the refusal.
fn try_outline(
    canvas: Canvas,
    px: &mut [u32],
    ok: bool,
    rect: Rect,
    r: f32,
    width: f32,
    c: Color,
) -> Result<u64, Refusal>
    ensures { ShapeCalled (shape_number canvas (length px.old) ok) canvas px.old
        (drawn canvas.pitch canvas.clip (stroke_reach rect c) (stroke_ink rect r width c) px.old)
        (counted_of canvas result) px.new }
{
    canvas.check_shape(px.len(), ok)?;
    let b = clipped(stroke_reach(rect, c), canvas.clip);
    Ok(outline_area(px, canvas.pitch, b, Rounded::of(rect, r), width, c) as u64)
}

// The outline of a rounded rectangle.
pub fn stroke_rrect(
    canvas: Canvas,
    px: &mut [u32],
    rect: Rect,
    r: f32,
    width: f32,
    color: Color,
) -> Counted
    ensures { ShapeCalled (shape_number canvas (length px.old) (stroke_ok rect r width)) canvas px.old
        (drawn canvas.pitch canvas.clip (stroke_reach rect color) (stroke_ink rect r width color) px.old) result
        px.new }
{
    let ok = rect.in_range() & floats_ok(r, width);
    Counted::of(canvas, try_outline(canvas, px, ok, rect, r, width, color))
}

// The outline of a circle. The rectangle around it may pass the limit of the numbers given.
pub fn ring(
    canvas: Canvas,
    px: &mut [u32],
    cx: f32,
    cy: f32,
    r: f32,
    width: f32,
    color: Color,
) -> Counted
    ensures { ShapeCalled (shape_number canvas (length px.old) (ring_ok cx cy r width)) canvas px.old
        (drawn canvas.pitch canvas.clip (stroke_reach (circle_rect cx cy r) color)
        (stroke_ink (circle_rect cx cy r) r width color) px.old) result px.new }
{
    let ok = floats_ok(cx, cy) & floats_ok(r, width);
    let rect = Rect::new(cx - r, cy - r, r * 2.0, r * 2.0);
    Counted::of(canvas, try_outline(canvas, px, ok, rect, r, width, color))
}
