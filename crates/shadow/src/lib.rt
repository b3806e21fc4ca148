// The soft shadow of a rounded rectangle. What draws returns how many pixels' values it altered.
#![tactic(auto)]

ghost use Rattle.std.specs.Prelude.{◌≡◌, ◌+◌, ◌<◌, ◌≤◌, length};
ghost use Rattle.mathf.specs.F32.{◌-ᶠ◌, ◌/ᶠ◌, ◌*ᶠ◌, f2, f96};
ghost use Rattle.mathf.specs.Root.{sqrt_of};
ghost use Rattle.mathf.specs.Convert.{to_i32};
ghost use Rattle.geom.specs.Int.{up};
ghost use Rattle.draw.specs.Draw.{drawn};
ghost use Rattle.draw.specs.Held.{Holds};
ghost use Rattle.draw.specs.Areas.{SpanFits, AreaFits, DrewSpan, DrewIn};
ghost use Rattle.gfx.specs.Calls.{ShapeCalled, shape_number, counted_of};
ghost use Rattle.paints.specs.Paints.{centre_of};
ghost use Rattle.shadow.specs.Shadow.{shadow_ok, shadow_reach, level_of, table, straight_from, straight_upto, corner_from};
ghost use Rattle.shadow.specs.Shadow.{corner_upto, shade_ink, shadow_ink};
ghost use Rattle.shadow.specs.Levels.{table_alpha, Faded};

use color::{Color, over, over_wide};
use draw::{Area, Span, clipped, filled};
use falloff::falloff;
use geom::checks::Refusal;
use geom::{IRect, Rect, floats_ok, nat_of};
use gfx::{Canvas, Counted};
use paints::{Rounded, centre};

// The reach: nothing where the colour has no alpha or the blur is not above 0.
pub fn shadow_reach(rect: Rect, blur: f32, c: Color) -> IRect
    ensures { result ≡ shadow_reach rect blur c }
{
    if c.a == 0 || blur <= 0.0 {
        return IRect::ZERO;
    }
    IRect::from_rect_outer(rect.inset(-blur))
}

// The alpha at t levels out.
fn table_alpha(lut: &[u32; 97], t: f32) -> u32
    ensures { result ≡ table_alpha lut.now t }
{
    if t <= 0.0 {
        return lut[0];
    }
    if t >= 96.0 {
        return 0;
    }
    let i = mathf::to_usize(t);
    lut[i]
}

// A squared distance of a corner's centre, from which on there is no shadow: a NaN where none was found. It is no Option: each
// pixel compares with it, and nothing is at a NaN or beyond, so that one comparison serves both cases.
fn far_of(r: f32, blur: f32, scale: f32) -> f32
    requires { scale ≡ f96 /ᶠ (f2 *ᶠ blur) }
    ensures { Faded r blur result }
{
    let m = blur + 0.01;
    let n = m + blur;
    let e = r + m + 0.01;
    let k = e * e;
    let out = (0.0 <= k) & (m <= mathf::sqrt(k) - r);
    let past = (0.0 < scale) & (scale <= 1048576.0) & (96.0 <= n * scale);
    let small = (0.0 <= m) & (m <= n) & (n <= 1048576.0);
    if out & past & small { k } else { 0.0 / 0.0 }
}

// A whole number as a column: 0 for those below 0.
fn column_at(x: f32) -> usize
    ensures { result ≡ up (to_i32 x) }
{
    nat_of(mathf::to_i32(x))
}

// The middle columns of a straight row, and of any other: the first, and the first past them.
fn straight_from(s: Rounded, blur: f32) -> usize
    ensures { result ≡ up (straight_from s blur) }
{
    column_at(mathf::ceil(s.cx - s.hw + blur))
}

fn straight_upto(s: Rounded, blur: f32) -> usize
    ensures { result ≡ up (straight_upto s blur) }
{
    column_at(mathf::floor(s.cx + s.hw - blur))
}

fn corner_from(s: Rounded) -> usize
    ensures { result ≡ up (corner_from s) }
{
    column_at(mathf::ceil(s.cx - (s.hw - s.r)))
}

fn corner_upto(s: Rounded) -> usize
    ensures { result ≡ up (corner_upto s) }
{
    column_at(mathf::floor(s.cx + (s.hw - s.r)))
}

// What every row of a shadow asks: its rectangle, the blur, the levels to a pixel, the squared distance of a corner's centre
// where it has faded, the colour, and the table of its levels. Rows lend it: by value it would be stored anew for each part.
#[derive(Clone, Copy)]
struct Shade<'a> {
    s: Rounded,
    blur: f32,
    scale: f32,
    far: f32,
    c: Color,
    lut: &'a [u32; 97],
    ghost levels: { lut.now ≡ table (level_of c.a) 97 },
    ghost scaled: { scale ≡ f96 /ᶠ (f2 *ᶠ blur) },
    ghost faded: { Faded s.r blur far },
}

impl Shade<'_> {
    ghost use Rattle.shadow.specs.Shadow.{alpha_of, straight_middle, straight_side, corner_side};
    ghost use Rattle.shadow.specs.Spans.{column_alpha, side_alpha, flat_ink, straight_ink, corner_ink, straight_row_ink};
    ghost use Rattle.shadow.specs.Spans.{corner_row_ink};

    // The alpha at a signed distance.
    fn alpha_of(self, sd: f32) -> u32
        ensures { result ≡ alpha_of self.entry.c.a self.entry.blur sd }
    {
        table_alpha(self.lut, (sd + self.blur) * self.scale)
    }

    // The alpha at the squared distance d of a corner's centre.
    fn corner_alpha(self, d: f32) -> u32
        ensures { result ≡ alpha_of self.entry.c.a self.entry.blur (sqrt_of d -ᶠ self.entry.s.r) }
    {
        if self.far <= d {
            return 0;
        }
        self.alpha_of(mathf::sqrt(d) - self.s.r)
    }

    // The alpha of column x by its own distance.
    fn column_alpha(self, x: usize) -> u32
        requires { x < 2048 }
        ensures { result ≡ column_alpha self.entry x }
    {
        self.alpha_of(mathf::fabs(centre(x as u16) - self.s.cx) - self.s.hw)
    }

    // That of the columns x0 up to x1, which all straight rows share: filled once a call.
    fn columns(self, x0: usize, x1: usize) -> [u32; 2048]
        requires { (x0 ≤ x1) × (x1 ≤ 2048) }
        ensures { Holds (column_alpha self.entry) x0 x1 result }
    {
        filled(x0, x1, |x| self.column_alpha(x))
    }

    // The alpha beside the middle of a straight row, from that of its column and that of the row.
    fn straight_side(self, sdy: f32, x: usize, col: u32, row: u32) -> u32
        requires { x < 2048 }
        ensures { col ≡ column_alpha self.entry x → row ≡ alpha_of self.entry.c.a self.entry.blur sdy → result
            ≡ straight_side self.entry.s self.entry.c.a self.entry.blur sdy (centre_of x) }
    {
        let sdx = mathf::fabs(centre(x as u16) - self.s.cx) - self.s.hw;
        if sdx > sdy { col } else { row }
    }

    // The alpha beside the middle of any other row.
    fn corner_side(self, qy: f32, xc: f32) -> u32
        ensures { result ≡ corner_side self.entry.s self.entry.c.a self.entry.blur qy xc }
    {
        let qx = mathf::fabs(xc - self.s.cx) - (self.s.hw - self.s.r);
        if qx > 0.0 {
            self.corner_alpha(qx * qx + qy * qy)
        } else {
            self.alpha_of(qy - self.s.r)
        }
    }

    // The alpha of the middle of a straight row: with `skip` none where it is full.
    fn straight_middle(self, skip: bool, sdy: f32) -> u32
        ensures { result ≡ straight_middle self.entry.c.a self.entry.blur skip sdy }
    {
        let v = self.alpha_of(sdy);
        let full = self.lut[0] <= v;
        if skip & full { 0 } else { v }
    }

    // A part of a row at one alpha. Inlined, since the part may be a pixel or two, which take less than a call.
    #[inline(always)]
    fn flat_span(self, px: &mut [u32], row: Span, v: u32) -> u32
        requires { SpanFits row (length px.old) }
        ensures { DrewSpan row (flat_ink self.entry.c v) px.old result px.new }
    {
        row.draw(px, |_, p| over(p, self.c, v))
    }

    // A part of a straight row beside its middle; `v` is the alpha by the row's own distance.
    fn straight_span(&self, px: &mut [u32], cols: &[u32; 2048], row: Span, sdy: f32, v: u32) -> u32
        requires row_fits { SpanFits row (length px.old) }
        requires holds { Holds (column_alpha self.now) row.x0 row.x1 cols.now }
        requires v_value { v ≡ alpha_of self.now.c.a self.now.blur sdy }
        ensures { DrewSpan row (straight_ink self.now sdy) px.old result px.new }
    {
        // A copy, so that the compiler sees that no store into px alters it: else each pixel reads it anew.
        let h = *self;
        row.draw(
            px,
            |x, p| over_wide(p, h.c, h.straight_side(sdy, x, cols[x], v)),
        )
    }

    // The alphas of n columns from x0 on of any other row, beside its middle.
    fn corner_alphas(self, x0: usize, n: usize, qy: f32) -> [u32; 128]
        requires { (x0 + n ≤ 2048) × (n ≤ 128) }
        ensures { Holds (side_alpha self.entry qy x0) 0 n result }
    {
        filled(0, n, |k| self.corner_side(qy, centre((x0 + k) as u16)))
    }

    // At most 128 columns of any other row, beside its middle: their alphas first, then all pixels.
    fn corner_part(self, px: &mut [u32], row: Span, qy: f32) -> u32
        requires row_fits { SpanFits row (length px.old) }
        requires x1_bound { row.x1 ≤ row.x0 + 128 }
        ensures { DrewSpan row (corner_ink self.entry qy) px.old result px.new }
    {
        let alphas = self.corner_alphas(row.x0, row.x1 - row.x0, qy);
        row.draw(px, |x, p| over_wide(p, self.c, alphas[x - row.x0]))
    }

    // A part of any other row, beside its middle.
    fn corner_span(&self, px: &mut [u32], row: Span, qy: f32) -> u32
        requires { SpanFits row (length px.old) }
        ensures { DrewSpan row (corner_ink self.now qy) px.old result px.new }
    {
        let mut n = 0;
        for x in (row.x0..row.x1).step_by(128) {
            n += self.corner_part(
                px,
                Span {
                    x0: x,
                    x1: row.x1.min(x + 128),
                    ..row
                },
                qy,
            );
        }
        n
    }

    // A row where it is straight.
    fn straight_row(
        &self,
        px: &mut [u32],
        cols: &[u32; 2048],
        row: Span,
        skip: bool,
        sdy: f32,
    ) -> u32
        requires row_fits { SpanFits row (length px.old) }
        requires holds { Holds (column_alpha self.now) row.x0 row.x1 cols.now }
        ensures { DrewSpan row (straight_row_ink self.now skip sdy) px.old result px.new }
    {
        let a = straight_from(self.s, self.blur).min(row.x1).max(row.x0);
        let b = straight_upto(self.s, self.blur).min(row.x1).max(a);
        let m = self.straight_middle(skip, sdy);
        let v = self.alpha_of(sdy);
        let left = self.straight_span(px, cols, Span { x1: a, ..row }, sdy, v);
        let middle = self.flat_span(
            px,
            Span {
                x0: a,
                x1: b,
                ..row
            },
            m,
        );
        let right = self.straight_span(px, cols, Span { x0: b, ..row }, sdy, v);
        left + middle + right
    }

    // A row where it is not.
    fn corner_row(&self, px: &mut [u32], row: Span, qy: f32) -> u32
        requires { SpanFits row (length px.old) }
        ensures { DrewSpan row (corner_row_ink self.now qy) px.old result px.new }
    {
        let a = corner_from(self.s).min(row.x1).max(row.x0);
        let b = corner_upto(self.s).min(row.x1).max(a);
        let v = self.alpha_of(qy - self.s.r);
        let left = self.corner_span(px, Span { x1: a, ..row }, qy);
        let middle = self.flat_span(
            px,
            Span {
                x0: a,
                x1: b,
                ..row
            },
            v,
        );
        let right = self.corner_span(px, Span { x0: b, ..row }, qy);
        left + middle + right
    }

    // Any row.
    fn shade_row(&self, px: &mut [u32], cols: &[u32; 2048], row: Span, skip: bool) -> u32
        requires row_fits { SpanFits row (length px.old) }
        requires holds { Holds (column_alpha self.now) row.x0 row.x1 cols.now }
        ensures { DrewSpan row (shade_ink self.now.s self.now.blur self.now.c skip) px.old result px.new }
    {
        let dy = mathf::fabs(centre(row.y as u16) - self.s.cy);
        let qy = dy - (self.s.hh - self.s.r);
        if qy <= 0.0 {
            self.straight_row(px, cols, row, skip, dy - self.s.hh)
        } else {
            self.corner_row(px, row, qy)
        }
    }

    // An area: what its straight rows share is worked out first.
    fn shade_box(self, px: &mut [u32], pitch: usize, b: Area, skip: bool) -> u32
        requires { AreaFits pitch b (length px.old) }
        ensures { DrewIn pitch b (shade_ink self.entry.s self.entry.blur self.entry.c skip) px.old result px.new }
    {
        let cols = self.columns(b.x0, b.x1);
        b.draw(px, pitch, |px, row| self.shade_row(px, &cols, row, skip))
    }
}

// The same of a rectangle's shadow: what all rows share is worked out first.
fn shade_area(
    px: &mut [u32],
    pitch: usize,
    b: Area,
    s: Rounded,
    blur: f32,
    c: Color,
    skip: bool,
) -> u32
    requires { AreaFits pitch b (length px.old) }
    ensures { DrewIn pitch b (shade_ink s blur c skip) px.old result px.new }
{
    let lut = falloff(c.a);
    let scale = 96.0 / (2.0 * blur);
    let far = far_of(s.r, blur, scale);
    let h = Shade {
        s,
        blur,
        scale,
        far,
        c,
        lut: &lut,
    };
    h.shade_box(px, pitch, b, skip)
}

// The soft shadow of a rounded rectangle, or the refusal.
fn try_shadow(
    canvas: Canvas,
    px: &mut [u32],
    rect: Rect,
    r: f32,
    blur: f32,
    color: Color,
    skip: bool,
) -> Result<u64, Refusal>
    ensures { ShapeCalled (shape_number canvas (length px.old) (shadow_ok rect r blur)) canvas px.old
        (drawn canvas.pitch canvas.clip (shadow_reach rect blur color) (shadow_ink rect r blur color skip) px.old)
        (counted_of canvas result) px.new }
{
    canvas.check_shape(px.len(), rect.in_range() & floats_ok(r, blur))?;
    let b = clipped(shadow_reach(rect, blur, color), canvas.clip);
    if b.y1 <= b.y0 {
        return Ok(0);
    }
    Ok(shade_area(px, canvas.pitch, b, Rounded::of(rect, r), blur, color, skip) as u64)
}

// The soft shadow of a rounded rectangle; `blur` is half the width of its falloff.
pub fn shadow_rrect(
    canvas: Canvas,
    px: &mut [u32],
    rect: Rect,
    r: f32,
    blur: f32,
    color: Color,
    skip: bool,
) -> Counted
    ensures { ShapeCalled (shape_number canvas (length px.old) (shadow_ok rect r blur)) canvas px.old
        (drawn canvas.pitch canvas.clip (shadow_reach rect blur color) (shadow_ink rect r blur color skip) px.old)
        result px.new }
{
    Counted::of(canvas, try_shadow(canvas, px, rect, r, blur, color, skip))
}
