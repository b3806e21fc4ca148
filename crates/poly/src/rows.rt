// From the accumulator to the pixels. What draws returns how many pixels' values it altered.
ghost use Rattle.std.specs.Prelude.{◌≡◌, ℕ, ◌+◌, ◌-◌, ◌≤◌, nat_abs, length};
ghost use Rattle.draw.specs.Areas.{clip_to, SpanFits, AreaFits, DrewSpan, DrewIn};
ghost use Rattle.accum.specs.Rooms.{Room};
ghost use Rattle.bounds.specs.Bounds.{reach_of};
ghost use Rattle.bounds.specs.Plans.{Near};
ghost use Rattle.poly.specs.Poly.{run_sum, offset_of, cover_of, ink_in};
ghost use Rattle.poly.specs.Rooms.{Over, colour_in, ink_from, TakesCovered, InksCovered};

use bounds::{PolyBox, reach_of};
use color::{Color, Inked, blend_c};
use draw::{Span, clipped};
use geom::{IRect, nat_of};
use paints::{Paint, along_line, centre};

// A signed area as a coverage, 0 to 255. Most of a box lies outside the polygon: there nothing is converted.
#[tactic(auto, using(crate::proofs::Coverage::below_one), unfolding(crate::specs::Poly::cover_of))]
fn cover(a: f32) -> u32
    ensures { result ≡ cover_of a }
{
    let v = mathf::saturate(mathf::fabs(a)) * 255.0 + 0.5;
    if v < 1.0 {
        return 0;
    }
    mathf::to_u32(v)
}

// Where column or row x of the canvas lies in the box.
fn offset(x: usize, origin: i32) -> usize
    requires { (x ≤ 2048) × (nat_abs origin ≤ 8193) }
    ensures { result ≡ offset_of x origin }
{
    nat_of(x as i32 - origin)
}

// The sum of the n words from i.
fn run_sum(acc: &[f32], i: usize, n: usize) -> f32
    requires { i + n ≤ length acc.now }
    ensures { result ≡ run_sum acc.now i n }
{
    let mut a = 0.0;
    for v in &acc[i..i + n] {
        a += *v;
    }
    a
}

// A row of the canvas, whose words in the accumulator start at ls, where its first column is the one after `skip`. A closure inks
// each pixel that is covered, by its column, its old value and its coverage. The sum starts at the box's first column, wherever
// the clip starts; it runs from pixel to pixel, so the loop stands here: the closure of `Span::draw` is an `Fn` and keeps none.
fn ink_row<F: Fn(usize, u32, u32) -> Inked>(
    px: &mut [u32],
    acc: &[f32],
    row: Span,
    ls: usize,
    skip: usize,
    ink: F,
) -> u32
    requires span_fits { SpanFits row (length px.old) }
    requires x0_in_bounds { ls + (skip + (row.x1 - row.x0)) ≤ length acc.now }
    requires callable { TakesCovered (F.pre ink) row }
    ensures { (colour : ℕ → Color) → InksCovered (F.post ink) row colour
        → DrewSpan row (ink_from acc.now ls skip row.x0 colour) px.old result px.new }
{
    let first = row.y * row.pitch;
    let mut a = run_sum(acc, ls, skip);
    let mut n = 0;
    for x in row.x0..row.x1 {
        a += acc[ls + (skip + (x - row.x0))];
        let cv = cover(a);
        if cv == 0 {
            continue;
        }
        let i = first + x;
        let q = ink(x, px[i], cv);
        px[i] = q.value;
        n += q.altered as u32;
    }
    n
}

// The same by the kind of the paint.
fn sum_row(px: &mut [u32], acc: &[f32], row: Span, ls: usize, skip: usize, paint: Paint) -> u32
    requires span_fits { SpanFits row (length px.old) }
    requires x0_in_bounds { ls + (skip + (row.x1 - row.x0)) ≤ length acc.now }
    ensures { DrewSpan row (ink_from acc.now ls skip row.x0 (colour_in paint row.y)) px.old result px.new }
{
    let cy = centre(row.y as u16);
    match paint {
        Paint::Solid(c) => ink_row(px, acc, row, ls, skip, |_, p, cv| blend_c(p, c, cv)),
        Paint::Linear { p0, p1, c0, c1 } => ink_row(px, acc, row, ls, skip, |x, p, cv| {
            blend_c(p, c0.mix(c1, along_line(p0, p1, centre(x as u16), cy)), cv)
        }),
        _ => ink_row(px, acc, row, ls, skip, |x, p, cv| {
            blend_c(p, paint.at(centre(x as u16), cy), cv)
        }),
    }
}

// A row of the canvas.
fn poly_row(px: &mut [u32], acc: &[f32], row: Span, g: PolyBox, paint: Paint) -> u32
    requires span_fits { SpanFits row (length px.old) }
    requires room { Room g.bw g.bh (length acc.now) × Near g × Over g.ox g.bw row.x0 row.x1
        × Over g.oy g.bh row.y (row.y + 1) }
    ensures { DrewSpan row (ink_in acc.now g paint) px.old result px.new }
{
    let ls = offset(row.y, g.oy) * (g.bw + 2);
    let skip = offset(row.x0, g.ox);
    sum_row(px, acc, row, ls, skip, paint.in_row(centre(row.y as u16)))
}

// The pixels of the box that a clip lets through.
pub(crate) fn draw_box(
    px: &mut [u32],
    acc: &[f32],
    pitch: usize,
    clip: IRect,
    g: PolyBox,
    paint: Paint,
) -> u32
    requires area_fits { AreaFits pitch (clip_to (reach_of g) clip) (length px.old) }
    requires room { Room g.bw g.bh (length acc.now) × Near g }
    ensures { DrewIn pitch (clip_to (reach_of g) clip) (ink_in acc.now g paint) px.old result px.new }
{
    let area = clipped(reach_of(g), clip);
    if area.x1 <= area.x0 {
        return 0;
    }
    area.draw(px, pitch, |px, row| poly_row(px, acc, row, g, paint))
}
