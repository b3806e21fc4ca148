// The items of a sheet as values. Reading is total: past the end a byte is 0.
#![tactic(auto)]

ghost use Rattle.std.specs.Prelude.{◌≡◌, ◌+◌, ◌<◌, min};
ghost use Rattle.sheet.specs.Check.{bytes_at};
ghost use Rattle.items.specs.Items.{read_color, read_pt, read_rect, read_paint, read_fill, read_stroke, read_line, read_poly};
ghost use Rattle.items.specs.Items.{read_shadow, read_chain, read_item, item_of, Lies, coords_from, ground_of};

use color::Color;
use geom::{Pt, Rect};
use paints::Paint;
use sheet::{Kind, PaintKind, byte_at, f32_at, kind_at, paint_kind_at, u16_at};
use std::ops::Range;

pub mod reaches;
pub mod reader;

// What an item says. The coordinates of a polygon and of a chain stay in its bytes: `count` points.
#[derive(Clone, Copy)]
pub enum Item {
    Push(Rect),
    Pop,
    Fill {
        rect: Rect,
        r: f32,
        paint: Paint,
    },
    Stroke {
        rect: Rect,
        r: f32,
        width: f32,
        color: Color,
    },
    Line {
        a: Pt,
        b: Pt,
        width: f32,
        color: Color,
    },
    Poly {
        paint: Paint,
        count: usize,
    },
    Shadow {
        rect: Rect,
        r: f32,
        blur: f32,
        color: Color,
        skip_inside: bool,
    },
    Chain {
        width: f32,
        color: Color,
        count: usize,
    },
    // A kind that no accepted sheet has; it draws nothing.
    Unknown,
}

// The ground of a sheet: bytes 4 to 6.
pub fn ground(s: &[u8]) -> Color
    ensures { result ≡ ground_of s.now }
{
    Color::rgb(byte_at(s, 4), byte_at(s, 5), byte_at(s, 6))
}

pub(crate) fn read_color(s: &[u8], p: usize) -> Color
    requires { p < 131072 }
    ensures { result ≡ read_color s.now p }
{
    Color::rgba(
        byte_at(s, p),
        byte_at(s, p + 1),
        byte_at(s, p + 2),
        byte_at(s, p + 3),
    )
}

pub(crate) fn read_pt(s: &[u8], p: usize) -> Pt
    requires { p < 131072 }
    ensures { result ≡ read_pt s.now p }
{
    Pt::new(f32_at(s, p), f32_at(s, p + 4))
}

// A rectangle of which bytes may lie past the end.
fn cut_rect(s: &[u8], p: usize) -> Rect
    requires { p < 131072 }
    ensures { result ≡ read_rect s.now p }
{
    Rect::new(
        f32_at(s, p),
        f32_at(s, p + 4),
        f32_at(s, p + 8),
        f32_at(s, p + 12),
    )
}

// One test for its sixteen bytes, so that none of them needs its own.
pub(crate) fn read_rect(s: &[u8], p: usize) -> Rect
    requires { p < 131072 }
    ensures { result ≡ read_rect s.now p }
{
    if s.len() < p + 16 {
        return cut_rect(s, p);
    }
    Rect::new(
        f32_at(s, p),
        f32_at(s, p + 4),
        f32_at(s, p + 8),
        f32_at(s, p + 12),
    )
}

// The rectangle of an item that has one, by its bytes.
pub fn rect_of(b: &[u8]) -> Rect
    ensures { result ≡ read_rect b.now 4 }
{
    read_rect(b, 4)
}

#[tactic(auto, unfolding(crate::specs::Items::read_paint))]
fn read_paint(s: &[u8], p: usize) -> Paint
    requires { p < 131000 }
    ensures { result ≡ read_paint s.now p }
{
    let c0 = read_color(s, p + 4);
    let c1 = read_color(s, p + 8);
    match paint_kind_at(s, p) {
        Ok(PaintKind::Solid) => Paint::Solid(c0),
        Ok(PaintKind::VGrad) => Paint::VGrad {
            y0: f32_at(s, p + 12),
            y1: f32_at(s, p + 16),
            c0,
            c1,
        },
        Ok(PaintKind::Linear) => Paint::Linear {
            p0: read_pt(s, p + 12),
            p1: read_pt(s, p + 20),
            c0,
            c1,
        },
        Ok(PaintKind::Radial) | Err(_) => Paint::Radial {
            c: read_pt(s, p + 12),
            r: f32_at(s, p + 20),
            c0,
            c1,
        },
    }
}

fn read_fill(s: &[u8], p: usize) -> Item
    requires { p < 65536 }
    ensures { result ≡ read_fill s.now p }
{
    Item::Fill {
        rect: read_rect(s, p + 4),
        r: f32_at(s, p + 20),
        paint: read_paint(s, p + 24),
    }
}

fn read_stroke(s: &[u8], p: usize) -> Item
    requires { p < 65536 }
    ensures { result ≡ read_stroke s.now p }
{
    Item::Stroke {
        rect: read_rect(s, p + 4),
        r: f32_at(s, p + 20),
        width: f32_at(s, p + 24),
        color: read_color(s, p + 28),
    }
}

fn read_line(s: &[u8], p: usize) -> Item
    requires { p < 65536 }
    ensures { result ≡ read_line s.now p }
{
    Item::Line {
        a: read_pt(s, p + 4),
        b: read_pt(s, p + 12),
        width: f32_at(s, p + 20),
        color: read_color(s, p + 24),
    }
}

fn read_poly(s: &[u8], p: usize) -> Item
    requires { p < 65536 }
    ensures { result ≡ read_poly s.now p }
{
    Item::Poly {
        paint: read_paint(s, p + 4),
        count: u16_at(s, p + 2),
    }
}

fn read_shadow(s: &[u8], p: usize) -> Item
    requires { p < 65536 }
    ensures { result ≡ read_shadow s.now p }
{
    Item::Shadow {
        rect: read_rect(s, p + 4),
        r: f32_at(s, p + 20),
        blur: f32_at(s, p + 24),
        color: read_color(s, p + 28),
        skip_inside: byte_at(s, p + 1) == 1,
    }
}

fn read_chain(s: &[u8], p: usize) -> Item
    requires { p < 65536 }
    ensures { result ≡ read_chain s.now p }
{
    Item::Chain {
        width: f32_at(s, p + 4),
        color: read_color(s, p + 8),
        count: u16_at(s, p + 2),
    }
}

// The coordinates of 64 points, x y x y, from a place on in the bytes of a polygon or a chain; it has the first of them.
pub fn coords(b: &[u8], from: u8) -> [f32; 128]
    ensures { result ≡ coords_from b.now from 128 }
{
    let mut xs = [0.0; 128];
    for (i, x) in xs.iter_mut().enumerate() {
        *x = f32_at(b, from as usize + 4 * i);
    }
    xs
}

// The item that starts at p.
#[tactic(auto, using(sheet::proofs::Tables::no_kind), unfolding(crate::specs::Items::read_item))]
fn read_item(s: &[u8], p: usize) -> Item
    requires { p < 65536 }
    ensures { result ≡ read_item s.now p }
{
    match kind_at(s, p) {
        Ok(Kind::Push) => Item::Push(read_rect(s, p + 4)),
        Ok(Kind::Pop) => Item::Pop,
        Ok(Kind::Fill) => read_fill(s, p),
        Ok(Kind::Stroke) => read_stroke(s, p),
        Ok(Kind::Line) => read_line(s, p),
        Ok(Kind::Poly) => read_poly(s, p),
        Ok(Kind::Shadow) => read_shadow(s, p),
        Ok(Kind::Chain) => read_chain(s, p),
        Err(_) => Item::Unknown,
    }
}

// Where `len` bytes from a place on lie among n, cut to the end.
fn cut(at: usize, len: usize, n: usize) -> Range<usize>
    requires { (at < 65536) × (len < 65536) }
    ensures { (result.start ≡ min at n) × (result.end ≡ min (at + len) n) }
{
    at.min(n)..(at + len).min(n)
}

// Where the bytes of the item k lie, of whose pair bytes may lie past the end.
#[tactic(auto, using(crate::proofs::Parts::lies))]
fn cut_part(s: &[u8], k: u16) -> Range<usize>
    ensures { Lies s.now k result.start result.end }
{
    let pair = 12 + 4 * k as usize;
    cut(u16_at(s, pair), u16_at(s, pair + 2), s.len())
}

// Where the bytes of the item k lie; no byte past the sheet's end is one of them. One test for the pair, so that none of its
// bytes needs its own.
#[tactic(auto, using(crate::proofs::Parts::lies))]
fn part_at(s: &[u8], k: u16) -> Range<usize>
    ensures { Lies s.now k result.start result.end }
{
    let pair = 12 + 4 * k as usize;
    if s.len() < pair + 4 {
        return cut_part(s, k);
    }
    cut(u16_at(s, pair), u16_at(s, pair + 2), s.len())
}

// The bytes of the item k, as a part of the sheet.
pub(crate) fn bytes_at(s: &[u8], k: u16) -> &[u8]
    ensures { result.now ≡ bytes_at s.now k }
{
    &s[part_at(s, k)]
}

// The item that some bytes are.
pub fn item_of(b: &[u8]) -> Item
    ensures { result ≡ item_of b.now }
{
    read_item(b, 0)
}
