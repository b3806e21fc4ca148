// The kinds of items and of paints, and the check of one item.
ghost use Rattle.std.specs.Prelude.{◌≡◌, ◌<◌};
ghost use Rattle.geom.specs.Refusals.{number_of};
ghost use Rattle.sheet.specs.Kinds.{kind_at, kind_code, paint_code, IsKind, IsPaint, row, layout_of, layout_at, paint_layout};
ghost use Rattle.sheet.specs.Kinds.{length_ok, points_ok, paint_bytes_ok, skip_ok, bytes_ok, paint_floats_ok, width_ok};
ghost use Rattle.sheet.specs.Kinds.{floats_ok, saved_ok, item_number, depth_after};
ghost use Rattle.sheet.specs.Bytes.{byte_at};

use crate::bytes::{all_floats, all_zero, byte_at, f32_at, u16_at};
use geom::checks::{Refusal, ensure};
use geom::float_ok;

// What an item is.
#[derive(Clone, Copy, Debug, PartialEq, Eq)]
pub enum Kind {
    Push,
    Pop,
    Fill,
    Stroke,
    Line,
    Poly,
    Shadow,
    Chain,
}

// The kind with a number; a number that no kind has is refused.
impl TryFrom<u8> for Kind {
    type Error = Refusal;

    ghost try_from_gives = { IsKind };

    fn try_from(code: u8) -> Result<Self, Refusal> {
        match code {
            1 => Ok(Kind::Push),
            2 => Ok(Kind::Pop),
            3 => Ok(Kind::Fill),
            4 => Ok(Kind::Stroke),
            5 => Ok(Kind::Line),
            6 => Ok(Kind::Poly),
            7 => Ok(Kind::Shadow),
            8 => Ok(Kind::Chain),
            0 | 9..=255 => Err(Refusal::Kind),
        }
    }
}

// The kind of the item that starts at a place.
pub fn kind_at(s: &[u8], at: usize) -> Result<Kind, Refusal>
    ensures { IsKind (kind_at s.now at) result }
{
    Kind::try_from(byte_at(s, at))
}

// What a paint is.
#[derive(Clone, Copy, Debug, PartialEq, Eq)]
pub enum PaintKind {
    Solid,
    VGrad,
    Linear,
    Radial,
}

// The kind of paint with a number; a number that none has is refused.
impl TryFrom<u8> for PaintKind {
    type Error = Refusal;

    ghost try_from_gives = { IsPaint };

    fn try_from(code: u8) -> Result<Self, Refusal> {
        match code {
            0 => Ok(PaintKind::Solid),
            1 => Ok(PaintKind::VGrad),
            2 => Ok(PaintKind::Linear),
            3 => Ok(PaintKind::Radial),
            4..=255 => Err(Refusal::ZeroByte),
        }
    }
}

// The kind of the paint that starts at a place.
pub fn paint_kind_at(s: &[u8], at: usize) -> Result<PaintKind, Refusal>
    ensures { IsPaint (byte_at s.now at) result }
{
    PaintKind::try_from(byte_at(s, at))
}

// Where the fields of an item, or of a paint, lie, counted from its first byte: its length; the bytes that it leaves zero, from
// `zero` on; its floats, from `float` on; its paint, 0 where it has none.
#[derive(Clone, Copy)]
struct Layout {
    length: u32,
    zero: u8,
    zeros: u8,
    float: u8,
    floats: u32,
    paint: u8,
}

// An item of which bytes 1 to 3 are zero, and then come its floats.
fn plain(length: u32, floats: u32) -> Layout
    ensures { result ≡ row length 1 3 4 floats 0 }
{
    Layout {
        length,
        zero: 1,
        zeros: 3,
        float: 4,
        floats,
        paint: 0,
    }
}

// An item of a kind; m is a polygon's or a chain's number of points.
fn layout_of(kind: Kind, m: u32) -> Layout
    requires { m < 65536 }
    ensures { result ≡ layout_of (kind_code kind) m }
{
    match kind {
        Kind::Push => plain(20, 4),
        Kind::Pop => plain(4, 0),
        Kind::Fill => Layout {
            paint: 24,
            ..plain(52, 5)
        },
        Kind::Stroke => plain(32, 6),
        Kind::Line => plain(28, 5),
        Kind::Poly => Layout {
            zeros: 1,
            float: 32,
            paint: 4,
            ..plain(32 + 8 * m, 2 * m)
        },
        Kind::Shadow => Layout {
            zero: 2,
            zeros: 2,
            ..plain(32, 6)
        },
        Kind::Chain => Layout {
            zeros: 1,
            float: 12,
            ..plain(12 + 8 * m, 2 * m)
        },
    }
}

// A paint whose bytes are all used: its two colours, and four floats.
const WHOLE: Layout = Layout {
    length: 28,
    zero: 28,
    zeros: 0,
    float: 12,
    floats: 4,
    paint: 0,
};

// A paint of a kind, beside the three zeros after its kind.
fn paint_layout(kind: PaintKind) -> Layout
    ensures { result ≡ paint_layout (paint_code kind) }
{
    match kind {
        PaintKind::Solid => Layout {
            zero: 8,
            zeros: 20,
            floats: 0,
            ..WHOLE
        },
        PaintKind::VGrad => Layout {
            zero: 20,
            zeros: 8,
            floats: 2,
            ..WHOLE
        },
        PaintKind::Linear => WHOLE,
        PaintKind::Radial => Layout {
            zero: 24,
            zeros: 4,
            floats: 3,
            ..WHOLE
        },
    }
}

#[tactic(auto, unfolding(crate::specs::Kinds::layout_at))]
fn layout_at(s: &[u8], at: usize, kind: Kind) -> Layout
    requires { (at < 65536) × (kind_code kind ≡ kind_at s.now at) }
    ensures { result ≡ layout_at s.now at }
{
    layout_of(kind, u16_at(s, at + 2) as u32)
}

// Number 4 is not given to an item of a known kind: it has four bytes at least, and the length of its kind.
#[tactic(auto, unfolding(crate::specs::Kinds::length_ok))]
fn length_ok(s: &[u8], at: usize, kind: Kind, len: usize) -> bool
    requires { (at < 65536) × (kind_code kind ≡ kind_at s.now at) }
    ensures { result ≡ length_ok s.now at len }
{
    4 <= len && len == layout_at(s, at, kind).length as usize
}

// Nor 13: at most 64 points, of a polygon and of a chain.
#[tactic(auto, unfolding(crate::specs::Kinds::points_ok))]
fn points_ok(s: &[u8], at: usize, kind: Kind) -> bool
    requires { (at < 65536) × (kind_code kind ≡ kind_at s.now at) }
    ensures { result ≡ points_ok s.now at }
{
    let pointed = matches!(kind, Kind::Poly | Kind::Chain);
    !pointed || u16_at(s, at + 2) <= 64
}

#[tactic(auto, unfolding(crate::specs::Kinds::paint_bytes_ok))]
fn paint_bytes_ok(s: &[u8], p: usize) -> bool
    requires { p < 131072 }
    ensures { result ≡ paint_bytes_ok s.now p }
{
    match paint_kind_at(s, p) {
        Ok(kind) => {
            let f = paint_layout(kind);
            all_zero(s, p + 1, 3) && all_zero(s, p + f.zero as usize, f.zeros as usize)
        }
        Err(_) => false,
    }
}

// The flag of a shadow.
fn skip_ok(s: &[u8], at: usize, kind: Kind) -> bool
    requires { (at < 65536) × (kind_code kind ≡ kind_at s.now at) }
    ensures { result ≡ skip_ok s.now at }
{
    kind != Kind::Shadow || byte_at(s, at + 1) <= 1
}

// Nor 5: zero bytes, `skip_inside`, the paint's kind and what it leaves zero.
#[tactic(auto, unfolding(crate::specs::Kinds::bytes_ok))]
fn bytes_ok(s: &[u8], at: usize, kind: Kind) -> bool
    requires { (at < 65536) × (kind_code kind ≡ kind_at s.now at) }
    ensures { result ≡ bytes_ok s.now at }
{
    let f = layout_at(s, at, kind);
    all_zero(s, at + f.zero as usize, f.zeros as usize)
        && skip_ok(s, at, kind)
        && (f.paint == 0 || paint_bytes_ok(s, at + f.paint as usize))
}

#[tactic(auto, unfolding(crate::specs::Kinds::paint_floats_ok, crate::specs::Bytes::all_at))]
fn paint_floats_ok(s: &[u8], p: usize) -> bool
    requires { p < 131072 }
    ensures { result ≡ paint_floats_ok s.now p }
{
    paint_kind_at(s, p).map_or(
        true,
        |kind| all_floats(s, p + 12, paint_layout(kind).floats as usize),
    )
}

// The width of a chain, which stands apart from its points.
fn width_ok(s: &[u8], at: usize, kind: Kind) -> bool
    requires { (at < 65536) × (kind_code kind ≡ kind_at s.now at) }
    ensures { result ≡ width_ok s.now at }
{
    kind != Kind::Chain || float_ok(f32_at(s, at + 4))
}

// Nor 6: the floats of the item, the width of a chain, and the floats that its paint uses.
#[tactic(auto, unfolding(crate::specs::Kinds::floats_ok))]
fn floats_ok(s: &[u8], at: usize, kind: Kind) -> bool
    requires { (at < 65536) × (kind_code kind ≡ kind_at s.now at) }
    ensures { result ≡ floats_ok s.now at }
{
    let f = layout_at(s, at, kind);
    all_floats(s, at + f.float as usize, f.floats as usize)
        && width_ok(s, at, kind)
        && (f.paint == 0 || paint_floats_ok(s, at + f.paint as usize))
}

// The check of an item where `depth` clips are saved: 4, 13, 5, 6, and 7 for a push where 16 are.
#[tactic(auto, unfolding(crate::specs::Kinds::item_number, crate::specs::Kinds::length_ok, crate::specs::Kinds::saved_ok))]
pub(crate) fn check_item(s: &[u8], at: usize, len: usize, depth: usize) -> Result<(), Refusal>
    requires { at < 65536 }
    ensures { number_of result ≡ item_number s.now at len depth }
{
    let kind = kind_at(s, at)?;
    ensure(length_ok(s, at, kind, len), Refusal::Kind)?;
    ensure(points_ok(s, at, kind), Refusal::Points)?;
    ensure(bytes_ok(s, at, kind), Refusal::ZeroByte)?;
    ensure(floats_ok(s, at, kind), Refusal::Float)?;
    ensure(kind != Kind::Push || depth < 16, Refusal::Clips)
}

// How many clips are saved after an item of a kind.
pub(crate) fn depth_after(kind: Kind, depth: usize) -> usize
    requires { depth < 65536 }
    ensures { result ≡ depth_after (kind_code kind) depth }
{
    match kind {
        Kind::Push => depth + 1,
        Kind::Pop => depth.saturating_sub(1),
        _ => depth,
    }
}
