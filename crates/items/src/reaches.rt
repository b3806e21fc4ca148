// What a shape says of itself by its bytes: its reach, and the scratch words that it needs.
ghost use Rattle.std.specs.Prelude.{◌≡◌, ◌*◌, ◌<◌, ◌≤◌, MatchOption};
ghost use Rattle.std.specs.Fn.{FnOnceReturnsAt};
ghost use Rattle.poly.specs.Poly.{reach_in, need_in};
ghost use Rattle.color.specs.declared.Color.{Color};
ghost use Rattle.sheet.specs.Bytes.{float_at};
ghost use Rattle.sheet.specs.Kinds.{points_at};
ghost use Rattle.items.specs.Items.{item_of, points_of, coords_from};
ghost use Rattle.items.specs.Format.{chain_reach, reach_of, need_of};

use crate::{coords, read_color, read_pt, read_rect, rect_of};
use fill::fill_reach;
use geom::IRect;
use line::{line_reach, polyline_reach};
use poly::{poly_need, poly_reach};
use shadow::shadow_reach;
use sheet::{Kind, f32_at, kind_at, u16_at};
use stroke::stroke_reach;

// What a function makes of the points of a polygon or of a chain, whose coordinates start at `from`; of more than 64, which no
// accepted sheet has, nothing.
#[tactic(auto, using(crate::proofs::PolyPoints::coords_take, crate::proofs::PolyPoints::coords_length))]
fn with_points<R, F: FnOnce(&[f32]) -> R>(b: &[u8], from: u8, f: F) -> Option<R>
    requires { F.IsAlwaysCallable f }
    ensures { MatchOption result (64 < points_at b.now 0)
        (λ r. (points_at b.now 0 ≤ 64) × FnOnceReturnsAt F.FnOnce f (coords_from b.now from (2 * points_at b.now 0)) r) }
{
    let n = u16_at(b, 2);
    if n > 64 {
        return None;
    }
    let xs = coords(b, from);
    Some(f(&xs[..2 * n]))
}

// The reach of a polygon's points, and the words that they need.
#[tactic(auto, using(crate::proofs::Shapeless::many_reach), unfolding(geom::specs::Box::no_box))]
fn points_reach(b: &[u8]) -> IRect
    ensures { result ≡ reach_in (points_of b.now (points_at b.now 0)) }
{
    with_points(b, 32, poly_reach).unwrap_or(IRect::ZERO)
}

#[tactic(auto, using(crate::proofs::Shapeless::many_need))]
fn points_need(b: &[u8]) -> usize
    ensures { result ≡ need_in (points_of b.now (points_at b.now 0)) }
{
    with_points(b, 32, poly_need).unwrap_or(0)
}

// The reach of a chain's lines.
#[tactic(auto, using(crate::proofs::Shapeless::many_chain, crate::proofs::Shapeless::few_chain), unfolding(geom::specs::Box::no_box))]
fn chain_reach(b: &[u8]) -> IRect
    ensures { (c : Color) → result ≡ chain_reach b.now (float_at b.now 4) c (points_at b.now 0) }
{
    let width = f32_at(b, 4);
    with_points(b, 12, |points| polyline_reach(points, width)).unwrap_or(IRect::ZERO)
}

// The reach of the item that some bytes are; what is no shape has none.
#[tactic(auto, using(sheet::proofs::Tables::no_kind), unfolding(crate::specs::Items::read_item, crate::specs::Format::reach_of, geom::specs::Box::no_box))]
pub fn reach(b: &[u8]) -> IRect
    ensures { result ≡ reach_of b.now (item_of b.now) }
{
    match kind_at(b, 0) {
        Ok(Kind::Fill) => fill_reach(read_rect(b, 4)),
        Ok(Kind::Stroke) => stroke_reach(read_rect(b, 4), read_color(b, 28)),
        Ok(Kind::Line) => line_reach(read_pt(b, 4), read_pt(b, 12), f32_at(b, 20)),
        Ok(Kind::Poly) => points_reach(b),
        Ok(Kind::Shadow) => shadow_reach(read_rect(b, 4), f32_at(b, 24), read_color(b, 28)),
        Ok(Kind::Chain) => chain_reach(b),
        Ok(Kind::Push | Kind::Pop) | Err(_) => IRect::ZERO,
    }
}

// The same, for walks: a fill's is that of its rectangle, which spares most shapes of a ticket a call.
#[tactic(auto, unfolding(crate::specs::Items::read_item, crate::specs::Format::reach_of))]
pub fn reach_of(b: &[u8]) -> IRect
    ensures { result ≡ reach_of b.now (item_of b.now) }
{
    if kind_at(b, 0) == Ok(Kind::Fill) {
        return fill_reach(rect_of(b));
    }
    reach(b)
}

// The scratch words that the item needs: a polygon alone needs any.
#[tactic(auto, using(sheet::proofs::Tables::no_kind), unfolding(crate::specs::Items::read_item, crate::specs::Format::need_of))]
pub fn need(b: &[u8]) -> usize
    ensures { result ≡ need_of b.now (item_of b.now) }
{
    match kind_at(b, 0) {
        Ok(Kind::Poly) => points_need(b),
        _ => 0,
    }
}
