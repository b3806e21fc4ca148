// How two sheets differ: what a patch needs to know of them. Every function here takes any bytes at all.
#![tactic(auto)]

ghost use Rattle.std.specs.Prelude.{◌≡◌, ◌&&◌};
ghost use Rattle.geom.specs.Box as Box;
ghost use Rattle.geom.specs.Box.{meet, no_box};
ghost use Rattle.sheet.specs.Check.{count_of};
ghost use Rattle.redraw.specs.Sheet.{canvas, same_header};
ghost use Rattle.items.specs.Items.{item_of};
ghost use Rattle.items.specs.Format.{same_bytes, same_item, item_in, reach_of, sheet_of};
ghost use Rattle.clips.specs.States.{start_of, is_shape};
ghost use Rattle.compare.specs.Compare.{change_from, found, told_by, settled, changed_by};

use clips::{canvas_of, is_shape, start_state, state_after};
use geom::checks::{Refusal, ensure};
use geom::{IRect, join};
use gfx::Canvas;
use items::ground;
use items::reaches::reach;
use items::reader::Items;
use sheet::u16_at;

// Whether two runs of bytes are the same.
#[tactic(auto, using(crate::proofs::Bytes::eq_same))]
pub fn same_bytes(a: &[u8], b: &[u8]) -> bool
    ensures { result ≡ same_bytes a.now b.now }
{
    a == b
}

// Whether two items are the same, by their bytes.
#[tactic(auto, using(items::proofs::Lawful::same_in))]
fn same(a: &[u8], b: &[u8]) -> bool
    ensures { result ≡ same_item (item_in a.now) (item_in b.now) }
{
    same_bytes(a, b)
}

// Whether both of two items are shapes.
fn both_shapes(a: &[u8], b: &[u8]) -> bool
    ensures { result ≡ is_shape (item_in a.now) && is_shape (item_in b.now) }
{
    is_shape(a) && is_shape(b)
}

// What the reach of an item, cut by the clip in force at it, has in a canvas.
fn cut(canvas: IRect, clip: IRect, b: &[u8]) -> IRect
    ensures { result ≡ meet canvas (meet clip (reach_of b.now (item_of b.now))) }
{
    canvas.intersect(clip.intersect(reach(b)))
}

// The smallest box around a box and what the reaches of two items, cut by the clip in force at them, have in a canvas.
fn area_with(area: IRect, canvas: IRect, clip: IRect, old: &[u8], new: &[u8]) -> IRect
    ensures { result ≡ Box.join (Box.join area (meet canvas (meet clip (reach_of old.now (item_of old.now)))))
        (meet canvas (meet clip (reach_of new.now (item_of new.now)))) }
{
    let a = cut(canvas, clip, old);
    let b = cut(canvas, clip, new);
    join(join(area, a), b)
}

// What so many pairs of shapes that differ tell, by the box around what their reaches, under their clips, have in the canvas; an
// empty one is four zeros.
#[tactic(auto, unfolding(geom::specs::Box::no_box))]
fn settled(count: u16, area: IRect) -> Result<IRect, Refusal>
    ensures { told_by result ≡ settled count (Box.join area no_box) }
{
    ensure(count <= 32, Refusal::Many)?;
    Ok(join(area, IRect::ZERO))
}

// What two sheets of as many items each tell. A push or a pop that differs is refused by 10, wherever it stands; so the loop
// goes on past 32 shapes, and the clip is that of both sheets all along. A shape leaves the state, which is copied at a push or
// a pop alone.
fn changed_in(old: &[u8], new: &[u8]) -> Result<IRect, Refusal>
    requires { count_of old.now ≡ count_of new.now }
    ensures { told_by result ≡ changed_by (canvas (sheet_of new.now))
        (change_from old.now new.now (count_of new.now) 0 (start_of new.now)) }
{
    let canvas = canvas_of(new);
    let mut state = start_state(new);
    let mut area = IRect::ZERO;
    let mut count = 0;
    for (a, b) in Items::of(old).zip(Items::of(new)) {
        if !same(a, b) {
            ensure(both_shapes(a, b), Refusal::Difference)?;
            area = area_with(area, canvas, state.clip, a, b);
            count += 1;
        } else if !is_shape(b) {
            state = state_after(b, state);
        }
    }
    settled(count, area)
}

// The box that a patch between two sheets redraws, or why it is refused: 10 or 14.
pub fn changed(old: &[u8], new: &[u8]) -> Result<IRect, Refusal>
    ensures { told_by result ≡ changed_by (canvas (sheet_of new.now)) (found old.now new.now) }
{
    ensure(u16_at(old, 8) == u16_at(new, 8), Refusal::Difference)?;
    changed_in(old, new)
}

// Whether two sheets agree in width, height and ground.
#[tactic(auto, unfolding(redraw::specs::Sheet::same_header))]
pub fn same_header(old: &[u8], new: &[u8]) -> bool
    ensures { result ≡ same_header (sheet_of old.now) (sheet_of new.now) }
{
    u16_at(old, 0) == u16_at(new, 0)
        && u16_at(old, 2) == u16_at(new, 2)
        && ground(old).pix() == ground(new).pix()
}
