// Drawing the items of a sheet on a canvas, one after the other.
#![tactic(auto)]

ghost use Rattle.std.specs.Prelude.{◌≡◌, length};
ghost use Rattle.draw.specs.Draw.{differ};
ghost use Rattle.sheet.specs.Check.{count_of};
ghost use Rattle.render.specs.Stages.{chain_px, chain_steps, poly_px, poly_scratch, shape_px, shape_scratch, shape_steps, Left};
ghost use Rattle.render.specs.Stages.{DrewItem, stage, stages_from, steps_from};

use clips::{is_shape, state_after};
use color::Color;
use fill::fill_rrect;
use gfx::Canvas;
use items::reader::Items;
use items::{Item, coords, item_of};
use line::{line, polyline};
use paints::Paint;
use poly::fill_poly;
use shadow::shadow_rrect;
use stroke::stroke_rrect;

// Draws a polygon of so many points, whose coordinates stand in its bytes; its steps that altered a pixel's value.
fn draw_poly(
    b: &[u8],
    count: usize,
    paint: Paint,
    canvas: Canvas,
    px: &mut [u32],
    scratch: &mut [f32],
) -> u64
    ensures { Left (poly_px b.now count paint canvas px.old (length scratch.old))
        (poly_scratch b.now count paint canvas (length px.old) scratch.old)
        (differ px.old (poly_px b.now count paint canvas px.old (length scratch.old)))
        px.new scratch.new result }
{
    if count > 64 {
        return 0;
    }
    let xs = coords(b, 32);
    fill_poly(canvas, px, &xs[..2 * count], paint, scratch).steps
}

// Draws the lines between so many points, whose coordinates stand in a chain's bytes; their steps that altered a pixel's value.
fn draw_chain(
    b: &[u8],
    count: usize,
    width: f32,
    color: Color,
    canvas: Canvas,
    px: &mut [u32],
) -> u64
    ensures { (px.new ≡ chain_px b.now count width color canvas px.old)
        × (result ≡ chain_steps b.now count width color canvas px.old) }
{
    if count > 64 {
        return 0;
    }
    let xs = coords(b, 12);
    polyline(canvas, px, &xs[..2 * count], width, color).steps
}

// Draws an item that is a shape; any other leaves px and scratch. The steps that altered a pixel's value.
fn draw_shape(b: &[u8], item: Item, canvas: Canvas, px: &mut [u32], scratch: &mut [f32]) -> u64
    ensures { Left (shape_px b.now item canvas px.old (length scratch.old))
        (shape_scratch b.now item canvas (length px.old) scratch.old)
        (shape_steps b.now item canvas px.old (length scratch.old)) px.new
        scratch.new result }
{
    match item {
        Item::Push(_) => 0,
        Item::Pop => 0,
        Item::Fill { rect, r, paint } => fill_rrect(canvas, px, rect, r, paint).steps,
        Item::Stroke {
            rect,
            r,
            width,
            color,
        } => stroke_rrect(canvas, px, rect, r, width, color).steps,
        Item::Line {
            a,
            b: end,
            width,
            color,
        } => line(canvas, px, a, end, width, color).steps,
        Item::Poly { paint, count } => draw_poly(b, count, paint, canvas, px, scratch),
        Item::Shadow {
            rect,
            r,
            blur,
            color,
            skip_inside,
        } => shadow_rrect(canvas, px, rect, r, blur, color, skip_inside).steps,
        Item::Chain {
            width,
            color,
            count,
        } => draw_chain(b, count, width, color, canvas, px),
        Item::Unknown => 0,
    }
}

// Draws the item that some bytes are; its steps that altered a pixel's value.
fn draw_item(b: &[u8], canvas: Canvas, px: &mut [u32], scratch: &mut [f32]) -> u64
    ensures { DrewItem b.now canvas px.old scratch.old px.new
        scratch.new result }
{
    let item = item_of(b);
    draw_shape(b, item, canvas, px, scratch)
}

// Draws the items of a sheet in their order, from a state; their steps that altered a pixel's value. Only a push or a pop alters
// the state.
pub fn render(s: &[u8], canvas: Canvas, px: &mut [u32], scratch: &mut [f32]) -> u64
    ensures { Left (stages_from s.now (count_of s.now) 0
        (stage canvas px.old scratch.old)).px
        (stages_from s.now (count_of s.now) 0 (stage canvas px.old scratch.old)
        ).scratch (steps_from s.now (count_of s.now) 0
        (stage canvas px.old scratch.old)) px.new scratch.new result }
{
    let mut state = canvas;
    let mut steps: u64 = 0;
    for b in Items::of(s) {
        if is_shape(b) {
            steps += draw_item(b, state, px, scratch);
            continue;
        }
        state = state_after(b, state);
    }
    steps
}
