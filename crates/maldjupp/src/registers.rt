// The panel's registers. The panel goes in and comes back by value, beside the number; px is lent, and no step alters it.
ghost use Rattle.std.specs.Prelude.{◌≡◌};
ghost use Rattle.panel.specs.Registers.{fresh_panel, WritesCommand, WritesFlags, Takes};

use geom::IRect;
use gfx::Canvas;
use panel::{Panel, Stepped, Taken};

// A fresh panel: all zero.
#[unsafe(no_mangle)]
pub extern "C" fn maldjupp_panel_fresh() -> Panel
    ensures { result ≡ fresh_panel }
{
    Panel::fresh()
}

// Writes to the command, with a box: 1 loads it. 20 for any other value, or a box neither empty nor inside the canvas.
#[unsafe(no_mangle)]
pub extern "C" fn maldjupp_panel_command(
    panel: Panel,
    canvas: Canvas,
    px: &[u32],
    value: u8,
    area: IRect,
) -> Stepped
    ensures { WritesCommand canvas px.now panel value area result }
{
    panel.write_command(canvas, px, value, area)
}

// Writes to the flags: 128 clears bit 7. 21 for any other value.
#[unsafe(no_mangle)]
pub extern "C" fn maldjupp_panel_flags(
    panel: Panel,
    canvas: Canvas,
    px: &[u32],
    value: u8,
) -> Stepped
    ensures { WritesFlags canvas px.now panel value result }
{
    panel.write_flags(canvas, px, value)
}

// Takes the pixel at column and row, and moves on. 22 while no pixel is ready.
#[unsafe(no_mangle)]
pub extern "C" fn maldjupp_panel_take(panel: Panel, canvas: Canvas, px: &[u32]) -> Taken
    ensures { Takes canvas px.now panel result }
{
    panel.take(canvas, px)
}
