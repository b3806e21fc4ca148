// The panel's registers.
ghost use Rattle.std.specs.Prelude.{◌≡◌};
ghost use Rattle.panel.specs.Registers.{fresh_panel, WritesCommand, WritesFlags, Takes};

use geom::IRect;
use gfx::Canvas;
use panel::{Panel, Stepped, Taken};

#[unsafe(no_mangle)]
pub extern "C" fn maldjupp_panel_fresh() -> Panel
    ensures { result ≡ fresh_panel }
{
    maldjupp::registers::maldjupp_panel_fresh()
}

#[unsafe(no_mangle)]
pub extern "C" fn maldjupp_panel_command(
    panel: Panel,
    canvas: Canvas,
    px: &[u32],
    value: u8,
    area: IRect,
) -> Stepped
    ensures { WritesCommand canvas px.now panel value area result }
{
    maldjupp::registers::maldjupp_panel_command(panel, canvas, px, value, area)
}

#[unsafe(no_mangle)]
pub extern "C" fn maldjupp_panel_flags(
    panel: Panel,
    canvas: Canvas,
    px: &[u32],
    value: u8,
) -> Stepped
    ensures { WritesFlags canvas px.now panel value result }
{
    maldjupp::registers::maldjupp_panel_flags(panel, canvas, px, value)
}

#[unsafe(no_mangle)]
pub extern "C" fn maldjupp_panel_take(panel: Panel, canvas: Canvas, px: &[u32]) -> Taken
    ensures { Takes canvas px.now panel result }
{
    maldjupp::registers::maldjupp_panel_take(panel, canvas, px)
}
