// The registers through which a panel takes the pixels of a box. A panel goes in by value and comes back beside a number; px is
// lent, and no step alters it. A refused step returns the panel as given.
#![tactic(auto)]

ghost use Rattle.std.specs.Prelude.{◌≡◌, ◌<◌, length};
ghost use Rattle.geom.specs.Refusals.{number_of};
ghost use Rattle.panel.specs.Registers.{flags_of, regs_of, fresh_panel, place_in, transfer_ok, panel_ok, panel_number, command_ok};
ghost use Rattle.panel.specs.Registers.{stepped_of, taken_of, take_number, pixel_in, WritesCommand, WritesFlags, Takes};
ghost use Rattle.panel.specs.Registers as Registers;

use draw::Area;
use geom::IRect;
use geom::checks::{Refusal, ensure};
use gfx::Canvas;
use sheet::u16_at;

// Eight bytes: 0 command, 1 flags, 2-3 column, 4-5 row, 6-7 pixels left in this row, the lower byte first; and the box last
// loaded.
#[repr(C)]
#[derive(Clone, Copy, PartialEq, Eq)]
pub struct Panel {
    pub regs: [u8; 8],
    pub held: IRect,
}

// What a write returns. C is given it, and no Result, as it is the next.
#[repr(C)]
#[derive(Clone, Copy)]
pub struct Stepped {
    pub number: u32,
    pub panel: Panel,
}

// What a take returns: the pixel besides.
#[repr(C)]
#[derive(Clone, Copy)]
pub struct Taken {
    pub number: u32,
    pub value: u32,
    pub panel: Panel,
}

impl Stepped {
    // The answer of a write to a panel: the next panel, or the refusal beside the given one.
    fn of(given: Panel, next: Result<Panel, Refusal>) -> Stepped
        ensures { result ≡ stepped_of given next }
    {
        match next {
            Ok(panel) => Stepped { number: 0, panel },
            Err(refusal) => Stepped {
                number: refusal.into(),
                panel: given,
            },
        }
    }
}

impl Taken {
    // The answer of a take from a panel: the pixel and the next panel, or the refusal beside 0 and the given one.
    fn of(panel: Panel, took: Result<(u32, Panel), Refusal>) -> Taken
        ensures { result ≡ taken_of panel took }
    {
        match took {
            Ok((value, next)) => Taken {
                number: 0,
                value,
                panel: next,
            },
            Err(refusal) => Taken {
                number: refusal.into(),
                value: 0,
                panel,
            },
        }
    }
}

// The bytes of flags, column, row and pixels left; the command reads 0.
fn regs_of(f: u8, x: usize, y: usize, l: usize) -> [u8; 8]
    ensures { result ≡ regs_of f x y l }
{
    let [x0, x1, ..] = x.to_le_bytes();
    let [y0, y1, ..] = y.to_le_bytes();
    let [l0, l1, ..] = l.to_le_bytes();
    [0, f, x0, x1, y0, y1, l0, l1]
}

// Whether column x and row y are inside a box, and l pixels the rest of its row.
fn place_in(b: IRect, x: usize, y: usize, l: usize) -> bool
    requires { (x < 65536) × (l < 65536) }
    ensures { result ≡ place_in b x y l }
{
    let a = Area::from(b);
    let across = (a.x0 <= x) & (x < a.x1);
    let down = (a.y0 <= y) & (y < a.y1);
    (across & down) & (x + l == a.x1)
}

// No pixel is left of a box.
#[tactic(auto, unfolding(crate::specs::Registers::finished))]
fn finished(b: IRect) -> Panel
    ensures { result ≡ Registers.finished b }
{
    Panel {
        regs: [0, 128, 0, 0, 0, 0, 0, 0],
        held: b,
    }
}

// The first pixel of row y of a box.
#[tactic(auto, unfolding(crate::specs::Registers::row_start))]
fn row_start(f: u8, y: usize, b: IRect) -> Panel
    ensures { result ≡ Registers.row_start f y b }
{
    let a = Area::from(b);
    Panel {
        regs: regs_of(f, a.x0, y, a.x1.saturating_sub(a.x0)),
        held: b,
    }
}

// A box loaded.
#[tactic(auto, unfolding(crate::specs::Registers::loaded))]
fn loaded(b: IRect) -> Panel
    ensures { result ≡ Registers.loaded b }
{
    if b.is_empty() {
        finished(b)
    } else {
        row_start(1, Area::from(b).y0, b)
    }
}

// Whether a box is loaded by a command.
#[tactic(auto, unfolding(crate::specs::Registers::command_ok))]
fn command_ok(canvas: Canvas, value: u8, area: IRect) -> bool
    ensures { result ≡ command_ok canvas value area }
{
    (value == 1) & (area.is_empty() | canvas.has(area))
}

impl Panel {
    // All zero.
    pub fn fresh() -> Panel
        ensures { result ≡ fresh_panel }
    {
        Panel {
            regs: [0; 8],
            held: IRect::ZERO,
        }
    }

    fn flags(self) -> u8
        ensures { result ≡ flags_of self }
    {
        self.regs[1]
    }

    #[tactic(auto, unfolding(crate::specs::Registers::column))]
    fn column(self) -> usize
        ensures { (result ≡ Registers.column self) × (result < 65536) }
    {
        u16_at(&self.regs, 2)
    }

    #[tactic(auto, unfolding(crate::specs::Registers::row))]
    fn row(self) -> usize
        ensures { (result ≡ Registers.row self) × (result < 65536) }
    {
        u16_at(&self.regs, 4)
    }

    #[tactic(auto, unfolding(crate::specs::Registers::pixels_left))]
    fn pixels_left(self) -> usize
        ensures { (result ≡ Registers.pixels_left self) × (result < 65536) }
    {
        u16_at(&self.regs, 6)
    }

    // Whether a pixel is ready.
    #[tactic(auto, unfolding(crate::specs::Registers::ready))]
    fn ready(self) -> bool
        ensures { result ≡ Registers.ready self }
    {
        self.flags() % 2 == 1
    }

    // Whether the held box is not empty and inside the canvas, and has the place.
    #[tactic(auto, unfolding(crate::specs::Registers::transfer_ok))]
    fn transfer_ok(self, canvas: Canvas) -> bool
        ensures { result ≡ transfer_ok canvas self }
    {
        let place = place_in(self.held, self.column(), self.row(), self.pixels_left());
        !self.held.is_empty() & canvas.has(self.held) & place
    }

    // Whether the registers are in order: refusal 12 is given for any others.
    #[tactic(auto, unfolding(crate::specs::Registers::panel_ok, crate::specs::Registers::flags_ok))]
    fn ok(self, canvas: Canvas) -> bool
        ensures { result ≡ panel_ok canvas self }
    {
        let command = self.regs[0] == 0;
        let flags = self.flags() / 2 % 64 == 0;
        let place = !self.ready() | self.transfer_ok(canvas);
        command & flags & place
    }

    // What every step on n lent words tests before its own check: refused with 12, 15, then 8.
    #[tactic(auto, unfolding(crate::specs::Registers::panel_number))]
    fn check(self, canvas: Canvas, n: usize) -> Result<(), Refusal>
        ensures { number_of result ≡ panel_number canvas n self }
    {
        ensure(self.ok(canvas), Refusal::State)?;
        canvas.check_px(n)
    }

    // Bit 7 cleared.
    #[tactic(auto, unfolding(crate::specs::Registers::acknowledged))]
    fn acknowledged(self) -> Panel
        ensures { result ≡ Registers.acknowledged self }
    {
        let mut regs = self.regs;
        regs[1] = self.flags() % 128;
        Panel { regs, ..self }
    }

    // One column further.
    #[tactic(auto, unfolding(crate::specs::Registers::next_column))]
    fn next_column(self) -> Panel
        ensures { result ≡ Registers.next_column self }
    {
        let l = self.pixels_left().saturating_sub(1);
        let regs = regs_of(self.flags(), self.column() + 1, self.row(), l);
        Panel { regs, ..self }
    }

    // One pixel further: along the row, to the next row, or finished.
    #[tactic(auto, unfolding(crate::specs::Registers::moved_on))]
    fn moved_on(self) -> Panel
        ensures { result ≡ Registers.moved_on self }
    {
        let y = self.row() + 1;
        if 1 < self.pixels_left() {
            self.next_column()
        } else if y < Area::from(self.held).y1 {
            row_start(self.flags(), y, self.held)
        } else {
            finished(self.held)
        }
    }

    // The pixel at column and row.
    fn pixel(self, canvas: Canvas, px: &[u32]) -> u32
        requires { take_number canvas (length px.now) self ≡ 0 }
        ensures { result ≡ pixel_in canvas px.now self }
    {
        let at = self.row() * canvas.pitch + self.column();
        px[at]
    }

    // `write_command`, or its refusal: 12, 15, 8, then 20.
    #[tactic(auto, unfolding(crate::specs::Registers::command_number))]
    fn try_command(
        self,
        canvas: Canvas,
        px: &[u32],
        value: u8,
        area: IRect,
    ) -> Result<Panel, Refusal>
        ensures { WritesCommand canvas px.now self value area (stepped_of self result) }
    {
        self.check(canvas, px.len())?;
        ensure(command_ok(canvas, value, area), Refusal::Command)?;
        Ok(loaded(area))
    }

    // Writes to the command, with a box: 1 loads it.
    pub fn write_command(self, canvas: Canvas, px: &[u32], value: u8, area: IRect) -> Stepped
        ensures { WritesCommand canvas px.now self value area result }
    {
        Stepped::of(self, self.try_command(canvas, px, value, area))
    }

    // `write_flags`, or its refusal: 12, 15, 8, then 21.
    #[tactic(auto, unfolding(crate::specs::Registers::flags_number))]
    fn try_flags(self, canvas: Canvas, px: &[u32], value: u8) -> Result<Panel, Refusal>
        ensures { WritesFlags canvas px.now self value (stepped_of self result) }
    {
        self.check(canvas, px.len())?;
        ensure(value == 128, Refusal::FlagWrite)?;
        Ok(self.acknowledged())
    }

    // Writes to the flags: 128 clears bit 7.
    pub fn write_flags(self, canvas: Canvas, px: &[u32], value: u8) -> Stepped
        ensures { WritesFlags canvas px.now self value result }
    {
        Stepped::of(self, self.try_flags(canvas, px, value))
    }

    // `take`, or its refusal: 12, 15, 8, then 22.
    #[tactic(auto, unfolding(crate::specs::Registers::take_number))]
    fn try_take(self, canvas: Canvas, px: &[u32]) -> Result<(u32, Panel), Refusal>
        ensures { Takes canvas px.now self (taken_of self result) }
    {
        self.check(canvas, px.len())?;
        ensure(self.ready(), Refusal::NotReady)?;
        Ok((self.pixel(canvas, px), self.moved_on()))
    }

    // Takes the pixel at column and row, and moves on.
    pub fn take(self, canvas: Canvas, px: &[u32]) -> Taken
        ensures { Takes canvas px.now self result }
    {
        Taken::of(self, self.try_take(canvas, px))
    }
}
