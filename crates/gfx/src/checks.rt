// The tests behind the refusals of the canvas calls.
ghost use Rattle.std.specs.Prelude.{cond, ◌≡◌};
ghost use Rattle.geom.specs.Refusals.{number_of};
ghost use Rattle.gfx.specs.State.{side_ok, range_in, in_canvas, clip_ok, four_zeros};
ghost use Rattle.gfx.specs.Calls.{raised, size_number, new_number};

use draw::check_frame;
use geom::checks::{Refusal, ensure};
use geom::{IRect, nat_of};

// A side is 1 to 2,048.
#[tactic(auto, unfolding(crate::specs::State::side_ok))]
pub(crate) fn side_ok(n: i32) -> bool
    ensures { result ≡ side_ok n }
{
    (1 <= n) & (n <= 2048)
}

// A range lies in 0 to n.
#[tactic(auto, unfolding(crate::specs::State::range_in))]
fn range_in(a: i32, b: i32, n: i32) -> bool
    ensures { result ≡ range_in a b n }
{
    0 <= a && b <= n
}

// A box lies in a canvas of the sides w and h.
#[tactic(auto, unfolding(crate::specs::State::in_canvas))]
pub(crate) fn in_canvas(w: i32, h: i32, b: IRect) -> bool
    ensures { result ≡ in_canvas w h b }
{
    range_in(b.x0, b.x1, w) && range_in(b.y0, b.y1, h)
}

// A clip is empty or inside the canvas.
#[tactic(auto, unfolding(crate::specs::State::clip_ok))]
pub(crate) fn clip_ok(w: i32, h: i32, b: IRect) -> bool
    ensures { result ≡ clip_ok w h b }
{
    b.is_empty() || in_canvas(w, h, b)
}

// A place of the saved clips: a clip where it is in use, else four zeros.
pub(crate) fn place_ok(w: i32, h: i32, used: bool, b: IRect) -> bool
    ensures { result ≡ cond used (clip_ok w h b) (four_zeros b) }
{
    if used {
        clip_ok(w, h, b)
    } else {
        b == IRect::ZERO
    }
}

// A side below 1 is raised to 1.
pub(crate) fn raise(n: i32) -> i32
    ensures { result ≡ raised n }
{
    n.max(1)
}

// Sides, a pitch and a count of words, by the least pitch that is in range: refused with 2, 15, then 8.
#[tactic(auto, unfolding(crate::specs::Calls::size_number))]
pub(crate) fn check_size(
    least: usize,
    w: i32,
    h: i32,
    pitch: usize,
    n: usize,
) -> Result<(), Refusal>
    ensures { number_of result ≡ size_number least w h pitch n }
{
    ensure(side_ok(w) & side_ok(h), Refusal::Header)?;
    check_frame(least, nat_of(h), pitch, n)
}

// The same of the sides raised, for a canvas of its own.
pub(crate) fn check_new(w: i32, h: i32, pitch: usize, n: usize) -> Result<(), Refusal>
    ensures { number_of result ≡ new_number w h pitch n }
{
    let a = raise(w);
    check_size(nat_of(a), a, raise(h), pitch, n)
}
