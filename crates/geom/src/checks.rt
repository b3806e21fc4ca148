// Why a call is refused.

ghost use Rattle.std.specs.Prelude.{◌≡◌, ⊤};
ghost use Rattle.geom.specs.Refusals.{code, tested};

use std::error::Error;
use std::fmt;

// The refusals of the documents, by the names that the bindings give their numbers.
#[derive(Clone, Copy, Debug, PartialEq, Eq)]
pub enum Refusal {
    SheetLength,
    Header,
    Pairs,
    Kind,
    ZeroByte,
    Float,
    Clips,
    Pixels,
    Scratch,
    Difference,
    Ink,
    State,
    Points,
    Many,
    Pitch,
    Buffer,
    Command,
    FlagWrite,
    NotReady,
    Order,
}

// The number that the documents give a refusal.
impl From<Refusal> for u32 {
    ghost from_gives = { λ r n. n ≡ code r };

    fn from(refusal: Refusal) -> u32 {
        match refusal {
            Refusal::SheetLength => 1,
            Refusal::Header => 2,
            Refusal::Pairs => 3,
            Refusal::Kind => 4,
            Refusal::ZeroByte => 5,
            Refusal::Float => 6,
            Refusal::Clips => 7,
            Refusal::Pixels => 8,
            Refusal::Scratch => 9,
            Refusal::Difference => 10,
            Refusal::Ink => 11,
            Refusal::State => 12,
            Refusal::Points => 13,
            Refusal::Many => 14,
            Refusal::Pitch => 15,
            Refusal::Buffer => 19,
            Refusal::Command => 20,
            Refusal::FlagWrite => 21,
            Refusal::NotReady => 22,
            Refusal::Order => 23,
        }
    }
}

impl fmt::Display for Refusal {
    fn fmt<W: fmt::Write>(&self, f: &mut fmt::Formatter<W>) -> fmt::Result {
        write!(f, "refused by {}", u32::from(*self))
    }
}

impl Error for Refusal {}

// Refused where a test fails.
pub fn ensure(ok: bool, refusal: Refusal) -> Result<(), Refusal>
    ensures { result ≡ tested ok refusal }
{
    if ok { Ok(()) } else { Err(refusal) }
}
