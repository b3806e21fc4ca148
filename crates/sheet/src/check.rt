// The check of a whole sheet.
ghost use Rattle.std.specs.Prelude.{◌≡◌, ◌<◌, MatchResult};
ghost use Rattle.geom.specs.Refusals.{code, number_of};
ghost use Rattle.sheet.specs.Check.{count_of, side_ok, header_ok, pairs_ok, head_number, number_at, depth_at, items_from};
ghost use Rattle.sheet.specs.Check.{at_header, at_item, verdict_of, sheet_check};

use crate::bytes::{all_zero, u16_at};
use crate::kinds::{check_item, depth_after, kind_at};
use geom::checks::{Refusal, ensure};

// Why a sheet is refused, and at which item, counted from 1; 0 where it is at none.
#[derive(Clone, Copy, Debug, PartialEq, Eq)]
pub struct Fault {
    pub refusal: Refusal,
    pub item: u32,
}

// A refusal at no item: of what stands before the items, or of more than the sheet.
impl From<Refusal> for Fault {
    ghost from_gives = { λ refusal fault. fault ≡ at_header refusal };

    fn from(refusal: Refusal) -> Fault {
        Fault { refusal, item: 0 }
    }
}

fn side_ok(n: usize) -> bool
    ensures { result ≡ side_ok n }
{
    (1..=2048).contains(&n)
}

#[tactic(auto, unfolding(crate::specs::Check::header_ok))]
fn header_ok(s: &[u8]) -> bool
    ensures { result ≡ header_ok s.now }
{
    side_ok(u16_at(s, 0))
        && side_ok(u16_at(s, 2))
        && u16_at(s, 8) <= 1024
        && all_zero(s, 7, 1)
        && all_zero(s, 10, 2)
}

// Whether each item starts where the last ends, and the last ends the sheet; the loop carries where that is.
fn pairs_ok(s: &[u8]) -> bool
    ensures { result ≡ pairs_ok s.now }
{
    let n = u16_at(s, 8);
    let mut at = 12 + 4 * n;
    for k in 0..n {
        if u16_at(s, 12 + 4 * k) != at {
            return false;
        }
        at += u16_at(s, 14 + 4 * k);
    }
    at == s.len()
}

// What stands before the items: 1, 2, then 3.
#[tactic(auto, unfolding(crate::specs::Check::head_number))]
fn check_head(s: &[u8]) -> Result<(), Refusal>
    ensures { number_of result ≡ head_number s.now }
{
    ensure(12 <= s.len() && s.len() <= 60000, Refusal::SheetLength)?;
    ensure(header_ok(s), Refusal::Header)?;
    ensure(pairs_ok(s), Refusal::Pairs)
}

// The item k, counted from 0.
#[tactic(auto, unfolding(crate::specs::Check::number_at))]
fn check_at(s: &[u8], k: usize, depth: usize) -> Result<(), Fault>
    requires { k < 65536 }
    ensures { MatchResult result (λ u. number_at s.now k depth ≡ 0)
        (λ f. f ≡ at_item f.refusal k × number_at s.now k depth ≡ code f.refusal) }
{
    let at = u16_at(s, 12 + 4 * k);
    let len = u16_at(s, 14 + 4 * k);
    let item = k as u32 + 1;
    check_item(s, at, len, depth).map_err(|refusal| Fault { refusal, item })
}

// How many clips are saved after the item k.
#[tactic(auto, unfolding(crate::specs::Check::depth_at))]
fn depth_at(s: &[u8], k: usize, depth: usize) -> usize
    requires { (k < 65536) × (depth < 65536) }
    ensures { result ≡ depth_at s.now k depth }
{
    kind_at(s, u16_at(s, 12 + 4 * k)).map_or(depth, |kind| depth_after(kind, depth))
}

// The items, up to the first that is refused; the loop carries how many clips are saved.
fn check_items(s: &[u8]) -> Result<(), Fault>
    ensures { verdict_of result ≡ items_from s.now (count_of s.now) 0 0 }
{
    let mut depth = 0;
    for k in 0..u16_at(s, 8) {
        check_at(s, k, depth)?;
        depth = depth_at(s, k, depth);
    }
    Ok(())
}

// Why a sheet is refused, if it is.
#[tactic(auto, unfolding(crate::specs::Check::sheet_check))]
pub fn check_sheet(s: &[u8]) -> Result<(), Fault>
    ensures { verdict_of result ≡ sheet_check s.now }
{
    check_head(s)?;
    check_items(s)
}
