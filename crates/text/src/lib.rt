// The text of a painted sheet: its pixels row by row, or the number and the item that painting refuses it with.
#![tactic(auto)]

mod picture;

ghost use Rattle.std.specs.Prelude.{◌≡◌, ◌+◌, ◌*◌, ◌≤◌, ◌<◌, length};
ghost use Rattle.io.specs.Counts.{IsPrefixLen};
ghost use Rattle.sheet.specs.Check.{width_of};
ghost use Rattle.redraw.specs.Sheet.{painting};
ghost use Rattle.items.specs.Format.{format};
ghost use Rattle.encode.specs.Placed.{placed};
ghost use Rattle.text.specs.Picture.{picture_of};
ghost use Rattle.text.specs.Text.{decimal_of, refusal_text, outcome_text, lent_of, text_of, Put};

use crate::picture::picture;
use encode::put;
use paint::paint;
use sheet::u16_at;

// How many of n pixels at hand a sheet is lent.
fn lent(s: &[u8], n: usize) -> usize
    ensures { (result ≡ lent_of s.now n) × (result ≤ n) }
{
    let area = u16_at(s, 0) * u16_at(s, 2);
    area.min(n)
}

// A number in decimal, put at a place. Returns where it ends.
fn put_decimal(out: &mut [u8], at: usize, n: u32) -> usize
    requires { at + 10 ≤ length out.old }
    ensures value { (result ≡ at + length (decimal_of n)) × (result ≤ at + 10) }
    ensures out_after { out.new ≡ placed at (decimal_of n) out.old }
{
    let mut digits = [0; 20];
    let k = io::decimal(n as u64, &mut digits);
    put(out, at, &digits[..k]);
    at + k
}

// The text of a refusal, of at most 33 bytes.
fn put_refusal(out: &mut [u8], number: u32, item: u32) -> usize
    requires { 33 ≤ length out.old }
    ensures { Put (refusal_text number item) out.old result out.new }
{
    put(out, 0, b"refused ");
    let at = put_decimal(out, 8, number);
    put(out, at, b" at ");
    let end = put_decimal(out, at + 4, item);
    put(out, end, b"\n");
    end + 1
}

// The text of a picture with w columns.
fn put_picture(out: &mut [u8], px: &[u32], w: usize) -> usize
    requires { (0 < w) × (9 * length px.now ≤ length out.old) }
    ensures { Put (picture_of w px.now) out.old result out.new }
{
    let n = 9 * px.len();
    picture(px, w, &mut out[..n]);
    n
}

// Paints a sheet on the pixels that it is lent, in rows that are as long as its canvas, and puts the text of what came of it.
fn shown(s: &[u8], px: &mut [u32], scratch: &mut [f32], out: &mut [u8]) -> usize
    requires { (9 * length px.old ≤ length out.old) × (33 ≤ length out.old) }
    ensures { Put (outcome_text (painting format s.now (width_of s.now) (length px.old)
        (length scratch.old))) out.old result out.new }
{
    let w = u16_at(s, 0);
    let a = paint(s, w, px, scratch).answer;
    if a.number == 0 {
        put_picture(out, px, w)
    } else {
        put_refusal(out, a.number, a.item)
    }
}

// Paints a sheet on as many of the pixels at hand as it has, and puts its text at the start of out, which has room for the text
// of all pixels at hand and of any refusal. Returns the text's length.
pub fn text(s: &[u8], px: &mut [u32], scratch: &mut [f32], out: &mut [u8]) -> usize
    requires { (9 * length px.old ≤ length out.old) × (33 ≤ length out.old) }
    ensures put { Put (text_of s.now (length px.old) (length scratch.old)) out.old result
        out.new }
    ensures prefix_len { IsPrefixLen result out.new }
{
    let k = lent(s, px.len());
    shown(s, &mut px[..k], scratch, out)
}
