// Every small clip order: the sheets of 0 to 6 items on a black canvas of 4 by 4, each item a push, a pop or a fill, by number.
// An order is worked with as the kinds of its items.
#![tactic(auto)]

ghost use Rattle.std.specs.Prelude.{◌≡◌, map, ◌+◌, ◌≤◌, ◌<◌, length, drop};
ghost use Rattle.encode.specs.Encode.{Wrote};
ghost use Rattle.orders.specs.Orders.{item, order_number, order_sheet};
ghost use Rattle.orders.specs.Kinds.{digit_of, kinds_in};

use encode::{Written, refused, write_sheet};
use geom::checks::Refusal;

#[derive(Clone, Copy)]
enum Kind {
    Push,
    Pop,
    Fill,
}

impl Kind {
    // The kind of a remainder by 3.
    fn of(remainder: usize) -> Kind
        requires { remainder < 3 }
        ensures { digit_of result ≡ remainder + 1 }
    {
        match remainder {
            0 => Kind::Push,
            1 => Kind::Pop,
            _ => Kind::Fill,
        }
    }

    // The item of a kind.
    #[tactic(auto, unfolding(crate::specs::Orders::item))]
    fn bytes(self) -> &'static [u8]
        ensures { (result.now ≡ item (digit_of self)) × (length result.now ≤ 52) }
    {
        match self {
            Kind::Push => b"\x01\0\0\0\0\0\x80\x3f\0\0\x80\x3f\0\0\0\x40\0\0\0\x40",
            Kind::Pop => b"\x02\0\0\0",
            Kind::Fill => {
                b"\x03\0\0\0\0\0\0\0\0\0\0\0\0\0\x40\x40\0\0\x40\x40\0\0\0\0\0\0\0\0\xff\xff\xff\xff\0\0\0\0\0\0\0\0\0\0\0\0\0\0\0\0\0\0\0\0"
            }
        }
    }
}

// The kinds of the order of a number: the number is written with the digits 1, 2 and 3 to base 3, the last digit first, into the
// end of the six places lent, and the place of its first digit is returned.
fn kinds_of(number: usize, kinds: &mut [Kind]) -> usize
    requires { (number ≤ 1092) × (length kinds.old ≡ 6) }
    ensures { (map digit_of (drop result kinds.new) ≡ kinds_in 6 number) × (result ≤ 6) }
{
    let mut from = 6;
    let mut rest = number;
    // Counted down by hand: a proof knows nothing of what is written through a reversed `iter_mut`.
    while 0 < rest {
        from -= 1;
        kinds[from] = Kind::of((rest - 1) % 3);
        rest = (rest - 1) / 3;
    }
    from
}

// Writes the sheet of a number, from 0: 23 for a number of 1,093 or more, 19 for a buffer in which it does not fit.
pub fn clip_order(number: usize, buf: &mut [u8]) -> Written
    ensures { Wrote (order_number number (length buf.old)) 0 (order_sheet number) buf.old result
        buf.new }
{
    if 1093 <= number {
        return refused(Refusal::Order.into(), 0);
    }
    let mut kinds = [Kind::Push; 6];
    let from = kinds_of(number, &mut kinds);
    write_sheet(
        buf,
        b"\x04\0\x04\0\0\0\0\0",
        &kinds[from..],
        |kind| kind.bytes(),
    )
}
