// The items of a sheet, one after the other, each as its bytes: `for b in Items::of(s)`. Each is read by `item_bytes`, as by a function
// that has a sheet and a number.
#![tactic(auto)]

ghost use Rattle.std.specs.Prelude.{◌≡◌, ◌-◌, ◌<◌};
ghost use Rattle.std.specs.Iterator.{at_most};
ghost use Rattle.sheet.specs.Check.{bytes_at, count_of};
ghost use Rattle.items.specs.Reader.{NextGives};

use crate::bytes_at;
use sheet::u16_at;

// A sheet being read: its lent bytes, the number of the next item, counted from 0, and how many items there are.
#[derive(Clone, Copy)]
pub struct Items<'a> {
    pub sheet: &'a [u8],
    pub next: u16,
    pub count: u16,
}

impl<'a> Items<'a> {
    // The items of a sheet, from its first one on.
    pub fn of(sheet: &'a [u8]) -> Self
        ensures { (result.sheet ≡ sheet.entry) × (result.next ≡ 0) × (result.count ≡ count_of sheet.now)
            × (count_of sheet.now < 65536) }
    {
        let count = u16_at(sheet, 8) as u16;
        Items {
            sheet,
            next: 0,
            count,
        }
    }
}

impl<'a> Iterator for Items<'a> {
    type Item = &'a [u8];

    ghost remaining = { λ s. at_most (s.count - s.next) };

    ghost next_gives = { NextGives };

    fn next(&mut self) -> Option<&'a [u8]> {
        if self.next < self.count {
            let k = self.next;
            self.next += 1;
            Some(item_bytes(self.sheet, k))
        } else {
            None
        }
    }
}

// The bytes of the item k of a sheet.
pub fn item_bytes(s: &[u8], k: u16) -> &[u8]
    ensures { result.now ≡ bytes_at s.now k }
{
    bytes_at(s, k)
}
