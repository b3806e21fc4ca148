// Writing a sheet into a lent buffer: bytes and pairs of numbers put at a place, a whole sheet of its items, and what a call that
// writes a sheet returns.
#![tactic(auto)]

ghost use Rattle.std.specs.Prelude.{◌≡◌, ℕ, List, map, ◌++◌, ◌+◌, ◌*◌, ◌≤◌, length};
ghost use Rattle.encode.specs.Encode.{u16, pairs, joined, encoded, fit_number, Wrote};
ghost use Rattle.encode.specs.Placed.{placed};
ghost use Rattle.encode.specs.Items.{Gives, Short};

use geom::checks::Refusal;

// What a call that writes a sheet returns: its number, the item beside it, and how many bytes it wrote. C is given it, and no
// Result.
#[repr(C)]
#[derive(Clone, Copy)]
pub struct Written {
    pub number: u32,
    pub item: u32,
    pub len: usize,
}

// A refusal: nothing is written.
pub fn refused(number: u32, item: u32) -> Written
    ensures { result ≡ record { number = number; item = item; len = 0 } }
{
    Written {
        number,
        item,
        len: 0,
    }
}

// Bytes stored from a place on, where they fit; else nothing.
pub fn put(buf: &mut [u8], at: usize, bytes: &[u8])
    ensures { buf.new ≡ placed at bytes.now buf.old }
{
    let n = bytes.len();
    if at <= buf.len() && n <= buf.len() - at {
        buf[at..at + n].copy_from_slice(bytes);
    }
}

// Two numbers of 16 bits, the lower byte of each first.
fn two_numbers(a: usize, b: usize) -> [u8; 4]
    ensures { result ≡ u16 a ++ u16 b }
{
    let [a0, a1, ..] = a.to_le_bytes();
    let [b0, b1, ..] = b.to_le_bytes();
    [a0, a1, b0, b1]
}

// The same, put at a place: an item's offset and length, or the count of items and two zeros.
pub fn put_pair(buf: &mut [u8], at: usize, a: usize, b: usize)
    ensures { buf.new ≡ placed at (u16 a ++ u16 b) buf.old }
{
    let bytes = two_numbers(a, b);
    put(buf, at, &bytes);
}

// The bytes of the sheet of some items, each of the bytes that a function gives.
fn sheet_len<'a, T: Copy, F: Fn(T) -> &'a [u8]>(items: &[T], bytes_of: &F) -> usize
    requires few { length items.now ≤ 1024 }
    requires callable { F.IsAlwaysCallable bytes_of.now }
    requires short { Short (F.post bytes_of.now) }
    ensures { (f : T → List ℕ) → Gives (F.post bytes_of.now) f
        → result ≡ 12 + 4 * length items.now + length (joined (map f items.now)) }
{
    let mut len = 12 + 4 * items.len();
    for x in items {
        len += bytes_of(*x).len();
    }
    len
}

// The header of a sheet: bytes 0 to 7, the count of its items, two zeros.
fn put_header(buf: &mut [u8], head: &[u8], count: usize)
    ensures { buf.new ≡ placed 8 (u16 count ++ u16 0) (placed 0 head.now buf.old) }
{
    put(buf, 0, head);
    put_pair(buf, 8, count, 0);
}

// The pairs of its items.
fn put_pairs<'a, T: Copy, F: Fn(T) -> &'a [u8]>(buf: &mut [u8], items: &[T], bytes_of: &F)
    requires few { length items.now ≤ 1024 }
    requires callable { F.IsAlwaysCallable bytes_of.now }
    requires short { Short (F.post bytes_of.now) }
    ensures { (f : T → List ℕ) → Gives (F.post bytes_of.now) f → 12 + 4 * length items.now ≤ length buf.old
        → buf.new ≡ placed 12 (pairs (12 + 4 * length items.now) (map f items.now)) buf.old }
{
    let mut at = 12 + 4 * items.len();
    for (i, x) in items.iter().enumerate() {
        let len = bytes_of(*x).len();
        put_pair(buf, 12 + 4 * i, at, len);
        at += len;
    }
}

// Its items.
fn put_items<'a, T: Copy, F: Fn(T) -> &'a [u8]>(buf: &mut [u8], items: &[T], bytes_of: &F)
    requires few { length items.now ≤ 1024 }
    requires callable { F.IsAlwaysCallable bytes_of.now }
    requires short { Short (F.post bytes_of.now) }
    ensures { (f : T → List ℕ) → Gives (F.post bytes_of.now) f
        → 12 + 4 * length items.now + length (joined (map f items.now)) ≤ length buf.old
        → buf.new ≡ placed (12 + 4 * length items.now) (joined (map f items.now)) buf.old }
{
    let mut at = 12 + 4 * items.len();
    for x in items {
        let bytes = bytes_of(*x);
        put(buf, at, bytes);
        at += bytes.len();
    }
}

// Writes the sheet of some items, each of the bytes that a function gives, below the first 8 bytes of its header: 19 for a buffer
// in which it does not fit.
pub fn write_sheet<'a, T: Copy, F: Fn(T) -> &'a [u8]>(
    buf: &mut [u8],
    head: &[u8],
    items: &[T],
    bytes_of: F,
) -> Written
    requires eight { length head.now ≡ 8 }
    requires few { length items.now ≤ 1024 }
    requires callable { F.IsAlwaysCallable bytes_of }
    requires short { Short (F.post bytes_of) }
    ensures { (f : T → List ℕ) → Gives (F.post bytes_of) f → let sheet = encoded head.now (map f items.now) in
        Wrote (fit_number sheet (length buf.old)) 0 sheet buf.old result buf.new }
{
    let len = sheet_len(items, &bytes_of);
    if buf.len() < len {
        return refused(Refusal::Buffer.into(), 0);
    }
    put_header(buf, head, items.len());
    put_pairs(buf, items, &bytes_of);
    put_items(buf, items, &bytes_of);
    Written {
        number: 0,
        item: 0,
        len,
    }
}
