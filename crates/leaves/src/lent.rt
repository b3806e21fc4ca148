// What a case lends to a call, and whether it is left as stored: pixels, and scratch that is NaN before the call.
use cases::word::{float_of, from, pattern, word};

pub(crate) fn scratch() -> [f32; 4096] {
    [float_of(0x7fc0_0000); 4096]
}

// Px that run in equal steps: the base and the step are the first two words.
pub(crate) fn fill(px: &mut [u32], words: &[u8]) {
    let mut v = word(words, 0);
    let step = word(words, 1);
    for x in px.iter_mut() {
        *x = v;
        v = v.wrapping_add(step);
    }
}

// The column after x in rows of so many words.
fn next_column(x: u32, pitch: u32) -> u32 {
    let y = x.wrapping_add(1);
    if y < pitch { y } else { 0 }
}

// Whether px are left as stored. The words are a pitch, so many columns, and what the first words of each row then are: `more` is
// 1 where each has its own, 0 where all are one. All other words run in equal steps, as before the call.
pub(crate) fn same_frame(px: &[u32], steps: &[u8], words: &[u8], more: u32) -> bool {
    let mut was = word(steps, 0);
    let step = word(steps, 1);
    let pitch = word(words, 0);
    let columns = word(words, 1);
    let mut x: u32 = 0;
    let mut place: u32 = 2;
    for p in px {
        let mut expected = was;
        if x < columns {
            expected = word(words, place);
            place = place.wrapping_add(more);
        }
        if *p != expected {
            return false;
        }
        was = was.wrapping_add(step);
        x = next_column(x, pitch);
    }
    true
}

// Whether the pixels are the words; past the end of these, zeros.
pub(crate) fn same_words(px: &[u32], words: &[u8]) -> bool {
    px.iter().zip(0..).all(|(p, i)| *p == word(words, i))
}

// Whether scratch that was NaN is now +0 in its first words, and NaN in the others.
fn swept(scratch: &[f32], need: usize) -> bool {
    let nan = 0x7fc0_0000;
    scratch
        .iter()
        .enumerate()
        .all(|(i, x)| pattern(*x) == if i < need { 0 } else { nan })
}

// Whether scratch and px are left as stored: the words of scratch that are +0, then what is left in px.
pub(crate) fn as_stored(px: &[u32], scratch: &[f32], steps: &[u8], words: &[u8]) -> bool {
    let need = word(words, 0) as usize;
    swept(scratch, need) && same_frame(px, steps, from(words, 1), 1)
}
