// Words of 32 bits in bytes, the lowest byte first, and floats and signed numbers as words.
ghost use Rattle.std.specs.Prelude.{◌≡◌, ◌+◌, ◌*◌, ◌≤◌, take, drop, from_bits};
ghost use Rattle.std.specs.Float.{binary32};
ghost use Rattle.cases.specs.Word.{word_at};

// The word at place i, counted in words; one that is not all there is 0.
#[tactic(auto, unfolding(crate::specs::Word::word_at))]
pub fn word(bytes: &[u8], i: u32) -> u32
    ensures { result ≡ word_at bytes.now i }
{
    let at = 4 * (i as usize);
    if at + 4 <= bytes.len() {
        u32::from_le_bytes([bytes[at], bytes[at + 1], bytes[at + 2], bytes[at + 3]])
    } else {
        0
    }
}

// The bytes from word i on; none past the end.
pub fn from(bytes: &[u8], i: u32) -> &[u8]
    ensures { result.now ≡ drop (4 * i) bytes.now }
{
    bytes.get(4 * i as usize..).unwrap_or(&[])
}

// The first n bytes, or as many as there are.
pub fn upto(bytes: &[u8], n: u32) -> &[u8]
    ensures { result.now ≡ take n bytes.now }
{
    bytes.get(..n as usize).unwrap_or(bytes)
}

// The number with a low and a high word.
pub(crate) fn pair(low: u32, high: u32) -> u64 {
    (high as u64) << 32 | low as u64
}

// The float whose pattern is b. `from_bits` is defined at no NaN's pattern, so a NaN is made of 0 / 0.
pub fn float_of(b: u32) -> f32
    ensures { result ≡ from_bits binary32 b }
{
    if 0x7f80_0000 < b % 0x8000_0000 {
        0.0 / 0.0
    } else {
        f32::from_bits(b)
    }
}

// The float at place i.
pub fn float(bytes: &[u8], i: u32) -> f32 {
    float_of(word(bytes, i))
}

// The pattern of x; of every NaN one and the same.
pub fn pattern(x: f32) -> u32 {
    if x.is_nan() { 0x7fc0_0000 } else { x.to_bits() }
}

// The signed number at place i, in two's complement.
pub fn int(bytes: &[u8], i: u32) -> i32 {
    word(bytes, i).cast_signed()
}
