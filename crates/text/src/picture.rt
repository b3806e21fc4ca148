// The text of pixels.
ghost use Rattle.std.specs.Prelude.{◌≡◌, ◌*◌, ◌<◌, ◌^◌, length};
ghost use Rattle.text.specs.Picture.{digit_of, pixel_text, after_of, byte_of, picture_of};

fn digit(d: u32) -> u8
    requires { d < 16 }
    ensures { result ≡ digit_of d }
{
    if d < 10 {
        b'0' + d as u8
    } else {
        b'A' + (d - 10) as u8
    }
}

// The 8 digits of a pixel, the highest first.
#[tactic(auto, unfolding(crate::specs::Picture::pixel_text))]
fn pixel(p: u32) -> [u8; 8]
    ensures { result ≡ pixel_text p }
{
    [
        digit(p / 268435456 % 16),
        digit(p / 16777216 % 16),
        digit(p / 1048576 % 16),
        digit(p / 65536 % 16),
        digit(p / 4096 % 16),
        digit(p / 256 % 16),
        digit(p / 16 % 16),
        digit(p % 16),
    ]
}

// What follows pixel k: a newline at the end of a row, else a space.
fn after(k: usize, w: usize) -> u8
    requires w_nonzero { 0 < w }
    requires k_bound { k < 2 ^ 63 }
    ensures { result ≡ after_of w k }
{
    if (k + 1) % w == 0 { b'\n' } else { b' ' }
}

// Byte i of the text.
#[tactic(auto, unfolding(crate::specs::Picture::byte_of))]
fn byte(px: &[u32], w: usize, i: usize) -> u8
    requires w_nonzero { 0 < w }
    requires i_bound { i < 9 * length px.now }
    ensures { result ≡ byte_of w px.now i }
{
    let k = i / 9;
    let j = i % 9;
    if j < 8 { pixel(px[k])[j] } else { after(k, w) }
}

// The text of a canvas of w columns.
pub(crate) fn picture(px: &[u32], w: usize, out: &mut [u8])
    requires w_nonzero { 0 < w }
    requires out_len { length out.old ≡ 9 * length px.now }
    ensures { out.new ≡ picture_of w px.now }
{
    for (i, x) in out.iter_mut().enumerate() {
        *x = byte(px, w, i);
    }
}
