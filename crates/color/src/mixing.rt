// Mixing two colours by f32, and two pixels by whole numbers.
ghost use Rattle.std.specs.Prelude.{◌≡◌, ◌+◌, ◌*◌, ◌≤◌};
ghost use Rattle.color.specs.Colours as Colours;
ghost use Rattle.color.specs.Colours.{mixed256, mix_pix_of};
ghost use Rattle.color.specs.Inks.{red, green, blue};

// One byte of the mix of two colours.
pub(crate) fn between(a: u8, b: u8, t: f32) -> u8
    ensures { result ≡ Colours.between a b t }
{
    mathf::to_u8(a as f32 + (b as f32 - a as f32) * t + 0.5)
}

// Red and blue of a pixel in their places, and green in its.
fn red_blue(p: u32) -> u32
    ensures { result ≡ red p * 65536 + blue p }
{
    p / 65536 % 256 * 65536 + p % 256
}

fn only_green(p: u32) -> u32
    ensures { result ≡ green p * 256 }
{
    p / 256 % 256 * 256
}

// 256 parts of two numbers, t of them the second's.
#[tactic(auto, using(crate::proofs::Weights::weighted_le))]
fn parts(x: u32, y: u32, t: u32) -> u32
    requires { (x ≤ 0x00ff_00ff) × (y ≤ 0x00ff_00ff) × (t ≤ 256) }
    ensures { result ≡ mixed256 x y t }
{
    (x * (256 - t) + y * t) / 256
}

// Two channels a multiply: they lie 16 places apart, and 256 parts of a channel fit into 16.
#[tactic(auto, using(crate::proofs::Parts::red_blue_mixed))]
fn mix_red_blue(a: u32, b: u32, t: u32) -> u32
    requires { t ≤ 256 }
    ensures { result ≡ mixed256 (red a) (red b) t * 65536 + mixed256 (blue a) (blue b) t }
{
    red_blue(parts(red_blue(a), red_blue(b), t))
}

#[tactic(auto, using(crate::proofs::Parts::green_mixed))]
fn mix_green(a: u32, b: u32, t: u32) -> u32
    requires { t ≤ 256 }
    ensures { result ≡ mixed256 (green a) (green b) t * 256 }
{
    only_green(parts(only_green(a), only_green(b), t))
}

// Two pixels mixed, t256 of 256 parts the second.
#[tactic(auto, using(crate::proofs::Parts::mixed_fits), unfolding(crate::specs::Colours::mix_pix_of))]
pub fn mix_pix(a: u32, b: u32, t256: u32) -> u32
    ensures { result ≡ mix_pix_of a b t256 }
{
    let t = t256.min(256);
    mix_red_blue(a, b, t) + mix_green(a, b, t)
}
