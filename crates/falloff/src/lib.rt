// The falloff of a shadow: 97 levels, from fractions that stand on file.
#![tactic(auto)]

ghost use Rattle.std.specs.Prelude.{◌≡◌, ◌*◌, ◌^◌, ◌<◌};
ghost use Rattle.std.specs.Float.{binary32};
ghost use Rattle.std.specs.Float.Ieee.{of_bits};
ghost use Rattle.falloff.specs.Falloff.{level_by, OnFile, level_of, table};

// The fractions of the falloff as bit patterns of f32: entry i is 1 - t * t * (3 - 2 * t) at t = i / 96.
const FRACTIONS: [u32; 97] = [
    0x3f80_0000,
    0x3f7f_ead1,
    0x3f7f_abda,
    0x3f7f_4400,
    0x3f7e_b426,
    0x3f7d_fd2f,
    0x3f7d_2000,
    0x3f7c_1d7b,
    0x3f7a_f685,
    0x3f79_ac00,
    0x3f78_3ed1,
    0x3f76_afda,
    0x3f75_0000,
    0x3f73_3026,
    0x3f71_4130,
    0x3f6f_3400,
    0x3f6d_097b,
    0x3f6a_c285,
    0x3f68_6000,
    0x3f65_e2d0,
    0x3f63_4bda,
    0x3f60_9c00,
    0x3f5d_d426,
    0x3f5a_f530,
    0x3f58_0000,
    0x3f54_f57b,
    0x3f51_d685,
    0x3f4e_a400,
    0x3f4b_5ed1,
    0x3f48_07da,
    0x3f44_a000,
    0x3f41_2826,
    0x3f3d_a12f,
    0x3f3a_0c00,
    0x3f36_697b,
    0x3f32_ba85,
    0x3f2f_0000,
    0x3f2b_3ad1,
    0x3f27_6bda,
    0x3f23_9400,
    0x3f1f_b426,
    0x3f1b_cd30,
    0x3f17_e000,
    0x3f13_ed7b,
    0x3f0f_f685,
    0x3f0b_fc00,
    0x3f07_fed0,
    0x3f03_ffda,
    0x3f00_0000,
    0x3ef8_004a,
    0x3ef0_025e,
    0x3ee8_0800,
    0x3ee0_12f6,
    0x3ed8_250a,
    0x3ed0_4000,
    0x3ec8_65a0,
    0x3ec0_97b4,
    0x3eb8_d800,
    0x3eb1_284a,
    0x3ea9_8a60,
    0x3ea2_0000,
    0x3e9a_8af6,
    0x3e93_2d0a,
    0x3e8b_e800,
    0x3e84_bda0,
    0x3e7b_5f68,
    0x3e6d_8000,
    0x3e5f_e098,
    0x3e52_84bc,
    0x3e45_7000,
    0x3e38_a5ec,
    0x3e2c_2a14,
    0x3e20_0000,
    0x3e14_2b40,
    0x3e08_af6c,
    0x3dfb_2000,
    0x3de5_a128,
    0x3dd0_e978,
    0x3dbd_0000,
    0x3da9_ebd8,
    0x3d97_b428,
    0x3d86_6000,
    0x3d6b_ed00,
    0x3d4c_fdb0,
    0x3d30_0000,
    0x3d15_0250,
    0x3cf8_25e0,
    0x3cca_8000,
    0x3ca1_2f80,
    0x3c78_a140,
    0x3c38_0000,
    0x3c00_b440,
    0x3ba5_ed00,
    0x3b3c_0000,
    0x3aa8_4c00,
    0x39a9_8000,
    0x0000_0000,
];

// The table, whose rule is proved here, once for all entries.
fn on_file() -> [u32; 97]
    ensures { OnFile result }
{
    FRACTIONS
}

// The level of a fraction, given by its bits, for a colour's alpha.
fn level(bits: u32, a: u8) -> u32
    requires { bits < 255 * 2 ^ 23 }
    ensures { result ≡ level_by (of_bits binary32 bits) a }
{
    mathf::to_u32(f32::from_bits(bits) * (a as f32) + 0.5)
}

// The 97 levels, filled once a call.
pub fn falloff(a: u8) -> [u32; 97]
    ensures { result ≡ table (level_of a) 97 }
{
    let fractions = on_file();
    let mut lut = [0u32; 97];
    // By index: with the fractions zipped or mapped the proof does not close.
    for (i, entry) in lut.iter_mut().enumerate() {
        *entry = level(fractions[i], a);
    }
    lut
}
