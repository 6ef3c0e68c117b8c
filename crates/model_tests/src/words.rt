//! Words that are merged, as far as some count: none, less than a lane, whole lanes, and lanes with words behind them.
ghost use Rattle.std.specs.Prelude.{◌≤◌};

use mk_decide::words::merge;

// Words, others, and the bitwise or of both.
static INTO: [u64; 17] = [
    0x9e37_79b9_7f4a_7c15,
    0x006e_0072_0094_002a,
    0xdaa6_6d2c_7ddf_743f,
    0x00dd_00e5_0029_0054,
    0x1715_609f_7c74_6c69,
    0x004c_0058_00be_007e,
    0x5384_5412_7b09_6493,
    0x00bb_00cb_0053_00a8,
    0x8ff3_4785_799e_5cbd,
    0x002a_003e_00e8_00d2,
    0xcc62_3af8_7833_54e7,
    0x0099_00b1_007d_00fc,
    0x08d1_2e6b_76c8_4d11,
    0x0008_0024_0012_0026,
    0x4540_21de_755d_453b,
    0x0077_0097_00a7_0050,
    0x81af_1551_73f2_3d65,
];

static FROM: [u64; 17] = [
    0x0000_0000_0000_0001,
    0x0aca_b8f4_9f53_ad3c,
    0xcd7d_6731_c728_988b,
    0x0000_0000_0000_0200,
    0x52e2_c3ac_16d2_6f29,
    0x1595_71e9_3ea7_5a78,
    0x0000_0000_0004_0000,
    0x9afa_ce63_8e51_3116,
    0x5dad_7ca0_b626_1c65,
    0x0000_0000_0800_0000,
    0xe312_d91b_05cf_f303,
    0xa5c5_8758_2da4_de52,
    0x0000_0010_0000_0000,
    0x2b2a_e3d2_7d4e_b4f0,
    0xeddd_920f_a523_a03f,
    0x0000_2000_0000_0000,
    0x7342_ee89_f4cd_76dd,
];

static WANT: [u64; 17] = [
    0x9e37_79b9_7f4a_7c15,
    0x0aee_b8f6_9fd7_ad3e,
    0xdfff_6f3d_ffff_fcbf,
    0x00dd_00e5_0029_0254,
    0x57f7_e3bf_7ef6_6f69,
    0x15dd_71f9_3ebf_5a7e,
    0x5384_5412_7b0d_6493,
    0x9afb_ceeb_8e53_31be,
    0xdfff_7fa5_ffbe_5cfd,
    0x002a_003e_08e8_00d2,
    0xef72_fbfb_7dff_f7e7,
    0xa5dd_87f9_2dfd_defe,
    0x08d1_2e7b_76c8_4d11,
    0x2b2a_e3f6_7d5e_b4f6,
    0xeddd_b3df_f57f_e53f,
    0x0077_2097_00a7_0050,
    0xf3ef_ffd9_f7ff_7ffd,
];

/// Whether the first words are merged, and the others are kept.
fn is_merged(count: usize) -> bool
    requires { count ≤ 17 }
{
    let mut words = INTO;
    merge(&mut words[..count], &FROM[..count]);
    words[..count] == WANT[..count] && words[count..] == INTO[count..]
}

fn are_merged() -> bool {
    is_merged(0) && is_merged(7) && is_merged(8) && is_merged(9) && is_merged(16) && is_merged(17)
}

#[test]
fn merges_words(rt: HostRuntime) {
    assert!(rt; are_merged());
}
