//! Samples against the bytes, lengths and checksums that a generator of its own gave for them.

use mk_make::{Bytes, Sample, sample};
use std::process::Abort;
use std::test::Fail;

/// The market file for two variables.
const SMALLEST_FILE: &str = r#"points_per_bit = 100
max_trades = 1000
cliques = [["v1", "v2"]]
links = []

[[variable]]
name = "v1"
values = ["no", "yes"]
parents = []
rows = [[400000, 600000]]

[[variable]]
name = "v2"
values = ["no", "yes"]
parents = ["v1"]
rows = [[700000, 300000], [200000, 800000]]
"#;

/// The commands for two variables.
const SMALLEST_COMMANDS: &str = "user u1
user u2
user u3
user u4
user u5
user u6
user u7
user u8
deposit u1 200
deposit u2 200
deposit u3 200
deposit u4 200
deposit u5 200
deposit u6 200
deposit u7 200
deposit u8 200
edit u1 v2=yes | v1=yes to 237123
edit u2 v1=yes to 274246
edit u3 v2=yes | v1=yes to 311369
edit u4 v1=yes to 348492
edit u5 v2=yes | v1=yes to 385615
resolve v1=yes
resolve v2=no
settle
";

/// The checksum FNV-1a of 64 bits.
fn checksum(bytes: &[u8]) -> u64 {
    let mut sum: u64 = 0xcbf2_9ce4_8422_2325;
    for byte in bytes {
        sum = (sum ^ *byte as u64).wrapping_mul(0x0000_0100_0000_01b3);
    }
    sum
}

/// Stops unless both texts of a sample are these.
fn expect_texts(rt: &impl Abort, given: &Sample, file: &str, commands: &str) {
    assert!(rt; given.file.bytes() == file.as_bytes());
    assert!(rt; given.commands.bytes() == commands.as_bytes());
}

/// Stops unless a text of the sample of `n` variables has this length and this checksum.
fn expect_sum(rt: &impl Abort, n: u32, given: &Bytes, length: usize, sum: u64) {
    let bytes = given.bytes();
    assert!(rt; bytes.len() == length, "length at {n}");
    assert!(rt; checksum(bytes) == sum, "checksum at {n}");
}

#[test]
fn smallest_sample(rt: HostRuntime) -> Result<(), Fail> {
    let smallest = sample(rt.alloc(), 2)?;
    expect_texts(&rt, &smallest, SMALLEST_FILE, SMALLEST_COMMANDS);
    Ok(())
}

#[test]
fn greater_samples(rt: HostRuntime) -> Result<(), Fail> {
    for (n, file, commands) in [
        (
            3,
            (398, 0xe397_c75f_5e50_d48e),
            (453, 0x2d3d_76bf_d0c5_3302),
        ),
        (
            12,
            (1_552, 0xecda_e1c6_1a3f_6d54),
            (1_370, 0x2dbf_8352_bc67_f6a1),
        ),
        (
            200,
            (26_869, 0x37c7_2be2_911a_6589),
            (21_560, 0xf70a_ce3f_ad69_d1b4),
        ),
        (
            256,
            (34_541, 0xe905_ee28_182d_c6aa),
            (27_734, 0x732f_f0ac_275c_26a6),
        ),
    ] {
        let greater = sample(rt.alloc(), n)?;
        expect_sum(&rt, n, &greater.file, file.0, file.1);
        expect_sum(&rt, n, &greater.commands, commands.0, commands.1);
    }
    Ok(())
}
