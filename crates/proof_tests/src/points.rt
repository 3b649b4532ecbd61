//! Bases are read and spelled by their worked bytes, and the first break in one is told.

use clue_index::ClueState;
use hex::FromHex;
use ledger_bytes::{Bad, Digest, Sha};
use pseudo_genesis::{Base, BaseErr, base_digest};
use std::alloc::Global;
use std::process::Abort;
use std::test::Fail;

// Three members and no clue, at point 3.
const SMALL: &str =
    "0164915354a6547b1f887e596e872fd13b2abdc860729da9fe31180a81726cf4a2000000000000000300000000000000025d0c93\
    a2c3f5b439800c35082b570525c1c42d311dfab11205d0376c51f95cf9817aa9248d10780808af00a473b7890eae59c8604ea4d2\
    37ff2dfac7b43e8e7500030101010101010101010101010101010101010101010101010101010101010101020202020202020202\
    02020202020202020202020202020202020202020202020303030303030303030303030303030303030303030303030303030303\
    03030300000000";

// Five members and forty clues, at point 105.
const LARGE: &str =
    "0164915354a6547b1f887e596e872fd13b2abdc860729da9fe31180a81726cf4a20000000000000069000000000000000410f67b\
    eb0c0faf4e00aaaff6e820595083329634ae31351e0a8f00c182428be63efe92baa95a14e2b7e6655402773300be1d15a1191271\
    5bc7c3f2338463e475f7a4a392c9e900848e4570bf3e7c712c93d63c1708da7c1a6421b5bff1ed03d2a1e34ea6042cb3a240fae7\
    e1e5b97b64dd058c4857e0de566d684b8c0c765f7b00050101010101010101010101010101010101010101010101010101010101\
    01010102020202020202020202020202020202020202020202020202020202020202020303030303030303030303030303030303\
    03030303030303030303030303030304040404040404040404040404040404040404040404040404040404040404040505050505\
    0505050505050505050505050505050505050505050505050505050000002802f8ba74de1a75290d0608c7b8d423095af443ff06\
    d7fae03816ecdfcabdc03f00000003000000000000006704ead93db24ead2db6d724d07a772271c185b0b02f685e6ec9ffb5d90f\
    733d1300000003000000000000006305162c3339fe38e01562b47708af61796de831fe89e1aa023cdaa4a1e25626b90000000200\
    000000000000430fe2ad5c5bf15359e4176078f7600466494e913b6f94add8f49bd62a48a6a61f00000003000000000000006115\
    2da57e9b9abdcc0cc4179dd80c6231f4b70d9dcca512d67cd507a8378c46020000000200000000000000421b8dd68cab9b406a6f\
    2329275ce35298e86f0293b772a7a3d4775a096f1adca40000000300000000000000621cfbe642bc987ad8370100d4ddc7695074\
    baae8f161c3fd55f6489279cdd5a2e0000000200000000000000462c3eca76f1457c63fa7d85ba5557f457a623370dc9deb6075e\
    9e2016fd972af40000000200000000000000532f917472d87eccedc684024b03eaa5429ee3a95201ae27ba4cd67882a33292a400\
    000003000000000000005f3b3605776511cfe74fc4c2f7a2ffad6dbac92d48dd36a7f52ac6b8c289946b42000000030000000000\
    0000683cab222552cebd7dd51968d4dfd1f872f525659bcb2a0472af0e7f96abb797c50000000200000000000000415219fd052a\
    b2ac1dc105e953fa309adb627403a1c1e29371c653bb27ebe995640000000200000000000000505369f00f73a2b92ef0d0db5843\
    8d1861e0d38e9c696cdc7eb5bfa6375c3c3067000000030000000000000059547ecb8ee9de711362b878b812dcd88b48bfb53a0c\
    09f5eecfea09192045965e00000002000000000000004457d6e9df592c128f46abd0175cd79fe529cfa3ca74dc0321b5bb4d518a\
    e4d17a00000002000000000000004b61d5d55d502549dfbd90d33b6cc3c5f0cbfefb42ba39ee7c5f142125b81968e90000000300\
    00000000000058658434f2eeba5f03448113f4e278cead78bda1a1c522074148703a3e9de8884a00000002000000000000004a6d\
    d50c52cc8e4dffaad1b43bf03a3663c0d03ba663c7de6ae2e9b225424f70da00000003000000000000005b6edaa6055bec30659a\
    ff6c3fe6c5653809df330e710d20339ff29101fdbca1a30000000300000000000000646ee00d0ad4eaa17e3f9e26be2f85b22754\
    a99ff4aa22a2ec080892d11152efaa0000000300000000000000607e113a203967f8ce199f7953a4a22f5e715c68a991c173918b\
    fec707e877cf5200000002000000000000004780ae77c146ce021e025e60e35de4eb344ed94fb7f5729e204c6ed5ff1706a77d00\
    000002000000000000004d821100147620370426061ab9a5f5435bc4c0057cec6ee916efc4f548060a095e000000030000000000\
    00005782a2b4d653591bb27cf2617ad68adad67d03223c22897d43fecbaad403aae5d60000000300000000000000558734b04ba9\
    ae8b9853091634973e354e1eccf4ee06d6e1c955c45f8ecb151b890000000200000000000000458bbb2d4af1242d0c3890d9ba94\
    479371ef29c7ddc393f99d9565820c26b22ce20000000200000000000000498e41998495784f42bc3be3268d1f8d79aae3ee4ebe\
    4ca5d84177032d96e5794a00000003000000000000005ea705ed7094b6df437e0c111999751aa0bbd15ae7eec142aa2e0fda77af\
    b9dd63000000020000000000000052a89348093026f95c3e67a2e2114c3647c20b1ba529f1eb4b2f7fd13087e609980000000300\
    00000000000065b954479b994c5197e6fbbdd3ae21df3e21eca5ae91a94b8b561cb590bf479a4600000003000000000000005cb9\
    97c2facb4ef37a14e7d370943e3a7cf0640b5f4fc8f9767a5883944dec5d5300000003000000000000005dce1a1cdd0b4927789b\
    b87427405db0f184e4875816605d2031c680da61b1e835000000020000000000000051d708ec0bd4e59dbe602866fa4f139e9662\
    f6c46969737740b8adaa2f164d2606000000030000000000000056da3467e114f96efc2063a2cca6d90c8fe8dc8922d78cc73147\
    ad559e3a2806c7000000020000000000000054dd2ff8573be853c773a97dbe0457e8f53a4f8a35d4964bca6975aed7abf113ed00\
    000002000000000000004ce9d1f385d5c1a113eec73044ef9d582dee23ab73eaec37412a20c7f22f41c030000000020000000000\
    00004eeab474b73acfca6ff9a2c63fb5fe465a2fdb775ecafa2a1a9f2bb300b7107c86000000030000000000000066f13f63abdd\
    7fc2a5b12a365548ab8f35ee9173fd238833063ac18590f667388c000000020000000000000048f33e316d28124846c3b47aec7e\
    e38e3b99e213890d47ab02c6db3231f73d1c9500000003000000000000005afab99ef8873ec1813b6df01771412d6daba15077e9\
    c9d1517bea7ffd50f7825900000002000000000000004f";

fn digest(text: &str) -> Result<Digest, hex::FromHexError> {
    Ok(Digest(<[u8; 32]>::from_hex(text)?))
}

#[test]
fn reads_what_it_spells(rt: HostRuntime) -> Result<(), Fail> {
    for (text, point, blocks, peaks, keys, clues, digest_of) in [
        (
            SMALL,
            3,
            2,
            2,
            3,
            0,
            "2a4f3bb2a8d77b22b9d180252a2a074a9cbc7278cc6d931e821222b583f6e516",
        ),
        (
            LARGE,
            105,
            4,
            4,
            5,
            40,
            "596f644b4e072abfa274f82ed20928690de03af9ec8c871780b27e3b10d0f53f",
        ),
    ] {
        let bytes = hex::decode(rt.alloc(), text)?;
        let counts = counts_of(rt.alloc(), bytes.as_slice())?;
        assert_eq!(rt; counts, (point, blocks, [peaks, keys, clues]), "at {point}");
        assert_eq!(rt; base_digest::<Sha>(bytes.as_slice()), digest(digest_of)?);
    }
    Ok(())
}

/// The point, the blocks, and how many peaks, keys and clues the base with these bytes has, which is spelled by them again.
fn counts_of(alloc: Global, bytes: &[u8]) -> Result<(u64, u64, [usize; 3]), Fail> {
    let base = Base::decode(alloc, bytes).map_err(|_| "not read")?;
    if base.encode(alloc)?.as_slice() != bytes {
        return Err("spelled otherwise".into());
    }
    let lists = [
        base.peaks.as_slice().len(),
        base.keys.as_slice().len(),
        base.clues.as_slice().len(),
    ];
    Ok((base.point, base.blocks, lists))
}

#[test]
fn reads_each_part(rt: HostRuntime) -> Result<(), Fail> {
    let bytes = hex::decode(rt.alloc(), LARGE)?;
    let base = Base::decode(rt.alloc(), bytes.as_slice()).map_err(|_| "not read")?;
    has_each_part(&rt, &base)
}

fn has_each_part(rt: &impl Abort, base: &Base) -> Result<(), Fail> {
    let id = digest("64915354a6547b1f887e596e872fd13b2abdc860729da9fe31180a81726cf4a2")?;
    assert_eq!(rt; base.id, id);
    let peak = digest("10f67beb0c0faf4e00aaaff6e820595083329634ae31351e0a8f00c182428be6")?;
    assert_eq!(rt; base.peaks.as_slice().first(), Some(&peak));
    assert_eq!(rt; base.keys.as_slice().last(), Some(&Digest([5; 32])));
    let last = ClueState {
        clue: digest("fab99ef8873ec1813b6df01771412d6daba15077e9c9d1517bea7ffd50f78259")?,
        count: 2,
        last: 79,
    };
    assert_eq!(rt; base.clues.as_slice().last(), Some(&last));
    Ok(())
}

/// The small base with a number in four bytes at a place, and further bytes behind it.
fn error_of(
    rt: &impl Abort,
    alloc: Global,
    place: usize,
    number: u32,
    behind: &str,
) -> Result<Option<BaseErr>, Fail> {
    let mut bytes = hex::decode(alloc, SMALL)?;
    assert!(rt; bytes.len() == 215 && place <= 211);
    bytes[place..place + 4].copy_from_slice(&number.to_be_bytes());
    bytes.extend_from_slice(hex::decode(alloc, behind)?.as_slice())?;
    Ok(Base::decode(alloc, bytes.as_slice()).err())
}

// Clues that break a rule: 32 zero bytes, none journal, the point as the last journal, and one clue twice.
const ZERO: &str =
    "0000000000000000000000000000000000000000000000000000000000000000000000010000000000000001";

const NO_JOURNAL: &str =
    "0303030303030303030303030303030303030303030303030303030303030303000000000000000000000001";

const AT_THE_POINT: &str =
    "0303030303030303030303030303030303030303030303030303030303030303000000010000000000000003";

const TWICE: &str =
    "0303030303030303030303030303030303030303030303030303030303030303000000010000000000000001\
    0303030303030303030303030303030303030303030303030303030303030303000000010000000000000001";

#[test]
fn tells_the_first_break(rt: HostRuntime) -> Result<(), Fail> {
    for (place, number, behind, bad) in [
        (211, 0, "00", Bad::Trailing { at: 215 }),
        (0, 0x0264_9153, "", Bad::NewerFormat { found: 2 }),
        (37, 0, "", Bad::BadFixedField { at: 33 }),
        (37, 0xffff_ffff, "", Bad::BadFixedField { at: 33 }),
        (45, 0, "", Bad::BadFixedField { at: 41 }),
        (45, 4, "", Bad::BadFixedField { at: 41 }),
        (113, 0x0001_0101, "", Bad::BadFixedField { at: 113 }),
        (113, 0x0101_0101, "", Bad::BadFixedField { at: 113 }),
        (211, 0x0010_0001, "", Bad::BadFixedField { at: 211 }),
        (211, 1, ZERO, Bad::BadFixedField { at: 215 }),
        (211, 1, NO_JOURNAL, Bad::BadFixedField { at: 247 }),
        (211, 1, AT_THE_POINT, Bad::BadFixedField { at: 251 }),
        (211, 2, TWICE, Bad::BadFixedField { at: 259 }),
    ] {
        let told = error_of(&rt, rt.alloc(), place, number, behind)?;
        assert_eq!(rt; told, Some(BaseErr::Bad(bad)));
    }
    let mut bytes = hex::decode(rt.alloc(), SMALL)?;
    bytes.truncate(214);
    let short = BaseErr::Bad(Bad::Short { at: 214 });
    let told = Base::decode(rt.alloc(), bytes.as_slice()).err();
    assert_eq!(rt; told, Some(short));
    Ok(())
}
