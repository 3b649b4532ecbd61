//! A worked set of one journal, read as it is, and cut and changed.

use hex::FromHex;
use ledger_bytes::Bad;
use std::test::Fail;
use survivor_set::Set;

// How many bytes it has.
const LEN: usize = 363;

pub const SET: &str =
    "4c4447535552563164915354a6547b1f887e596e872fd13b2abdc860729da9fe31180a81726cf4a20000000000000003787ddacff6088f3d7400ab6500682dd4939f72ae8c0d1bb443ea4b9d74eddf090101010000000000000002000000020000000000000000000000000000000000000000000000000000000000000000000000000000000000000000000000000000000000000000000000003746bd6bf2f3d80f02d7a8e4f47739d4885bf4fd95a9d5728c7585ac8df144b900000000dbc1b4c900ffe48d575b5da5c638040125f65db0fe3e24494b76ea986457d98660f939b6f2e29d94e23a8e69a18def6e706674ee7d8c9ba473b5a026ad370f1100000000460000000200400303030303030303030303030303030303030303030303030303030303030303f7883fcc812a608a0fc1facb9db3695d6a79994b1d3a982a0680d6a5c87dfef4015d0c93a2c3f5b439800c35082b570525c1c42d311dfab11205d0376c51f95cf9";

// The place of a byte whose last bit is changed, and the break that is told.
const CHANGED: [(usize, Bad); 9] = [
    (0, Bad::BadFixedField { at: 0 }),
    (7, Bad::BadFixedField { at: 0 }),
    (91, Bad::BadFixedField { at: 91 }),
    (98, Bad::BadFixedField { at: 127 }),
    (133, Bad::BadFixedField { at: 131 }),
    (140, Bad::BadFixedField { at: 139 }),
    (147, Bad::BadFixedField { at: 147 }),
    (189, Bad::Short { at: 363 }),
    (259, Bad::Short { at: 363 }),
];

#[test]
fn a_set_is_read(rt: HostRuntime) -> Result<(), Fail> {
    let bytes = <[u8; LEN]>::from_hex(SET)?;
    let set = Set::decode(&bytes)?;
    assert_eq!(rt; (set.point(), set.count()), (3, 1));
    assert_eq!(rt; set.get(0).map(|survivor| survivor.number()), Some(2));
    assert!(rt; set.get(1).is_none());
    Ok(())
}

#[test]
fn cut_and_changed_sets_are_told(rt: HostRuntime) -> Result<(), Fail> {
    let bytes = <[u8; LEN]>::from_hex(SET)?;
    for len in [0, 3, 48, 81, 87, 362] {
        let cut = bytes.get(..len).unwrap_or(&[]);
        assert_eq!(rt; Set::decode(cut).err(), Some(Bad::Short { at: len as u64 }));
    }
    for (place, bad) in CHANGED {
        let mut bytes = bytes;
        bytes[place] ^= 1;
        assert_eq!(rt; Set::decode(&bytes).err(), Some(bad));
    }
    let mut more = [0; LEN + 1];
    more[..LEN].copy_from_slice(&bytes);
    assert_eq!(rt; Set::decode(&more).err(), Some(Bad::Trailing { at: 363 }));
    Ok(())
}
