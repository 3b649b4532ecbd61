//! Replies that tell stamps, occulted journals, proofs and extensions have the worked texts.

use hex::FromHex;
use ledger_bytes::{Bytes, Digest};
use script_lines::{Reply, Which, put_reply, reply_text};
use std::alloc::Global;
use std::process::Abort;
use std::test::Fail;

const ID: &str = "64915354a6547b1f887e596e872fd13b2abdc860729da9fe31180a81726cf4a2";

const PROOF: &str =
    "010000000000000003000000000000000064915354a6547b1f887e596e872fd13b2abdc860729da9fe31180a81726cf4a202e17cd0a38398533f50004ec57f5dd3837680b6b072223c6ffc9e2bfa0d0e723cc346a4840bce4f8de12d73b3fda6bb93c7f113f7a07ee5b4951f1393dcc51ed500010000000000000002000000000000000000000000000003e88b3b30a051bca9ec8bacbfaf3a351389842d99f1769a4959994077e9ec8d875789713d47487c9be9875bd8f6a471f021f10440bea34709c459dce3a17031395101c346a4840bce4f8de12d73b3fda6bb93c7f113f7a07ee5b4951f1393dcc51ed5000000000000000100";

const EXTENSION: &str =
    "817aa9248d10780808af00a473b7890eae59c8604ea4d237ff2dfac7b43e8e751ceb3d0b84048f750baf678356fb8989ae04df1236712eb09480365eb2b8edcc5d0c93a2c3f5b439800c35082b570525c1c42d311dfab11205d0376c51f95cf9f908e25e5dd26af47c1139634183bd63ce1462998b3974bdc137830b569a8541";

const WHO: &str =
    "00000002004003030303030303030303030303030303030303030303030303030303030303031c73656160873b10becb5d4a75a046056d790b17f79672513778ab540c22c6df";

const ROOT_OF_SIX: &str = "af7eba02c88f58f4f622d4ff7d85dca0bc0485cd3f1f429831c6e29fd5a2c55e";

const OCCULTED: &str =
    "01010000000000000002000000023536d837609504a8406dcb211cb403cb9290736cc3a94b2fa0601b2cd543e6da00000001000000000000000000000000000000000000000000000000c91e8e640e57e2e878b7b2840e07636c07539496336fbcc57c40f1cc60c359fc00000003909ac45e439911193205994d09399c29fede977ab212605f29ead5250a812e73c31de51580a8656b63f753ec142454bafa09b766de1b25b0ac75c128005d40cb";

fn digest(text: &str) -> Result<Digest, hex::FromHexError> {
    Ok(Digest(<[u8; 32]>::from_hex(text)?))
}

/// The bytes that these digits spell.
fn bytes_of(alloc: Global, text: &str) -> Result<Bytes, Fail> {
    Ok(Bytes::of(hex::decode(alloc, text)?))
}

/// The reply has this text, given in pieces.
fn check(
    rt: &impl Abort,
    alloc: Global,
    index: u64,
    reply: &Reply,
    pieces: &[&str],
) -> Result<(), Fail> {
    let mut line = Vec::new(alloc);
    for piece in pieces {
        line.extend_from_slice(piece.as_bytes())?;
    }
    let text = reply_text(alloc, 0, index, reply)?;
    assert_eq!(rt; text.as_slice(), line.as_slice());
    let mut lines = b"0.1 no 10\n".to_vec(alloc)?;
    put_reply(&mut lines, 0, index, reply)?;
    assert_eq!(rt; lines.len(), 10 + line.len());
    assert!(rt; lines.as_slice().ends_with(line.as_slice()));
    Ok(())
}

#[test]
fn writes_stamps(rt: HostRuntime) -> Result<(), Fail> {
    let stamped = Reply::Placed {
        jsn: 2,
        leaf: digest("5e709f58ad3426700677d797d0267ed38e8c242bbe75ce422c050fc1a0185f6a")?,
        block: 2,
        size: 3,
        root: digest("c7faadd5cd3f0039410d655fff2dce12e16ec35f850c863542f14ff18c33c7fb")?,
        stamp: Some((1, 2000)),
    };
    check(
        &rt,
        rt.alloc(),
        u64::MAX,
        &stamped,
        &[
            "0.18446744073709551615 ok 2 5e709f58ad3426700677d797d0267ed38e8c242bbe75ce422c050fc1a0185f6a 2 3 c7faadd5cd3f0039410d655fff2dce12e16ec35f850c863542f14ff18c33c7fb 1 2000\n",
        ],
    )
}

#[test]
fn writes_occulted_journals(rt: HostRuntime) -> Result<(), Fail> {
    let occulted = Reply::Occulted {
        header: <[u8; 174]>::from_hex(OCCULTED)?,
        who: bytes_of(rt.alloc(), WHO)?,
    };
    check(
        &rt,
        rt.alloc(),
        4,
        &occulted,
        &["0.4 occulted ", OCCULTED, " ", WHO, "\n"],
    )
}

#[test]
fn writes_proofs(rt: HostRuntime) -> Result<(), Fail> {
    let proof = Reply::Proof {
        n: 0,
        leaf: digest(ID)?,
        lo: None,
        hi: Some((2, 0, 1000)),
        proof: bytes_of(rt.alloc(), PROOF)?,
    };
    check(
        &rt,
        rt.alloc(),
        3,
        &proof,
        &["0.3 proof 0 ", ID, " - 2:0:1000 ", PROOF, "\n"],
    )
}

#[test]
fn writes_extensions(rt: HostRuntime) -> Result<(), Fail> {
    for (m, front, proof, told) in [
        (3, "0.11 extension ledger 3 6 ", EXTENSION, EXTENSION),
        (6, "0.11 extension ledger 6 6 ", "", "-"),
    ] {
        let extension = Reply::Extension {
            which: Which::Ledger,
            m,
            size: 6,
            root: digest(ROOT_OF_SIX)?,
            proof: bytes_of(rt.alloc(), proof)?,
        };
        check(
            &rt,
            rt.alloc(),
            11,
            &extension,
            &[front, ROOT_OF_SIX, " ", told, "\n"],
        )?;
    }
    Ok(())
}
