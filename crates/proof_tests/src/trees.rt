//! Trees of up to 20 leaves have the worked roots, by SHA-256.

use crate::growing::add;
use hex::{FromHex, FromHexError};
use ledger_bytes::{Digest, Sha, Toy};
use merkle_batch::Tree;
use merkle_tree::{leaf_of, mth, path, proof, root_of};
use std::test::Fail;

mod clashes;
mod paths;
mod proofs;

// The root over no leaves, by SHA-256.
const EMPTY: &str = "e3b0c44298fc1c149afbf4c8996fb92427ae41e4649b934ca495991b7852b855";

// By SHA-256, over leaves that are the one byte 0, the one byte 1, and so on: the digest of each leaf, and
// the root over it and the leaves before it.
const TREES: [(&str, &str); 20] = [
    (
        "96a296d224f285c67bee93c30f8a309157f0daa35dc5b87e410b78630a09cfc7",
        "96a296d224f285c67bee93c30f8a309157f0daa35dc5b87e410b78630a09cfc7",
    ),
    (
        "b413f47d13ee2fe6c845b2ee141af81de858df4ec549a58b7970bb96645bc8d2",
        "a20bf9a7cc2dc8a08f5f415a71b19f6ac427bab54d24eec868b5d3103449953a",
    ),
    (
        "fcf0a6c700dd13e274b6fba8deea8dd9b26e4eedde3495717cac8408c9c5177f",
        "3b6cccd7e3e023ff393006f030315ee7ad9eb111b022b41fba7e5b7a3973f688",
    ),
    (
        "583c7dfb7b3055d99465544032a571e10a134b1b6f769422bbb71fd7fa167a5d",
        "9bcd51240af4005168f033121ba85be5a6ed4f0e6a5fac262066729b8fbfdecb",
    ),
    (
        "4f35212d12f9ad2036492c95f1fe79baf4ec7bd9bef3dffa7579f2293ff546a4",
        "b855b42d6c30f5b087e05266783fbd6e394f7b926013ccaa67700a8b0c5a596f",
    ),
    (
        "9f1afa4dc124cba73134e82ff50f17c8f7164257c79fed9a13f5943a6acb8e3d",
        "bb36e7d3d4cee5720cbd323d02fab15962e2ba1dadf5f8fc6eeef4fd6ad056a8",
    ),
    (
        "40d88127d4d31a3891f41598eeed41174e5bc89b1eb9bbd66a8cbfc09956a3fd",
        "3560191803028444b232018ac047fdb561c09c23a7a6876c85e08b5e4d48e9f3",
    ),
    (
        "2ecd8a6b7d2845546659ad4cf443533cf921b19dc81fa83934e83821b4dfdcb7",
        "ef7f49b620f6c7ea9b963a214da34b5021c6ded8ed57734380a311ab726aa907",
    ),
    (
        "b4c43b50bf245bd727623e3c775a8fcfb8d823d00b57dd65f7f79dd33f126315",
        "162a21c2230e0284ea38cb8739ee4bb75947a1acd5d529c638ec068969fb3c4a",
    ),
    (
        "c87479cd656e7e3ad6bd8db402e8027df454b2b0c42ff29e093458beb98a23d4",
        "487540cba07f8eee7688295955ee3b4c04003e8ca2de94426237cd44491108a7",
    ),
    (
        "67ebbd370daa02ba9aadd05d8e091e862d0d8bcadafdf2a22360240a42fe922e",
        "e177ad5a8a17108dad67c70a51266681aa02b9e2b7ad6a0357585ba4289982ac",
    ),
    (
        "f09a7a12954169ae595d12d870e69a4c0092003157d72523d626d2a3990241e2",
        "e1638fb3b9f61905f83ee361fd1342365d39e2848015a44a69a1dd82105ef04d",
    ),
    (
        "fe251e4dd034dcf589c84794120c85d6015d65ca7d9a2c2ec73c9ecb5e33d83b",
        "df5ee130e5a247600d190c31074458de3c0dc58f0b0d8a6a2b3dd4fd7e569501",
    ),
    (
        "a1f386a0ecb061b3c46a038616212779858ba7258b2eccb818a64986c97282da",
        "a634b1bfbcedff2e39ffe69201b948646210f4e942bef01b3cfe1e5165c953d6",
    ),
    (
        "9f4917386c45e2c0da0d9b475f1a19cf2db1e929195c6a9f4966ca0d2105b196",
        "504df18ccb021fe5f19677228be6b1f6e597a9c63d0a300bbddb113c98f4b368",
    ),
    (
        "3b2b7c6ee25e2f28a6235e273eaf13f504bd445024147ebacb878262aae90509",
        "93f2bd0cd60b2e597cf53fb12ae63ed157e0c10efbfe097d23caf8a5f59c6e27",
    ),
    (
        "0298d122906dcfc10892cb53a73992fc5b9f493ea4c9badb27b791b4127a7fe7",
        "8e31c4ca74a9e3449f253ee8cbe60e07149e3a1398e6e3f0f4a3c312a9fe14f3",
    ),
    (
        "2ed348343ad2d93bbbfc7316cde45c693a36a3d4fde8b39b1449067b1603b90d",
        "708932574baab95f641eba9ff28d7f88ae0adc524fa0d7b48952361c02698400",
    ),
    (
        "c493f6f146685f76b44f0c77ca88120cb8bc89f534fe69b6828827b974e68849",
        "619501532b25b1285a51afe899dd10db5092552148fcb8b58fb257bb442aecc7",
    ),
    (
        "d877a5674d893efd846208dbd80db16fca065c907405986f233d76c3fdb936a2",
        "f2ba45d80624b4ee4063cd934a2369fd22f04ec615b823ed6b26fe7628f6d69d",
    ),
];

fn digest(text: &str) -> Result<Digest, FromHexError> {
    Ok(Digest(<[u8; 32] as FromHex>::from_hex(text)?))
}

fn toy_digest(last: u8) -> Digest {
    let mut bytes = [0; 32];
    bytes[31] = last;
    Digest(bytes)
}

// The root over leaves of one byte each.
fn root_over(bytes: &[u8]) -> Digest {
    mth::<Sha>(bytes, 1)
}

#[test]
fn trees_by_sha(rt: HostRuntime) -> Result<(), Fail> {
    let mut bytes = Vec::new(rt.alloc());
    let mut tree: Tree<Sha> = Tree::new(rt.alloc());
    let empty = digest(EMPTY)?;
    assert_eq!(rt; (root_over(&[]), tree.root()), (empty, empty));
    for (byte, (leaf, root)) in (0..20).zip(&TREES) {
        let made = leaf_of::<Sha>(&[byte]);
        bytes.push(byte)?;
        add(&mut tree, &[made])?;
        let root = digest(root)?;
        assert_eq!(rt;
            (made, root_over(&bytes), tree.root()),
            (digest(leaf)?, root, root),
            "at {byte}"
        );
    }
    Ok(())
}

// Of five leaves: the root, the path of leaf 2, and the proof that they go on from the first three.
#[test]
fn leaves_have_a_path_and_a_proof(rt: HostRuntime) -> Result<(), Fail> {
    let leaves = [
        digest(TREES[0].0)?,
        digest(TREES[1].0)?,
        digest(TREES[2].0)?,
        digest(TREES[3].0)?,
        digest(TREES[4].0)?,
    ];
    let [_, _, third, fourth, fifth] = leaves;
    let (front, all) = (digest(TREES[1].1)?, digest(TREES[4].1)?);
    assert_eq!(rt; root_of::<Sha>(&leaves), all);
    let made = path::<Sha>(rt.alloc(), &leaves, 2)?;
    assert_eq!(rt; made.as_slice(), [fourth, front, fifth].as_slice());
    let made = proof::<Sha>(rt.alloc(), &leaves, 3)?;
    assert_eq!(rt; made.as_slice(), [third, fourth, front, fifth].as_slice());
    Ok(())
}
