//! Worked digits, and a key that a proof shows.

use chain_sign::{ChainScheme, KEYS_LIMIT, chain_key, chain_key_of, chain_sign, digits};
use hex::FromHex;
use ledger_bytes::{Digest, Sha};
use member_book::Verifier;
use std::test::Fail;

// A message, and what its digits are: the first 64 as they are written, then three.
const DIGITS: [(&str, [u8; 3]); 3] = [
    (
        "0000000000000000000000000000000000000000000000000000000000000000",
        [3, 12, 0],
    ),
    (
        "ffffffffffffffffffffffffffffffffffffffffffffffffffffffffffffffff",
        [0, 0, 0],
    ),
    (
        "62c66a7a5dd70c3146618063c344e531e6d4b59e379808443ce962b3abd63c5a",
        [2, 0, 6],
    ),
];

#[test]
fn digits_of_messages(rt: HostRuntime) -> Result<(), Fail> {
    for (message, sum) in &DIGITS {
        let made = digits(&Digest(<[u8; 32]>::from_hex(message)?));
        let mut wanted = message.as_bytes().iter().map(|digit| match *digit {
            b'0'..=b'9' => *digit - b'0',
            _ => (*digit).saturating_sub(b'a').saturating_add(10),
        });
        assert!(rt;
            made.iter()
                .take(64)
                .all(|digit| wanted.next() == Some(*digit)),
            "of {message}"
        );
        assert!(rt; made.as_slice().ends_with(sum), "of {message}");
    }
    Ok(())
}

#[test]
fn a_proof_shows_its_key(rt: HostRuntime) -> Result<(), Fail> {
    let alloc = rt.alloc();
    let seed = Digest([3; 32]);
    let message = Digest([0x5a; 32]);
    let key = chain_key::<Sha>(alloc, &seed, 3)?;
    let proof = chain_sign::<Sha>(alloc, &seed, 3, 1, &message)?;
    let proof = proof.as_slice();
    assert_eq!(rt; proof.len(), 2217);
    assert_eq!(rt; chain_key_of::<Sha>(&message, proof), Some(key));
    assert_eq!(rt; ChainScheme.key_of(&message, proof), Some(key));
    assert!(rt; chain_key_of::<Sha>(&seed, proof) != Some(key));
    assert_eq!(rt; KEYS_LIMIT, 1024);
    Ok(())
}
