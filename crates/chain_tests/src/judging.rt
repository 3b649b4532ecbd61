//! What a proof is judged by whoever knows the secrets, with a clash of a chain's step over the toy hash.

use chain_sign::{SignVerdict, chain_sign, digits, judge_sign};
use ledger_bytes::{Digest, Sha, Toy, TreeHash};
use std::alloc::{AllocError, Global};
use std::process::Abort;
use std::test::Fail;

const SEED: Digest = Digest([5; 32]);

// Where the values begin.
const VALUES: usize = 8;

// The secrets of so many one-time keys of the seed, one after the other.
fn secrets_by<H: TreeHash>(alloc: Global, size: u32) -> Result<Vec<u8>, AllocError> {
    let mut secrets = Vec::new(alloc);
    for index in 0..size {
        for chain in 0..67u8 {
            let mut string = [0x44; 38];
            string[1..33].copy_from_slice(&SEED.0);
            string[33..37].copy_from_slice(&index.to_be_bytes());
            string[37] = chain;
            secrets.extend_from_slice(&H::digest(&string).0)?;
        }
    }
    Ok(secrets)
}

// A message whose first digits are 0, 15, 1 and 4.
fn a_message() -> Digest {
    let mut bytes = [0x5a; 32];
    bytes[0] = 0x0f;
    bytes[1] = 0x14;
    Digest(bytes)
}

// What is answered of a proof by whoever knows the secrets of so many one-time keys.
fn judged<H: TreeHash>(
    rt: &impl Abort,
    alloc: Global,
    size: u32,
    proof: &[u8],
) -> Result<SignVerdict, Fail> {
    let secrets = secrets_by::<H>(alloc, size)?;
    let len = secrets.len();
    assert!(rt; len / 2144 > 0 && len / 2144 <= 1024 && len % 2144 == 0);
    Ok(judge_sign::<H>(alloc, &secrets, &a_message(), proof)?)
}

// A proof by the toy hash, as bytes that can be changed.
fn toy_proof(rt: &impl Abort, alloc: Global, size: u32, index: u32) -> Result<Vec<u8>, Fail> {
    assert!(rt; size >= 1 && size <= 1024 && index < size);
    let made = chain_sign::<Toy>(alloc, &SEED, size, index, &a_message())?;
    let mut proof = Vec::new(alloc);
    proof.extend_from_slice(made.as_slice())?;
    Ok(proof)
}

// Two strings, as a clash has them.
fn clash_strings(
    rt: &impl Abort,
    alloc: Global,
    verdict: SignVerdict,
) -> Result<(Vec<u8>, Vec<u8>), Fail> {
    let mut told = Vec::new(alloc);
    let mut truth = Vec::new(alloc);
    match verdict {
        SignVerdict::Clash(clash) => {
            told.extend_from_slice(clash.told.as_slice())?;
            truth.extend_from_slice(clash.truth.as_slice())?;
        }
        _ => assert!(rt; false, "no clash"),
    }
    Ok((told, truth))
}

#[test]
fn own_proofs_are_true(rt: HostRuntime) -> Result<(), Fail> {
    let made = chain_sign::<Sha>(rt.alloc(), &SEED, 2, 1, &a_message())?;
    let proof = made.as_slice();
    assert_eq!(rt;
        judged::<Sha>(&rt, rt.alloc(), 2, proof)?,
        SignVerdict::True
    );
    assert_eq!(rt;
        judged::<Sha>(&rt, rt.alloc(), 3, proof)?,
        SignVerdict::OtherKey
    );
    Ok(())
}

// In a value of a chain two bytes are exchanged. The first four digits are 0, 15, 1 and 4.
#[test]
fn clashes_of_exchanged_bytes(rt: HostRuntime) -> Result<(), Fail> {
    for (chain, digit) in [(0u8, 0u8), (2, 1), (3, 4), (1, 15)] {
        let mut proof = toy_proof(&rt, rt.alloc(), 2, 1)?;
        assert!(rt; proof.len() == 2185);
        let at = VALUES + 32 * chain as usize;
        let last = proof[at + 31];
        assert!(rt; last != 0, "of chain {chain}");
        proof[at + 31] = 0;
        proof[at] = last;
        assert_eq!(rt; digits(&a_message())[chain as usize], digit);
        let (told, truth) = clash_strings(
            &rt,
            rt.alloc(),
            judged::<Toy>(&rt, rt.alloc(), 2, &proof)?,
        )?;
        let mut string = Vec::new(rt.alloc());
        if digit < 15 {
            string.extend_from_slice(&[0x42, chain, digit])?;
        } else {
            string.push(0)?;
        }
        let front = string.len();
        for _ in 0..32 {
            string.push(0)?;
        }
        assert!(rt; string.len() == front + 32 && front <= 3 && front > 0);
        string[front] = last;
        assert_eq!(rt; told, string, "told of chain {chain}");
        string[front] = 0;
        string[front + 31] = last;
        assert_eq!(rt; truth, string, "truth of chain {chain}");
    }
    Ok(())
}
