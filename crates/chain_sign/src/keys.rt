//! Secrets from a seed, one-time keys over them, and the key over all of these.

ghost use Rattle.std.specs.Prelude.{◌≡◌, ◌≤◌, ◌*◌, ◌/◌, ◌%◌, ◌++◌, length, IfOk, OnOk};
ghost use Rattle.std.specs.List.{concat};
ghost use Rattle.tree_model.specs.Tree.{cut};
ghost use Rattle.chain_sign.specs.Chain.{secret as secret_of, secrets_from, keys_of, keys_in, one_times, key_over};

use crate::chains::{CHAINS, VALUES_LEN};
use crate::signature::{key_bytes, one_time_key};
use ledger_bytes::{Digest, NoMemory, Tag, TreeHash};
use merkle_tree::mth;
use std::alloc::Global;

// The secret of a chain of a one-time key.
fn secret<H: TreeHash>(seed: &Digest, index: u32, chain: u8) -> Digest
    ensures { result.0 ≡ secret_of H.of seed.now.0 index chain }
{
    let mut hasher = H::start(Tag::ChainSecret.byte());
    hasher.add(&seed.0);
    hasher.add(&index.to_be_bytes());
    hasher.add(&[chain]);
    hasher.end()
}

// Adds the secrets of a one-time key.
fn add_secrets<H: TreeHash>(
    secrets: &mut Vec<u8>,
    seed: &Digest,
    index: u32,
) -> Result<(), NoMemory>
    ensures { OnOk result (secrets.new.items
        ≡ secrets.old.items ++ concat (secrets_from H.of seed.now.0 index 0 67)) }
{
    for chain in 0..CHAINS as u8 {
        secrets.extend_from_slice(&secret::<H>(seed, index, chain).0)?;
    }
    Ok(())
}

/// The secrets of so many one-time keys, one after the other.
pub(crate) fn secrets_of<H: TreeHash>(
    alloc: Global,
    seed: &Digest,
    size: u32,
) -> Result<Vec<u8>, NoMemory>
    ensures keys { IfOk result (λ secrets. keys_in secrets.items ≡ keys_of H.of seed.now.0 size) }
    ensures len { IfOk result (λ secrets. length secrets.items ≡ 2144 * size) }
{
    let mut secrets = Vec::new(alloc);
    for index in 0..size {
        add_secrets::<H>(&mut secrets, seed, index)?;
    }
    Ok(secrets)
}

/// The one-time keys over lists of secrets, one after the other.
pub(crate) fn one_time_keys<H: TreeHash>(alloc: Global, secrets: &[u8]) -> Result<Vec<u8>, NoMemory>
    requires { length secrets.now % 2144 ≡ 0 }
    ensures keys { IfOk result (λ keys. cut 32 keys.items ≡ one_times H.of (keys_in secrets.now)) }
    ensures len { IfOk result (λ keys. length keys.items ≡ 32 * (length secrets.now / 2144)) }
{
    let mut keys = Vec::new(alloc);
    for index in 0..secrets.len() / VALUES_LEN {
        let at = index * VALUES_LEN;
        let key = one_time_key::<H>(&[0; CHAINS], &secrets[at..at + VALUES_LEN]);
        keys.extend_from_slice(&key.0)?;
    }
    Ok(keys)
}

/// The key of so many one-time keys, whose secrets come from a seed. It hashes 15 times for each of the 67 chains of each key, and
/// takes 2,144 bytes for each key.
pub fn chain_key<H: TreeHash>(alloc: Global, seed: &Digest, size: u32) -> Result<Digest, NoMemory>
    requires some { 1 ≤ size }
    requires few { size ≤ 1024 }
    ensures { IfOk result (λ key. key.0 ≡ key_over H.of (keys_of H.of seed.now.0 size)) }
{
    let secrets = secrets_of::<H>(alloc, seed, size)?;
    let keys = one_time_keys::<H>(alloc, &secrets)?;
    Ok(H::digest(&key_bytes(size, &mth::<H>(&keys, 32))))
}
