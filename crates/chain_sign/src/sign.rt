//! Signatures by one of several one-time keys.

ghost use Rattle.std.specs.Prelude.{◌≡◌, ◌+◌, ◌*◌, ◌/◌, ◌%◌, ◌<◌, ◌≤◌, ◌++◌, ℕ, List, length, map, Some, IfOk, OnOk};
ghost use Rattle.std.specs.List.{concat};
ghost use Rattle.tree_model.specs.Tree.{leaf, cut};
ghost use Rattle.tree_model.specs.Path.{path};
ghost use Rattle.chain_sign.specs.Digits.{digits as digits_of};
ghost use Rattle.chain_sign.specs.Chain.{values_at, keys_of, keys_in, one_times, key_over, key_shown, signature};

use crate::chains::{CHAINS, VALUES_LEN, walk};
use crate::keys::{one_time_keys, secrets_of};
use crate::message::digits;
use ledger_bytes::{Bytes, Digest, FieldWriter, NoMemory, TreeHash};
use merkle_tree::{halves, mth};
use std::alloc::Global;

// Adds the values of chains, of which the first has a number, at the places that digits say.
fn add_values<H: TreeHash>(
    fields: &mut FieldWriter,
    first: u8,
    digits: &[u8],
    secrets: &[u8],
) -> Result<(), NoMemory>
    requires chains { first + length digits.now ≤ 67 }
    requires secrets { length secrets.now ≡ 32 * length digits.now }
    ensures { OnOk result (fields.new
        ≡ fields.old ++ concat (values_at H.of first digits.now (cut 32 secrets.now))) }
{
    let Some((digit, digits)) = digits.split_first() else {
        return Ok(());
    };
    let Some((secret, secrets)) = secrets.split_first_chunk::<32>() else {
        unreachable!()
    };
    fields.put_slice(&walk::<H>(first, 0, *digit, &Digest(*secret)).0)?;
    add_values::<H>(fields, first + 1, digits, secrets)
}

// Adds the digests of the path of a one-time key.
fn add_path<H: TreeHash>(fields: &mut FieldWriter, keys: &[u8], n: u64) -> Result<(), NoMemory>
    requires whole { length keys.now % 32 ≡ 0 }
    requires within { n < length keys.now / 32 }
    ensures { OnOk result (fields.new
        ≡ fields.old ++ concat (path H.of n (map (leaf H.of) (cut 32 keys.now)))) }
{
    if keys.len() == 32 {
        return Ok(());
    }
    let (count, front, back) = halves(keys, 32);
    if n < count {
        add_path::<H>(fields, front, n)?;
        fields.put_slice(&mth::<H>(back, 32).0)
    } else {
        add_path::<H>(fields, back, n - count)?;
        fields.put_slice(&mth::<H>(front, 32).0)
    }
}

// The digests of the path of a one-time key.
fn path_of<H: TreeHash>(alloc: Global, keys: &[u8], n: u64) -> Result<Bytes, NoMemory>
    requires whole { length keys.now % 32 ≡ 0 }
    requires within { n < length keys.now / 32 }
    ensures { IfOk result (λ digests. digests ≡ concat (path H.of n (map (leaf H.of) (cut 32 keys.now)))) }
{
    let mut fields = FieldWriter::new(alloc);
    add_path::<H>(&mut fields, keys, n)?;
    Ok(fields.finish())
}

/// The values of chains at the places that digits say, from their secrets.
pub(crate) fn values_of<H: TreeHash>(
    alloc: Global,
    digits: &[u8; CHAINS],
    secrets: &[u8],
) -> Result<Bytes, NoMemory>
    requires { length secrets.now ≡ 2144 }
    ensures { IfOk result (λ values. values
        ≡ concat (values_at H.of 0 digits.now (cut 32 secrets.now))) }
{
    let mut fields = FieldWriter::new(alloc);
    add_values::<H>(&mut fields, 0, digits, secrets)?;
    Ok(fields.finish())
}

// The signature whose chains go as far as digits say, by one of several one-time keys with their secrets.
fn sign_with<H: TreeHash>(
    alloc: Global,
    secrets: &[u8],
    keys: &[u8],
    size: u32,
    index: u32,
    digits: &[u8; CHAINS],
) -> Result<Bytes, NoMemory>
    requires size { size ≡ length secrets.now / 2144 }
    requires few { size ≤ 1024 }
    requires within { index < size }
    requires keys { cut 32 keys.now ≡ one_times H.of (keys_in secrets.now) }
    requires len { length keys.now ≡ 32 * size }
    ensures { IfOk result (λ proof. (message : List ℕ) → digits.now ≡ digits_of message
        → proof ≡ signature H.of (keys_in secrets.now) index message) }
{
    let path = path_of::<H>(alloc, keys, index as u64)?;
    let at = index as usize * VALUES_LEN;
    let mut fields = FieldWriter::new(alloc);
    fields.put_u32(size)?;
    fields.put_u32(index)?;
    add_values::<H>(&mut fields, 0, digits, &secrets[at..at + VALUES_LEN])?;
    let count = (path.as_slice().len() / 32) as u8;
    fields.put_u8(count)?;
    fields.put_slice(path.as_slice())?;
    Ok(fields.finish())
}

/// The signature of a message by one of so many one-time keys, whose secrets come from a seed, laid out as [`chain_key_of`](crate::chain_key_of) says.
/// A one-time key is to sign one message: of two signatures by one of them others can be made.
pub fn chain_sign<H: TreeHash>(
    alloc: Global,
    seed: &Digest,
    size: u32,
    index: u32,
    message: &Digest,
) -> Result<Bytes, NoMemory>
    requires few { size ≤ 1024 }
    requires within { index < size }
    ensures proof { IfOk result (λ proof. proof
        ≡ signature H.of (keys_of H.of seed.now.0 size) index message.now.0) }

    // It shows the key.
    ensures shown { IfOk result (λ proof. key_shown H.of message.now.0 proof
        ≡ Some (key_over H.of (keys_of H.of seed.now.0 size))) }
{
    let secrets = secrets_of::<H>(alloc, seed, size)?;
    let keys = one_time_keys::<H>(alloc, &secrets)?;
    sign_with::<H>(alloc, &secrets, &keys, size, index, &digits(message))
}
