//! The layout of a signature, and the key that it shows.

ghost use Rattle.std.specs.Prelude.{◌≡◌, ◌≤◌, ◌↔◌, length, option_map, IsSome, All};
ghost use Rattle.tree_model.specs.Tree.{cut};
ghost use Rattle.chain_sign.specs.Chain.{one_time, in_range, read as read_of, key_string, shown_root as root_shown, key_shown, IsSignature};
ghost use Rattle.chain_sign.specs.Parts.{seen};

use crate::chains::{CHAINS, VALUES_LEN, write_ends};
use crate::message::digits;
use ledger_bytes::{Digest, Tag, TreeHash};
use merkle_tree::{fold_path, leaf_of, mth};

/// The most one-time keys under one key.
pub const KEYS_LIMIT: u32 = 1024;

/// The parts of a signature.
#[derive(Clone, Copy, Debug)]
pub(crate) struct Parts<'a> {
    /// How many one-time keys there are.
    pub size: u32,
    /// Which of them signs.
    pub index: u32,
    /// The values of the chains.
    pub values: &'a [u8],
    /// The digests of the path.
    pub path: &'a [u8],
}

// Whether the sizes are in range, and the path is as long as it is said to be.
fn in_range(count: u8, parts: &Parts) -> bool
    ensures { result ≡ in_range count (seen parts.now) }
{
    1 <= parts.size
        && parts.size <= KEYS_LIMIT
        && parts.index < parts.size
        && parts.path.len() == 32 * count as usize
}

/// The parts of bytes that have the layout of a signature, but for the number of digests of a path at its size.
pub(crate) fn read(proof: &[u8]) -> Option<Parts<'_>>
    ensures { option_map seen result ≡ read_of proof.now }
{
    let (size, rest) = proof.split_first_chunk::<4>()?;
    let (index, rest) = rest.split_first_chunk::<4>()?;
    let (values, rest) = rest.split_first_chunk::<2144>()?;
    let (count, path) = rest.split_first()?;
    let parts = Parts {
        size: u32::from_be_bytes(*size),
        index: u32::from_be_bytes(*index),
        values,
        path,
    };
    if in_range(*count, &parts) {
        Some(parts)
    } else {
        None
    }
}

/// The one-time key that values of chains show, at the places that digits say.
pub(crate) fn one_time_key<H: TreeHash>(digits: &[u8; CHAINS], values: &[u8]) -> Digest
    requires small { All (λ d. d ≤ 15) digits.now }
    requires values { length values.now ≡ 2144 }
    ensures { result.0 ≡ one_time H.of digits.now (cut 32 values.now) }
{
    let mut ends = [0; VALUES_LEN];
    write_ends::<H>(0, digits, values, &mut ends);
    mth::<H>(&ends, 32)
}

/// The string that is hashed to the key of so many one-time keys under a root.
pub(crate) fn key_bytes(size: u32, root: &Digest) -> [u8; 37]
    ensures { result ≡ key_string size root.now.0 }
{
    let mut bytes = [0; 37];
    let (front, back) = bytes.split_at_mut(5);
    let (tag, count) = front.split_at_mut(1);
    tag[0] = Tag::ChainKey.byte();
    count.copy_from_slice(&size.to_be_bytes());
    back.copy_from_slice(&root.0);
    bytes
}

/// The root over the one-time keys that a signature of a message shows.
pub(crate) fn shown_root<H: TreeHash>(message: &Digest, parts: &Parts) -> Option<Digest>
    requires { length parts.now.values.now ≡ 2144 }
    ensures { option_map (λ d. d.0) result ≡ root_shown H.of message.now.0 (seen parts.now) }
{
    let key = one_time_key::<H>(&digits(message), parts.values);
    fold_path::<H>(
        &leaf_of::<H>(&key.0),
        parts.index as u64,
        parts.size as u64,
        parts.path,
    )
}

/// The key that a proof of a message shows, where it has the layout of a signature: the values are led on to the ends of their chains,
/// these give a one-time key, that leads along the path to a root, and the key is the digest of the size and the root. It takes no memory,
/// and hashes at most 15 times for each chain.
///
/// | Part | Offset | Bytes |
/// |---|---|---|
/// | how many one-time keys there are, 1 to 1,024 | 0 | 4 |
/// | which of them signs, below that | 4 | 4 |
/// | the values of the 67 chains | 8 | 32 each |
/// | how many digests follow | 2152 | 1 |
/// | the path of the one-time key, from the leaf up | 2153 | 32 each |
///
/// Numbers are big-endian. The path has as many digests as there are in a tree of that size (RFC 6962, section 2.1.1).
pub fn chain_key_of<H: TreeHash>(message: &Digest, proof: &[u8]) -> Option<Digest>
    ensures key { option_map (λ d. d.0) result ≡ key_shown H.of message.now.0 proof.now }

    // There is one exactly where the proof has the layout of a signature.
    ensures some { IsSome result ↔ IsSignature proof.now }
{
    let parts = read(proof)?;
    let root = shown_root::<H>(message, &parts)?;
    Some(H::digest(&key_bytes(parts.size, &root)))
}
