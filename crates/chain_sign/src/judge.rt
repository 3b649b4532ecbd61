//! A proof is judged by whoever knows the secrets.

ghost use Rattle.std.specs.Prelude.{◌≡◌, ◌≤◌, ◌<◌, ◌*◌, ◌/◌, ◌%◌, ◌∷◌, ◌↔◌, ℕ, List, length, All, Some, option_map, IfOk, IsTrue};
ghost use Rattle.std.specs.Str.{bytes_eq};
ghost use Rattle.tree_model.specs.Tree.{cut, mth};
ghost use Rattle.tree_model.specs.Clash.{or_below};
ghost use Rattle.merkle_tree.specs.Strings.{pair_of};
ghost use Rattle.chain_sign.specs.Chain.{keys_in, key_string, key_over, one_times, starts, ends_at, values_at, shown_root as root_shown};
ghost use Rattle.std.specs.Option.{option_or};
ghost use Rattle.chain_sign.specs.Lists.{lists_clash};
ghost use Rattle.chain_sign.specs.Steps.{chains_clash};
ghost use Rattle.chain_sign.specs.Digits.{digits as digits_of};
ghost use Rattle.chain_sign.specs.Parts.{seen};
ghost use Rattle.chain_sign.specs.Judged.{Judged};
ghost use Rattle.chain_sign.specs.Signing.{IsSignedBy, leaf_clash, sign_clash};

use crate::chains::{CHAINS, VALUES_LEN, write_ends};
use crate::differing::{chains_differ, leaf_bytes, lists_differ, strings_differ};
use crate::keys::one_time_keys;
use crate::message::digits;
use crate::sign::values_of;
use crate::signature::{Parts, key_bytes, one_time_key, read, shown_root};
use crate::verdict::SignVerdict;
use ledger_bytes::{Digest, NoMemory, TreeHash};
use merkle_tree::{Clash, clash_path, leaf_of, mth};
use std::alloc::Global;

// The strings at which the ends of a signature's chains differ from those of secrets.
fn ends_differ<H: TreeHash>(digits: &[u8; CHAINS], values: &[u8], secrets: &[u8]) -> Option<Clash>
    requires small { All (λ d. d ≤ 15) digits.now }
    requires values { length values.now ≡ 2144 }
    requires secrets { length secrets.now ≡ 2144 }
    ensures { option_map pair_of result ≡ lists_clash H.of
        (ends_at H.of 0 digits.now (cut 32 values.now))
        (ends_at H.of 0 starts (cut 32 secrets.now)) }
{
    let mut told = [0; VALUES_LEN];
    let mut truth = [0; VALUES_LEN];
    write_ends::<H>(0, digits, values, &mut told);
    write_ends::<H>(0, &[0; CHAINS], secrets, &mut truth);
    lists_differ::<H>(&told, &truth)
}

// The strings at which a one-time key of values differs from that of secrets, from its leaf down.
fn one_time_differs<H: TreeHash>(
    digits: &[u8; CHAINS],
    told: &Digest,
    truth: &Digest,
    values: &[u8],
    secrets: &[u8],
) -> Option<Clash>
    requires small { All (λ d. d ≤ 15) digits.now }
    requires values { length values.now ≡ 2144 }
    requires secrets { length secrets.now ≡ 2144 }
    ensures { option_map pair_of result ≡ or_below (0 ∷ told.now.0) (0 ∷ truth.now.0) (option_or
        (lists_clash H.of (ends_at H.of 0 digits.now (cut 32 values.now)) (ends_at H.of 0 starts (cut 32 secrets.now)))
        (chains_clash H.of 0 digits.now (cut 32 values.now) (values_at H.of 0 digits.now (cut 32 secrets.now)))) }
{
    if let Some(clash) = strings_differ(&leaf_bytes(&told.0), &leaf_bytes(&truth.0)) {
        return Some(clash);
    }
    if let Some(clash) = ends_differ::<H>(digits, values, secrets) {
        return Some(clash);
    }
    chains_differ::<H>(0, digits, values, secrets)
}

// Whether two digests are one.
fn same(a: &Digest, b: &Digest) -> bool
    ensures { result ≡ bytes_eq a.now.0 b.now.0 }
{
    *a == *b
}

/// The strings at which a signature of a message that shows the root over known one-time keys differs from what their secrets
/// give, from the leaf of its one-time key down.
pub(crate) fn leaf_differs<H: TreeHash>(
    secrets: &[u8],
    keys: &[u8],
    message: &Digest,
    parts: &Parts,
) -> Option<Clash>
    requires whole { length secrets.now % 2144 ≡ 0 }
    requires keys { cut 32 keys.now ≡ one_times H.of (keys_in secrets.now) }
    requires len { length keys.now ≡ 32 * (length secrets.now / 2144) }
    requires size { parts.now.size ≡ length secrets.now / 2144 }
    requires within { parts.now.index < parts.now.size }
    requires values { length parts.now.values.now ≡ 2144 }
    requires rooted { root_shown H.of message.now.0 (seen parts.now)
        ≡ Some (mth H.of (cut 32 keys.now)) }
    ensures { option_map pair_of result
        ≡ leaf_clash H.of (keys_in secrets.now) message.now.0 (seen parts.now) }
{
    let digits = digits(message);
    let at = parts.index as usize * VALUES_LEN;
    let own = &secrets[at..at + VALUES_LEN];
    let told = one_time_key::<H>(&digits, parts.values);
    let truth = one_time_key::<H>(&[0; CHAINS], own);
    let leaf = leaf_of::<H>(&told.0);
    if same(&leaf, &leaf_of::<H>(&truth.0)) {
        one_time_differs::<H>(&digits, &told, &truth, parts.values, own)
    } else {
        Some(clash_path::<H>(keys, 32, &leaf, parts.index as u64, parts.path))
    }
}

// Whether some bytes are the same.
fn same_bytes(a: &[u8], b: &[u8]) -> bool
    ensures { result ≡ bytes_eq a.now b.now }
{
    *a == *b
}

// Whether a signature is by one of several lists of secrets.
fn is_signed<H: TreeHash>(
    alloc: Global,
    secrets: &[u8],
    digits: &[u8; CHAINS],
    parts: &Parts,
) -> Result<bool, NoMemory>
    requires within { parts.now.index < parts.now.size }
    requires values { length parts.now.values.now ≡ 2144 }
    ensures { IfOk result (λ signed. (message : List ℕ) → digits.now ≡ digits_of message
        → (IsTrue signed ↔ IsSignedBy H.of (keys_in secrets.now) message (seen parts.now))) }
{
    if parts.size as usize != secrets.len() / VALUES_LEN {
        return Ok(false);
    }
    let at = parts.index as usize * VALUES_LEN;
    let truth = values_of::<H>(alloc, digits, &secrets[at..at + VALUES_LEN])?;
    Ok(same_bytes(parts.values, truth.as_slice()))
}

// Whether the key of a size and a root is that of known one-time keys.
fn is_key<H: TreeHash>(secrets: &[u8], keys: &[u8], size: u32, root: &Digest) -> bool
    requires few { length secrets.now / 2144 ≤ 1024 }
    requires keys { cut 32 keys.now ≡ one_times H.of (keys_in secrets.now) }
    requires len { length keys.now ≡ 32 * (length secrets.now / 2144) }
    ensures { result ≡ bytes_eq (H.of (key_string size root.now.0)) (key_over H.of (keys_in secrets.now)) }
{
    let own = key_bytes((secrets.len() / VALUES_LEN) as u32, &mth::<H>(keys, 32));
    same(&H::digest(&key_bytes(size, root)), &H::digest(&own))
}

// The strings at which a signature that shows the key of known secrets differs from these, from the key down.
fn key_differs<H: TreeHash>(
    secrets: &[u8],
    keys: &[u8],
    message: &Digest,
    parts: &Parts,
    root: &Digest,
) -> Option<Clash>
    requires whole { length secrets.now % 2144 ≡ 0 }
    requires few { length secrets.now / 2144 ≤ 1024 }
    requires keys { cut 32 keys.now ≡ one_times H.of (keys_in secrets.now) }
    requires len { length keys.now ≡ 32 * (length secrets.now / 2144) }
    requires small { parts.now.size ≤ 1024 }
    requires within { parts.now.index < parts.now.size }
    requires values { length parts.now.values.now ≡ 2144 }
    requires shown { root_shown H.of message.now.0 (seen parts.now) ≡ Some root.now.0 }
    ensures { option_map pair_of result
        ≡ sign_clash H.of (keys_in secrets.now) message.now.0 (seen parts.now) }
{
    let told = key_bytes(parts.size, root);
    let own = key_bytes((secrets.len() / VALUES_LEN) as u32, &mth::<H>(keys, 32));
    if let Some(clash) = strings_differ(&told, &own) {
        return Some(clash);
    }
    leaf_differs::<H>(secrets, keys, message, parts)
}

/// Judges a proof of a message by whoever knows the secrets of a key, 67 times 32 bytes for each one-time key: whether it
/// shows that key, and if so whether its values are those of the secrets, or which two strings have one digest. These are looked for from the
/// key's string down: the tree of one-time keys along the path, the one-time key's leaf, the ends of its chains from the root down, left before
/// right, and then the chains by number, each from its last step backwards.
pub fn judge_sign<H: TreeHash>(
    alloc: Global,
    secrets: &[u8],
    message: &Digest,
    proof: &[u8],
) -> Result<SignVerdict, NoMemory>
    requires some { 0 < length secrets.now / 2144 }
    requires few { length secrets.now / 2144 ≤ 1024 }
    requires whole { length secrets.now % 2144 ≡ 0 }
    ensures { IfOk result (Judged H.of (keys_in secrets.now) message.now.0 proof.now) }
{
    let digits = digits(message);
    let keys = one_time_keys::<H>(alloc, secrets)?;
    let Some(parts) = read(proof) else {
        return Ok(SignVerdict::OtherKey);
    };
    let Some(root) = shown_root::<H>(message, &parts) else {
        return Ok(SignVerdict::OtherKey);
    };
    if !is_key::<H>(secrets, &keys, parts.size, &root) {
        return Ok(SignVerdict::OtherKey);
    }
    if is_signed::<H>(alloc, secrets, &digits, &parts)? {
        return Ok(SignVerdict::True);
    }
    let Some(clash) = key_differs::<H>(secrets, &keys, message, &parts, &root) else {
        unreachable!()
    };
    Ok(SignVerdict::Clash(clash))
}
