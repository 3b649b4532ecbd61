//! Two strings that are told otherwise than they are: of a step, of a leaf, of a node.

ghost use Rattle.std.specs.Prelude.{◌≡◌, ◌≤◌, ◌<◌, ◌+◌, ◌-◌, ◌*◌, ◌/◌, ◌%◌, ◌∷◌, length, All, None, option_map};
ghost use Rattle.tree_model.specs.Tree.{cut};
ghost use Rattle.tree_model.specs.Clash.{or_below};
ghost use Rattle.merkle_tree.specs.Strings.{bytes_of, pair_of};
ghost use Rattle.chain_sign.specs.Chain.{values_at};
ghost use Rattle.chain_sign.specs.Lists.{lists_clash};
ghost use Rattle.chain_sign.specs.Steps.{chain_clash, chains_clash};

use crate::chains::{STEPS, step_bytes, walk};
use ledger_bytes::{Digest, TreeHash};
use merkle_tree::{Clash, Pre, differ, halves, mth};

// A string that is hashed.
fn pre_of(string: &[u8]) -> Pre
    requires { length string.now ≤ 175 }
    ensures { bytes_of result ≡ string.now }
{
    let mut bytes = [0; 175];
    let len = string.len();
    bytes[..len].copy_from_slice(string);
    Pre {
        len: len as u8,
        bytes,
    }
}

/// Two strings, the told one first, where they differ.
pub(crate) fn strings_differ(told: &[u8], truth: &[u8]) -> Option<Clash>
    requires told { length told.now ≤ 175 }
    requires truth { length truth.now ≤ 175 }
    ensures { option_map pair_of result ≡ or_below told.now truth.now None }
{
    if *told == *truth {
        None
    } else {
        Some(Clash {
            told: pre_of(told),
            truth: pre_of(truth),
        })
    }
}

// The strings of the last step at which two values of a chain at one place differ.
fn chain_differs<H: TreeHash>(chain: u8, place: u8, told: &Digest, truth: &Digest) -> Option<Clash>
    requires { place ≤ 15 }
    ensures { option_map pair_of result
        ≡ chain_clash H.of chain (15 - place) place told.now.0 truth.now.0 }
{
    if place == STEPS {
        return None;
    }
    let told = step_bytes(chain, place, told);
    let truth = step_bytes(chain, place, truth);
    match chain_differs::<H>(chain, place + 1, &H::digest(&told), &H::digest(&truth)) {
        Some(clash) => Some(clash),
        None => strings_differ(&told, &truth),
    }
}

/// The strings of the first chain, of which the first has a number, at which told values at the places that digits say
/// differ from those of secrets.
pub(crate) fn chains_differ<H: TreeHash>(
    first: u8,
    digits: &[u8],
    told: &[u8],
    secrets: &[u8],
) -> Option<Clash>
    requires chains { first + length digits.now ≤ 67 }
    requires small { All (λ d. d ≤ 15) digits.now }
    requires told { length told.now ≡ 32 * length digits.now }
    requires secrets { length secrets.now ≡ 32 * length digits.now }
    ensures { option_map pair_of result ≡ chains_clash H.of first digits.now (cut 32 told.now)
        (values_at H.of first digits.now (cut 32 secrets.now)) }
{
    let (digit, digits) = digits.split_first()?;
    let (value, told) = told.split_first_chunk::<32>()?;
    let (secret, secrets) = secrets.split_first_chunk::<32>()?;
    let truth = walk::<H>(first, 0, *digit, &Digest(*secret));
    match chain_differs::<H>(first, *digit, &Digest(*value), &truth) {
        Some(clash) => Some(clash),
        None => chains_differ::<H>(first + 1, digits, told, secrets),
    }
}

// The string that is hashed to the digest of a leaf of 32 bytes.
pub(crate) fn leaf_bytes(leaf: &[u8]) -> [u8; 33]
    requires { length leaf.now ≡ 32 }
    ensures { result ≡ 0 ∷ leaf.now }
{
    let mut bytes = [0; 33];
    let (_, back) = bytes.split_at_mut(1);
    back.copy_from_slice(leaf);
    bytes
}

/// The strings of the first node or leaf, from the root down and left before right, at which two lists of leaves of 32
/// bytes differ.
pub(crate) fn lists_differ<H: TreeHash>(told: &[u8], truth: &[u8]) -> Option<Clash>
    requires whole { length told.now % 32 ≡ 0 }
    requires some { 0 < length told.now / 32 }
    requires same { length truth.now ≡ length told.now }
    ensures { option_map pair_of result ≡ lists_clash H.of (cut 32 told.now) (cut 32 truth.now) }
{
    if told.len() == 32 {
        return strings_differ(&leaf_bytes(told), &leaf_bytes(truth));
    }
    let (_, told_front, told_back) = halves(told, 32);
    let (_, front, back) = halves(truth, 32);
    let told_left = mth::<H>(told_front, 32);
    let told_right = mth::<H>(told_back, 32);
    let left = mth::<H>(front, 32);
    let right = mth::<H>(back, 32);
    if let Some(clash) = differ(&told_left, &told_right, &left, &right) {
        return Some(clash);
    }
    match lists_differ::<H>(told_front, front) {
        Some(clash) => Some(clash),
        None => lists_differ::<H>(told_back, back),
    }
}
