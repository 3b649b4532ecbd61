//! Chains of hashes: a step, several of them, and the ends of all chains of a one-time key (the chaining function of RFC 8391, section 3.1.2,
//! with no masks and w = 16).

ghost use Rattle.std.specs.Prelude.{◌≡◌, ◌+◌, ◌-◌, ◌*◌, ◌≤◌, length, All};
ghost use Rattle.std.specs.List.{concat};
ghost use Rattle.tree_model.specs.Tree.{cut};
ghost use Rattle.chain_sign.specs.Chain.{step_string, walk as walk_of, ends_at};

use ledger_bytes::{Digest, Tag, TreeHash};

/// How many chains a one-time key has.
pub(crate) const CHAINS: usize = 67;

/// How many bytes the values of all chains have.
pub(crate) const VALUES_LEN: usize = 2144;

/// How many steps lead from a secret to the end of its chain.
pub(crate) const STEPS: u8 = 15;

/// The string that a step of a chain at a place hashes.
pub(crate) fn step_bytes(chain: u8, place: u8, value: &Digest) -> [u8; 35]
    ensures { result ≡ step_string chain place value.now.0 }
{
    let mut bytes = [0; 35];
    let (front, back) = bytes.split_at_mut(3);
    front[0] = Tag::ChainStep.byte();
    front[1] = chain;
    front[2] = place;
    back.copy_from_slice(&value.0);
    bytes
}

/// A value of a chain at one place, carried on to another.
pub(crate) fn walk<H: TreeHash>(chain: u8, from: u8, to: u8, value: &Digest) -> Digest
    requires { from ≤ to }
    ensures { result.0 ≡ walk_of H.of chain (to - from) from value.now.0 }
{
    let mut reached = *value;
    for place in from..to {
        reached = H::digest(&step_bytes(chain, place, &reached));
    }
    reached
}

/// Writes the ends of chains, of which the first has a number, from their values at the places that digits say.
pub(crate) fn write_ends<H: TreeHash>(first: u8, digits: &[u8], values: &[u8], ends: &mut [u8])
    requires chains { first + length digits.now ≤ 67 }
    requires small { All (λ d. d ≤ 15) digits.now }
    requires values { length values.now ≡ 32 * length digits.now }
    requires room { length ends.old ≡ 32 * length digits.now }
    ensures { ends.new ≡ concat (ends_at H.of first digits.now (cut 32 values.now)) }
{
    let Some((digit, digits)) = digits.split_first() else {
        return;
    };
    let Some((value, values)) = values.split_first_chunk::<32>() else {
        unreachable!()
    };
    let (end, ends) = ends.split_at_mut(32);
    end.copy_from_slice(&walk::<H>(first, *digit, STEPS, &Digest(*value)).0);
    write_ends::<H>(first + 1, digits, values, ends);
}
