//! Signatures that show no key: Winternitz chains with w = 16 under a tree of one-time keys, as the hash-based schemes of RFC 8391 (XMSS) and
//! NIST SP 800-208 have them, but over plain tagged strings and the tree of RFC 6962. Nothing is trusted but the hash.
#![tactic(auto)]

mod chains;
mod differing;
mod judge;
mod keys;
mod laws;
mod message;
mod scheme;
mod sign;
mod signature;
mod verdict;

pub use judge::judge_sign;
pub use keys::chain_key;
pub use laws::chains_by_number;
pub use message::digits;
pub use scheme::ChainScheme;
pub use sign::chain_sign;
pub use signature::{KEYS_LIMIT, chain_key_of};
pub use verdict::SignVerdict;
