//! The hash tree of RFC 6962, section 2.1, by any `TreeHash`: the root over flat leaves or over the digests of leaves, the
//! path from a leaf to it and the proof that one tree is the beginning of another, the roots to which these lead, and the
//! two strings of one digest that a false path or proof shows. Only `path` and `proof` take memory.
#![tactic(auto)]

mod clash;
mod clashes;
mod head;
mod nodes;
mod paths;
mod pres;
mod proofs;
mod roots;
mod splits;

pub use clash::{Clash, Pre};
pub use clashes::{clash_path, clash_proof};
pub use head::Head;
pub use nodes::{leaf_of, node_of};
pub use paths::{fold_path, path};
pub use pres::differ;
pub use proofs::{fold_proof, proof};
pub use roots::{mth, root_of};
pub use splits::{halves, split};
