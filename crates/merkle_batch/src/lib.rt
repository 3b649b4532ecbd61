//! The hash tree of RFC 6962, section 2.1, as it grows: leaves are added in batches and can be forgotten below a floor,
//! and the whole nodes of each level are kept. So a leaf costs one node hash over time, and a root, a path or a proof at
//! most as many as its size has binary digits, whatever the size. A tree takes two digests of memory for each kept leaf, and
//! while it grows up to twice that. Leaves that one tree has are added to another as a stretch, with the nodes that depend
//! on them alone, and these are not hashed again.
#![tactic(auto)]

mod joining;
mod meaning;
mod row;
mod rows;
mod stretch;
mod tree;

pub use meaning::lists_of_a_tree;
pub use stretch::Stretch;
pub use tree::{Tree, TreeErr};
