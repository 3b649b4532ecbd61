//! The strings that are hashed to an inner node, as a path or proof tells them and as a list has them.

ghost use Rattle.std.specs.Prelude.{◌≡◌, option_map, None};
ghost use Rattle.tree_model.specs.Clash.{node_bytes, or_below};
ghost use Rattle.merkle_tree.specs.Strings.{bytes_of, pair_of};

use crate::clash::{Clash, Pre};
use crate::nodes::{NODE_LEN, node_bytes};
use ledger_bytes::Digest;

impl Pre {
    /// The bytes that are hashed.
    pub fn as_slice(&self) -> &[u8]
        ensures { result.now ≡ bytes_of self.now }
    {
        let len = (self.len as usize).min(self.bytes.len());
        &self.bytes[..len]
    }
}

/// The strings of one node, the told one first, where they differ.
pub fn differ(
    told_left: &Digest,
    told_right: &Digest,
    left: &Digest,
    right: &Digest,
) -> Option<Clash>
    ensures { option_map pair_of result
        ≡ or_below (node_bytes told_left.now.0 told_right.now.0)
        (node_bytes left.now.0 right.now.0) None }
{
    let told = node_pre(told_left, told_right);
    let truth = node_pre(left, right);
    if told.bytes[..NODE_LEN] == truth.bytes[..NODE_LEN] {
        None
    } else {
        Some(Clash { told, truth })
    }
}

// The string of an inner node.
fn node_pre(left: &Digest, right: &Digest) -> Pre
    ensures len { result.len ≡ 65 }
    ensures bytes { bytes_of result ≡ node_bytes left.now.0 right.now.0 }
{
    let mut bytes = [0; 175];
    let (front, _) = bytes.split_at_mut(NODE_LEN);
    front.copy_from_slice(&node_bytes(left, right));
    Pre {
        len: NODE_LEN as u8,
        bytes,
    }
}
