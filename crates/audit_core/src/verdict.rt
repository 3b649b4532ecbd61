//! The verdicts on a proof of a claim by the whole lists.

use crate::No;
use merkle_tree::Clash;

/// What a proof of a claim is worth to one who has the whole lists.
#[derive(Clone, Copy, Debug, PartialEq, Eq)]
pub enum Verdict {
    /// It isn't accepted under the lists' own heads.
    Unaccepted(No),
    /// It is accepted, and the claim is true of the lists.
    True,
    /// It is accepted, and the claim is false of the lists. Then these two strings have one digest.
    Clash(Clash),
}
