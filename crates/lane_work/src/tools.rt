//! What the preparing of lines needs: threads, memory, a verifier of proofs, and a gate.

use std::alloc::Global;

/// What lines are prepared with: who starts threads and waits for them, memory, who says whose key a proof shows, and the
/// gate that each line passes once it is prepared.
#[derive(Drop)]
pub struct Tools<'t, R, V, G> {
    pub rt: &'t R,
    pub alloc: Global,
    pub verifier: &'t V,
    pub gate: &'t G,
}
