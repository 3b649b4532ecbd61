//! The lines of a window, lane by lane.
ghost use Rattle.std.specs.Prelude.{◌≡◌, ◌≤◌, ◌<◌, ℕ, [], length, IfOk, vec_len, slice_index, get_or};
ghost use Rattle.lane_work.specs.Making.{lines_of};

use crate::kinds::LaneLine;
use std::alloc::{AllocError, Global};

const LANES: usize = 8;

// Eight empty lists.
fn empty_lanes(alloc: Global) -> Result<Vec<Vec<LaneLine>>, AllocError>
    ensures len { IfOk result (λ v. vec_len v ≡ 8) }
    ensures empty { IfOk result (λ v. (k : ℕ) (d : _) → k < 8 → (get_or v.items k d).items ≡ []) }
{
    let mut lanes = Vec::new(alloc);
    for _k in 0..LANES {
        lanes.push(Vec::new(alloc))?;
    }
    Ok(lanes)
}

/// The lines of each lane, in their order.
pub(crate) fn divide(alloc: Global, window: Vec<LaneLine>) -> Result<Vec<Vec<LaneLine>>, AllocError>
    ensures len { IfOk result (λ v. vec_len v ≡ 8) }
    ensures each { IfOk result (λ v. (k : ℕ) (d : _) → k < 8 → (get_or v.items k d).items
        ≡ lines_of k window.items) }
{
    let mut lanes = empty_lanes(alloc)?;
    for said in window {
        let lane = usize::from(said.lane);
        lanes[lane].push(said)?;
    }
    Ok(lanes)
}

/// How many lines each lane has.
pub(crate) fn counts(alloc: Global, lanes: &[Vec<LaneLine>]) -> Result<Vec<u32>, AllocError>
    requires { (k : ℕ) (d : _) → k < length lanes.now → vec_len (get_or lanes.now k d) ≤ 4096 }
    ensures len { IfOk result (λ v. vec_len v ≡ length lanes.now) }
    ensures each { IfOk result (λ v. (k : ℕ) (d : _) → k < length lanes.now → slice_index v.items k
        ≡ vec_len (get_or lanes.now k d)) }
{
    let mut all = Vec::new(alloc);
    for lane in lanes {
        all.push(lane.len() as u32)?;
    }
    Ok(all)
}
