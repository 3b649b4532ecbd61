//! A worker's side: the lines of one lane are prepared and submitted.
ghost use Rattle.std.specs.Prelude.{◌≡◌, ◌<◌, ◌+◌, ◌^◌, [], All, vec_len};
ghost use Rattle.intake_queue.specs.Lanes.{sender, first_in, quota_in};
ghost use Rattle.intake_queue.specs.Passes.{lane_view, sent_by, IsLaneOf};
ghost use Rattle.lane_work.specs.Making.{IsMadeOf, AllMade};

use crate::front::Front;
use crate::gate::Gate;
use crate::kinds::{LaneLine, Made};
use crate::preparing::prepare_behind;
use crate::tools::Tools;
use intake_queue::{Intake, LanePass};
use ledger_bytes::Digest;
use member_book::Verifier;
use std::alloc::Global;
use std::snapshot::Snapshot;
use std::sync::Wait;

// Prepares a line, as far as there is memory.
fn make<V: Verifier>(
    alloc: Global,
    verifier: &V,
    front: &mut Option<Front>,
    id: &Digest,
    index: u64,
    said: &LaneLine,
) -> Made
    ensures { IsMadeOf (V.shows verifier.now) id.now.0 said.now index result }
{
    let lane = said.lane;
    let line = Snapshot::of(&said.line);
    let item = prepare_behind(alloc, verifier, front, id, index, said.line.as_slice());
    Made {
        lane,
        index,
        line,
        item,
    }
}

/// Prepares the lines of one lane and submits them, one after the other.
pub(crate) fn work<R: Wait, V: Verifier, G: Gate>(
    tools: &Tools<R, V, G>,
    id: &Digest,
    intake: &Intake<Made>,
    mut pass: LanePass<Made>,
    lines: Vec<LaneLine>,
    start: u64,
) -> LanePass<Made>
    requires pass { IsLaneOf intake.now pass × (lane_view pass
        ≡ sender (lane_view pass).plan (lane_view pass).lane []) }
    requires quota { (quota_in (lane_view pass).plan (lane_view pass).lane ≡ vec_len lines)
        × (first_in (lane_view pass).plan (lane_view pass).lane ≡ start) }
    requires numbers { start + vec_len lines < 2 ^ 64 }
    requires lines { All (λ l. l.lane ≡ (lane_view pass).lane) lines.items }
    ensures pass { IsLaneOf intake.now result × (lane_view result
        ≡ sender (lane_view pass).plan (lane_view pass).lane (sent_by result)) }
    ensures sent { AllMade (V.shows tools.now.verifier.now) id.now.0 start lines.items (sent_by result) }
{
    let mut index = start;
    let mut front = None;
    for said in lines {
        let item = make(tools.alloc, tools.verifier, &mut front, id, index, &said);
        tools.gate.pass(said.lane, index);
        pass = intake.submit(tools.rt, pass, item);
        index += 1;
    }
    pass
}
