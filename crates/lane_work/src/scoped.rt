//! The workers and the taker, side by side.
ghost use Rattle.std.specs.Prelude.{◌≡◌, ◌≤◌, [], All, vec_len, vec_capacity};
ghost use Rattle.intake_queue.specs.Passes.{taker_view};
ghost use Rattle.lane_work.specs.Handing.{HasGot, IsNewTaker};
ghost use Rattle.lane_work.specs.Working.{HasHandRoom, IsReady, Pairs, WorksOf};

use crate::gate::Gate;
use crate::hands::{LaneJob, Room};
use crate::kinds::Made;
use crate::offering::{State, take_all};
use crate::starting::{finish_all, start_all};
use crate::taker::Taker;
use crate::tools::Tools;
use intake_queue::{Intake, LanePass, TakerPass};
use ledger_bytes::Digest;
use member_book::Verifier;
use std::sync::Wait;
use std::thread;
use std::thread::Threads;

// What takes and offers. A scope tells nothing of a `&mut` that its closure holds, so the closure holds a value of a type
// parameter, which gives the reference back.
pub(crate) trait Offering: Sized {
    ghost use Rattle.std.specs.Prelude.{List};
    ghost use Rattle.intake_queue.specs.Passes.{taker_view};
    ghost use Rattle.lane_work.specs.Handing.{HasGot, IsNewTaker};
    ghost use Rattle.lane_work.specs.declared.kinds.Made.{Made};
    ghost use Rattle.lane_work.specs.declared.offering.State.{State};

    type Back;

    ghost can: { Self → Type 0 };

    ghost gives: { Self → State → List Made → Self.Back → Type 0 };

    fn run<R: Wait>(
        self,
        rt: &R,
        intake: &Intake<Made>,
        pass: TakerPass<Made>,
        count: usize,
    ) -> (Self::Back, TakerPass<Made>, State)
        requires can { can self }
        requires pass { IsNewTaker intake.now pass }
        ensures pass { HasGot intake.now pass count result.1 }
        ensures gives { gives self result.2 (taker_view result.1).got result.0 };
}

/// A taker that is given back.
#[derive(Drop)]
pub(crate) struct Lent<'a, T> {
    pub taker: &'a mut T,
}

impl<'a, T: Taker> Offering for Lent<'a, T> {
    ghost use Rattle.std.specs.Prelude.{◌≡◌};
    ghost use Rattle.lane_work.specs.Offering.{Comes};

    type Back = &'a mut T;

    ghost can = { λ h. T.ready h.taker.now };

    ghost gives = { λ h state got r. (r.ghost_name ≡ h.taker.ghost_name) × Comes T.offers state h.taker.now got r.now };

    fn run<R: Wait>(
        self,
        rt: &R,
        intake: &Intake<Made>,
        pass: TakerPass<Made>,
        count: usize,
    ) -> (&'a mut T, TakerPass<Made>, State) {
        let Lent { taker } = self;
        let (pass, state) = take_all(rt, intake, pass, count, taker);
        (taker, pass, state)
    }
}

/// Starts the workers, lets the offering take so many items meanwhile, and waits for the workers.
pub(crate) fn side_by_side<
    R: Threads + Wait + Sync,
    V: Verifier,
    G: Gate,
    H: Offering<Back = B> + Drop,
    B,
>(
    tools: &Tools<R, V, G>,
    id: &Digest,
    intake: &Intake<Made>,
    jobs: Vec<LaneJob>,
    room: Room<V>,
    offering: H,
    pass: TakerPass<Made>,
    count: usize,
) -> (B, TakerPass<Made>, State, Vec<LanePass<Made>>)
    requires ready { All (IsReady intake.now) jobs.items }
    requires room { HasHandRoom (vec_len jobs) room }
    requires can { H.can offering }
    requires pass { IsNewTaker intake.now pass }
    ensures pass { HasGot intake.now pass count result.1 }
    ensures gives { H.gives offering result.2 (taker_view result.1).got result.0 }
    ensures lanes { Pairs (WorksOf (V.shows tools.now.verifier.now) id.now.0) jobs.items result.3.items }
{
    let (rt, alloc, verifier, gate) = (tools.rt, tools.alloc, tools.verifier, tools.gate);
    let Room { hands, done } = room;
    thread::scope(
        thread::scope_env(),
        rt,
        move |scope| -> (B, TakerPass<Made>, State, Vec<LanePass<Made>>)
            requires ready { All (IsReady intake.now) jobs.items }
            requires room { (hands.items ≡ []) × (vec_len jobs ≤ vec_capacity hands) × (done.items
                ≡ []) × (vec_len jobs ≤ vec_capacity done) }
            requires can { H.can offering }
            requires pass { IsNewTaker intake.now pass }
            ensures pass { HasGot intake.entry.now pass count result.1 }
            ensures gives { H.gives offering result.2 (taker_view result.1).got result.0 }
            ensures lanes { Pairs (WorksOf (V.shows verifier.entry.now) id.entry.now.0) jobs.items result.3.items }
        {
            let tools = Tools {
                rt,
                alloc,
                verifier,
                gate,
            };
            let hands = start_all(scope, &tools, id, intake, jobs, hands);
            let (back, pass, state) = offering.run(rt, intake, pass, count);
            let lanes = finish_all(rt, hands, done);
            (back, pass, state, lanes)
        },
    )
}
