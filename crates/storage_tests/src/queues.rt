//! A queue gives what its lanes submitted, and then nothing.

ghost use Rattle.std.specs.Prelude.{◌≡◌, [], ◌∷◌, IfOk};
ghost use Rattle.intake_queue.specs.Lanes.{sender, taker};
ghost use Rattle.intake_queue.specs.Passes.{lane_view, taker_view, IsLaneOf, IsTakerOf};

use intake_queue::{Intake, LanePass, Piece, TakerPass};
use ledger_bytes::NoMemory;
use std::alloc::Global;
use std::test::Fail;

/// An item that holds no more than a queue looks at.
#[derive(Clone, Copy, Debug, PartialEq, Eq)]
struct Slip {
    lane: u8,
    index: u64,
}

impl Piece for Slip {
    ghost lane_of = { λ s. s.lane };

    ghost index_of = { λ s. s.index };

    fn lane(&self) -> u8 {
        self.lane
    }

    fn index(&self) -> u64 {
        self.index
    }
}

/// A queue of two lanes, with its passes. The first lane's items have the numbers 1 and 2, that of the second has 5.
#[derive(Drop)]
struct TwoLanes {
    intake: Intake<Slip>,
    first: LanePass<Slip>,
    second: LanePass<Slip>,
    taker: TakerPass<Slip>,
}

fn two_lanes(alloc: Global) -> Result<TwoLanes, NoMemory>
    ensures first { IfOk result (λ q. IsLaneOf q.intake q.first
        × (lane_view q.first ≡ sender ((1, 2) ∷ (5, 1) ∷ []) 0 [])) }
    ensures second { IfOk result (λ q. IsLaneOf q.intake q.second
        × (lane_view q.second ≡ sender ((1, 2) ∷ (5, 1) ∷ []) 1 [])) }
    ensures taker { IfOk result (λ q. IsTakerOf q.intake q.taker
        × (taker_view q.taker ≡ taker ((1, 2) ∷ (5, 1) ∷ []) [] 2 [])) }
{
    let (intake, mut lanes, taker) = Intake::<Slip>::new(alloc, &[1, 5], &[2, 1])?;
    let (Some(second), Some(first)) = (lanes.pop(), lanes.pop()) else {
        unreachable!()
    };
    Ok(TwoLanes {
        intake,
        first,
        second,
        taker,
    })
}

// A body of `take` that doesn't look is shown by this alone.
#[test]
fn gives_what_was_submitted_and_then_none(rt: HostRuntime) -> Result<(), Fail> {
    let alloc = rt.alloc();
    let TwoLanes {
        intake,
        first,
        second,
        taker,
    } = two_lanes(alloc)?;
    let one = Slip { lane: 0, index: 1 };
    let two = Slip { lane: 0, index: 2 };
    let five = Slip { lane: 1, index: 5 };
    let first = intake.submit(&rt, first, one);
    let second = intake.submit(&rt, second, five);
    let first = intake.submit(&rt, first, two);
    let (taker, item_1) = intake.take(&rt, taker);
    let (taker, item_2) = intake.take(&rt, taker);
    let (taker, item_3) = intake.take(&rt, taker);
    let (taker, item_4) = intake.take(&rt, taker);
    assert_eq!(rt;
        [item_1, item_2, item_3, item_4],
        [Some(one), Some(five), Some(two), None]
    );
    intake.close(Vec::from_array(alloc, [first, second])?, taker);
    Ok(())
}
