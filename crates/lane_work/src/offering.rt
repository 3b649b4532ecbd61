//! The taker's side: items are taken and offered, on the calling thread.
ghost use Rattle.std.specs.Prelude.{◌≡◌};
ghost use Rattle.intake_queue.specs.Passes.{taker_view};
ghost use Rattle.lane_work.specs.Offering.{Comes, Hands};
ghost use Rattle.lane_work.specs.Handing.{HasGot, IsNewTaker};
ghost use Rattle.lane_work.specs.declared.offering.State.TheVariants.{Going};

use crate::idle::Idle;
use crate::kinds::Made;
use crate::taker::{Flow, Taker};
use intake_queue::{Intake, TakerPass};
use std::sync::Wait;

/// How far the taker is.
#[derive(Clone, Copy, Debug, PartialEq, Eq)]
pub(crate) enum State {
    Going,
    /// It wants no more.
    Stopped,
    /// Memory was missing for a line, so nothing more is offered.
    Lacking,
}

// Offers an item, while the taker goes on.
fn hand<T: Taker>(taker: &mut T, state: State, made: Made) -> State
    requires { state ≡ Going → T.ready taker.old }
    ensures { Hands T.ready T.offers state taker.old made result taker.new }
{
    let State::Going = state else {
        return state;
    };
    let Made {
        lane: _lane,
        index: _index,
        line: _line,
        item,
    } = made;
    match item {
        Ok(item) => match taker.offer(item) {
            Flow::GoOn => State::Going,
            Flow::Stop => State::Stopped,
        },
        Err(_) => State::Lacking,
    }
}

/// Takes as many items as are to come, and offers them as long as the taker goes on.
pub(crate) fn take_all<R: Wait, T: Taker>(
    rt: &R,
    intake: &Intake<Made>,
    mut pass: TakerPass<Made>,
    count: usize,
    taker: &mut T,
) -> (TakerPass<Made>, State)
    requires pass { IsNewTaker intake.now pass }
    requires ready { T.ready taker.old }
    ensures pass { HasGot intake.now pass count result.0 }
    ensures comes { Comes T.offers result.1 taker.old (taker_view result.0).got taker.new }
{
    let mut state = State::Going;
    let mut done = 0usize;
    let mut idle = Idle::new();
    for _ in rt.forever() {
        if done >= count {
            break;
        }
        let (next, item) = intake.take(rt, pass);
        pass = next;
        match item {
            Some(made) => {
                state = hand(taker, state, made);
                done += 1;
                idle.end();
            }
            None => idle.wait(rt),
        }
    }
    (pass, state)
}
