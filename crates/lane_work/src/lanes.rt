//! Lines of several lanes: a worker for each lane that has some, and the taker on the calling thread.
ghost use Rattle.std.specs.Prelude.{◌≡◌, ◌≤◌, ◌<◌, ◌+◌, ◌^◌, ℕ, List, [], length, All, IfOk, OnOk, OnErr, vec_len, slice_index};
ghost use Rattle.intake_queue.specs.Lanes.{taker as of_taker};
ghost use Rattle.intake_queue.specs.Passes.{taker_view, IsTakerOf};
ghost use Rattle.lane_work.specs.Making.{lines_of};
ghost use Rattle.lane_work.specs.Offering.{Came, Comes, OffersLine, RunsAll, RunsSome};
ghost use Rattle.lane_work.specs.Handing.{HasGot, IsNewTaker};
ghost use Rattle.lane_work.specs.Windows.{AreJobs, AreNewJobs, AreWindow};
ghost use Rattle.lane_work.specs.Working.{HasHandRoom, IsReady, Pairs, WorksOf};
ghost use Rattle.lane_work.specs.declared.kinds.LaneLine.{LaneLine};

use crate::alone::{only_lane, run_alone};
use crate::divide::{counts, divide};
use crate::gate::Gate;
use crate::hands::{LaneJob, Room};
use crate::kinds::{LaneLine, Made};
use crate::offering::State;
use crate::scoped::{Lent, side_by_side};
use crate::taker::Taker;
use crate::tools::Tools;
use intake_queue::{Intake, LanePass, TakerPass};
use ledger_bytes::{Digest, NoMemory};
use member_book::Verifier;
use std::alloc::{AllocError, Global};
use std::sync::Wait;
use std::thread::Threads;

// Each lane's pass with its lines.
fn lane_jobs(
    alloc: Global,
    passes: Vec<LanePass<Made>>,
    lanes: Vec<Vec<LaneLine>>,
    first: &[u64; 8],
) -> Result<Vec<LaneJob>, AllocError>
    requires { (vec_len passes ≡ 8) × (vec_len lanes ≡ 8) }
    ensures { IfOk result (λ v. AreJobs passes.items lanes.items first.now v.items) }
{
    let mut jobs = Vec::with_capacity(alloc, 8)?;
    let mut rest = lanes.into_iter();
    for pass in passes {
        let k = jobs.len();
        let Some(lines) = rest.next() else {
            unreachable!()
        };
        jobs.push_reserved(LaneJob {
            pass,
            lines,
            start: first[k],
        });
    }
    Ok(jobs)
}

// A use of the reference that came back, which ties it to the one that was lent.
fn take_back<T>(x: &mut T)
    ensures { x.new ≡ x.old }
{}

// Runs the workers and the taker.
fn run_workers<R: Threads + Wait + Sync, V: Verifier, G: Gate, T: Taker>(
    tools: &Tools<R, V, G>,
    id: &Digest,
    intake: &Intake<Made>,
    jobs: Vec<LaneJob>,
    pass: TakerPass<Made>,
    room: Room<V>,
    count: usize,
    taker: &mut T,
) -> (TakerPass<Made>, State, Vec<LanePass<Made>>)
    requires ready { T.ready taker.old }
    requires jobs { All (IsReady intake.now) jobs.items × (vec_len jobs ≡ 8) }
    requires room { HasHandRoom 8 room }
    requires pass { IsNewTaker intake.now pass }
    ensures pass { HasGot intake.now pass count result.0 }
    ensures comes { Comes T.offers result.1 taker.old (taker_view result.0).got taker.new }
    ensures lanes { Pairs (WorksOf (V.shows tools.now.verifier.now) id.now.0) jobs.items result.2.items }
{
    let lent = Lent { taker };
    let (back, pass, state, lanes) = side_by_side(tools, id, intake, jobs, room, lent, pass, count);
    take_back(back);
    (pass, state, lanes)
}

// Runs the workers and the taker, and closes the queue.
fn run_and_close<R: Threads + Wait + Sync, V: Verifier, G: Gate, T: Taker>(
    tools: &Tools<R, V, G>,
    id: &Digest,
    intake: Intake<Made>,
    jobs: Vec<LaneJob>,
    pass: TakerPass<Made>,
    room: Room<V>,
    count: usize,
    taker: &mut T,
) -> State
    requires ready { T.ready taker.old }
    requires jobs { All (IsReady intake) jobs.items × AreNewJobs (taker_view pass).plan jobs.items }
    requires room { HasHandRoom 8 room }
    requires pass { IsTakerOf intake pass × (taker_view pass
        ≡ of_taker (taker_view pass).plan [] (taker_view pass).lent []) }
    ensures { (first : List ℕ) (window : List LaneLine) → AreWindow first window jobs.items → count
        ≡ length window
        → Came (OffersLine (V.shows tools.now.verifier.now) id.now.0 T.offers) result first window taker.old taker.new }
{
    let (pass, state, lanes) = run_workers(tools, id, &intake, jobs, pass, room, count, taker);
    intake.close(lanes, pass);
    state
}

// The queue of a window, its lanes' jobs and the taker's pass.
#[derive(Drop)]
struct SetUp {
    intake: Intake<Made>,
    jobs: Vec<LaneJob>,
    pass: TakerPass<Made>,
}

// Divides the lines by their lanes, and makes a queue with a quota for each.
fn divide_window(alloc: Global, window: Vec<LaneLine>, first: &[u64; 8]) -> Result<SetUp, NoMemory>
    requires window { (0 < vec_len window) × (vec_len window ≤ 4096) }
    requires low { All (λ l. l.lane < 8) window.items }
    requires numbers { (k : ℕ) → k < 8
        → slice_index first.now k + length (lines_of k window.items) < 2 ^ 64 }
    ensures jobs { IfOk result (λ s. All (IsReady s.intake) s.jobs.items
        × AreNewJobs (taker_view s.pass).plan s.jobs.items) }
    ensures window { IfOk result (λ s. AreWindow first.now window.items s.jobs.items) }
    ensures pass { IfOk result (λ s. IsTakerOf s.intake s.pass × (taker_view s.pass
        ≡ of_taker (taker_view s.pass).plan [] (taker_view s.pass).lent [])) }
{
    let lanes = divide(alloc, window)?;
    let quotas = counts(alloc, lanes.as_slice())?;
    let (intake, passes, pass) = Intake::<Made>::new(alloc, first.as_slice(), quotas.as_slice())?;
    let jobs = lane_jobs(alloc, passes, lanes, first)?;
    Ok(SetUp { intake, jobs, pass })
}

/// Prepares the lines of a window, or of a part of one, on the ledger with this id, in one worker for each lane that has
/// lines, and offers them to the taker on the calling thread as they come, each lane's in their order, until all are
/// offered or the taker stops. `first` has each lane's first number. Where only one lane has lines, and fewer than 128,
/// they are prepared on the calling thread, and so are those of a lane whose thread can't be started. Behind a line for
/// which there was no memory nothing is offered.
pub fn run_lanes<R: Threads + Wait + Sync, V: Verifier, G: Gate, T: Taker>(
    tools: &Tools<R, V, G>,
    window: Vec<LaneLine>,
    first: &[u64; 8],
    id: &Digest,
    taker: &mut T,
) -> Result<(), NoMemory>
    requires window { (0 < vec_len window) × (vec_len window ≤ 4096) }
    requires numbers { (k : ℕ) → k < 8
        → slice_index first.now k + length (lines_of k window.items) < 2 ^ 64 }
    requires ready { T.ready taker.old }
    ensures ok { OnOk result (RunsAll
        (OffersLine (V.shows tools.now.verifier.now) id.now.0 T.offers) first.now window.items taker.old taker.new) }
    ensures err { OnErr result (RunsSome
        (OffersLine (V.shows tools.now.verifier.now) id.now.0 T.offers) first.now window.items taker.old taker.new) }
{
    if let Some(lane) = only_lane(window.as_slice()) {
        return run_alone(tools, window, first[usize::from(lane)], id, taker);
    }
    let count = window.len();
    let SetUp { intake, jobs, pass } = divide_window(tools.alloc, window, first)?;
    let hands = Vec::with_capacity(tools.alloc, 8)?;
    let done = Vec::with_capacity(tools.alloc, 8)?;
    let room = Room { hands, done };
    match run_and_close(tools, id, intake, jobs, pass, room, count, taker) {
        State::Going | State::Stopped => Ok(()),
        State::Lacking => Err(NoMemory),
    }
}
