//! The queue between the lanes and the taker, and the passes by which lanes submit and the taker takes.

ghost use Rattle.std.specs.Prelude.{◌≡◌, List, ◌+◌, ◌<◌, ◌≤◌, ◌^◌, [], ◌∷◌, ◌++◌, length, sum, IfOk, MatchOption, map};
ghost use Rattle.crossbeam_queue.specs.Passes.{view, IsPassOf};
ghost use Rattle.crossbeam_queue.specs.Fifo.{Held};
ghost use Rattle.intake_queue.specs.Lanes.{plan_of, room, first_in, quota_in, Took, Stood, Settled, taker, sender, unopened};
ghost use Rattle.intake_queue.specs.Passes.{lane_view, taker_view, IsLaneOf, IsTakerOf, AreNew, AreLanes, sent_by};

use crate::piece::Piece;
use crate::rule::{ByLane, Lends, Naming, Opens, Returns, Sends, Takes, Total};
use crate::view::View;
use crossbeam_queue::{Pass, RuledArrayQueue};
use ledger_bytes::NoMemory;
use std::alloc::Global;
use std::marker::Brand;
use std::sync::Wait;

type Queue<T> = RuledArrayQueue<T, View<T>, ByLane>;

/// A queue under the rule that each lane's items come out in order, each once.
#[derive(Drop)]
pub struct Intake<T: Piece> {
    queue: Queue<T>,
}

/// What lets a lane submit. Each lane has one, so one thread at a time submits for it.
#[derive(Drop)]
pub struct LanePass<T> {
    seat: Pass<T, View<T>>,
}

/// What lets the taker take. A queue has one.
#[derive(Drop)]
pub struct TakerPass<T> {
    seat: Pass<T, View<T>>,
}

fn total(quotas: &[u32]) -> u32
    requires { sum quotas.now < 2 ^ 32 }
    ensures { result ≡ sum quotas.now }
{
    quotas.iter().sum()
}

// Tells the taker's pass of a new queue the lanes' plan.
fn open<T: Piece, J: Naming>(
    queue: &Queue<T>,
    seat: &mut Pass<T, View<T>>,
    first: &[u64],
    quotas: &[u32],
)
    requires plan { J.plan ≡ plan_of first.now quotas.now }
    requires seat { IsPassOf queue.now seat.old × (view seat.old ≡ unopened) }
    ensures { IsPassOf queue.now seat.new
        × (view seat.new ≡ taker (plan_of first.now quotas.now) [] 0 []) }
{
    let spare = queue.another::<Opens<J>>(seat);
    drop(spare);
}

impl<T: Piece> Intake<T> {
    /// A queue with room for all quotas, and a pass for each lane, in order. `first` has the number of each lane's first
    /// item, `quotas` how many it may submit. No other call of a queue takes memory.
    pub fn new(
        alloc: Global,
        first: &[u64],
        quotas: &[u32],
    ) -> Result<(Intake<T>, Vec<LanePass<T>>, TakerPass<T>), NoMemory>
        requires lanes { (length first.now ≡ length quotas.now) × (length quotas.now ≤ 8) }
        requires room { (0 < sum quotas.now) × (sum quotas.now ≤ 4096) }
        ensures lanes { IfOk result (λ r. (length r.1.items ≡ length quotas.now)
            × AreNew r.0 (plan_of first.now quotas.now) r.1.items) }
        ensures taker { IfOk result (λ r. IsTakerOf r.0 r.2
            × (taker_view r.2
            ≡ taker (plan_of first.now quotas.now) [] (length quotas.now) [])) }
    {
        let (queue, mut seat) = Queue::<T>::ruled(alloc, total(quotas) as usize)?;
        open::<T, Brand>(&queue, &mut seat, first, quotas);
        let mut lanes = Vec::new(alloc);
        for _k in 0..quotas.len() {
            lanes.reserve(1)?;
            let pass = queue.another::<Lends>(&mut seat);
            lanes.push_reserved(LanePass { seat: pass });
        }
        Ok((Intake { queue }, lanes, TakerPass { seat }))
    }

    /// Puts a lane's next item into the queue, which is never full while the lane has quota left.
    pub fn submit<R: Wait>(&self, rt: &R, mut pass: LanePass<T>, item: T) -> LanePass<T>
        requires pass { IsLaneOf self.now pass }
        requires quota { length (sent_by pass) < quota_in (lane_view pass).plan (lane_view pass).lane }
        requires lane { T.lane_of item ≡ (lane_view pass).lane }
        requires index { T.index_of item
            ≡ first_in (lane_view pass).plan (lane_view pass).lane + length (sent_by pass) }
        ensures pass { IsLaneOf self.now result }
        ensures sent { lane_view result
            ≡ sender (lane_view pass).plan (lane_view pass).lane (sent_by pass ++ item ∷ []) }
    {
        match self.queue.push_as::<Sends, R>(rt, &mut pass.seat, item) {
            Ok(()) => pass,
            Err(_) => unreachable!(),
        }
    }

    /// Takes an item, the next one of its lane. None only where the queue was empty at a moment of this call; another may
    /// have been submitted since.
    pub fn take<R: Wait>(&self, rt: &R, mut pass: TakerPass<T>) -> (TakerPass<T>, Option<T>)
        requires pass { IsTakerOf self.now pass }
        ensures pass { IsTakerOf self.now result.0 }
        ensures took { MatchOption result.1
            ((taker_view result.0 ≡ taker_view pass) × Held 0 (Stood T.lane_of T.index_of (taker_view pass)))
            (λ x. Took T.lane_of T.index_of (taker_view pass) x (taker_view result.0)) }
    {
        let item = self.queue.pop_as::<Takes, R>(rt, &mut pass.seat);
        (pass, item)
    }

    /// Takes all passes in, the lanes' in order. What each lane sent is what was taken of it and then what the queue still
    /// held, which is let go.
    pub fn close(self, lanes: Vec<LanePass<T>>, taker: TakerPass<T>)
        requires taker { IsTakerOf self taker × ((taker_view taker).back ≡ []) }
        requires lanes { (length lanes.items ≡ length (taker_view taker).plan)
            × AreLanes self (taker_view taker).plan lanes.items }
        ensures { (left : List T) × Settled T.lane_of T.index_of (taker_view taker).plan
            (map sent_by lanes.items) (taker_view taker).got left }
    {
        let mut seat = taker.seat;
        for pass in lanes {
            self.queue.absorb::<Returns>(&mut seat, pass.seat);
        }
        self.queue.learn_as::<Total>(&mut seat);
    }
}
