//! What workers are given, and what they hand back.

use crate::kinds::{LaneLine, Made};
use intake_queue::LanePass;
use ledger_bytes::Digest;
use member_book::Verifier;
use std::snapshot::Snapshot;
use std::thread::{Promise, PromisedHandle};

/// What one worker is to do.
#[derive(Drop)]
pub struct LaneJob {
    pub pass: LanePass<Made>,
    pub lines: Vec<LaneLine>,
    pub start: u64,
}

/// A worker's promise: what it hands back.
#[derive(Drop)]
pub struct Worked<V> {
    pub verifier: Snapshot<V>,
    pub id: Digest,
    pub pass: Snapshot<LanePass<Made>>,
    pub lines: Snapshot<Vec<LaneLine>>,
    pub start: u64,
}

impl<V: Verifier> Promise<LanePass<Made>> for Worked<V> {
    ghost use Rattle.lane_work.specs.Handing.{Works};

    ghost kept_by = { λ p r. Works (V.shows p.verifier.value) p.id.0 p.start p.lines.value.items p.pass.value r };
}

/// Room for the hands of workers, and for what they hand back.
#[derive(Drop)]
pub struct Room<V: Verifier> {
    pub hands: Vec<Hand<V>>,
    pub done: Vec<LanePass<Made>>,
}

/// A lane's pass, or the thread that will hand it back.
#[derive(Drop)]
pub enum Hand<V: Verifier> {
    Here(LanePass<Made>),
    There(PromisedHandle<LanePass<Made>, Worked<V>>),
}
