//! Workers in a scope, each with its lane's pass, and what they hand back.
ghost use Rattle.std.specs.Prelude.{◌≡◌, ◌≤◌, ◌<◌, ◌+◌, ℕ, List, [], All, vec_len, vec_capacity};
ghost use Rattle.ledger_model.specs.Scheme.{Scheme};
ghost use Rattle.lane_work.specs.Working.{IsReady, Works, Promised, Pairs, WorksOf};
ghost use Rattle.lane_work.specs.declared.hands.LaneJob.{LaneJob};

use crate::gate::Gate;
use crate::hands::{Hand, LaneJob, Worked};
use crate::kinds::Made;
use crate::tools::Tools;
use crate::working::work;
use intake_queue::{Intake, LanePass};
use ledger_bytes::Digest;
use member_book::Verifier;
use std::snapshot::Snapshot;
use std::sync::Wait;
use std::thread::{Scope, Threads};

// Starts the worker of a lane that has lines. Where no thread can be made, the work is done here.
fn start<'s, 'e: 's, R: Threads + Wait + Sync, V: Verifier, G: Gate>(
    scope: &'s Scope<'s, &'e ()>,
    tools: &Tools<'e, R, V, G>,
    id: &'e Digest,
    intake: &'e Intake<Made>,
    job: LaneJob,
) -> Hand<V>
    requires { IsReady intake.now job }
    ensures { Promised V.shows (V.shows tools.now.verifier.now) id.now.0 job result }
{
    let LaneJob { pass, lines, start } = job;
    let (rt, alloc, verifier, gate) = (tools.rt, tools.alloc, tools.verifier, tools.gate);
    if lines.is_empty() {
        return Hand::Here(pass);
    }
    let promise = Worked {
        verifier: Snapshot::of(verifier),
        id: *id,
        pass: Snapshot::of(&pass),
        lines: Snapshot::of(&lines),
        start,
    };
    let run = move || -> LanePass<Made>
        requires { IsReady intake.now (record { pass = pass; lines = lines; start = start }) }
        ensures { Works (V.shows verifier.entry.now) id.entry.now.0 start lines.items pass result }
    {
        let tools = Tools {
            rt,
            alloc,
            verifier,
            gate,
        };
        work(&tools, id, intake, pass, lines, start)
    };
    match scope.spawn_with(promise, run) {
        Ok(child) => Hand::There(child),
        Err(refused) => Hand::Here((refused.value)()),
    }
}

impl<V: Verifier> Hand<V> {
    // The pass, once its worker has ended.
    fn finish<R: Threads>(self, rt: &R) -> LanePass<Made>
        ensures { (scheme : Scheme) (id : List ℕ) (j : LaneJob) → Promised V.shows scheme id j self
            → WorksOf scheme id j result }
    {
        match self {
            Hand::Here(pass) => pass,
            Hand::There(child) => child.join(rt),
        }
    }
}

/// Starts the workers.
pub(crate) fn start_all<'s, 'e: 's, R: Threads + Wait + Sync, V: Verifier, G: Gate>(
    scope: &'s Scope<'s, &'e ()>,
    tools: &Tools<'e, R, V, G>,
    id: &'e Digest,
    intake: &'e Intake<Made>,
    jobs: Vec<LaneJob>,
    mut hands: Vec<Hand<V>>,
) -> Vec<Hand<V>>
    requires ready { All (IsReady intake.now) jobs.items }
    requires room { (hands.items ≡ []) × (vec_len jobs ≤ vec_capacity hands) }
    ensures len { vec_len result ≡ vec_len jobs }
    ensures promised { Pairs (Promised V.shows (V.shows tools.now.verifier.now) id.now.0) jobs.items result.items }
{
    for job in jobs {
        let hand = start(scope, tools, id, intake, job);
        hands.push_reserved(hand);
    }
    hands
}

/// Waits for the workers.
pub(crate) fn finish_all<R: Threads, V: Verifier>(
    rt: &R,
    hands: Vec<Hand<V>>,
    mut done: Vec<LanePass<Made>>,
) -> Vec<LanePass<Made>>
    requires room { (done.items ≡ []) × (vec_len hands ≤ vec_capacity done) }
    ensures { (scheme : Scheme) (id : List ℕ) (jobs : List LaneJob)
        → Pairs (Promised V.shows scheme id) jobs hands.items
        → Pairs (WorksOf scheme id) jobs result.items }
{
    for hand in hands {
        let pass = hand.finish(rt);
        done.push_reserved(pass);
    }
    done
}
