//! A source and a sink in memory, which fail on the calls that they are told to fail on.

ghost use Rattle.std.specs.Prelude.{◌≡◌, ◌+◌, ◌-◌, ◌≤◌, ◌↔◌, [], length, take, drop, min, Contains, IsErr, IfOk};
ghost use Rattle.std.specs.Io.{ReadsAtMost, WritesAtMost};
ghost use Rattle.std.specs.Io.KnownBytes.{ReadConsumes, WriteAppends};
ghost use Rattle.ledger_bytes.specs.Causes.{HasCause};
ghost use Rattle.ledger_io.specs.Memory.{Feed, Feeds, Store, Stores, source_state, sink_state, unused_plan};
ghost use Rattle.ledger_io.specs.Outside.{CountsIdle, faults_after};

use crate::calls::Calls;
use crate::{Sink, Source};
use ledger_bytes::{Bytes, Failed, NoMemory};
use std::alloc::Global;
use std::marker::Model;

/// A source that gives bytes out of memory. Chosen calls fail, each without any other effect.
#[derive(Drop)]
pub struct MemSource {
    bytes: Bytes,
    at: usize,
    calls: Calls,
}

impl Model for MemSource {
    ghost Value = { Feed };

    ghost view = { λ s. record { left = drop s.at s.bytes; plan = s.calls } };

    ghost invariant = { λ s. s.at ≤ length s.bytes };
}

impl MemSource {
    /// `fail_at` has the numbers of the calls of `read` that fail. The first call has the number 0.
    pub fn new(bytes: Bytes, fail_at: Vec<u64>) -> Self
        ensures { result ≡ record { left = bytes; plan = unused_plan fail_at.items } }
    {
        MemSource {
            bytes,
            at: 0,
            calls: Calls::new(fail_at),
        }
    }
}

impl Source for MemSource {
    ghost state = { source_state };

    fn read(&mut self, into: &mut [u8]) -> Result<usize, Failed>
        ensures bound { ReadsAtMost result into.new }
        ensures bytes { ReadConsumes (source_state self.old).left
            (source_state self.new).left result into.new }
        ensures cause { HasCause self.old.plan.faults self.new.plan.faults result }
        ensures counts { self.new.plan.faults ≡ faults_after self.old.plan.faults result }
        ensures fails { IsErr result ↔ Contains self.old.plan.fail_at self.old.plan.next }
        ensures feeds { Feeds self.old self.new (length into.old) result }
    {
        if self.calls.fails() {
            return Err(Failed);
        }
        let count = fill(self.bytes.as_slice().split_at(self.at).1, into);
        self.at += count;
        Ok(count)
    }

    fn faults(&self) -> u64 {
        self.calls.faults()
    }
}

// Copies as many bytes as both have, and answers how many.
fn fill(from: &[u8], into: &mut [u8]) -> usize
    ensures count { result ≡ min (length from.now) (length into.old) }
    ensures copied { take result into.new ≡ take result from.now }
{
    let count = from.len().min(into.len());
    into[..count].copy_from_slice(&from[..count]);
    count
}

/// A sink that keeps bytes in memory, up to a room that is set aside when it is made. Chosen calls fail, each
/// without any other effect.
#[derive(Drop)]
pub struct MemSink {
    bytes: Vec<u8>,
    room: usize,
    calls: Calls,
    idles: u64,
}

impl Model for MemSink {
    ghost use Rattle.std.specs.Prelude.{◌≤◌, length};
    ghost use Rattle.std.specs.Vec.{vec_capacity};
    ghost use Rattle.ledger_io.specs.Memory.{Store};

    ghost Value = { Store };

    ghost view = { λ s. record {
      held = s.bytes.items;
      room = s.room;
      plan = s.calls;
      idles = s.idles;
    } };

    ghost invariant = { λ s. (s.room ≤ vec_capacity s.bytes) × (length s.bytes.items ≤ s.room) };
}

impl MemSink {
    /// `room` is how many bytes it takes in all, and `fail_at` has the numbers of the calls of `write` that fail. The
    /// first call has the number 0.
    pub fn new(alloc: Global, room: usize, fail_at: Vec<u64>) -> Result<Self, NoMemory>
        ensures { IfOk result (λ sink.
            sink ≡ record { held = []; room = room; plan = unused_plan fail_at.items; idles = 0 }) }
    {
        Ok(MemSink {
            bytes: Vec::with_capacity(alloc, room)?,
            room,
            calls: Calls::new(fail_at),
            idles: 0,
        })
    }

    /// The bytes that were written.
    pub fn written(&self) -> &[u8]
        ensures { result.now ≡ self.now.held }
    {
        self.bytes.as_slice()
    }
}

impl Sink for MemSink {
    ghost state = { sink_state };

    fn write(&mut self, piece: &[u8]) -> Result<usize, Failed>
        ensures bound { WritesAtMost result piece.now }
        ensures bytes { WriteAppends (sink_state self.old).held
            (sink_state self.new).held result piece.now }
        ensures cause { HasCause self.old.plan.faults self.new.plan.faults result }
        ensures counts { self.new.plan.faults ≡ faults_after self.old.plan.faults result }
        ensures idle { CountsIdle self.old.idles self.new.idles result piece.now }
        ensures fails { IsErr result ↔ Contains self.old.plan.fail_at self.old.plan.next }
        ensures stores { Stores self.old self.new piece.now result }
    {
        if self.calls.fails() {
            return Err(Failed);
        }
        let count = piece.len().min(self.room - self.bytes.len());
        let Ok(()) = self.bytes.extend_from_slice(piece.split_at(count).0) else {
            unreachable!()
        };
        if count == 0 && !piece.is_empty() {
            self.idles = self.idles.saturating_add(1);
        }
        Ok(count)
    }

    fn faults(&self) -> u64 {
        self.calls.faults()
    }
}
