//! Lines of several lanes. Which lane's line is taken first is the schedule's, so what is compared is what each order has.

ghost use Rattle.std.specs.Prelude.{None};
ghost use Rattle.ledger_io.specs.Memory.{sink_state};

use super::*;
use lane_work::Gate;
use ledger_bytes::Failed;
use ledger_io::{Sink, Source};
use sha2::{Digest as Hasher, Sha256};
use std::process::Abort;
use std::sync::atomic::{AtomicBool, AtomicU64, Ordering};
use std::sync::{Arc, Wait};
use std::thread;

/// The status of a run on a new ledger for trial.
fn run_demo<R: Threads + Wait + Sync, S: Source, K: Sink, G: Gate>(
    rt: &R,
    alloc: Global,
    source: &mut S,
    sink: &mut K,
    gate: &G,
) -> Result<u8, NoMemory> {
    let words = strings(alloc, &DEMO)?;
    let words = words.as_slice();
    let mut a = MemDisk::new(alloc, DISK_ROOM, Vec::new(alloc))?;
    let mut b = MemDisk::new(alloc, DISK_ROOM, Vec::new(alloc))?;
    let mut notary = MemNotary::new(alloc, Vec::new(alloc));
    let tools = Tools {
        rt,
        alloc,
        verifier: &TagScheme,
        gate,
    };
    Ok(ledger_top(&tools, words, source, sink, &mut a, &mut b, &mut notary))
}

/// What a run of this script writes, where it ends with status 0.
fn written_by<R: Threads + Wait + Sync, G: Gate>(
    rt: &R,
    alloc: Global,
    script: Vec<u8>,
    gate: &G,
) -> Result<Option<String>, NoMemory> {
    let mut source = MemSource::new(Bytes::copy_of(alloc, script.as_slice())?, Vec::new(alloc));
    let mut sink = MemSink::new(alloc, AMPLE, Vec::new(alloc))?;
    if run_demo(rt, alloc, &mut source, &mut sink, gate)? != 0 {
        return Ok(None);
    }
    let written = sink.written().to_vec(alloc)?;
    Ok(String::from_utf8(written).ok())
}

/// A line as one of this lane.
fn put_line(script: &mut Vec<u8>, lane: u8, line: &str) -> Result<(), NoMemory> {
    script.push(b'0'.wrapping_add(lane))?;
    script.extend_from_slice(line.as_bytes().get(1..).unwrap_or_default())?;
    Ok(())
}

/// The lane of a reply, its number there, and what it says.
fn read_reply(reply: &str) -> Option<(usize, u64, &str)> {
    let (front, says) = reply.split_once(' ')?;
    let (lane, index) = front.split_once('.')?;
    Some((lane.parse().ok()?, index.parse().ok()?, says))
}

/// How many replies each lane has, where each lane's are numbered from 1 on, in their order.
fn count_replies(text: &str) -> Option<[u64; 8]> {
    let mut counts = [0u64; 8];
    for reply in text.lines() {
        let (lane, index, _says) = read_reply(reply)?;
        let count = counts.get_mut(lane)?;
        *count = count.checked_add(1)?;
        if index != *count {
            return None;
        }
    }
    Some(counts)
}

/// What all replies say, a line for each.
fn all_said(alloc: Global, text: &str) -> Result<Vec<u8>, NoMemory> {
    let mut all = Vec::new(alloc);
    for reply in text.lines() {
        let (_lane, _index, says) = read_reply(reply).unwrap_or_default();
        all.extend_from_slice(says.as_bytes())?;
        all.push(b'\n')?;
    }
    Ok(all)
}

/// What a gate has seen of one lane.
#[derive(Drop)]
struct Seen {
    came: AtomicBool,
    met: AtomicBool,
}

impl Seen {
    fn nothing() -> Self {
        Seen {
            came: AtomicBool::new(false),
            met: AtomicBool::new(false),
        }
    }
}

/// A gate that holds the first line of each of two lanes until that of the other has come. A body that prepares one
/// lane after the other never lets both meet, in either order.
#[derive(Drop)]
struct Meeting {
    zero: Seen,
    one: Seen,
}

impl Gate for Meeting {
    fn pass(&self, lane: u8, index: u64) {
        if index != 1 {
            return;
        }
        let (mine, other) = if lane == 0 {
            (&self.zero, &self.one)
        } else {
            (&self.one, &self.zero)
        };
        mine.came.store(true, Ordering::SeqCst);
        for _ in 0..10_000_000u32 {
            if other.came.load(Ordering::SeqCst) {
                mine.met.store(true, Ordering::SeqCst);
                return;
            }
            thread::yield_now();
        }
    }
}

// The SHA-256 of what the receipts say of twenty records, all alike, in one block: each order gives them the same
// numbers, leaves and root.
const TWENTY_RECEIPTS: &str = "0d9207ab4d111c046f2f24c479ae59186b68ef70fee26344ee8b9cef3e01099f";

#[test]
fn prepares_two_lanes_side_by_side(rt: HostRuntime) -> Result<(), Fail> {
    let alloc = rt.alloc();
    let mut script = Vec::new(alloc);
    for _ in 0..10 {
        put_line(&mut script, 0, EMPTY)?;
        put_line(&mut script, 1, EMPTY)?;
    }
    let gate = Meeting {
        zero: Seen::nothing(),
        one: Seen::nothing(),
    };
    let text = written_by(&rt, alloc, script, &gate)?.ok_or("another status")?;
    assert!(rt; gate.zero.met.load(Ordering::SeqCst));
    assert!(rt; gate.one.met.load(Ordering::SeqCst));
    are_twenty_receipts(&rt, alloc, text.as_str())
}

fn are_twenty_receipts(rt: &impl Abort, alloc: Global, text: &str) -> Result<(), Fail> {
    assert_eq!(rt; count_replies(text), Some([10, 10, 0, 0, 0, 0, 0, 0]));
    let digest = Sha256::digest(all_said(alloc, text)?.as_slice());
    assert_eq!(rt; hex::encode(alloc, digest)?.as_str(), TWENTY_RECEIPTS);
    Ok(())
}

// Eight lanes with 1,100 lines each, of which 100 are records: three windows.
#[test]
fn answers_each_lane_in_order(rt: HostRuntime) -> Result<(), Fail> {
    let alloc = rt.alloc();
    let mut script = Vec::new(alloc);
    for _ in 0..100 {
        for lane in 0..8 {
            for _ in 0..10 {
                put_line(&mut script, lane, "0 hed\n")?;
            }
            put_line(&mut script, lane, EMPTY)?;
        }
    }
    let text = written_by(&rt, alloc, script, &OpenGate)?.ok_or("another status")?;
    assert_eq!(rt; count_replies(text.as_str()), Some([1_100; 8]));
    Ok(())
}

/// A source that gives some lines at a time, again and again, and the next ones once all so far are answered. It ends where one
/// isn't.
#[derive(Drop)]
struct Patient {
    answered: Arc<AtomicU64>,
    text: Vec<u8>,
    /// How many lines the text has, and how many were given and may be.
    lines: u64,
    given: u64,
    most: u64,
}

impl Source for Patient {
    ghost state = { λ s. record { left = None; faults = 0 } };

    fn read(&mut self, into: &mut [u8]) -> Result<usize, Failed> {
        if self.given == self.most || self.answered.load(Ordering::SeqCst) != self.given {
            return Ok(0);
        }
        let len = self.text.len();
        let Some(front) = into.get_mut(..len) else {
            return Ok(0);
        };
        front.copy_from_slice(self.text.as_slice());
        self.given = self.given.saturating_add(self.lines);
        Ok(len)
    }

    fn faults(&self) -> u64 {
        0
    }
}

/// A sink that tells how many lines it has taken.
#[derive(Drop)]
struct Telling {
    inner: MemSink,
    answered: Arc<AtomicU64>,
}

impl Sink for Telling {
    ghost state = { λ s. sink_state s.inner };

    fn write(&mut self, piece: &[u8]) -> Result<usize, Failed> {
        let count = self.inner.write(piece)?;
        for byte in piece.iter().take(count) {
            if *byte == b'\n' {
                self.answered.fetch_add(1, Ordering::SeqCst);
            }
        }
        Ok(count)
    }

    fn faults(&self) -> u64 {
        self.inner.faults()
    }
}

/// How many lines are given and answered, where so many times this line comes at once.
fn answered_at_once<R: Threads + Wait + Sync>(
    rt: &R,
    alloc: Global,
    line: &str,
    lines: u64,
    most: u64,
) -> Result<(u64, u64), Fail> {
    let answered = Arc::new(alloc, AtomicU64::new(0))?;
    let mut text = Vec::new(alloc);
    for _ in 0..lines {
        text.extend_from_slice(line.as_bytes())?;
    }
    let mut source = Patient {
        answered: answered.clone()?,
        text,
        lines,
        given: 0,
        most,
    };
    let mut sink = Telling {
        inner: MemSink::new(alloc, AMPLE, Vec::new(alloc))?,
        answered,
    };
    let _status = run_demo(rt, alloc, &mut source, &mut sink, &OpenGate)?;
    Ok((source.given, sink.answered.load(Ordering::SeqCst)))
}

// A line that asks, one block of records, and two that are committed together.
#[test]
fn answers_what_was_given_before_more_is_read(rt: HostRuntime) -> Result<(), Fail> {
    let alloc = rt.alloc();
    assert_eq!(rt; answered_at_once(&rt, alloc, "0 head\n", 1, 20)?, (20, 20));
    for (lines, most) in [(64, 640), (128, 1_280)] {
        assert_eq!(rt;
            answered_at_once(&rt, alloc, EMPTY, lines, most)?,
            (most, most)
        );
    }
    Ok(())
}
