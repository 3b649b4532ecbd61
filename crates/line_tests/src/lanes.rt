//! Lines of one lane and of several are offered to a taker, and none behind its stop.

ghost use Rattle.std.specs.Prelude.{◌≡◌, ◌<◌, ◌≤◌, ℕ, slice_index, vec_len};

use lane_work::{Flow, Gate, LaneLine, OpenGate, Taker, Tools, run_lanes};
use ledger_book::Prepared;
use ledger_bytes::{Bytes, Digest, NoMemory};
use member_book::TagScheme;
use std::alloc::Global;
use std::sync::Wait;
use std::test::Fail;
use std::thread::Threads;

/// A taker that keeps the lane and the number of each line, and wants so many.
#[derive(Drop)]
struct Keeper {
    kept: Vec<(u8, u64)>,
    wanted: usize,
}

impl Taker for Keeper {
    ghost use Rattle.std.specs.Prelude.{⊤};

    ghost ready = { λ s. ⊤ };

    ghost offers = { λ s item flow t. ⊤ };

    fn offer(&mut self, item: Prepared) -> Flow {
        let Ok(()) = self.kept.push((item.lane, item.index)) else {
            return Flow::Stop;
        };
        if self.kept.len() < self.wanted {
            Flow::GoOn
        } else {
            Flow::Stop
        }
    }
}

// Each lane's first number.
fn all_ones() -> [u64; 8]
    ensures { (k : ℕ) → k < 8 → slice_index result k ≡ 1 }
{
    [1; 8]
}

// Offers a window's lines to a keeper.
fn offer_all<R: Threads + Wait + Sync, G: Gate>(
    rt: &R,
    alloc: Global,
    lines: Vec<LaneLine>,
    gate: &G,
    keeper: &mut Keeper,
) -> Result<(), NoMemory>
    requires { (0 < vec_len lines) × (vec_len lines ≤ 4096) }
{
    let first = all_ones();
    let id = Digest([0; 32]);
    let tools = Tools {
        rt,
        alloc,
        verifier: &TagScheme,
        gate,
    };
    run_lanes(&tools, lines, &first, &id, keeper)
}

/// What a taker that wants so many lines is offered of these. No window has more than 4,096.
fn offered<R: Threads + Wait + Sync, G: Gate>(
    rt: &R,
    alloc: Global,
    lines: Vec<LaneLine>,
    wanted: usize,
    gate: &G,
) -> Result<Vec<(u8, u64)>, NoMemory> {
    let mut keeper = Keeper {
        kept: Vec::new(alloc),
        wanted,
    };
    if lines.len() > 0 && lines.len() <= 4096 {
        offer_all(rt, alloc, lines, gate, &mut keeper)?;
    }
    Ok(keeper.kept)
}

/// So many rounds of a line of each of these lanes.
fn rounds(alloc: Global, lanes: &[&str], times: usize) -> Result<Vec<LaneLine>, NoMemory> {
    let mut lines = Vec::new(alloc);
    for _ in 0..times {
        for line in lanes {
            lines.push(LaneLine::of(Bytes::copy_of(alloc, line.as_bytes())?))?;
        }
    }
    Ok(lines)
}

// Lines of one lane and of several: all are offered, and nothing behind a stop.
#[test]
fn offers_what_is_wanted(rt: HostRuntime) -> Result<(), Fail> {
    let alloc = rt.alloc();
    let rows: [(&[&str], usize, usize); 4] = [
        (&["3 head"], 100, 10),
        (&["3 head"], 3, 3),
        (&["3 head", "7 x"], 100, 20),
        (&["3 head", "7 x"], 3, 3),
    ];
    for (lanes, wanted, count) in rows {
        let lines = rounds(alloc, lanes, 10)?;
        let offered = offered(&rt, alloc, lines, wanted, &OpenGate)?;
        assert_eq!(rt; offered.len(), count, "at {lanes:?}");
    }
    Ok(())
}
