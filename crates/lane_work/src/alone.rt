//! A few lines of one lane, which need no worker.
ghost use Rattle.std.specs.Prelude.{◌≡◌, ◌+◌, ◌^◌, ◌<◌, All, IfSome, OnErr, OnOk, vec_len};
ghost use Rattle.lane_work.specs.Offering.{OffersLine, RanAlone, LackedAlone};

use crate::gate::Gate;
use crate::kinds::LaneLine;
use crate::preparing::prepare_behind;
use crate::taker::{Flow, Taker};
use crate::tools::Tools;
use ledger_bytes::{Digest, NoMemory};
use member_book::Verifier;

/// From so many lines on a lane that comes by itself is worth a thread, which prepares them while the taker takes.
const MANY: usize = 128;

/// The lane of all lines, where they belong to one and are few.
pub(crate) fn only_lane(lines: &[LaneLine]) -> Option<u8>
    ensures low { IfSome result (λ lane. lane < 8) }
    ensures all { IfSome result (λ lane. All (λ l. l.lane ≡ lane) lines.now) }
{
    if lines.len() >= MANY {
        return None;
    }
    let first = lines.first()?;
    for line in lines {
        if line.lane != first.lane {
            return None;
        }
    }
    Some(first.lane)
}

/// Prepares lines of one lane and offers them, one after the other. `start` is the first one's number.
pub(crate) fn run_alone<R, V: Verifier, G: Gate, T: Taker>(
    tools: &Tools<R, V, G>,
    lines: Vec<LaneLine>,
    start: u64,
    id: &Digest,
    taker: &mut T,
) -> Result<(), NoMemory>
    requires numbers { start + vec_len lines < 2 ^ 64 }
    requires ready { T.ready taker.old }
    ensures ok { OnOk result (RanAlone
        (OffersLine (V.shows tools.now.verifier.now) id.now.0 T.offers) start lines.items taker.old taker.new) }
    ensures err { OnErr result (LackedAlone
        (OffersLine (V.shows tools.now.verifier.now) id.now.0 T.offers) start lines.items taker.old taker.new) }
{
    let mut index = start;
    let mut front = None;
    for said in lines {
        let line = said.line.as_slice();
        let Ok(item) = prepare_behind(tools.alloc, tools.verifier, &mut front, id, index, line)
        else {
            return Err(NoMemory);
        };
        tools.gate.pass(said.lane, index);
        match taker.offer(item) {
            Flow::GoOn => {}
            Flow::Stop => return Ok(()),
        }
        index += 1;
    }
    Ok(())
}
