//! A session, which answers the lines of a script on an open ledger.

ghost use Rattle.std.specs.Prelude.{◌≡◌, [], false, None, OnOk, IfErr};
ghost use Rattle.batch_committer.specs.World.{pair, world, Fits, HasRoom};
ghost use Rattle.ledger_io.specs.declared.ending.Ending.TheVariants as run;
ghost use Rattle.ledger_cli.specs.Boards.{HasFollowed, lasting_of};
ghost use Rattle.ledger_cli.specs.Desks.{at_desk, handed_at, SameDesk};
ghost use Rattle.ledger_cli.specs.Endings.{refusal_of};
ghost use Rattle.ledger_cli.specs.Pieces.{world_at, IsOpen};
ghost use Rattle.ledger_cli.specs.Runs.{handed, Anything, Runs};
ghost use Rattle.ledger_cli.specs.declared.ending.LedgerEnding.TheVariants as ending;

use crate::desk::Desk;
use crate::ending::LedgerEnding;
use crate::follower::{Follower, Nobody};
use crate::piece::Piece;
use crate::window::Window;
use batch_committer::Committer;
use lane_work::{Gate, Tools};
use ledger_disk::Disk;
use ledger_io::{Ending, LineErr, Lines, Sink, Source};
use member_book::Verifier;
use std::sync::Wait;
use std::thread::Threads;
use time_peg::Notary;

// Whether a piece is taken before its window ends: no further line was read. Where lines of several lanes come, more is read
// at once from then on, so that each worker has its share.
fn is_due(piece: &Piece, lines: &mut Lines) -> bool
    ensures { lines.new ≡ lines.old }
{
    if piece.is_mixed() {
        lines.widen();
    }
    !lines.holds_line()
}

/// Answers the lines of a script on a ledger, one after the other, until it ends or a fault ends it. Journals gather in
/// blocks, and a receipt is written once its block is on the disk for good; other replies are written with it, in the
/// order in which the lines are taken: each lane's lines in theirs. Lines that the source has given are taken together,
/// each lane's prepared in a thread of its own, but where one lane has a few; none waits for one that the source hasn't
/// given. That lines are answered
/// before a window ends, that replies don't wait for a block that holds nothing, that the gate is passed and that workers run
/// side by side is in no clause: tests show it.
pub fn run_session<
    R: Threads + Wait + Sync,
    S: Source,
    K: Sink,
    D: Disk,
    N: Notary,
    V: Verifier,
    G: Gate,
>(
    tools: &Tools<R, V, G>,
    committer: &mut Committer,
    a: &mut D,
    b: &mut D,
    source: &mut S,
    sink: &mut K,
    notary: &mut N,
) -> LedgerEnding
    requires open { committer.old.ended ≡ false }
    requires fits { Fits D.tells (world committer.old.kept (pair (D.state a.old) (D.state b.old))
        (K.state sink.old)) }
    requires room { HasRoom committer.old.kept }
    requires none { committer.old.kept.dues ≡ [] }
    ensures ran { Runs (V.shows tools.now.verifier.now) D.tells (world committer.old.kept
        (pair (D.state a.old) (D.state b.old)) (K.state sink.old)) Anything result
        (handed (S.state source.old) (K.state sink.old) (pair (D.state a.old) (D.state b.old)) (N.state notary.old))
        (handed (S.state source.new) (K.state sink.new) (pair (D.state a.new) (D.state b.new)) (N.state notary.new)) }
    ensures unrefused { refusal_of result ≡ None }
{
    let mut nobody = Nobody;
    follow_session(tools, committer, a, b, source, sink, notary, &mut nobody)
}

/// Answers the lines of a script on a ledger, as [`run_session`] does, and lets a follower look whenever something was placed.
/// Where the follower lacks memory the session ends for want of it.
pub(crate) fn follow_session<
    R: Threads + Wait + Sync,
    S: Source,
    K: Sink,
    D: Disk,
    N: Notary,
    V: Verifier,
    G: Gate,
    W: Follower,
>(
    tools: &Tools<R, V, G>,
    committer: &mut Committer,
    a: &mut D,
    b: &mut D,
    source: &mut S,
    sink: &mut K,
    notary: &mut N,
    follower: &mut W,
) -> LedgerEnding
    requires open { committer.old.ended ≡ false }
    requires fits { Fits D.tells (world committer.old.kept (pair (D.state a.old) (D.state b.old))
        (K.state sink.old)) }
    requires room { HasRoom committer.old.kept }
    requires none { committer.old.kept.dues ≡ [] }
    ensures ran { Runs (V.shows tools.now.verifier.now) D.tells (world committer.old.kept
        (pair (D.state a.old) (D.state b.old)) (K.state sink.old))
        (HasFollowed (W.board follower.old) (W.board follower.new)) result
        (handed (S.state source.old) (K.state sink.old) (pair (D.state a.old) (D.state b.old)) (N.state notary.old))
        (handed (S.state source.new) (K.state sink.new) (pair (D.state a.new) (D.state b.new)) (N.state notary.new)) }
    ensures unrefused { refusal_of result ≡ None }
    ensures same { lasting_of (W.board follower.new) ≡ lasting_of (W.board follower.old) }
{
    let mut desk = Desk {
        committer,
        a,
        b,
        sink,
        notary,
        follower,
        end: None,
    };
    match answer_lines(&mut desk, tools, source) {
        Ok(()) => LedgerEnding::Run(Ending::Done),
        Err(ending) => ending,
    }
}

// An error is the ending that it brings. Lines that were whole before a fault of reading are answered, as the last
// window; where memory is missing nothing more is.
fn answer_lines<
    'c,
    'a,
    'b,
    's,
    'n,
    'w,
    R: Threads + Wait + Sync,
    S: Source,
    K: Sink,
    D: Disk,
    N: Notary,
    V: Verifier,
    G: Gate,
    W: Follower,
>(
    desk: &mut Desk<'c, 'a, 'b, 's, 'n, 'w, D, K, N, W>,
    tools: &Tools<R, V, G>,
    source: &mut S,
) -> Result<(), LedgerEnding>
    requires fresh { desk.old.end ≡ None }
    requires open { IsOpen D.tells (at_desk D.state K.state N.state W.board desk.old) }
    requires none { desk.old.committer.now.kept.dues ≡ [] }
    ensures same { SameDesk W.board desk.old desk.new }
    ensures done { OnOk result (Runs (V.shows tools.now.verifier.now) D.tells
        (world_at (at_desk D.state K.state N.state W.board desk.old))
        (HasFollowed (W.board desk.old.follower.now) (W.board desk.new.follower.now)) (ending.Run run.Done)
        (handed_at (S.state source.old) (at_desk D.state K.state N.state W.board desk.old))
        (handed_at (S.state source.new) (at_desk D.state K.state N.state W.board desk.new))) }
    ensures ended { IfErr result (λ e. Runs (V.shows tools.now.verifier.now) D.tells
        (world_at (at_desk D.state K.state N.state W.board desk.old))
        (HasFollowed (W.board desk.old.follower.now) (W.board desk.new.follower.now)) e
        (handed_at (S.state source.old) (at_desk D.state K.state N.state W.board desk.old))
        (handed_at (S.state source.new) (at_desk D.state K.state N.state W.board desk.new))) }
    ensures unrefused { IfErr result (λ e. refusal_of e ≡ None) }
{
    let mut lines = Lines::new(tools.alloc);
    let mut window = Window::new();
    let mut piece = Piece::new(tools.alloc);
    loop {
        let line = match lines.next(source) {
            Ok(Some(line)) => line,
            Ok(None) => {
                desk.end_window(tools, &mut piece)?;
                return Ok(());
            }
            Err(error) => {
                if let LineErr::NoMemory = error {
                    return Err(LedgerEnding::Run(Ending::NoMemory));
                }
                desk.end_window(tools, &mut piece)?;
                return Err(LedgerEnding::Run(Ending::from(error)));
            }
        };
        let full = window.add(line.as_slice().len());
        let Ok(()) = piece.add(line) else {
            return Err(LedgerEnding::Run(Ending::NoMemory));
        };
        if full {
            lines.widen();
            desk.end_window(tools, &mut piece)?;
        } else if is_due(&piece, &mut lines) {
            desk.take_piece(tools, &mut piece, !lines.holds_line())?;
        }
    }
}
