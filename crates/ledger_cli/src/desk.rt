//! A committer with its disks, its sink, its notary and what follows it, which takes the lines of a piece.

ghost use Rattle.std.specs.Prelude.{◌≡◌, ◌≤◌, ◌<◌, ◌+◌, ◌^◌, ◌∷◌, ℕ, List, [], None, length, slice_index, vec_len, OnOk, IfErr, IfNone};
ghost use Rattle.lane_work.specs.Making.{lines_of};
ghost use Rattle.ledger_cli.specs.Desks.{at_desk, SameDesk, TakesLines, TakesWindow};
ghost use Rattle.ledger_cli.specs.Pieces.{IsOpen, Settled, Unsettled, TakesPiece};

use crate::follower::Follower;
use crate::piece::Piece;
use batch_committer::{CommitErr, Committer};
use lane_work::{Flow, Gate, LaneLine, Taker, Tools, prepare, run_lanes};
use ledger_book::Prepared;
use ledger_bytes::NoMemory;
use ledger_disk::Disk;
use ledger_io::Sink;
use member_book::Verifier;
use std::sync::Wait;
use std::thread::Threads;
use time_peg::Notary;

/// Each reference has a lifetime of its own, since each was handed in by itself.
pub(crate) struct Desk<'c, 'a, 'b, 's, 'n, 'w, D, K, N, W> {
    pub(crate) committer: &'c mut Committer,
    pub(crate) a: &'a mut D,
    pub(crate) b: &'b mut D,
    pub(crate) sink: &'s mut K,
    pub(crate) notary: &'n mut N,
    pub(crate) follower: &'w mut W,
    pub(crate) end: Option<CommitErr>,
}

impl<'c, 'a, 'b, 's, 'n, 'w, D, K, N, W> Drop for Desk<'c, 'a, 'b, 's, 'n, 'w, D, K, N, W> {
    fn drop(self)
        ensures committer { self.exit.0.now ≡ self.entry.committer.now }
        ensures a { self.exit.1.0.now ≡ self.entry.a.now }
        ensures b { self.exit.1.1.0.now ≡ self.entry.b.now }
        ensures sink { self.exit.1.1.1.0.now ≡ self.entry.sink.now }
        ensures notary { self.exit.1.1.1.1.0.now ≡ self.entry.notary.now }
        ensures follower { self.exit.1.1.1.1.1.0.now ≡ self.entry.follower.now }
    {
        let Desk {
            committer: _committer,
            a: _a,
            b: _b,
            sink: _sink,
            notary: _notary,
            follower: _follower,
            end: _end,
        } = self;
    }
}

impl<'c, 'a, 'b, 's, 'n, 'w, D: Disk, K: Sink, N: Notary, W: Follower> Taker
    for Desk<'c, 'a, 'b, 's, 'n, 'w, D, K, N, W> {
    ghost use Rattle.ledger_cli.specs.Desks.{at_desk, told_desk};
    ghost use Rattle.ledger_cli.specs.Pieces.{IsOpen, Answered};

    ghost ready = { λ s. IsOpen D.tells (at_desk D.state K.state N.state W.board s) };

    // A step from what all told to what they tell; the references stay those that were handed in.
    ghost offers = { λ s item flow t. Answered D.tells (told_desk D.state K.state N.state W.board s) item flow
        (told_desk D.state K.state N.state W.board t) };

    fn offer(&mut self, item: Prepared) -> Flow {
        match self
            .committer
            .offer(self.a, self.b, self.sink, self.notary, item)
        {
            Ok(()) => {
                self.follower.look(&self.committer.opened().book);
                Flow::GoOn
            }
            Err(end) => {
                self.end = Some(end);
                Flow::Stop
            }
        }
    }
}

impl<'c, 'a, 'b, 's, 'n, 'w, D: Disk, K: Sink, N: Notary, W: Follower> Desk<
    'c,
    'a,
    'b,
    's,
    'n,
    'w,
    D,
    K,
    N,
    W,
> {
    // Takes the lines of a piece, and answers the end that ended the run, where one did. `first` has each lane's next
    // number.
    fn run<R: Threads + Wait + Sync, V: Verifier, G: Gate>(
        &mut self,
        tools: &Tools<R, V, G>,
        lines: Vec<LaneLine>,
        first: &[u64; 8],
    ) -> Option<CommitErr>
        requires fresh { self.old.end ≡ None }
        requires open { IsOpen D.tells (at_desk D.state K.state N.state W.board self.old) }
        requires some { (0 < vec_len lines) × (vec_len lines ≤ 4096) }
        requires numbers { (k : ℕ) → k < 8
            → slice_index first.now k + length (lines_of k lines.items) < 2 ^ 64 }
        ensures fresh { IfNone result (self.new.end ≡ None) }
        ensures same { SameDesk W.board self.old self.new }
        ensures takes { TakesPiece (V.shows tools.now.verifier.now) D.tells first.now lines.items result
            (at_desk D.state K.state N.state W.board self.old) (at_desk D.state K.state N.state W.board self.new) }
    {
        let id = self.committer.id();
        match run_lanes(tools, lines, first, &id, self) {
            Ok(()) => self.end,
            Err(NoMemory) => Some(CommitErr::NoMemory),
        }
    }

    // Takes a line that is the only one of its piece, and has this number in its lane.
    fn take_line<R, V: Verifier, G: Gate>(
        &mut self,
        tools: &Tools<R, V, G>,
        said: LaneLine,
        index: u64,
    ) -> Result<(), CommitErr>
        requires { IsOpen D.tells (at_desk D.state K.state N.state W.board self.old) }
        ensures fresh { self.new.end ≡ self.old.end }
        ensures same { SameDesk W.board self.old self.new }
        ensures takes { (first : List ℕ) → slice_index first said.lane ≡ index
            → TakesLines (V.shows tools.now.verifier.now) D.tells first (said ∷ []) result
            (at_desk D.state K.state N.state W.board self.old) (at_desk D.state K.state N.state W.board self.new) }
    {
        let id = self.committer.id();
        let Ok(item) = prepare(
            tools.alloc,
            tools.verifier,
            &id,
            index,
            said.line.as_slice(),
        ) else {
            return Err(CommitErr::NoMemory);
        };
        tools.gate.pass(said.lane, index);
        match self
            .committer
            .offer(self.a, self.b, self.sink, self.notary, item)
        {
            Ok(()) => {
                self.follower.look(&self.committer.opened().book);
                Ok(())
            }
            Err(end) => Err(end),
        }
    }

    // Takes the lines of a piece. The next piece then begins. A line that is alone goes without what several need.
    fn take_lines<R: Threads + Wait + Sync, V: Verifier, G: Gate>(
        &mut self,
        tools: &Tools<R, V, G>,
        piece: &mut Piece,
    ) -> Result<(), CommitErr>
        requires fresh { self.old.end ≡ None }
        requires open { IsOpen D.tells (at_desk D.state K.state N.state W.board self.old) }
        requires few { vec_len piece.old.lines ≤ 4096 }
        requires numbers { (k : ℕ) → k < 8
            → slice_index piece.old.first k + length (lines_of k piece.old.lines.items) < 2 ^ 64 }
        ensures fresh { OnOk result (self.new.end ≡ None) }
        ensures same { SameDesk W.board self.old self.new }
        ensures takes { TakesLines (V.shows tools.now.verifier.now) D.tells piece.old.first piece.old.lines.items result
            (at_desk D.state K.state N.state W.board self.old) (at_desk D.state K.state N.state W.board self.new) }
        ensures none { piece.new.lines.items ≡ [] }
        ensures first { piece.new.first ≡ piece.old.next }
        ensures next { piece.new.next ≡ piece.old.next }
    {
        if let Some((said, index)) = piece.take_alone() {
            return self.take_line(tools, said, index);
        }
        let (lines, first) = piece.take();
        if lines.as_slice().is_empty() {
            return Ok(());
        }
        match self.run(tools, lines, &first) {
            None => Ok(()),
            Some(end) => Err(end),
        }
    }

    // Has the blocks that ended put on the disk and their replies written, where that is asked for.
    fn settle(&mut self, is_asked: bool) -> Result<(), CommitErr>
        requires { IsOpen D.tells (at_desk D.state K.state N.state W.board self.old) }
        ensures fresh { self.new.end ≡ self.old.end }
        ensures same { SameDesk W.board self.old self.new }
        ensures ok { OnOk result (Settled D.tells
            (at_desk D.state K.state N.state W.board self.old) (at_desk D.state K.state N.state W.board self.new)) }
        ensures err { IfErr result (λ end. Unsettled D.tells end
            (at_desk D.state K.state N.state W.board self.old) (at_desk D.state K.state N.state W.board self.new)) }
    {
        if !is_asked {
            return Ok(());
        }
        match self.committer.settle(self.a, self.b, self.sink) {
            Ok(()) => Ok(()),
            Err(end) => Err(end),
        }
    }

    /// Takes the lines of a piece, and where none is there behind them has the blocks that ended put on the disk and their replies
    /// written. The next piece then begins. Where what follows lacks memory, the run ends behind them.
    pub(crate) fn take_piece<R: Threads + Wait + Sync, V: Verifier, G: Gate>(
        &mut self,
        tools: &Tools<R, V, G>,
        piece: &mut Piece,
        is_last: bool,
    ) -> Result<(), CommitErr>
        requires fresh { self.old.end ≡ None }
        requires open { IsOpen D.tells (at_desk D.state K.state N.state W.board self.old) }
        requires few { vec_len piece.old.lines ≤ 4096 }
        requires numbers { (k : ℕ) → k < 8
            → slice_index piece.old.first k + length (lines_of k piece.old.lines.items) < 2 ^ 64 }
        ensures fresh { OnOk result (self.new.end ≡ None) }
        ensures same { SameDesk W.board self.old self.new }
        ensures takes { TakesLines (V.shows tools.now.verifier.now) D.tells piece.old.first piece.old.lines.items result
            (at_desk D.state K.state N.state W.board self.old) (at_desk D.state K.state N.state W.board self.new) }
        ensures none { piece.new.lines.items ≡ [] }
        ensures first { piece.new.first ≡ piece.old.next }
        ensures next { piece.new.next ≡ piece.old.next }
    {
        if let Err(end) = self.take_lines(tools, piece) {
            return Err(end);
        }
        if let Err(end) = self.settle(is_last) {
            return Err(end);
        }
        if self.follower.lacks() {
            return Err(CommitErr::NoMemory);
        }
        Ok(())
    }

    /// Takes the lines of a piece, with which its window ends, and ends the open block.
    pub(crate) fn end_window<R: Threads + Wait + Sync, V: Verifier, G: Gate>(
        &mut self,
        tools: &Tools<R, V, G>,
        piece: &mut Piece,
    ) -> Result<(), CommitErr>
        requires fresh { self.old.end ≡ None }
        requires open { IsOpen D.tells (at_desk D.state K.state N.state W.board self.old) }
        requires few { vec_len piece.old.lines ≤ 4096 }
        requires numbers { (k : ℕ) → k < 8
            → slice_index piece.old.first k + length (lines_of k piece.old.lines.items) < 2 ^ 64 }
        ensures fresh { OnOk result (self.new.end ≡ None) }
        ensures same { SameDesk W.board self.old self.new }
        ensures takes { TakesWindow (V.shows tools.now.verifier.now) D.tells
            piece.old.first piece.old.lines.items result
            (at_desk D.state K.state N.state W.board self.old) (at_desk D.state K.state N.state W.board self.new) }
        ensures none { piece.new.lines.items ≡ [] }
        ensures first { piece.new.first ≡ piece.old.next }
        ensures next { piece.new.next ≡ piece.old.next }
    {
        if let Err(end) = self.take_piece(tools, piece, false) {
            return Err(end);
        }
        if let Err(end) = self.committer.flush(self.a, self.b, self.sink) {
            return Err(end);
        }
        self.follower.look(&self.committer.opened().book);
        if self.follower.lacks() {
            return Err(CommitErr::NoMemory);
        }
        Ok(())
    }
}
