//! Reading a source from its front, as many bytes at a time as are asked for.

ghost use Rattle.std.specs.Prelude.{◌≡◌, ◌<◌, ◌≤◌, ◌^◌, ◌-◌, ◌⊎◌, ℕ, List, [], length, drop, false, true, IfOk, IfErr, OnOk};
ghost use Rattle.ledger_io.specs.Lines.{script_limit};
ghost use Rattle.ledger_io.specs.Windows.{HasSeen, HasEnough, IsPieceErr};

use crate::buffer::Buffer;
use crate::reader::SCRIPT_LIMIT;
use crate::{LineErr, Source};
use std::alloc::Global;
use std::marker::Model;

// The most bytes of one read.
const PIECE: u64 = 65_536;

/// A window on the next bytes of a source, which is read from its front. It holds as many as were asked for, as far as the source
/// has them, and at most a piece of 64 KiB more.
#[derive(Drop)]
pub struct Window {
    buffer: Buffer,
    total: u64,
    ended: bool,
}

impl Model for Window {
    ghost use Rattle.std.specs.Prelude.{◌≤◌, length};
    ghost use Rattle.ledger_io.specs.Lines.{script_limit};
    ghost use Rattle.ledger_io.specs.Windows.{Seen};

    ghost Value = { Seen };

    ghost view = { λ w. record { held = w.buffer; total = w.total; ended = w.ended } };

    ghost invariant = { λ w. (length w.buffer ≤ w.total) × (w.total ≤ script_limit) };
}

impl Window {
    pub fn new(alloc: Global) -> Self
        ensures { result ≡ record { held = []; total = 0; ended = false } }
    {
        Window {
            buffer: Buffer::new(alloc),
            total: 0,
            ended: false,
        }
    }

    /// The bytes that are held.
    pub fn as_slice(&self) -> &[u8]
        ensures { result.now ≡ self.now.held }
    {
        self.buffer.as_slice()
    }

    /// Where the first byte that is held stands in the input, or where the next one will.
    pub fn place(&self) -> u64
        ensures { result ≡ self.now.total - length self.now.held }
    {
        self.total - self.buffer.as_slice().len() as u64
    }

    /// Gives bytes away from the front.
    pub fn consume(&mut self, count: usize)
        requires { count ≤ length self.old.held }
        ensures { self.new ≡ record self.old { held = drop count self.old.held } }
    {
        self.buffer.consume(count);
    }

    /// Reads on until so many bytes are held, or the source ends.
    pub fn fill<S: Source>(&mut self, source: &mut S, want: usize) -> Result<(), LineErr>
        ensures seen { (bytes : List ℕ)
            × HasSeen (S.state source.old) (S.state source.new) self.old self.new bytes }
        ensures enough { HasEnough (S.state source.old) (S.state source.new) want self.new result }
    {
        let _total = self.total;
        while self.as_slice().len() < want && !self.ended {
            if self.total == SCRIPT_LIMIT {
                return Err(LineErr::ScriptTooLong);
            }
            if let Err(e) = self.read_piece(source) {
                return Err(e);
            }
        }
        Ok(())
    }

    // Reads a piece in one call, and notes the end where it comes.
    fn read_piece<S: Source>(&mut self, source: &mut S) -> Result<(), LineErr>
        requires unended { self.old.ended ≡ false }
        requires short { self.old.total < script_limit }
        ensures seen { (bytes : List ℕ)
            × HasSeen (S.state source.old) (S.state source.new) self.old self.new bytes }
        ensures nearer { IfOk result (λ done. (self.new.ended ≡ true)
            ⊎ (script_limit - self.new.total < script_limit - self.old.total)) }
        ensures counts { OnOk result ((S.state source.new).faults ≡ (S.state source.old).faults) }
        ensures errors { IfErr result (IsPieceErr (S.state source.old) (S.state source.new)) }
    {
        let most = PIECE.min(SCRIPT_LIMIT - self.total) as usize;
        let count = self.buffer.fetch(source, most)?;
        self.total += count as u64;
        self.ended = count == 0;
        Ok(())
    }
}
