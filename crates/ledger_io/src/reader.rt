//! Reading the lines of a source, one after the other.

ghost use Rattle.std.specs.Prelude.{◌≡◌, ℕ, ◌<◌, ◌≤◌, List, [], false, None, IsTrue, ◌↔◌, MatchOption};
ghost use Rattle.ledger_io.specs.Lines.{script_limit, IsUnbroken, IsLine, BreaksAt, HoldsLine};
ghost use Rattle.ledger_io.specs.Reading.{ReadsBytes, Gives, faults_next};
ghost use Rattle.ledger_io.specs.Steps.{reading_after, HasRead, Fetched, TakesLine, TakesRest};

use crate::buffer::Buffer;
use crate::{LineErr, Source};
use ledger_bytes::Bytes;
use memchr::memchr;
use std::alloc::Global;
use std::marker::Model;

/// The most bytes that a line has, without its newline.
pub const LINE_LIMIT: usize = 4_194_304;

/// A script has fewer bytes than this.
pub const SCRIPT_LIMIT: u64 = 1_099_511_627_776;

// The most bytes of one read, and of one where more is wanted.
const PIECE: u64 = 65_536;

const WIDE_PIECE: u64 = 1_048_576;

/// Reads lines. It keeps what it read and didn't give yet, which is at most a line and a piece of 64 KiB, or of 1 MiB.
#[derive(Drop)]
pub struct Lines {
    alloc: Global,
    buffer: Buffer,
    looked: usize,
    /// The most bytes of the next read.
    piece: u64,
    total: u64,
    ended: bool,
    failed: Option<LineErr>,
    ghost some: { 0 < piece },
}

impl Model for Lines {
    ghost use Rattle.ledger_io.specs.Reading.{Reading};
    ghost use Rattle.ledger_io.specs.Steps.{IsSoundReader};

    ghost Value = { Reading };

    ghost view = { λ l. record {
      held = l.buffer;
      total = l.total;
      ended = l.ended;
      failed = l.failed;
    } };

    ghost invariant = { λ l. IsSoundReader l.buffer l.looked l.total l.ended };
}

impl Lines {
    pub fn new(alloc: Global) -> Self
        ensures { result ≡ record { held = []; total = 0; ended = false; failed = None } }
    {
        Lines {
            alloc,
            buffer: Buffer::new(alloc),
            looked: 0,
            piece: PIECE,
            total: 0,
            ended: false,
            failed: None,
        }
    }

    /// Reads up to 1 MiB at once from now on, and not 64 KiB: for lines that are taken together.
    pub fn widen(&mut self)
        ensures { self.new ≡ self.old }
    {
        self.piece = WIDE_PIECE;
    }

    /// The next line, without its newline, or the rest after the last newline where that isn't empty. A carriage
    /// return stays where it is. Once there is no further line, or after an error, it reads nothing more and each
    /// call answers the same. Lines that a newline ended before a fault come before the error.
    pub fn next<S: Source>(&mut self, source: &mut S) -> Result<Option<Bytes>, LineErr>
        ensures gives { (bytes : List ℕ)
            × ReadsBytes (S.state source.old) (S.state source.new) self.old self.new bytes
            × Gives (S.state source.old) (S.state source.new) self.old self.new bytes result }
        // The source failed once where that is answered for the first time, and else not at all.
        ensures counts { (S.state source.new).faults
            ≡ faults_next result self.old.failed (S.state source.old).faults }
    {
        if let Some(error) = self.failed {
            return Err(error);
        }
        if self.ended {
            return Ok(None);
        }
        let result = self.read_line(source);
        if let Err(error) = &result {
            self.failed = Some(*error);
        }
        result
    }

    /// Whether a whole line was read already, which the next call gives without reading more. What it searched for a
    /// newline isn't searched again.
    pub fn holds_line(&mut self) -> bool
        ensures held { HoldsLine self.old.held result }
        ensures same { self.new ≡ self.old }
    {
        self.find_newline().is_some()
    }

    // Reads until a newline or the end. What it answers stands once its error is noted.
    fn read_line<S: Source>(&mut self, source: &mut S) -> Result<Option<Bytes>, LineErr>
        requires unended { self.old.ended ≡ false }
        requires sound { self.old.failed ≡ None }
        requires bounded { self.old.total ≤ script_limit }
        ensures gives { (bytes : List ℕ)
            × ReadsBytes (S.state source.old) (S.state source.new) self.old self.new bytes
            × Gives (S.state source.old) (S.state source.new) self.old
            (reading_after self.new result) bytes result }
        ensures counts { (S.state source.new).faults
            ≡ faults_next result None (S.state source.old).faults }
    {
        loop {
            match self.take_line() {
                Ok(None) => {}
                Ok(Some(line)) => return Ok(Some(line)),
                Err(error) => return Err(error),
            }
            if self.is_full() {
                return Err(LineErr::ScriptTooLong);
            }
            match self.fill(source) {
                Ok(0) => return self.take_rest(),
                Ok(_) => {}
                Err(fault) => return Err(fault),
            }
        }
    }

    fn is_full(&self) -> bool
        ensures { IsTrue result ↔ (self.now.total ≡ script_limit) }
    {
        self.total == SCRIPT_LIMIT
    }

    // Where the first newline of the held bytes is.
    fn find_newline(&mut self) -> Option<usize>
        ensures found { MatchOption result (IsUnbroken self.old.held) (BreaksAt self.old.held) }
        ensures same { self.new ≡ self.old }
    {
        let looked = self.looked;
        match newline_in(self.buffer.as_slice().split_at(looked).1) {
            Some(at) => {
                self.looked = looked + at;
                Some(looked + at)
            }
            None => {
                self.looked = self.buffer.as_slice().len();
                None
            }
        }
    }

    fn take_line(&mut self) -> Result<Option<Bytes>, LineErr>
        ensures { TakesLine self.old self.new result }
    {
        match self.find_newline() {
            Some(at) => self.cut_line(at),
            None => {
                if self.buffer.as_slice().len() > LINE_LIMIT {
                    return Err(LineErr::LineTooLong);
                }
                Ok(None)
            }
        }
    }

    // Takes the line that a newline ends at `end`.
    fn cut_line(&mut self, end: usize) -> Result<Option<Bytes>, LineErr>
        requires { BreaksAt self.old.held end }
        ensures { TakesLine self.old self.new result }
    {
        if end > LINE_LIMIT {
            return Err(LineErr::LineTooLong);
        }
        let line = Bytes::copy_of(self.alloc, self.buffer.as_slice().split_at(end).0)?;
        self.buffer.consume(end + 1);
        self.looked = 0;
        Ok(Some(line))
    }

    fn fill<S: Source>(&mut self, source: &mut S) -> Result<usize, LineErr>
        requires short { self.old.total < script_limit }
        requires unended { self.old.ended ≡ false }
        ensures fills { (bytes : List ℕ) × (most : ℕ)
            × HasRead (S.state source.old) (S.state source.new) self.old self.new bytes
            × (0 < most)
            × Fetched (S.state source.old) (S.state source.new) most bytes result }
        ensures counts { (S.state source.new).faults
            ≡ faults_next result None (S.state source.old).faults }
    {
        let most = self.piece.min(SCRIPT_LIMIT - self.total) as usize;
        let count = self.buffer.fetch(source, most)?;
        self.total += count as u64;
        Ok(count)
    }

    // Takes what is held, at the end of the source.
    fn take_rest(&mut self) -> Result<Option<Bytes>, LineErr>
        requires line { IsLine self.old.held }
        requires short { self.old.total < script_limit }
        ensures { TakesRest self.old self.new result }
    {
        let rest = self.buffer.as_slice();
        if rest.is_empty() {
            self.ended = true;
            return Ok(None);
        }
        let line = Bytes::copy_of(self.alloc, rest)?;
        self.buffer.consume(line.as_slice().len());
        self.looked = 0;
        self.ended = true;
        Ok(Some(line))
    }
}

// Where the first newline is.
fn newline_in(bytes: &[u8]) -> Option<usize>
    ensures { MatchOption result (IsUnbroken bytes.now) (BreaksAt bytes.now) }
{
    memchr(b'\n', bytes)
}
