//! Reading the fields of a line, one after the other.

ghost use Rattle.std.specs.Prelude.{◌≡◌, ◌≤◌, length, All, Ok, Err, IfErr, IfOk, MatchResult};
ghost use Rattle.ledger_bytes.specs.declared.limits.TheConstants.{APPROVAL_LIMIT, NAME_LIMIT, PROOF_LIMIT};
ghost use Rattle.script_lines.specs.Fields.{fields_of, behind, field_at, optional_at, end_at, taken_field};
ghost use Rattle.script_lines.specs.Reading.{IsStopAt, TakesFields};
ghost use Rattle.script_lines.specs.Spellings.{text_of, number_of, request_number_of, count_of, bytes_of, digest_of, clue_of, which_of, approvals_of, mark_of};

use crate::said::{SaidApproval, Which};
use crate::spellings::{
    read_approvals, read_bytes, read_clue, read_count, read_digest, read_mark, read_number,
    read_request_number, read_which,
};
use crate::splits::cut;
use crate::stop::Stop;
use ledger_bytes::{Bytes, Digest, Items, Refusal, TimeMark};
use std::alloc::Global;
use std::marker::Model;

/// The fields of a line that are still to be read, which stand around single spaces. A contract sees them as a list,
/// with the column of the first; columns count from 1. They are cut off one at a time.
///
/// Each reader reads the first field and goes on behind it. It answers `BadField` with that field's column exactly
/// where the field is missing or isn't of the reader's form; the number of a request may be missing.
#[derive(Drop)]
pub struct Fields<'a> {
    column: u32,
    left: Option<&'a [u8]>,
}

impl<'a> Model for Fields<'a> {
    ghost use Rattle.std.specs.Prelude.{option_map};
    ghost use Rattle.script_lines.specs.Fields.{UnreadFields};
    ghost use Rattle.script_lines.specs.Parts.{parts_left};

    ghost Value = { UnreadFields };

    ghost view = { λ f. record {
      column = f.column;
      fields = parts_left 32 (option_map (λ t. t.now) f.left);
    } };
}

impl<'a> Fields<'a> {
    /// All fields of a line.
    pub fn of(line: &'a [u8]) -> Self
        ensures { result ≡ fields_of line.now }
    {
        Fields {
            column: 1,
            left: Some(line),
        }
    }

    /// The column of the field that is read next.
    pub fn column(&self) -> u32
        ensures { result ≡ self.now.column }
    {
        self.column
    }

    /// The field, whatever stands in it.
    pub fn text(&mut self) -> Result<&'a [u8], Refusal>
        ensures takes { MatchResult result (λ text. field_at text_of self.old
            ≡ Ok (text.now, self.new))
            (λ refusal. field_at text_of self.old ≡ Err refusal) }
        ensures goes_on { self.new ≡ behind self.old }
        ensures refused { IfErr result (λ refusal. refusal ≡ Refusal.BadField self.old.column) }
    {
        let Some(left) = self.left else {
            return Err(bad_field(self.column));
        };
        let (field, rest) = cut(left, b' ');
        self.column = self.column.saturating_add(1);
        self.left = rest;
        Ok(field)
    }

    /// A decimal number without a leading zero, at most `most`.
    pub fn number(&mut self, most: u64) -> Result<u64, Refusal>
        ensures takes { field_at (number_of most) self.old ≡ taken_field result self.new }
        ensures goes_on { self.new ≡ behind self.old }
        ensures refused { IfErr result (λ refusal. refusal ≡ Refusal.BadField self.old.column) }
        ensures high { IfOk result (λ number. number ≤ most) }
    {
        let column = self.column();
        read_number(self.text()?, most).ok_or(bad_field(column))
    }

    /// The number of a request, from 1 to 2^64 - 1 without a leading zero, as a field that may be missing: 0 where no
    /// field is left.
    pub fn request_number(&mut self) -> Result<u64, Refusal>
        ensures takes { optional_at request_number_of 0 self.old ≡ taken_field result self.new }
        ensures goes_on { self.new ≡ behind self.old }
        ensures refused { IfErr result (λ refusal. refusal ≡ Refusal.BadField self.old.column) }
    {
        let column = self.column();
        match self.text() {
            Ok(text) => read_request_number(text).ok_or(bad_field(column)),
            Err(_) => Ok(0),
        }
    }

    /// How many records a clue has, from 1 to 2^32 - 1 without a leading zero.
    pub fn count(&mut self) -> Result<u32, Refusal>
        ensures takes { field_at count_of self.old ≡ taken_field result self.new }
        ensures goes_on { self.new ≡ behind self.old }
        ensures refused { IfErr result (λ refusal. refusal ≡ Refusal.BadField self.old.column) }
    {
        let column = self.column();
        read_count(self.text()?).ok_or(bad_field(column))
    }

    /// 64 hexadecimal digits of either case.
    pub fn digest(&mut self) -> Result<Digest, Refusal>
        ensures takes { field_at digest_of self.old ≡ taken_field result self.new }
        ensures goes_on { self.new ≡ behind self.old }
        ensures refused { IfErr result (λ refusal. refusal ≡ Refusal.BadField self.old.column) }
    {
        let column = self.column();
        read_digest(self.text()?).ok_or(bad_field(column))
    }

    /// No bytes as `-`, or 1 to `most` bytes as two hexadecimal digits each, of either case.
    pub fn bytes(&mut self, alloc: Global, most: usize) -> Result<Bytes, Stop>
        ensures takes { TakesFields self.new result (field_at (bytes_of most) self.old) }
        ensures goes_on { self.new ≡ behind self.old }
        ensures refused { IfErr result (IsStopAt self.old.column) }
        ensures long { IfOk result (λ bytes. length bytes ≤ most) }
    {
        let column = self.column();
        let text = self.text()?;
        match read_bytes(alloc, text, most)? {
            Some(bytes) => Ok(bytes),
            None => Err(Stop::Refused(bad_field(column))),
        }
    }

    /// No clue as `-`, or a clue's name of 1 to 64 bytes. No clue is the empty name.
    pub fn clue(&mut self, alloc: Global) -> Result<Bytes, Stop>
        ensures takes { TakesFields self.new result (field_at clue_of self.old) }
        ensures goes_on { self.new ≡ behind self.old }
        ensures refused { IfErr result (IsStopAt self.old.column) }
        ensures long { IfOk result (λ name. length name ≤ NAME_LIMIT) }
    {
        let column = self.column();
        match read_clue(self.text()?) {
            Some(name) => Ok(Bytes::copy_of(alloc, name)?),
            None => Err(Stop::Refused(bad_field(column))),
        }
    }

    /// `ledger` or `notary`.
    pub fn which(&mut self) -> Result<Which, Refusal>
        ensures takes { field_at which_of self.old ≡ taken_field result self.new }
        ensures goes_on { self.new ≡ behind self.old }
        ensures refused { IfErr result (λ refusal. refusal ≡ Refusal.BadField self.old.column) }
    {
        let column = self.column();
        read_which(self.text()?).ok_or(bad_field(column))
    }

    /// No approvals as `-`, or 1 to 256 of them as `MEMBER:PROOF` with commas between. A proof is no bytes as `-`, or 1
    /// to 4,096 bytes as hexadecimal digits.
    pub fn approvals(&mut self, alloc: Global) -> Result<Items<SaidApproval>, Stop>
        ensures takes { TakesFields self.new result (field_at approvals_of self.old) }
        ensures goes_on { self.new ≡ behind self.old }
        ensures refused { IfErr result (IsStopAt self.old.column) }
        ensures few { IfOk result (λ given. length given ≤ APPROVAL_LIMIT) }
        ensures long { IfOk result (All (λ approval. length approval.proof ≤ PROOF_LIMIT)) }
    {
        let column = self.column();
        let text = self.text()?;
        match read_approvals(alloc, text)? {
            Some(given) => Ok(given),
            None => Err(Stop::Refused(bad_field(column))),
        }
    }

    /// No time mark as `-`, or one as `JSN:INDEX:TIME`: a journal's number, a notary's index and its time.
    pub fn mark(&mut self) -> Result<Option<TimeMark>, Refusal>
        ensures takes { field_at mark_of self.old ≡ taken_field result self.new }
        ensures goes_on { self.new ≡ behind self.old }
        ensures refused { IfErr result (λ refusal. refusal ≡ Refusal.BadField self.old.column) }
    {
        let column = self.column();
        read_mark(self.text()?).ok_or(bad_field(column))
    }

    /// No field is left. A further one is refused with its column.
    pub fn end(self) -> Result<(), Refusal>
        ensures ends { result ≡ end_at self.entry }
        ensures refused { IfErr result (λ refusal. refusal ≡ Refusal.BadField self.entry.column) }
    {
        match self.left {
            None => Ok(()),
            Some(_) => Err(bad_field(self.column)),
        }
    }
}

fn bad_field(column: u32) -> Refusal
    ensures { result ≡ Refusal.BadField column }
{
    Refusal::BadField { column }
}
