//! How a job is applied to a book: it is judged, and its journal is placed where it is accepted.

ghost use Rattle.std.specs.Prelude.{◌≡◌, ◌≤◌, ◌<◌, length, true, false, IfOk, OnOk, OnErr, Option, Some, None, All};
ghost use Rattle.ledger_bytes.specs.declared.limits.TheConstants.{APPROVAL_LIMIT, CONTENT_LIMIT, PROOF_LIMIT};
ghost use Rattle.journal_record.specs.declared.rules.TheConstants.{NOTARY_LIMIT};
ghost use Rattle.journal_record.specs.declared.stamp.Stamp.{Stamp as StampRecord};
ghost use Rattle.ledger_model.specs.Fitting.{fits_job};
ghost use Rattle.ledger_model.specs.History.{History};
ghost use Rattle.ledger_model.specs.Outcomes.{AsksFor};
ghost use Rattle.ledger_model.specs.Rules.{closes_after};
ghost use Rattle.ledger_model.specs.declared.job.Job.TheVariants as asked;
ghost use Rattle.ledger_model.specs.declared.outcome.Outcome.TheVariants.{Placed};
ghost use Rattle.ledger_book.specs.Books.{Serves};
ghost use Rattle.ledger_book.specs.Purges.{point_after};
ghost use Rattle.ledger_book.specs.Steps.{IsSame, IsAsBefore, IsLater, HasNumber, HasOperatorRoom, PlacesNothing, NeverReads, Applies, OpenGathers, Anchors};

use super::Book;
use crate::headers::{
    clue_occult_header, new_member_header, occult_header, placed_with, record_header, time_header,
};
use journal_record::{Approval, Stamp};
use ledger_bytes::{Bytes, Digest, NoMemory};
use ledger_model::{Job, Outcome, PlacedJournal};

impl Book {
    /// Judges a job, and places its journal in the open block where it is accepted. A refusal changes nothing; neither does
    /// a request that repeats a kept record's, which is told that record, nor an `Err`. The open block isn't ended by this:
    /// the caller ends it where it is full, before a job that asks for that, and behind one whose journal is a block of its
    /// own. An anchor that is accepted wants a stamp of the notary, with which [`Book::place_time`] places its journal.
    pub fn apply(&mut self, job: &Job) -> Result<Outcome, NoMemory>
        requires fits { fits_job job.now ≡ true }
        ensures ok { IfOk result (λ outcome. (h : History) → Serves self.old h
            → Applies self.old.limits None h job.now outcome self.new) }
        ensures number { IfOk result (HasNumber self.old self.new) }
        ensures gathers { OnOk result (closes_after job.now ≡ false → OpenGathers self.old
            → OpenGathers self.new) }
        ensures anchor { IfOk result (λ outcome. job.now ≡ asked.Anchor → Anchors self.old outcome) }
        ensures err { OnErr result (IsAsBefore self.old self.new) }
        ensures same { IsLater self.old self.new }
        ensures point { IfOk result (λ outcome. self.new.point ≡ point_after job.now outcome self.old.point) }
        ensures unchanged { IfOk result (λ outcome. PlacesNothing outcome → self.new ≡ self.old) }
        ensures asked { IfOk result (AsksFor job.now) }
    {
        match job {
            Job::Refused(refusal) => Ok(Outcome::Refused(*refusal)),
            Job::Append {
                member,
                clue,
                content,
                content_digest: digest,
                request,
                by,
                who,
                number,
            } => self.apply_record(*member, clue, content, digest, request, by, who, *number),
            Job::NewMember { number, key, by } => self.apply_member(*number, key, by),
            Job::Anchor => match self.hard_refusal() {
                Some(refusal) => Ok(Outcome::Refused(refusal)),
                None => Ok(Outcome::StampWanted),
            },
            Job::Occult {
                target,
                leaf,
                given,
            } => self.apply_occult(*target, leaf, given.as_slice()),
            Job::OccultClue { clue, count, given } => {
                self.apply_clue_occult(clue, *count, given.as_slice())
            }
            Job::Purge { point, root, given } => self.apply_purge(*point, root, given.as_slice()),
            Job::Ask(query) => match self.ask_refusal(query) {
                Some(refusal) => Ok(Outcome::Refused(refusal)),
                None => Ok(Outcome::Reading(*query)),
            },
        }
    }

    // Judges a member's record, and places it where it is accepted and repeats none.
    fn apply_record(
        &mut self,
        member: u32,
        clue: &Digest,
        content: &Bytes,
        content_digest: &Digest,
        request: &Digest,
        by: &Approval,
        who: &Digest,
        number: u64,
    ) -> Result<Outcome, NoMemory>
        requires { length content.now ≤ CONTENT_LIMIT }
        ensures ok { IfOk result (λ outcome. (stamp : Option StampRecord) (h : History)
            → Serves self.old h
            → Applies self.old.limits stamp h
            (asked.Append member clue.now content.now content_digest.now request.now by.now who.now number)
            outcome self.new) }
        ensures number { IfOk result (HasNumber self.old self.new) }
        ensures gathers { OnOk result (OpenGathers self.old → OpenGathers self.new) }
        ensures err { OnErr result (IsAsBefore self.old self.new) }
        ensures same { IsSame self.old self.new }
        ensures unchanged { IfOk result (λ outcome. PlacesNothing outcome → self.new ≡ self.old) }
        ensures places { IfOk result NeverReads }
    {
        let again = match self.judge_request(member, number, request, by) {
            Ok(again) => again,
            Err(refusal) => return Ok(Outcome::Refused(refusal)),
        };
        if let Some(jsn) = again {
            let leaf = self.leaf_of(jsn);
            return Ok(Outcome::Again { jsn, leaf });
        }
        let numbers = match self.judge_record(clue) {
            Ok(numbers) => numbers,
            Err(refusal) => return Ok(Outcome::Refused(refusal)),
        };
        let content_len = content.as_slice().len() as u32;
        let header = record_header(
            numbers,
            member,
            clue,
            content_len,
            content_digest,
            request,
            who,
            number,
        );
        let placed = placed_with(numbers.jsn, &header);
        self.place_record(&header, placed.leaf)?;
        Ok(Outcome::Placed(placed))
    }

    /// Places the time journal of an anchor that asked for this stamp, in the open block.
    pub fn place_time(&mut self, stamp: &Stamp) -> Result<PlacedJournal, NoMemory>
        requires stamp { stamp.now.index < NOTARY_LIMIT }
        requires room { HasOperatorRoom self.old }
        ensures ok { IfOk result (λ placed. (h : History) → Serves self.old h
            → Applies self.old.limits (Some stamp.now) h asked.Anchor (Placed placed) self.new) }
        ensures number { IfOk result (λ placed. HasNumber self.old self.new (Placed placed)) }
        ensures err { OnErr result (IsAsBefore self.old self.new) }
        ensures same { IsSame self.old self.new }
    {
        let jsn = self.size;
        let header = time_header(jsn, stamp);
        let placed = placed_with(jsn, &header);
        self.place_record(&header, placed.leaf)?;
        Ok(placed)
    }

    // Judges an occult, and places it where it is accepted.
    fn apply_occult(
        &mut self,
        target: u64,
        leaf: &Digest,
        given: &[Approval],
    ) -> Result<Outcome, NoMemory>
        requires count { length given.now ≤ APPROVAL_LIMIT }
        requires proofs { All (λ a. length a.proof ≤ PROOF_LIMIT) given.now }
        ensures ok { IfOk result (λ outcome. (stamp : Option StampRecord) (h : History)
            → Serves self.old h
            → Applies self.old.limits stamp h
            (asked.Occult target leaf.now given.now) outcome self.new) }
        ensures number { IfOk result (HasNumber self.old self.new) }
        ensures err { OnErr result (IsAsBefore self.old self.new) }
        ensures same { IsSame self.old self.new }
        ensures unchanged { IfOk result (λ outcome. PlacesNothing outcome → self.new ≡ self.old) }
        ensures places { IfOk result NeverReads }
    {
        if let Some(refusal) = self.occult_refusal(target, leaf, given) {
            return Ok(Outcome::Refused(refusal));
        }
        let jsn = self.size;
        let header = occult_header(jsn, target, leaf, given);
        let placed = placed_with(jsn, &header);
        self.place_record(&header, placed.leaf)?;
        Ok(Outcome::Placed(placed))
    }

    // Judges an occult by clue, and places it where it is accepted.
    fn apply_clue_occult(
        &mut self,
        clue: &Digest,
        count: u32,
        given: &[Approval],
    ) -> Result<Outcome, NoMemory>
        requires count { length given.now ≤ APPROVAL_LIMIT }
        requires proofs { All (λ a. length a.proof ≤ PROOF_LIMIT) given.now }
        ensures ok { IfOk result (λ outcome. (stamp : Option StampRecord) (h : History)
            → Serves self.old h
            → Applies self.old.limits stamp h
            (asked.OccultClue clue.now count given.now) outcome self.new) }
        ensures number { IfOk result (HasNumber self.old self.new) }
        ensures err { OnErr result (IsAsBefore self.old self.new) }
        ensures same { IsSame self.old self.new }
        ensures unchanged { IfOk result (λ outcome. PlacesNothing outcome → self.new ≡ self.old) }
        ensures places { IfOk result NeverReads }
    {
        if let Some(refusal) = self.clue_occult_refusal(clue, count, given)? {
            return Ok(Outcome::Refused(refusal));
        }
        let jsn = self.size;
        let header = clue_occult_header(jsn, clue, count, given);
        let placed = placed_with(jsn, &header);
        self.place_record(&header, placed.leaf)?;
        Ok(Outcome::Placed(placed))
    }

    // Judges a new member, and admits it where it is accepted.
    fn apply_member(
        &mut self,
        number: u32,
        key: &Digest,
        by: &Approval,
    ) -> Result<Outcome, NoMemory>
        requires { length by.now.proof ≤ PROOF_LIMIT }
        ensures ok { IfOk result (λ outcome. (stamp : Option StampRecord) (h : History)
            → Serves self.old h
            → Applies self.old.limits stamp h
            (asked.NewMember number key.now by.now) outcome self.new) }
        ensures number { IfOk result (HasNumber self.old self.new) }
        ensures gathers { OnOk result (OpenGathers self.old → OpenGathers self.new) }
        ensures err { OnErr result (IsAsBefore self.old self.new) }
        ensures same { IsSame self.old self.new }
        ensures unchanged { IfOk result (λ outcome. PlacesNothing outcome → self.new ≡ self.old) }
        ensures places { IfOk result NeverReads }
    {
        if let Some(refusal) = self.member_refusal(number, by) {
            return Ok(Outcome::Refused(refusal));
        }
        let jsn = self.size;
        let header = new_member_header(jsn, number, key, by);
        let placed = placed_with(jsn, &header);
        self.place_member(&header, placed.leaf)?;
        Ok(Outcome::Placed(placed))
    }
}
