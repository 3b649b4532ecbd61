//! Why a record, a new member, an anchor or an occult of either kind is refused.

ghost use Rattle.std.specs.Prelude.{◌≡◌, ◌-◌, ◌<◌, ◌≤◌, ◌^◌, ◌↔◌, List, [], ◌∷◌, length, IsTrue, IfErr, IfNone, IfOk, IfSome, OnOk, Option, None, Some};
ghost use Rattle.ledger_bytes.specs.declared.limits.TheConstants.{MEMBER_LIMIT};
ghost use Rattle.std.specs.Option.{is_none};
ghost use Rattle.clue_index.specs.Added.{Added};
ghost use Rattle.clue_index.specs.Index as index;
ghost use Rattle.journal_record.specs.Entry.{Entry};
ghost use Rattle.journal_record.specs.Members.{keys};
ghost use Rattle.ledger_bytes.specs.Digests.{digest};
ghost use Rattle.ledger_bytes.specs.declared.digest.Digest.{Digest as DigestRecord};
ghost use Rattle.ledger_model.specs.Clues.{next_ordinal, last_journal};
ghost use Rattle.ledger_model.specs.History as model;
ghost use Rattle.ledger_model.specs.History.{History, history};
ghost use Rattle.ledger_model.specs.Numbers.{repeated, link_at};
ghost use Rattle.ledger_model.specs.Targets.{hider, leaf_at};
ghost use Rattle.pseudo_genesis.specs.declared.base.Base.{Base};
ghost use Rattle.ledger_model.specs.Behind.{HasRoomFor, first_of, ordinal_in};
ghost use Rattle.ledger_model.specs.Judgements.{fullness, hard_fullness, unknown_in, wrong_key_in, clues_full, member_judgements, occult_judgements, clue_occult_judgements};
ghost use Rattle.member_book.specs.Erasures.{first_refusal};
ghost use Rattle.ledger_model.specs.Limits.{AreWithin, real_limits};
ghost use Rattle.ledger_book.specs.Books.{Stands, Serves};
ghost use Rattle.ledger_book.specs.Facts.{AreFacts, AreFactsBehind, AreClueFacts, AreClueFactsBehind, kind_in};
ghost use Rattle.ledger_book.specs.Hiders.{hider_in};
ghost use Rattle.ledger_book.specs.Numbered.{told_number};
ghost use Rattle.ledger_book.specs.Requests.{request_judgements, room_judgements};
ghost use Rattle.ledger_book.specs.Reading.{StandsBehind};
ghost use Rattle.ledger_book.specs.Steps.{HasOperatorRoom};

use super::Book;
use crate::headers::Numbers;
use crate::hiders::hider_at;
use erase_rules::{ClueFacts, OccultFacts, judge_clue_occult, judge_occult};
use journal_record::{Approval, Kind};
use ledger_bytes::{Digest, NoMemory, Refusal};
use ledger_model::Limits;

impl Book {
    /// The record that a member's request repeats, where it does, or why the request is refused.
    pub(super) fn judge_request(
        &self,
        member: u32,
        number: u64,
        request: &Digest,
        by: &Approval,
    ) -> Result<Option<u64>, Refusal>
        ensures refused { IfErr result (λ refusal. (h : History) → Serves self.now h
            → Some refusal ≡ first_refusal (request_judgements h member number request.now by.now.key)) }
        ensures passed { IfOk result (λ again. (h : History) → Serves self.now h
            → first_refusal (request_judgements h member number request.now by.now.key) ≡ None) }
        ensures again { IfOk result (λ again. (h : History) → Serves self.now h
            → again ≡ repeated h member number request.now) }
    {
        if let Some(refusal) = self.key_refusal(member, &by.key) {
            return Err(refusal);
        }
        let Some(jsn) = self.numbered(member, number) else {
            return Ok(None);
        };
        if *request == self.link_of(jsn) {
            return Ok(Some(jsn));
        }
        Err(Refusal::NumberTaken { jsn })
    }

    /// The last kept record of a member that has this number, where there is one; 0 is no number.
    pub(super) fn numbered(&self, member: u32, number: u64) -> Option<u64>
        ensures { result ≡ told_number self.now.floor self.now.point member number self.now.headers }
    {
        if number == 0 {
            return None;
        }
        self.numbers.of(member, number, self.point.max(self.floor))
    }

    // The link of a journal that is kept.
    fn link_of(&self, n: u64) -> Digest
        ensures { (h : History) → Serves self.now h → self.now.floor ≤ n → n < model.size h
            → result.0 ≡ link_at h n }
    {
        match self.header(n) {
            Some(header) => header.link,
            None => Digest::ZERO,
        }
    }

    /// The numbers of a member's next record with this clue, or why there is no room for it.
    pub(super) fn judge_record(&self, clue: &Digest) -> Result<Numbers, Refusal>
        ensures refused { IfErr result (λ refusal. (h : History) → Serves self.now h
            → Some refusal ≡ first_refusal (room_judgements self.now.limits h clue.now)) }
        ensures passed { IfOk result (λ numbers. (h : History) → Serves self.now h
            → first_refusal (room_judgements self.now.limits h clue.now) ≡ None) }
        ensures jsn { IfOk result (λ numbers. numbers.jsn ≡ self.now.size) }
        ensures ordinal { IfOk result (λ numbers. (h : History) → Stands self.now h
            → numbers.ordinal ≡ next_ordinal h clue.now) }
        ensures previous { IfOk result (λ numbers. (h : History) → Stands self.now h
            → numbers.previous ≡ last_journal h clue.now) }
        ensures room { OnOk result (self.now.size < real_limits.size) }
        ensures within { AreWithin self.now.limits }
    {
        if let Some(refusal) = self.full_refusal() {
            return Err(refusal);
        }
        let numbers = self.numbers_of(clue);
        if let Some(refusal) = self.clue_refusal(numbers.ordinal, self.limits) {
            return Err(refusal);
        }
        Ok(numbers)
    }

    /// Why a new member with this number is refused, where it is.
    pub(super) fn member_refusal(&self, number: u32, by: &Approval) -> Option<Refusal>
        ensures refusal { (h : History) → Serves self.now h
            → result ≡ first_refusal (member_judgements self.now.limits h number by.now.key) }
        ensures room { IfNone result (self.now.size < real_limits.size) }
        ensures next { IfNone result (length self.now.members < MEMBER_LIMIT) }
        ensures within { AreWithin self.now.limits }
    {
        self.full_refusal()
            .or_else(|| self.members.number_refusal(number))
            .or_else(|| self.key_refusal(0, &by.key))
    }

    // Whether there is no room for a member's journal.
    fn full_refusal(&self) -> Option<Refusal>
        ensures refusal { (h : History) → Serves self.now h → result ≡ fullness self.now.limits h }
        ensures room { IfNone result (self.now.size < real_limits.size) }
        ensures within { AreWithin self.now.limits }
    {
        let kept = self.size.saturating_sub(self.point);
        if kept >= self.limits.soft || self.size >= self.limits.size {
            return Some(Refusal::Full {
                kept,
                size: self.size,
            });
        }
        None
    }

    /// Why an anchor is refused by the ledger alone, where it is: there is no room for a journal of the operator.
    pub(super) fn hard_refusal(&self) -> Option<Refusal>
        ensures refusal { (h : History) → Serves self.now h
            → result ≡ hard_fullness self.now.limits h }
        ensures some { IfSome result (λ refusal. HasOperatorRoom self.now → ⊥) }
        ensures none { IfNone result (HasOperatorRoom self.now) }
        ensures room { IfNone result (self.now.size < real_limits.size) }
        ensures within { AreWithin self.now.limits }
    {
        let kept = self.size.saturating_sub(self.point);
        if kept >= self.limits.hard || self.size >= self.limits.size {
            return Some(Refusal::Full {
                kept,
                size: self.size,
            });
        }
        None
    }

    // Whether the member isn't known, or the key that a proof shows isn't the member's.
    fn key_refusal(&self, member: u32, shown: &Option<Digest>) -> Option<Refusal>
        ensures { result ≡ first_refusal
            (unknown_in (keys self.now.members) member
            ∷ wrong_key_in (keys self.now.members) member shown.now ∷ []) }
    {
        match self.members.key(member) {
            None => Some(Refusal::UnknownMember { member }),
            Some(key) => {
                if *shown == Some(key) {
                    None
                } else {
                    Some(Refusal::WrongKey { member })
                }
            }
        }
    }

    /// Whether a clue is a new one, whose next journal has the ordinal 1, and there are as many clues as there may be by
    /// these limits.
    pub(super) fn clue_refusal(&self, ordinal: u32, limits: Limits) -> Option<Refusal>
        ensures refusal { (h : History) (clue : DigestRecord) → Stands self.now h
            → ordinal ≡ next_ordinal h clue → result ≡ clues_full limits h clue }
        ensures room { (a : Added) (clue : DigestRecord) → index.StandsForTrails self.now.clues a
            → ordinal ≡ ordinal_in a clue
            → IsTrue (is_none result) ↔ HasRoomFor limits.clues a clue }
    {
        if ordinal != 1 {
            return None;
        }
        if self.clues.clues() < limits.clues {
            return None;
        }
        Some(Refusal::CluesFull)
    }

    /// Why an occult is refused, where it is: there is no room for a journal of the operator, or else by its target and its
    /// approvals.
    pub(super) fn occult_refusal(
        &self,
        target: u64,
        leaf: &Digest,
        given: &[Approval],
    ) -> Option<Refusal>
        requires { length given.now < 2 ^ 32 }
        ensures refusal { (h : History) → Serves self.now h
            → result ≡ first_refusal
            (occult_judgements self.now.limits h target leaf.now given.now) }
        ensures room { IfNone result (self.now.size < real_limits.size) }
        ensures within { AreWithin self.now.limits }
    {
        if let Some(refusal) = self.hard_refusal() {
            return Some(refusal);
        }
        judge_occult(&self.facts(target), &self.members, leaf, given).err()
    }

    /// Why an occult of so many records of a clue is refused, where it is: there is no room for a journal of the operator, or else
    /// by the clue and the approvals.
    pub(super) fn clue_occult_refusal(
        &self,
        clue: &Digest,
        count: u32,
        given: &[Approval],
    ) -> Result<Option<Refusal>, NoMemory>
        requires { length given.now < 2 ^ 32 }
        ensures refusal { IfOk result (λ why. (h : History) → Serves self.now h
            → why ≡ first_refusal
            (clue_occult_judgements self.now.limits h clue.now count given.now)) }
        ensures room { IfOk result (λ why. IfNone why (self.now.size < real_limits.size)) }
        ensures within { AreWithin self.now.limits }
    {
        if let Some(refusal) = self.hard_refusal() {
            return Ok(Some(refusal));
        }
        let facts = self.clue_facts(clue)?;
        Ok(judge_clue_occult(&facts, &self.members, count, given).err())
    }

    /// What is known of journal `n`, where an occult names it.
    pub(super) fn facts(&self, n: u64) -> OccultFacts
        ensures facts { (h : History) → Serves self.now h → AreFacts h result n }
        ensures behind { (start : Option Base) (journals : List Entry)
            → StandsBehind self.now start journals → self.now.floor ≤ n
            → AreFactsBehind start journals result n }
    {
        OccultFacts {
            target: n,
            size: self.size,
            point: self.point,
            kind: self.kind_of(n),
            by: self.hider(n),
            leaf: self.leaf_of(n),
        }
    }

    /// The journal that hides the content of journal `n`, where that is kept and one does.
    pub fn hider(&self, n: u64) -> Option<u64>
        ensures told { self.now.floor ≤ n → result ≡ hider_in self.now.floor self.now.hiders n }
        ensures hider { (h : History) → Stands self.now h → self.now.floor ≤ n → result ≡ hider h n }
    {
        let place = n.checked_sub(self.floor)?;
        hider_at(self.hiders.as_slice(), place as usize)
    }

    /// What is known of a clue, where an occult of its records names it.
    pub(super) fn clue_facts(&self, clue: &Digest) -> Result<ClueFacts, NoMemory>
        ensures facts { IfOk result (λ facts. (h : History) → Serves self.now h
            → AreClueFacts h facts clue.now) }
        ensures behind { IfOk result (λ facts. (start : Option Base) (journals : List Entry)
            → StandsBehind self.now start journals
            → AreClueFactsBehind start journals facts clue.now) }
    {
        let (point, floor) = (self.point, self.floor);
        let hiders = self.hiders.as_slice();
        let (count, mut shown) = self.clues.of(clue)?;
        shown.retain(|n| *n >= point
            && hider_at(hiders, n.saturating_sub(floor) as usize).is_none());
        Ok(ClueFacts {
            count,
            shown: shown.len() as u64,
        })
    }

    // The kind of a journal that is kept.
    pub(super) fn kind_of(&self, n: u64) -> Kind
        ensures { self.now.floor ≤ n → result ≡ kind_in self.now.headers (n - self.now.floor) }
    {
        match self.header(n) {
            Some(header) => header.kind,
            None => Kind::Genesis,
        }
    }

    // The leaf digest of a journal that is kept.
    pub(super) fn leaf_of(&self, n: u64) -> Digest
        ensures list { (h : History) → Serves self.now h → self.now.floor ≤ n → n < model.size h
            → result ≡ digest (leaf_at h n) }
        ensures behind { (start : Option Base) (journals : List Entry)
            → StandsBehind self.now start journals → self.now.floor ≤ n → n < self.now.size
            → result.0 ≡ leaf_at (history [] journals) (n - first_of start) }
    {
        match self.tree.leaf(n) {
            Ok(leaf) => leaf,
            Err(_) => Digest::ZERO,
        }
    }
}
