//! How a purge is judged and placed.

ghost use Rattle.std.specs.Prelude.{◌≡◌, ◌-◌, ◌<◌, ◌≤◌, ◌^◌, take, drop, List, [], ◌∷◌, ◌++◌, All, length, IfOk, IfNone, OnOk, OnErr, Option};
ghost use Rattle.ledger_bytes.specs.Digests.{digest};
ghost use Rattle.ledger_bytes.specs.declared.limits.TheConstants.{APPROVAL_LIMIT, PROOF_LIMIT};
ghost use Rattle.journal_record.specs.declared.header.Header.{Header as HeaderRecord};
ghost use Rattle.journal_record.specs.declared.stamp.Stamp.{Stamp as StampRecord};
ghost use Rattle.member_book.specs.Erasures.{first_refusal};
ghost use Rattle.ledger_model.specs.Bases.{base_of, digest_of_base};
ghost use Rattle.ledger_model.specs.History as model;
ghost use Rattle.ledger_model.specs.History.{History};
ghost use Rattle.ledger_model.specs.Judgements.{purge_judgements};
ghost use Rattle.ledger_model.specs.Limits.{AreWithin, real_limits};
ghost use Rattle.ledger_model.specs.Needs.{HaveSame, purge_needs};
ghost use Rattle.ledger_model.specs.declared.job.Job.TheVariants as asked;
ghost use Rattle.ledger_book.specs.Books.{Serves};
ghost use Rattle.ledger_book.specs.Purges.{ArePurgeFacts, owners_in, point_of};
ghost use Rattle.ledger_book.specs.Steps.{Applies, HasNumber, IsAsBefore, IsLater, NeverReads, PlacesNothing};

use super::Book;
use crate::headers::{placed_with, purge_header};
use erase_rules::{PurgeFacts, judge_purge};
use journal_record::{Approval, Header, Kind};
use ledger_bytes::{Digest, NoMemory, Refusal, Sha};
use ledger_model::Outcome;
use pseudo_genesis::base_digest;
use std::alloc::Global;

impl Book {
    /// Judges a purge of all journals in front of `point`, and places it where it is accepted. Its cost grows with what it
    /// takes; one that is refused doesn't look at the clues.
    pub(super) fn apply_purge(
        &mut self,
        point: u64,
        root: &Digest,
        given: &[Approval],
    ) -> Result<Outcome, NoMemory>
        requires count { length given.now ≤ APPROVAL_LIMIT }
        requires proofs { All (λ a. length a.proof ≤ PROOF_LIMIT) given.now }
        ensures ok { IfOk result (λ outcome. (stamp : Option StampRecord) (h : History)
            → Serves self.old h
            → Applies self.old.limits stamp h
            (asked.Purge point root.now given.now) outcome self.new) }
        ensures number { IfOk result (HasNumber self.old self.new) }
        ensures err { OnErr result (IsAsBefore self.old self.new) }
        ensures same { IsLater self.old self.new }
        ensures point { IfOk result (λ outcome. self.new.point ≡ point_of point outcome self.old.point) }
        ensures unchanged { IfOk result (λ outcome. PlacesNothing outcome → self.new ≡ self.old) }
        ensures places { IfOk result NeverReads }
    {
        if let Some(refusal) = self.purge_refusal(point, root, given)? {
            return Ok(Outcome::Refused(refusal));
        }
        let link = self.base_digest_at(point)?;
        let jsn = self.size;
        let header = purge_header(jsn, point, &link, given);
        let placed = placed_with(jsn, &header);
        self.place_record(&header, placed.leaf)?;
        Ok(Outcome::Placed(placed))
    }

    // Why a purge is refused, where it is: there is no room over the whole life, or else by its point and its approvals.
    fn purge_refusal(
        &self,
        point: u64,
        root: &Digest,
        given: &[Approval],
    ) -> Result<Option<Refusal>, NoMemory>
        requires { length given.now < 2 ^ 32 }
        ensures refusal { IfOk result (λ told. (h : History) → Serves self.now h
            → told ≡ first_refusal (purge_judgements self.now.limits h point root.now given.now)) }
        ensures room { IfOk result (λ told. IfNone told (self.now.size < real_limits.size)) }
        ensures above { IfOk result (λ told. IfNone told (self.now.point ≤ point)) }
        ensures within { AreWithin self.now.limits }
    {
        if self.size >= self.limits.size {
            let kept = self.size.saturating_sub(self.point);
            return Ok(Some(Refusal::Full {
                kept,
                size: self.size,
            }));
        }
        let owners = self.owners_below(point)?;
        Ok(judge_purge(
            &self.purge_facts(point),
            &self.members,
            root,
            owners.as_slice(),
            given,
        )
        .err())
    }

    // What is known of journal `n`, where a purge names it.
    fn purge_facts(&self, n: u64) -> PurgeFacts
        ensures facts { (h : History) → Serves self.now h → ArePurgeFacts h result n }
        ensures asked { result.asked ≡ n }
        ensures point { result.point ≡ self.now.point }
    {
        PurgeFacts {
            asked: n,
            size: self.size,
            point: self.point,
            kind: self.kind_of(n),
            root: self.root_below(n),
        }
    }

    // The root over the first `n` journals, where those from `n` on are kept.
    fn root_below(&self, n: u64) -> Digest
        ensures { (h : History) → Serves self.now h → self.now.floor ≤ n → n < self.now.size
            → result ≡ digest (model.root h n) }
    {
        match self.tree.root_at(n) {
            Ok(root) => root,
            Err(_) => Digest::ZERO,
        }
    }

    // The members whose approvals a purge up to `n` needs, each once: the operator, and the owners of the records that it takes.
    fn owners_below(&self, n: u64) -> Result<Vec<u32>, NoMemory>
        ensures { IfOk result (λ owners. (h : History) → Serves self.now h → model.point h ≤ n
            → n < model.size h → HaveSame owners.items (purge_needs h n)) }
    {
        owners_of(*self.headers.allocator(), self.headers_taken(n))
    }

    // The headers of the journals that a purge up to `n` takes.
    fn headers_taken(&self, n: u64) -> &[Header]
        ensures { self.now.floor ≤ self.now.point → self.now.point ≤ n → n < self.now.size
            → result.now
            ≡ take (n - self.now.point) (drop (self.now.point - self.now.floor) self.now.headers) }
    {
        let first = self.point.saturating_sub(self.floor) as usize;
        let end = n.saturating_sub(self.floor) as usize;
        let headers = self.headers.as_slice();
        if first > end || end > headers.len() {
            return &[];
        }
        &headers[first..end]
    }

    // The digest of the base at journal `p`.
    fn base_digest_at(&self, p: u64) -> Result<Digest, NoMemory>
        ensures { IfOk result (λ digest. (h : History) → Serves self.now h → self.now.floor ≤ p
            → 1 ≤ p → digest.0 ≡ digest_of_base (base_of h p)) }
    {
        let base = self.told_base(p)?;
        let bytes = base.encode(*self.headers.allocator())?;
        Ok(base_digest::<Sha>(bytes.as_slice()))
    }
}

// The operator, and the members whose records these are, each once.
fn owners_of(alloc: Global, headers: &[Header]) -> Result<Vec<u32>, NoMemory>
    ensures { IfOk result (λ owners. HaveSame owners.items (owners_in headers.now)) }
{
    let mut owners = vec![in alloc; 0]?;
    for header in headers {
        add_owner(&mut owners, header)?;
    }
    Ok(owners)
}

// Adds the member whose record this is, where it isn't there yet.
fn add_owner(owners: &mut Vec<u32>, header: &Header) -> Result<(), NoMemory>
    ensures { OnOk result ((headers : List HeaderRecord) → HaveSame owners.old.items (owners_in headers)
        → HaveSame owners.new.items (owners_in (headers ++ header.now ∷ []))) }
{
    if header.kind != Kind::Content {
        return Ok(());
    }
    if owners.as_slice().contains(&header.member) {
        return Ok(());
    }
    owners.push(header.member)?;
    Ok(())
}
