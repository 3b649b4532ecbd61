//! What is kept of a dump's journals as they are read, and the checks of the next one.

ghost use Rattle.std.specs.Prelude.{◌≡◌, ◌≤◌, ◌+◌, ◌^◌, ◌++◌, [], ◌∷◌, List, Option, None, Some, IfSome, IfOk, OnOk, length};
ghost use Rattle.ledger_bytes.specs.declared.digest.Digest.{Digest as DigestRecord};
ghost use Rattle.journal_record.specs.Items.{Item, IsItem};
ghost use Rattle.member_book.specs.Erasures.{is_time};
ghost use Rattle.pseudo_genesis.specs.Bases.{IsBase, HasWidths};
ghost use Rattle.pseudo_genesis.specs.declared.base.Base.{Base as BaseRecord};
ghost use Rattle.ledger_model.specs.Behind.{IsNextBehind, first_of, next_number};
ghost use Rattle.dump_model.specs.Checks.{is_erased};
ghost use Rattle.audit_dump.specs.Claims.{claims_of};
ghost use Rattle.audit_dump.specs.Journals.{AreCounted, AreKept, AreKeptSomewhere, AreOneBehind, IsOwnKept, IsRootKnown, IsSought, IsToldAt, IsToldNext, StandsAt};
ghost use Rattle.audit_dump.specs.Ending.{IsOwnId};
ghost use Rattle.audit_dump.specs.Known.{journals_of};
ghost use Rattle.audit_dump.specs.Notes.{AreInOrder};
ghost use Rattle.audit_dump.specs.Passing.{StandsSomewhere};
ghost use Rattle.audit_dump.specs.Prepared.{IsPrepared};
ghost use Rattle.audit_dump.specs.Reports.{Counts};
ghost use Rattle.audit_dump.specs.Told.{report_of};

use crate::base_purge::BasePurge;
use crate::claims::Claims;
use crate::erasing::Erasures;
use crate::front::Front;
use crate::passing::{EarlyCheck, Standing};
use crate::preparing::Prepared;
use crate::report::Report;
use journal_record::{Body, Header, Kind, Record};
use ledger_bytes::{Digest, NoMemory, Sha};
use member_book::Verifier;
use merkle_tree::leaf_of;
use pseudo_genesis::Base;
use std::alloc::Global;

// What is kept of the journals of a dump that were read, all of which passed.
#[derive(Drop)]
pub(crate) struct Journals {
    // The id that the dump tells.
    pub(crate) id: Digest,
    // The id of the ledger that it shows, where a base or a journal tells it.
    pub(crate) own: Option<Digest>,
    // What the checks of the next journal need, where a base or a journal stands in front of it.
    pub(crate) standing: Option<Standing>,
    pub(crate) erasures: Erasures,
    // The purge that made the base, where there is one.
    pub(crate) purge: Option<BasePurge>,
    pub(crate) claims: Claims,
}

impl Journals {
    // No journal was read behind this front.
    pub(crate) fn behind(alloc: Global, front: &Front) -> Result<Self, NoMemory>
        requires { IfSome front.now.base (λ base. IsBase base × HasWidths base) }
        ensures { IfOk result (AreKept front.now.id front.now.base []) }
    {
        match &front.base {
            Some(base) => Journals::behind_base(alloc, front.id, base),
            None => Ok(Journals {
                id: front.id,
                own: None,
                standing: None,
                erasures: Erasures::new(alloc, 0),
                purge: None,
                claims: Claims::new(alloc),
            }),
        }
    }

    // No journal was read behind this base.
    fn behind_base(alloc: Global, id: Digest, base: &Base) -> Result<Self, NoMemory>
        requires rules { IsBase base.now }
        requires widths { HasWidths base.now }
        ensures { IfOk result (AreKept id (Some base.now) []) }
    {
        let standing = Standing::behind_base(alloc, base)?;
        let purge = BasePurge::of(alloc, base)?;
        Ok(Journals {
            id,
            own: Some(base.id),
            standing: Some(standing),
            erasures: Erasures::new(alloc, base.point),
            purge: Some(purge),
            claims: Claims::new(alloc),
        })
    }

    // Checks the next journal, of which this was made ahead, and keeps what is needed of it where it passes; else it tells the check that it fails first, and
    // the counts stay as they were. After an `Err` nothing is known of what is kept.
    pub(crate) fn take<V: Verifier>(
        &mut self,
        alloc: Global,
        verifier: &V,
        journal: &Record,
        ahead: &Prepared,
    ) -> Result<Option<EarlyCheck>, NoMemory>
        requires rules { IsItem journal.now }
        requires ahead { IsPrepared (V.shows verifier.now) self.old.id.0 journal.now ahead.now }
        requires kept { AreKeptSomewhere self.old }
        ensures { IfOk result (λ told. (id : DigestRecord) (start : Option BaseRecord)
            (items : List Item) → AreKept id start items self.old
            → IsToldNext (V.shows verifier.now) id start items journal.now told self.new) }
    {
        let id = self.id;
        if let Some(check) = check_at(alloc, verifier, &id, &mut self.standing, journal, ahead)? {
            return Ok(Some(check));
        }
        self.note(journal)?;
        Ok(None)
    }

    // Notes the next journal, which passed its checks.
    fn note(&mut self, journal: &Record) -> Result<(), NoMemory>
        requires { IsItem journal.now }
        ensures { OnOk result ((id : DigestRecord) (start : Option BaseRecord) (items : List Item)
            → AreOneBehind id start items journal.now self.old
            → AreKept id start (items ++ journal.now ∷ []) self.new) }
    {
        self.own = Some(own_with(self.own, &journal.header));
        look_for(&mut self.purge, &journal.header);
        self.erasures.mark(&journal.header, is_missing(journal))?;
        claim(&mut self.claims, &self.id, &self.standing, &journal.header)?;
        Ok(())
    }

    // The number of the first journal, or of the one that would be it.
    pub(crate) fn first(&self) -> u64
        ensures { result ≡ self.now.erasures.first }
    {
        self.erasures.first()
    }

    // A report over the journals that were read, without a fault.
    pub(crate) fn counts(&self) -> Report
        requires few { self.now.erasures.first + length self.now.erasures.marks ≤ 2 ^ 32 }
        ensures counts { (id : DigestRecord) (start : Option BaseRecord) (items : List Item)
            → AreCounted id start items self.now → Counts start items (report_of result) }
        ensures fault { result.fault ≡ None }
    {
        let kept = self.erasures.count();
        let point = self.erasures.first();
        Report {
            size: point + kept,
            kept,
            point,
            occulted: self.erasures.erased(),
            times: self.claims.count(),
            fault: None,
        }
    }
}

// Checks a journal behind those that are kept, or as the first one where there are none.
fn check_at<V: Verifier>(
    alloc: Global,
    verifier: &V,
    id: &Digest,
    standing: &mut Option<Standing>,
    journal: &Record,
    ahead: &Prepared,
) -> Result<Option<EarlyCheck>, NoMemory>
    requires rules { IsItem journal.now }
    requires ahead { IsPrepared (V.shows verifier.now) id.now.0 journal.now ahead.now }
    requires stands { IfSome standing.old StandsSomewhere }
    ensures { IfOk result (λ told. (start : Option BaseRecord) (items : List Item)
        → StandsAt standing.old start items
        → IsToldAt (V.shows verifier.now) id.now.0 start items journal.now told standing.new) }
{
    if let Some(kept) = standing {
        return kept.check_next(alloc, verifier, id, journal, ahead);
    }
    match Standing::with_first(alloc, journal)? {
        Ok(first) => {
            *standing = Some(first);
            Ok(None)
        }
        Err(check) => Ok(Some(check)),
    }
}

// The id of the ledger that is shown, once a journal with this header was read: where neither a base nor a journal told it, this is
// journal 0.
fn own_with(own: Option<Digest>, header: &Header) -> Digest
    ensures { (start : Option BaseRecord) (items : List Item) (item : Item)
        → item.header ≡ header.now → IsOwnKept own start items
        → IsOwnId start (items ++ item ∷ []) result }
{
    match own {
        Some(id) => id,
        None => leaf_of::<Sha>(&header.encode()),
    }
}

// Looks whether a journal is the purge that made the base, where there is one.
fn look_for(purge: &mut Option<BasePurge>, header: &Header)
    ensures { (start : Option BaseRecord) (items : List Item) (item : Item)
        → item.header ≡ header.now → IsSought purge.old start items
        → IsSought purge.new start (items ++ item ∷ []) }
{
    if let Some(purge) = purge {
        purge.look(header);
    }
}

// Whether a journal's content is missing.
fn is_missing(journal: &Record) -> bool
    ensures { result ≡ is_erased journal.now }
{
    match journal.body {
        Body::Erased => true,
        Body::Whole(_) => false,
    }
}

// Adds what a journal claims of the notary's list, where it is a time journal. It stands behind all that was checked, so the root in
// front of it is known.
fn claim(
    claims: &mut Claims,
    id: &Digest,
    standing: &Option<Standing>,
    header: &Header,
) -> Result<(), NoMemory>
    ensures { OnOk result ((start : Option BaseRecord) (items : List Item) (item : Item)
        → item.header ≡ header.now → StandsAt standing.now start (items ++ item ∷ [])
        → IsNextBehind start (journals_of items) item.header → AreInOrder (first_of start) items
        → claims.old ≡ claims_of id.now.0 start items
        → claims.new ≡ claims_of id.now.0 start (items ++ item ∷ [])) }
{
    if !tells_time(header.kind) {
        return Ok(());
    }
    let Some(root) = root_in_front(standing, header.jsn) else {
        return Ok(());
    };
    claims.add(id, &root, header)?;
    Ok(())
}

// Whether a journal of this kind tells a time.
fn tells_time(kind: Kind) -> bool
    ensures { result ≡ is_time kind }
{
    match kind {
        Kind::Time => true,
        Kind::Genesis
        | Kind::Content
        | Kind::Member
        | Kind::Occult
        | Kind::Purge
        | Kind::ClueOccult => false,
    }
}

// The root over the journals in front of `p`, where it is known.
fn root_in_front(standing: &Option<Standing>, p: u64) -> Option<Digest>
    ensures { (start : Option BaseRecord) (items : List Item) → StandsAt standing.now start items
        → first_of start ≤ p → p ≤ next_number start (journals_of items) → 1 ≤ length items
        → IsRootKnown start (journals_of items) p result }
{
    match standing {
        Some(standing) => standing.root_at(p),
        None => None,
    }
}
