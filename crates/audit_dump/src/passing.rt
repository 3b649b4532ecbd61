//! The checks of a dump's journals one after the other, and what is kept between them.

ghost use Rattle.std.specs.Prelude.{◌≡◌, ◌≤◌, ◌<◌, ◌++◌, ℕ, List, [], map, length, take, drop, Option, None, Some, IfOk, OnOk};
ghost use Rattle.ledger_bytes.specs.declared.limits.TheConstants.{MEMBER_LIMIT};
ghost use Rattle.journal_record.specs.Entry.{Entry};
ghost use Rattle.journal_record.specs.Items.{IsItem};
ghost use Rattle.journal_record.specs.Members.{keys};
ghost use Rattle.journal_record.specs.Rules.{IsHeader};
ghost use Rattle.journal_record.specs.declared.header.Kind.TheVariants as kind;
ghost use Rattle.pseudo_genesis.specs.Bases.{IsBase, HasWidths};
ghost use Rattle.pseudo_genesis.specs.declared.base.Base.{Base as BaseRecord};
ghost use Rattle.ledger_model.specs.Behind.{next_number};
ghost use Rattle.ledger_model.specs.Scheme.{Scheme};
ghost use Rattle.ledger_book.specs.Steps.{IsLeafOf};
ghost use Rattle.audit_dump.specs.Deciding.{IsRootBelow};
ghost use Rattle.audit_dump.specs.Passing.{IsHeadOver, IsToldOf, IsToldOfFirst, StandsAfter, StandsSomewhere, TakesNext, admitted_by};
ghost use Rattle.audit_dump.specs.Prepared.{IsPrepared};

use crate::contents::is_kept_whole;
use crate::deciding::is_placed;
use crate::preparing::Prepared;
use crate::purging::{needed_by, root_asked, root_in};
use journal_record::{Body, Header, Kind, Record};
use ledger_book::{Book, Limits};
use ledger_bytes::{Digest, NoMemory};
use member_book::{MemberBook, Verifier};
use merkle_tree::Head;
use pseudo_genesis::Base;
use std::alloc::Global;
use std::marker::Model;

/// A check that is made of a journal as it is read. They are made in this order.
#[derive(Clone, Copy, Debug, PartialEq, Eq)]
pub enum EarlyCheck {
    /// It may be the next one.
    Order,
    /// Its content and its who are those that its header names.
    Parts,
    /// Those placed it who had to.
    Approvals,
}

// What an auditor keeps in front of a dump's next journal: of each journal before what a `Book` keeps of it, and the keys of the
// members, at most 256.
#[derive(Drop)]
pub(crate) struct Standing {
    book: Book,
    members: MemberBook,
}

impl Model for Standing {
    ghost use Rattle.audit_dump.specs.Passing.{Passed};

    ghost Value = { Passed };

    ghost view = { λ s. record { book = s.book; members = s.members } };
}

impl Standing {
    // What is kept behind a base, where no journal was read.
    pub(crate) fn behind_base(alloc: Global, base: &Base) -> Result<Self, NoMemory>
        requires rules { IsBase base.now }
        requires widths { HasWidths base.now }
        ensures { IfOk result (λ standing. StandsAfter standing (Some base.now) []) }
    {
        let book = Book::from_base(alloc, base, Limits::real())?;
        let members = members_with(alloc, base.keys.as_slice())?;
        Ok(Standing { book, members })
    }

    // Checks journal 0, in front of which nothing stands, and keeps what the later ones need of it where it is good; else it tells
    // the check that it fails first. The only error is that memory is wanted.
    pub(crate) fn with_first(
        alloc: Global,
        journal: &Record,
    ) -> Result<Result<Self, EarlyCheck>, NoMemory>
        requires { IsItem journal.now }
        ensures { IfOk result (λ told. (scheme : Scheme) (id : List ℕ)
            → IsToldOfFirst scheme id journal.now told) }
    {
        if journal.header.kind != Kind::Genesis {
            return Ok(Err(EarlyCheck::Order));
        }
        if !is_kept_whole(journal) {
            return Ok(Err(EarlyCheck::Parts));
        }
        if !journal.who.is_empty() {
            return Ok(Err(EarlyCheck::Approvals));
        }
        let Body::Whole(content) = journal.body else {
            unreachable!()
        };
        let (operator, regulator) = first_keys(content);
        let book = Book::from_first(
            alloc,
            &journal.header,
            &operator,
            &regulator,
            Limits::real(),
        )?;
        let members = MemberBook::new(alloc, &operator, &regulator)?;
        Ok(Ok(Standing { book, members }))
    }

    // Checks the next journal, of which this was made ahead, and keeps what the later ones need of it where it is good; else it tells
    // the check that it fails first. A purge costs a look at each header from the point in force up to its own, so all purges together look at each
    // once. After a check that fails, and after an `Err`, nothing is known of what is kept. The only error is that memory is
    // wanted.
    pub(crate) fn check_next<V: Verifier>(
        &mut self,
        alloc: Global,
        verifier: &V,
        id: &Digest,
        journal: &Record,
        ahead: &Prepared,
    ) -> Result<Option<EarlyCheck>, NoMemory>
        requires rules { IsItem journal.now }
        requires ahead { IsPrepared (V.shows verifier.now) id.now.0 journal.now ahead.now }
        requires stands { StandsSomewhere self.old }
        ensures { IfOk result (λ told. (start : Option BaseRecord) (before : List Entry)
            → StandsAfter self.old start before
            → IsToldOf (V.shows verifier.now) id.now.0 start before journal.now told self.new) }
    {
        let needed = needed_by(alloc, &self.book, &journal.header)?;
        let root = root_asked(&self.book, &journal.header);
        if !takes_next(&mut self.book, &journal.header, &ahead.leaf)? {
            return Ok(Some(EarlyCheck::Order));
        }
        if !ahead.whole {
            return Ok(Some(EarlyCheck::Parts));
        }
        let owners = needed.as_slice();
        let key = ahead.key;
        if !is_placed(
            alloc,
            verifier,
            id,
            &self.members,
            journal,
            key,
            owners,
            root,
        )? {
            return Ok(Some(EarlyCheck::Approvals));
        }
        admit_by(&mut self.members, &journal.header)?;
        Ok(None)
    }

    // The head over all journals.
    pub(crate) fn head(&self) -> Option<Head>
        ensures { (start : Option BaseRecord) (before : List Entry)
            → StandsAfter self.now start before → IsHeadOver start before result }
    {
        let size = self.book.size();
        let root = self.root_at(size)?;
        Some(Head { size, root })
    }

    // The root over the journals in front of `p`; `None` where `p` lies in front of the base, or behind all journals. It costs a
    // hash for each level of the tree.
    pub(crate) fn root_at(&self, p: u64) -> Option<Digest>
        ensures { (start : Option BaseRecord) (before : List Entry)
            → StandsAfter self.now start before → p ≤ next_number start before
            → IsRootBelow start before p result }
    {
        root_in(&self.book, p)
    }
}

// The keys of operator and regulator, which are the content of journal 0.
fn first_keys(content: &[u8]) -> (Digest, Digest)
    requires { length content.now ≡ 64 }
    ensures { (result.0.0 ≡ take 32 content.now) × (result.1.0 ≡ drop 32 content.now) }
{
    let (front, back) = content.split_at(32);
    let mut operator = [0; 32];
    operator.copy_from_slice(front);
    let mut regulator = [0; 32];
    regulator.copy_from_slice(back);
    (Digest(operator), Digest(regulator))
}

// Takes a header with its leaf digest into the book as that of the next journal, and tells whether it is.
fn takes_next(book: &mut Book, header: &Header, leaf: &Digest) -> Result<bool, NoMemory>
    requires layout { IsHeader header.now }
    requires leaf { IsLeafOf header.now leaf.now }
    ensures { IfOk result (TakesNext book.old header.now book.new) }
{
    let _size = book.size();
    match book.replay(header, leaf)? {
        Ok(()) => Ok(true),
        Err(_) => Ok(false),
    }
}

// Admits the member whose journal has this header, where it is that of a member.
fn admit_by(members: &mut MemberBook, header: &Header) -> Result<(), NoMemory>
    requires { header.now.kind ≡ kind.Member → length members.old < MEMBER_LIMIT }
    ensures { OnOk result (members.new ≡ members.old ++ admitted_by header.now) }
{
    if header.kind == Kind::Member {
        members.admit(&header.link, header.jsn)?;
    }
    Ok(())
}

// The members with these keys.
fn members_with(alloc: Global, known: &[Digest]) -> Result<MemberBook, NoMemory>
    requires least { 2 ≤ length known.now }
    requires most { length known.now ≤ MEMBER_LIMIT }
    ensures { IfOk result (λ members. keys members ≡ map (λ key. key.0) known.now) }
{
    let mut members = MemberBook::new(alloc, &known[0], &known[1])?;
    for key in &known[2..] {
        members.admit(key, 0)?;
    }
    Ok(members)
}
