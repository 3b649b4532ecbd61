//! How a book is filled from a file: each journal that was read is placed again, where it is the next one.

ghost use Rattle.std.specs.Prelude.{◌≡◌, ◌<◌, ◌≤◌, ◌↔◌, ◌&&◌, ◌||◌, ◌==◌, not, nat_lt, List, [], ◌∷◌, length, Option, None, IsTrue, IfOk, OnErr};
ghost use Rattle.ledger_bytes.specs.declared.limits.TheConstants.{MEMBER_LIMIT};
ghost use Rattle.journal_record.specs.Entry.{Entry};
ghost use Rattle.journal_record.specs.Rules.{IsHeader};
ghost use Rattle.journal_record.specs.declared.header.Kind.TheVariants as kind;
ghost use Rattle.ledger_model.specs.History.{History};
ghost use Rattle.ledger_model.specs.Lawful.{IsNextOf, IsNextOccult, IsNextClueOccult, IsNextPurge, IsNextRecord};
ghost use Rattle.ledger_model.specs.Limits.{AreWithin, real_limits};
ghost use Rattle.pseudo_genesis.specs.declared.base.Base.{Base};
ghost use Rattle.ledger_model.specs.Behind.{IsNextBehind, IsOwnBehind, IsRecordBehind, IsOccultBehind, IsClueOccultBehind, IsPurgeBehind};
ghost use Rattle.ledger_book.specs.Books.{Stands, Serves};
ghost use Rattle.ledger_book.specs.Places.{HasNextPlace, HasPlaceBehind};
ghost use Rattle.ledger_book.specs.Reading.{StandsBehind};
ghost use Rattle.ledger_book.specs.Replaying.{IsFirst, begun_with, Replays};
ghost use Rattle.ledger_book.specs.Steps.{IsAsBefore, IsLater, IsLeafOf, MayPlace, point_with};

use super::Book;
use crate::fronts::FrontTargets;
use crate::numbers::NumberIndex;
use block_file::Damage;
use clue_index::ClueIndex;
use erase_rules::{ClueFacts, target_refusal};
use journal_record::{Header, Kind};
use ledger_bytes::{Digest, NoMemory, Sha};
use ledger_model::Limits;
use member_book::MemberBook;
use merkle_batch::Tree;
use merkle_tree::{Head, leaf_of};
use std::alloc::Global;
use time_peg::TimeIndex;

impl Book {
    /// The book of a ledger whose journal 0 has this header and, as its content, the keys of the operator and the
    /// regulator. Journal 0 stands alone in a block that has ended.
    pub fn from_first(
        alloc: Global,
        header: &Header,
        operator: &Digest,
        regulator: &Digest,
        limits: Limits,
    ) -> Result<Self, NoMemory>
        requires kind { header.now.kind ≡ kind.Genesis }
        requires layout { IsHeader header.now }
        requires limits { AreWithin limits }
        ensures serves { IfOk result (λ book. (journal : Entry)
            → IsFirst header.now operator.now regulator.now journal
            → Serves book (begun_with journal)) }
        ensures behind { IfOk result (λ book. (journal : Entry) → journal.header ≡ header.now
            → StandsBehind book None (journal ∷ [])) }
        ensures limits { IfOk result (λ book. book.limits ≡ limits) }
        ensures floor { IfOk result (λ book. (book.floor ≡ 0) × (book.point ≡ 0)) }
        ensures settled { IfOk result (λ book. book.sealed ≡ book.size) }
    {
        let leaf = leaf_of::<Sha>(&header.encode());
        let members = MemberBook::new(alloc, operator, regulator)?;
        let mut numbers = NumberIndex::new(alloc);
        let _ = numbers.add(header, 0)?;
        let headers = vec![in alloc; *header]?;
        let hiders = vec![in alloc; 0]?;
        let mut tree = Tree::new(alloc);
        tree.reserve(1)?;
        tree.add_leaves(&[leaf]);
        let ends = vec![in alloc; 1]?;
        Ok(Book {
            limits,
            floor: 0,
            reached: true,
            size: 1,
            point: 0,
            blocks: 1,
            head: Head {
                size: 1,
                root: leaf,
            },
            ends,
            id: leaf,
            members,
            clues: ClueIndex::new(alloc),
            hiders,
            fronts: FrontTargets::new(alloc),
            numbers,
            times: TimeIndex::new(alloc),
            headers,
            tree,
        })
    }

    /// Places the journal with this header, whose leaf digest is known, in the open block, where it is the next one.
    /// Contents aren't looked at, since they may be hidden. A header that isn't the next one has the damage [`Damage::Entry`] with the number
    /// that is next, and changes nothing; so does an `Err`. Behind a base it is judged by what stands there, since nobody
    /// knows the journals in front of it.
    pub fn replay(&mut self, header: &Header, leaf: &Digest) -> Result<Result<(), Damage>, NoMemory>
        requires layout { IsHeader header.now }
        requires leaf { IsLeafOf header.now leaf.now }
        ensures ok { IfOk result (λ told. Replays self.old header.now told self.new) }
        ensures err { OnErr result (IsAsBefore self.old self.new) }
        ensures same { IsLater self.old self.new }
        ensures ended { (self.new.blocks ≡ self.old.blocks)
            × (self.new.sealed ≡ self.old.sealed) }
    {
        if !self.is_next(header)? {
            return Ok(Err(Damage::Entry { jsn: self.size }));
        }
        if header.kind == Kind::Member {
            self.place_member(header, *leaf)?;
        } else {
            self.place_record(header, *leaf)?;
        }
        Ok(Ok(()))
    }

    // Whether a header is the next one, by the limits of each ledger but those for trial.
    fn is_next(&self, header: &Header) -> Result<bool, NoMemory>
        requires layout { IsHeader header.now }
        ensures next { IfOk result (λ is. (h : History) → Serves self.now h
            → IsTrue is ↔ MayPlace h header.now) }
        ensures behind { IfOk result (λ is. (start : Option Base) (journals : List Entry)
            → StandsBehind self.now start journals
            → IsTrue is ↔ IsNextBehind start journals header.now) }
        ensures room { IfOk result (λ is. IsTrue is → self.now.size < real_limits.size) }
        ensures above { IfOk result (λ is. IsTrue is
            → self.now.point ≤ point_with header.now self.now.point) }
        ensures few { IfOk result (λ is. IsTrue is → header.now.kind ≡ kind.Member
            → length self.now.members < MEMBER_LIMIT) }
    {
        let most = Limits::real().size;
        if header.jsn != self.size || self.size >= most {
            return Ok(false);
        }
        // A base's point is a time journal.
        if self.size == self.floor && header.kind != Kind::Time {
            return Ok(false);
        }
        self.is_next_of(header)
    }

    // Whether a header with the next number is the next one by its kind.
    fn is_next_of(&self, header: &Header) -> Result<bool, NoMemory>
        requires room { self.now.size < real_limits.size }
        requires layout { IsHeader header.now }
        requires jsn { header.now.jsn ≡ self.now.size }
        ensures next { IfOk result (λ is. (h : History) → Serves self.now h
            → IsTrue is ↔ IsNextOf h header.now header.now.kind) }
        ensures behind { IfOk result (λ is. (start : Option Base) (journals : List Entry)
            → StandsBehind self.now start journals
            → IsTrue is ↔ IsOwnBehind start journals header.now header.now.kind) }
        ensures above { IfOk result (λ is. IsTrue is
            → self.now.point ≤ point_with header.now self.now.point) }
        ensures few { IfOk result (λ is. IsTrue is → header.now.kind ≡ kind.Member
            → length self.now.members < MEMBER_LIMIT) }
    {
        match header.kind {
            Kind::Content => Ok(self.is_next_record(header)),
            Kind::Member => Ok(header.a == u64::from(self.members.count())),
            Kind::Time => Ok(true),
            Kind::Occult => Ok(self.is_next_occult(header)),
            Kind::ClueOccult => self.is_next_clue_occult(header),
            Kind::Purge => Ok(self.is_next_purge(header)),
            Kind::Genesis => Ok(false),
        }
    }

    // Whether a member's record is the next one, where its number is: the member is known, the clue's numbers are the
    // next ones, there is room for the clue, and no kept record of the member has the number of its request.
    fn is_next_record(&self, header: &Header) -> bool
        requires { self.now.size < real_limits.size }
        ensures next { (h : History) → Serves self.now h → IsTrue result ↔ IsNextRecord h header.now }
        ensures behind { (start : Option Base) (journals : List Entry)
            → StandsBehind self.now start journals
            → IsTrue result ↔ IsRecordBehind start journals header.now }
    {
        if self.numbered(header.member, header.a).is_some() {
            return false;
        }
        self.has_next_place(header)
    }

    // .. but for the number of its request.
    fn has_next_place(&self, header: &Header) -> bool
        requires { self.now.size < real_limits.size }
        ensures next { (h : History) → Stands self.now h → IsTrue result ↔ HasNextPlace h header.now }
        ensures behind { (start : Option Base) (journals : List Entry)
            → StandsBehind self.now start journals
            → IsTrue result ↔ HasPlaceBehind start journals header.now }
    {
        if header.member >= self.members.count() {
            return false;
        }
        let numbers = self.numbers_of(&header.clue);
        if header.clue_ord != numbers.ordinal {
            return false;
        }
        if header.clue_prev != numbers.previous {
            return false;
        }
        self.clue_refusal(numbers.ordinal, Limits::real()).is_none()
    }

    // Whether an occult is the next one, where its number is. Nothing is known of a target in front of the first header that
    // is kept but whether another occult names it, until the purge to that journal tells that it is gone.
    fn is_next_occult(&self, header: &Header) -> bool
        ensures next { (h : History) → Serves self.now h → IsTrue result ↔ IsNextOccult h header.now }
        ensures behind { (start : Option Base) (journals : List Entry)
            → StandsBehind self.now start journals
            → IsTrue result ↔ IsOccultBehind start journals header.now }
    {
        let target = header.a;
        if target < self.floor {
            if self.reached {
                return false;
            }
            return self.fronts.of(target).is_none();
        }
        target_refusal(&self.facts(target), &header.link).is_none()
    }

    // Whether an occult by clue is the next one, where its number is: it tells how many records its clue has, and one of them is
    // kept and shown. Until the purge to the first header that is kept tells it, nothing is known of which are kept.
    fn is_next_clue_occult(&self, header: &Header) -> Result<bool, NoMemory>
        ensures next { IfOk result (λ is. (h : History) → Serves self.now h
            → IsTrue is ↔ IsNextClueOccult h header.now) }
        ensures behind { IfOk result (λ is. (start : Option Base) (journals : List Entry)
            → StandsBehind self.now start journals
            → IsTrue is ↔ IsClueOccultBehind start journals header.now) }
    {
        let facts = self.clue_facts(&header.link)?;
        Ok(may_hide(header.a, &facts, self.reached))
    }

    // Whether a purge is the next one, where its number is. Nothing is known of a point in front of the first header that
    // is kept.
    fn is_next_purge(&self, header: &Header) -> bool
        requires layout { header.now.a < self.now.size }
        ensures next { (h : History) → Serves self.now h → IsTrue result ↔ IsNextPurge h header.now }
        ensures behind { (start : Option Base) (journals : List Entry)
            → StandsBehind self.now start journals
            → IsTrue result ↔ IsPurgeBehind start journals header.now }
        ensures above { IsTrue result → self.now.point < header.now.a }
    {
        let point = header.a;
        if point <= self.point {
            return false;
        }
        if point < self.floor {
            return true;
        }
        is_time(self.kind_of(point))
    }
}

// Whether an occult by clue that tells this count may be next, by what is known of its clue; where the purge to the first header
// that is kept isn't known, nothing is asked of what is shown.
fn may_hide(count: u64, facts: &ClueFacts, reached: bool) -> bool
    ensures { result ≡ (count == facts.now.count && (nat_lt 0 facts.now.shown || not reached)) }
{
    count == u64::from(facts.count) && (facts.shown > 0 || !reached)
}

// Whether a journal of this kind tells a time.
fn is_time(sort: Kind) -> bool
    ensures { IsTrue result ↔ (sort ≡ kind.Time) }
{
    sort == Kind::Time
}
