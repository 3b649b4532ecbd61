//! How a journal is placed in the open block, and what the book notes of it.

ghost use Rattle.std.specs.Prelude.{◌≡◌, ◌+◌, ◌-◌, ◌^◌, ◌<◌, ◌≤◌, List, [], ◌∷◌, ◌++◌, All, true, false, Option, Some, length, IfOk, OnOk, OnErr};
ghost use Rattle.std.specs.List.{AllByRecursion};
ghost use Rattle.ledger_bytes.specs.declared.limits.TheConstants.{MEMBER_LIMIT};
ghost use Rattle.journal_record.specs.Entry.{Entry};
ghost use Rattle.journal_record.specs.Rules.{clue_ok, clue_ord_ok};
ghost use Rattle.journal_record.specs.declared.header.Kind.TheVariants as kind;
ghost use Rattle.clue_index.specs.Added.{Added, trail_of};
ghost use Rattle.clue_index.specs.Trail.{count_of};
ghost use Rattle.clue_index.specs.Index as index;
ghost use Rattle.ledger_model.specs.Clues.{next_ordinal, last_journal};
ghost use Rattle.ledger_model.specs.History.{History, is_purge};
ghost use Rattle.ledger_model.specs.Lawful.{gathers};
ghost use Rattle.ledger_model.specs.Limits.{real_limits};
ghost use Rattle.ledger_model.specs.Members.{is_member};
ghost use Rattle.ledger_model.specs.Outcomes.{with_waiting};
ghost use Rattle.pseudo_genesis.specs.declared.base.Base.{Base};
ghost use Rattle.ledger_model.specs.Behind.{IsNextBehind, ordinal_in, previous_in};
ghost use Rattle.ledger_book.specs.Books.{Stands};
ghost use Rattle.ledger_book.specs.Reading.{StandsBehind};
ghost use Rattle.ledger_book.specs.Fronts.{AddsFront};
ghost use Rattle.ledger_book.specs.Hiders.{AreClued};
ghost use Rattle.ledger_book.specs.Steps.{IsSame, IsAsBefore, MayPlace, IsLeafOf, OpenGathers, point_with, reached_with, with_clue_of, with_time_of};

use super::Book;
use crate::fronts::FrontTargets;
use crate::headers::Numbers;
use crate::hiders::hide_targets;
use clue_index::ClueIndex;
use journal_record::{Header, Kind};
use ledger_bytes::{Digest, NoMemory, TimeMark};
use time_peg::TimeIndex;

impl Book {
    /// The numbers of the next journal, which has this clue.
    pub(super) fn numbers_of(&self, clue: &Digest) -> Numbers
        requires { self.now.size < real_limits.size }
        ensures jsn { result.jsn ≡ self.now.size }
        ensures above { self.now.floor ≤ result.jsn }
        ensures ordinal { (h : History) → Stands self.now h
            → result.ordinal ≡ next_ordinal h clue.now }
        ensures previous { (h : History) → Stands self.now h
            → result.previous ≡ last_journal h clue.now }
        ensures ordinal_in { (a : Added) → index.StandsForTrails self.now.clues a
            → count_of (trail_of a clue.now.0) < 2 ^ 32 - 1
            → result.ordinal ≡ ordinal_in a clue.now }
        ensures previous_in { (a : Added) → index.StandsForTrails self.now.clues a
            → result.previous ≡ previous_in a clue.now }
    {
        let jsn = self.size;
        if *clue == Digest::ZERO {
            return Numbers {
                jsn,
                ordinal: 0,
                previous: 0,
            };
        }
        let (ordinal, previous) = self.clues.next_of(clue);
        Numbers {
            jsn,
            ordinal,
            previous,
        }
    }

    /// Places a journal that is no new member, and has this leaf digest, in the open block.
    pub(super) fn place_record(&mut self, header: &Header, leaf: Digest) -> Result<(), NoMemory>
        requires room { self.old.size < real_limits.size }
        requires leaf { IsLeafOf header.now leaf }
        ensures ok { OnOk result ((h : History) (journal : Entry) → Stands self.old h
            → journal.header ≡ header.now
            → is_member header.now.kind ≡ false → MayPlace h header.now
            → Stands self.new (with_waiting (Some journal) h)) }
        ensures behind { OnOk result ((start : Option Base) (journals : List Entry)
            (journal : Entry) → StandsBehind self.old start journals
            → journal.header ≡ header.now → is_member header.now.kind ≡ false
            → IsNextBehind start journals header.now
            → StandsBehind self.new start (journals ++ journal ∷ [])) }
        ensures size { OnOk result (self.new.size ≡ self.old.size + 1) }
        ensures gathers { OnOk result (gathers header.now.kind ≡ true → OpenGathers self.old
            → OpenGathers self.new) }
        ensures sealed { self.new.sealed ≡ self.old.sealed }
        ensures blocks { self.new.blocks ≡ self.old.blocks }
        ensures err { OnErr result (IsAsBefore self.old self.new) }
        ensures floor { (self.new.limits ≡ self.old.limits) × (self.new.floor ≡ self.old.floor) }
        ensures point { OnOk result (self.new.point ≡ point_with header.now self.old.point) }
        ensures reached { OnOk result (self.new.reached
            ≡ reached_with header.now self.old.floor self.old.reached) }
        ensures same { is_purge header.now.kind ≡ false → IsSame self.old self.new }
    {
        self.headers.reserve(1)?;
        self.hiders.reserve(1)?;
        self.tree.reserve(1)?;
        self.ends.reserve(1)?;
        let clued = self.clued_by(header)?;
        let before = self.numbers.add(header, self.size)?;
        match add_to_indexes(
            &mut self.times,
            &mut self.clues,
            &mut self.fronts,
            self.floor,
            self.size,
            header,
        ) {
            Ok(()) => {}
            Err(error) => {
                self.numbers.take_back(header, self.size, before);
                return Err(error);
            }
        }
        self.tree.add_leaves(&[leaf]);
        self.headers.push_reserved(*header);
        self.hiders.push_reserved(0);
        hide_targets(&mut self.hiders, self.floor, header, clued.as_slice());
        self.size += 1;
        self.point = point_behind(header, self.point);
        self.reached = reached_behind(header, self.floor, self.reached);
        Ok(())
    }

    // The kept journals of the clue that an occult by clue with this header names, and none where it is of another kind.
    fn clued_by(&self, header: &Header) -> Result<Vec<u64>, NoMemory>
        ensures { IfOk result (λ clued. AreClued self.now.clues header.now clued.items) }
    {
        if header.kind != Kind::ClueOccult {
            return Ok(Vec::new(*self.headers.allocator()));
        }
        let (_, clued) = self.clues.of(&header.link)?;
        Ok(clued)
    }

    /// Places a new member, whose journal has this leaf digest, in the open block.
    pub(super) fn place_member(&mut self, header: &Header, leaf: Digest) -> Result<(), NoMemory>
        requires room { self.old.size < real_limits.size }
        requires leaf { IsLeafOf header.now leaf }
        requires few { length self.old.members < MEMBER_LIMIT }
        requires kind { header.now.kind ≡ kind.Member }
        ensures ok { OnOk result ((h : History) (journal : Entry) → Stands self.old h
            → journal.header ≡ header.now
            → header.now.kind ≡ kind.Member → MayPlace h header.now
            → Stands self.new (with_waiting (Some journal) h)) }
        ensures behind { OnOk result ((start : Option Base) (journals : List Entry)
            (journal : Entry) → StandsBehind self.old start journals
            → journal.header ≡ header.now → header.now.kind ≡ kind.Member
            → IsNextBehind start journals header.now
            → StandsBehind self.new start (journals ++ journal ∷ [])) }
        ensures size { OnOk result (self.new.size ≡ self.old.size + 1) }
        ensures gathers { OnOk result (gathers header.now.kind ≡ true → OpenGathers self.old
            → OpenGathers self.new) }
        ensures sealed { self.new.sealed ≡ self.old.sealed }
        ensures blocks { self.new.blocks ≡ self.old.blocks }
        ensures err { OnErr result (IsAsBefore self.old self.new) }
        ensures same { IsSame self.old self.new }
    {
        self.headers.reserve(1)?;
        self.hiders.reserve(1)?;
        self.tree.reserve(1)?;
        self.ends.reserve(1)?;
        self.members.admit(&header.link, header.jsn)?;
        self.tree.add_leaves(&[leaf]);
        self.headers.push_reserved(*header);
        self.hiders.push_reserved(0);
        self.size += 1;
        Ok(())
    }
}

// The point behind a journal with this header, where it was another before.
fn point_behind(header: &Header, point: u64) -> u64
    ensures { result ≡ point_with header.now point }
{
    if header.kind == Kind::Purge {
        header.a
    } else {
        point
    }
}

// Whether the purge to a floor is kept behind a journal with this header, where it was kept before or not.
fn reached_behind(header: &Header, floor: u64, reached: bool) -> bool
    ensures { result ≡ reached_with header.now floor reached }
{
    (header.kind == Kind::Purge && header.a == floor) || reached
}

// Adds a journal, which has this number, to the times where it is a time journal, to the targets in front of the floor where it
// is an occult of one, and else to its clue, where it has one. A purge leaves the times from its point on, and a purge to the
// floor no target in front of it.
fn add_to_indexes(
    times: &mut TimeIndex,
    clues: &mut ClueIndex,
    fronts: &mut FrontTargets,
    floor: u64,
    jsn: u64,
    header: &Header,
) -> Result<(), NoMemory>
    requires { AllByRecursion (λ m. m.jsn < jsn) times.old }
    ensures times { OnOk result (times.new ≡ with_time_of jsn header.now times.old) }
    ensures below { OnOk result (AllByRecursion (λ m. m.jsn < jsn + 1) times.new) }
    ensures clues { OnOk result ((a : Added) → clue_ok header.now.kind header.now.clue ≡ true
        → clue_ord_ok header.now.clue header.now.clue_ord ≡ true
        → index.StandsForTrails clues.old a → a.floor ≤ header.now.jsn
        → All (λ m. m.jsn < header.now.jsn) a.marks
        → index.StandsForTrails clues.new (with_clue_of header.now a)) }
    ensures fronts { OnOk result (AddsFront header.now.kind floor header.now fronts.old fronts.new) }
    ensures err { OnErr result ((times.new ≡ times.old) × (clues.new ≡ clues.old)
        × (fronts.new ≡ fronts.old)) }
{
    if header.kind == Kind::Time {
        return times.add(TimeMark {
            jsn,
            index: header.a,
            time: header.b,
        });
    }
    if header.kind == Kind::Occult {
        if header.a < floor {
            return fronts.add(header.a, header.jsn);
        }
        return Ok(());
    }
    if header.kind == Kind::Purge {
        times.drop_below(header.a);
        if header.a == floor {
            fronts.clear();
        }
        return Ok(());
    }
    add_clue(clues, header)
}

// Adds a journal to its clue, where it has one: the ordinal is 0 where it has none.
fn add_clue(clues: &mut ClueIndex, header: &Header) -> Result<(), NoMemory>
    ensures ok { OnOk result ((a : Added) → clue_ord_ok header.now.clue header.now.clue_ord ≡ true
        → index.StandsForTrails clues.old a → a.floor ≤ header.now.jsn
        → All (λ m. m.jsn < header.now.jsn) a.marks
        → index.StandsForTrails clues.new (with_clue_of header.now a)) }
    ensures err { OnErr result (clues.new ≡ clues.old) }
{
    if header.clue_ord == 0 {
        return Ok(());
    }
    clues.add(&header.clue, header.jsn)
}
