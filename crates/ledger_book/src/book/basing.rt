//! Books that begin behind a base, and the bases that a book tells.

ghost use Rattle.std.specs.Prelude.{◌≡◌, ◌-◌, ◌≤◌, [], ◌++◌, length, map, filter, count_by, take, nat_lt, Some, IfOk, OnOk};
ghost use Rattle.std.specs.Option.{option_to_list};
ghost use Rattle.ledger_bytes.specs.declared.limits.TheConstants.{MEMBER_LIMIT};
ghost use Rattle.member_book.specs.Members.{count_below};
ghost use Rattle.ledger_model.specs.Bases.{base_of};
ghost use Rattle.ledger_model.specs.History.{History, point};
ghost use Rattle.ledger_model.specs.Limits.{AreWithin};
ghost use Rattle.pseudo_genesis.specs.Bases.{IsBase, HasWidths, HasCounts};
ghost use Rattle.ledger_book.specs.Basing.{member_with};
ghost use Rattle.ledger_book.specs.Books.{Stands, Serves};
ghost use Rattle.ledger_book.specs.Steps.{IsCut};
ghost use Rattle.ledger_book.specs.Reading.{EndsWith, StandsBehind};

use super::Book;
use crate::fronts::FrontTargets;
use crate::numbers::NumberIndex;
use clue_index::ClueIndex;
use ledger_bytes::{Digest, Items, NoMemory, keep_from};
use ledger_model::Limits;
use member_book::MemberBook;
use merkle_batch::Tree;
use merkle_tree::Head;
use pseudo_genesis::Base;
use std::alloc::Global;
use time_peg::TimeIndex;

impl Book {
    /// The book of all journals in front of a base's point, of which none is kept. It knows of no purge so far: the one that
    /// made the base stands behind it.
    pub fn from_base(alloc: Global, base: &Base, limits: Limits) -> Result<Self, NoMemory>
        requires base { IsBase base.now }
        requires widths { HasWidths base.now }
        requires limits { AreWithin limits }
        ensures stands { IfOk result (λ book. (h : History) → EndsWith base.now h → Stands book h) }
        ensures behind { IfOk result (λ book. StandsBehind book (Some base.now) []) }
        ensures floor { IfOk result (λ book. (book.floor ≡ base.now.point) × (book.point ≡ 0)) }
        ensures settled { IfOk result (λ book. book.sealed ≡ book.size) }
        ensures blocks { IfOk result (λ book. book.blocks ≡ base.now.blocks) }
        ensures limits { IfOk result (λ book. book.limits ≡ limits) }
    {
        let members = members_with(alloc, base.keys.as_slice())?;
        let mut clues = ClueIndex::from_states(alloc, base.clues.as_slice())?;
        clues.drop_below(base.point);
        let tree = Tree::from_peaks(alloc, base.point, base.peaks.as_slice())?;
        let root = tree.root();
        Ok(Book {
            limits,
            floor: base.point,
            reached: false,
            size: base.point,
            point: 0,
            blocks: base.blocks,
            head: Head {
                size: base.point,
                root,
            },
            ends: Vec::new(alloc),
            id: base.id,
            members,
            clues,
            hiders: Vec::new(alloc),
            fronts: FrontTargets::new(alloc),
            numbers: NumberIndex::new(alloc),
            times: TimeIndex::new(alloc),
            headers: Vec::new(alloc),
            tree,
        })
    }

    /// The base at journal `p`, which stands for all journals in front of it.
    pub fn base_at(&self, p: u64) -> Result<Base, NoMemory>
        requires low { self.now.floor ≤ p }
        requires some { 1 ≤ p }
        requires high { p ≤ self.now.size }
        ensures base { IfOk result (λ base. (h : History) → Serves self.now h → base ≡ base_of h p) }
        ensures point { IfOk result (λ base. base.point ≡ p) }
        ensures counts { IfOk result HasCounts }
    {
        self.told_base(p)
    }

    /// .. and where journals in front of `p` may not be kept, nothing is said of it.
    pub(super) fn told_base(&self, p: u64) -> Result<Base, NoMemory>
        ensures base { IfOk result (λ base. (h : History) → Serves self.now h → self.now.floor ≤ p
            → 1 ≤ p → base ≡ base_of h p) }
        ensures point { IfOk result (λ base. base.point ≡ p) }
        ensures counts { IfOk result HasCounts }
    {
        let peaks = match self.tree.peaks_at(p) {
            Ok(peaks) => peaks,
            Err(_) => return Err(NoMemory),
        };
        let keys = self.keys_at(p)?;
        let clues = self.clues.state_at(p)?;
        Ok(Base {
            id: self.id,
            point: p,
            blocks: self.blocks_at(p),
            peaks: Items::of(peaks),
            keys: Items::of(keys),
            clues: Items::of(clues),
        })
    }

    // How many blocks had ended where there were `p` journals.
    fn blocks_at(&self, p: u64) -> u64
        ensures { result ≡ self.now.blocks - length (filter (λ end. nat_lt p end) self.now.ends) }
    {
        self.blocks
            .saturating_sub(count_above(self.ends.as_slice(), p))
    }

    // The keys of the members that were admitted in front of journal `p`.
    fn keys_at(&self, p: u64) -> Result<Vec<Digest>, NoMemory>
        ensures keys { IfOk result (λ keys. keys.items
            ≡ map (λ m. m.key) (take (count_below p self.now.members) self.now.members)) }
        ensures few { IfOk result (λ keys. length keys.items ≤ MEMBER_LIMIT) }
    {
        let mut keys = Vec::new(*self.headers.allocator());
        keys.reserve(self.members.count() as usize)?;
        for number in 0..self.members.count_at(p) {
            add_key(&mut keys, self.members.key(number))?;
        }
        Ok(keys)
    }

    /// Keeps only what journals from the point on need. It takes no memory.
    pub fn drop_below(&mut self, p: u64)
        requires low { self.old.floor ≤ p }
        requires high { p ≤ self.old.sealed }
        ensures serves { (h : History) → Serves self.old h → p ≡ point h → Serves self.new h }
        ensures floor { self.new.floor ≡ p }
        ensures same { IsCut self.old self.new }
    {
        let count = (p - self.floor) as usize;
        keep_from(&mut self.headers, count, 0);
        keep_from(&mut self.hiders, count, 0);
        self.ends.retain(|end| *end > p);
        let _ = self.tree.forget_below(p);
        self.clues.drop_below(p);
        self.numbers.drop_below(p);
        self.floor = p;
    }
}

// How many of some ends lie above `p`.
fn count_above(ends: &[u64], p: u64) -> u64
    ensures { result ≡ count_by (λ end. nat_lt p end) ends.now }
{
    ends.iter().filter(|end| **end > p).count() as u64
}

// Adds a key, where there is one.
fn add_key(keys: &mut Vec<Digest>, key: Option<Digest>) -> Result<(), NoMemory>
    ensures { OnOk result (keys.new.items ≡ keys.old.items ++ option_to_list key) }
{
    if let Some(key) = key {
        keys.push(key)?;
    }
    Ok(())
}

// The members with these keys, whose journals aren't kept.
fn members_with(alloc: Global, keys: &[Digest]) -> Result<MemberBook, NoMemory>
    requires least { 2 ≤ length keys.now }
    requires most { length keys.now ≤ MEMBER_LIMIT }
    ensures { IfOk result (λ members. members ≡ map member_with keys.now) }
{
    let mut members = MemberBook::new(alloc, &keys[0], &keys[1])?;
    for key in &keys[2..] {
        members.admit(key, 0)?;
    }
    Ok(members)
}
