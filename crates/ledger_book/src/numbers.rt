//! An index of the numbers that members give their requests.

ghost use Rattle.std.specs.Prelude.{◌≡◌, ℕ, ◌+◌, ◌≤◌, List, [], ◌∷◌, ◌++◌, length, None, Some, OnOk, OnErr, IfOk};
ghost use Rattle.journal_record.specs.declared.header.Header.{Header as HeaderRecord};
ghost use Rattle.ledger_book.specs.Numbered.{from_on, told_of, is_numbered, IndexesNumbers, PutsNumber, IsAdded, IsSameIndex};

mod member_numbers;

use journal_record::{Header, Kind};
use ledger_bytes::NoMemory;
use member_numbers::MemberNumbers;
use std::alloc::Global;
use std::marker::Model;

/// Which record of a member has which number: the last one of each. A contract sees each member's pairs of a number and a
/// journal.
#[derive(Drop)]
pub(crate) struct NumberIndex {
    /// The members in order, up to the last one that has given a number.
    members: Vec<MemberNumbers>,
}

impl Model for NumberIndex {
    ghost use Rattle.std.specs.Prelude.{ℕ, List};

    ghost Value = { List (List (ℕ × ℕ)) };

    ghost view = { λ x. x.members.items };
}

impl NumberIndex {
    /// Nothing has a number.
    pub(crate) fn new(alloc: Global) -> Self
        ensures { (first : ℕ) → IndexesNumbers result first [] }
    {
        NumberIndex {
            members: Vec::new(alloc),
        }
    }

    /// The last record of the member that has the number, where it is journal `first` or a later one.
    pub(crate) fn of(&self, member: u32, number: u64, first: u64) -> Option<u64>
        ensures { result ≡ from_on first (told_of (member, number) self.now) }
    {
        let jsn = self.told(member, number)?;
        if first <= jsn { Some(jsn) } else { None }
    }

    /// Adds journal `jsn`, the next one behind those that were added, and answers what its key told before. After an `Err`
    /// all is as before.
    pub(crate) fn add(&mut self, header: &Header, jsn: u64) -> Result<Option<u64>, NoMemory>
        ensures ok { OnOk result ((first : ℕ) (xs : List HeaderRecord) → IndexesNumbers self.old first xs
            → jsn ≡ first + length xs → IndexesNumbers self.new first (xs ++ header.now ∷ [])) }
        ensures told { IfOk result (λ before. IsAdded header.now self.old jsn before self.new) }
        ensures err { OnErr result (self.new ≡ self.old) }
    {
        if !is_numbered(header) {
            return Ok(None);
        }
        self.put(header.member, header.a, jsn)
    }

    /// Takes back an addition by what it answered. It takes no memory.
    pub(crate) fn take_back(&mut self, header: &Header, jsn: u64, before: Option<u64>)
        ensures { (first : List (List (ℕ × ℕ))) → IsAdded header.now first jsn before self.old
            → IsSameIndex first self.new }
    {
        if !is_numbered(header) {
            return;
        }
        match before {
            Some(last) => {
                let _ = self.put(header.member, header.a, last);
            }
            None => self.forget(header.member, header.a),
        }
    }

    /// Keeps the journals from journal `p` on.
    pub(crate) fn drop_below(&mut self, p: u64)
        ensures { (key : ℕ × ℕ) → told_of key self.new ≡ from_on p (told_of key self.old) }
    {
        for numbers in self.members.iter_mut() {
            numbers.drop_below(p);
        }
    }

    // What a number of a member tells.
    fn told(&self, member: u32, number: u64) -> Option<u64>
        ensures { result ≡ told_of (member, number) self.now }
    {
        self.members.get(member as usize)?.told(number)
    }

    // The number tells this journal from now on. The answer is what it told before; only where that is none it takes memory.
    fn put(&mut self, member: u32, number: u64, jsn: u64) -> Result<Option<u64>, NoMemory>
        ensures ok { OnOk result (PutsNumber self.old self.new (member, number) (Some jsn)) }
        ensures told { IfOk result (λ before. before ≡ told_of (member, number) self.old) }
        ensures absent { OnErr result (told_of (member, number) self.old ≡ None) }
        ensures err { OnErr result (self.new ≡ self.old) }
    {
        match self.members.get_mut(member as usize) {
            Some(numbers) => numbers.put(number, jsn),
            None => {
                self.begin(member, number, jsn)?;
                Ok(None)
            }
        }
    }

    // Adds a member that isn't there yet, with its first number, and those in front of it without one.
    fn begin(&mut self, member: u32, number: u64, jsn: u64) -> Result<(), NoMemory>
        requires { length self.old ≤ member }
        ensures ok { OnOk result (PutsNumber self.old self.new (member, number) (Some jsn)) }
        ensures err { OnErr result (self.new ≡ self.old) }
    {
        let alloc = *self.members.allocator();
        let mut numbers = MemberNumbers::new(alloc);
        let _ = numbers.put(number, jsn)?;
        let missing = member as usize - self.members.len();
        self.members.reserve(missing + 1)?;
        for _ in 0..missing {
            self.members.push_reserved(MemberNumbers::new(alloc));
        }
        self.members.push_reserved(numbers);
        Ok(())
    }

    // The number tells nothing from now on.
    fn forget(&mut self, member: u32, number: u64)
        ensures { PutsNumber self.old self.new (member, number) None }
    {
        if let Some(numbers) = self.members.get_mut(member as usize) {
            numbers.forget(number);
        }
    }
}

// Whether a header is that of a record with a number.
fn is_numbered(header: &Header) -> bool
    ensures { result ≡ is_numbered header.now }
{
    header.kind == Kind::Content && header.a != 0
}
