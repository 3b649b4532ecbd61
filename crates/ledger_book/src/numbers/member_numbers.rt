//! The numbers that one member gave its requests.

ghost use Rattle.std.specs.Prelude.{◌≡◌, ℕ, [], None, Some, OnOk, OnErr, IfOk};
ghost use Rattle.ledger_book.specs.Numbered.{from_on, told_in, PutsOne};

use ledger_bytes::NoMemory;
use std::alloc::Global;
use std::collections::BTreeMap;
use std::marker::Model;

/// Which record of one member has which number: the last one of each. A contract sees the pairs of a number and a journal.
#[derive(Drop)]
pub(super) struct MemberNumbers {
    /// No number is above it, so that a greater one is new without a search.
    greatest: u64,
    by: BTreeMap<u64, u64>,
}

impl Model for MemberNumbers {
    ghost use Rattle.std.specs.Prelude.{ℕ, List};
    ghost use Rattle.ledger_book.specs.Numbered.{NoneAbove};

    ghost Value = { List (ℕ × ℕ) };

    ghost view = { λ x. x.by.entries };

    ghost invariant = { λ x. NoneAbove x.greatest x.by.entries };
}

impl MemberNumbers {
    /// The member gave no number.
    pub(super) fn new(alloc: Global) -> Self
        ensures { result ≡ [] }
    {
        MemberNumbers {
            greatest: 0,
            by: BTreeMap::new(alloc),
        }
    }

    /// What a number tells.
    pub(super) fn told(&self, number: u64) -> Option<u64>
        ensures { result ≡ told_in number self.now }
    {
        if number > self.greatest {
            return None;
        }
        self.by.get(&number).copied()
    }

    /// The number tells this journal from now on. The answer is what it told before; only where that is none it takes
    /// memory.
    pub(super) fn put(&mut self, number: u64, jsn: u64) -> Result<Option<u64>, NoMemory>
        ensures ok { OnOk result (PutsOne self.old self.new number (Some jsn)) }
        ensures told { IfOk result (λ before. before ≡ told_in number self.old) }
        ensures absent { OnErr result (told_in number self.old ≡ None) }
        ensures err { OnErr result (self.new ≡ self.old) }
    {
        let before = self.by.insert(number, jsn)?;
        self.greatest = self.greatest.max(number);
        Ok(before)
    }

    /// The number tells nothing from now on.
    pub(super) fn forget(&mut self, number: u64)
        ensures { PutsOne self.old self.new number None }
    {
        let _ = self.by.remove(&number);
    }

    /// Keeps the journals from journal `p` on.
    pub(super) fn drop_below(&mut self, p: u64)
        ensures { (number : ℕ) → told_in number self.new ≡ from_on p (told_in number self.old) }
    {
        self.by.retain(|_, jsn| *jsn >= p);
    }
}
