//! Which journals in front of the first kept one are named by occults, where a book begins behind a base.

ghost use Rattle.std.specs.Prelude.{◌≡◌, [], OnOk, OnErr};
ghost use Rattle.ledger_book.specs.Fronts.{namer_in, Puts};

use ledger_bytes::NoMemory;
use std::alloc::Global;
use std::collections::BTreeMap;
use std::marker::Model;

/// The targets of occults that aren't kept, of which nothing but that is known. They are forgotten once the purge to the first
/// kept journal tells that they are gone. A contract sees the pairs of a target and the occult that names it.
#[derive(Drop)]
pub(crate) struct FrontTargets {
    by: BTreeMap<u64, u64>,
}

impl Model for FrontTargets {
    ghost use Rattle.std.specs.Prelude.{ℕ, List};

    ghost Value = { List (ℕ × ℕ) };

    ghost view = { λ x. x.by.entries };
}

impl FrontTargets {
    /// None is named.
    pub(crate) fn new(alloc: Global) -> Self
        ensures { result ≡ [] }
    {
        FrontTargets {
            by: BTreeMap::new(alloc),
        }
    }

    /// The occult that names journal `n`, where one does.
    pub(crate) fn of(&self, n: u64) -> Option<u64>
        ensures { result ≡ namer_in n self.now }
    {
        self.by.get(&n).copied()
    }

    /// Occult `jsn` names `target`. After an `Err` all is as before.
    pub(crate) fn add(&mut self, target: u64, jsn: u64) -> Result<(), NoMemory>
        ensures ok { OnOk result (Puts self.old self.new target jsn) }
        ensures err { OnErr result (self.new ≡ self.old) }
    {
        self.by.insert(target, jsn)?;
        Ok(())
    }

    /// Forgets all.
    pub(crate) fn clear(&mut self)
        ensures { self.new ≡ [] }
    {
        self.by.clear();
    }
}
