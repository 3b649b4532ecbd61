//! What an auditor reports of a dump.

ghost use Rattle.std.specs.Prelude.{◌≡◌};
ghost use Rattle.audit_dump.specs.Reports.{number_of};
ghost use Rattle.audit_dump.specs.Told.{check_of};

use crate::EarlyCheck;

/// A check that is made once all of a dump was read. They are made in this order.
#[derive(Clone, Copy, Debug, PartialEq, Eq)]
pub enum LateCheck {
    /// The dump is of the given ledger.
    Id,
    /// Contents are missing exactly where an occult hides them.
    Erasures,
    /// The purge that made the base is in the dump.
    Purge,
    /// The dump has the given head of the ledger.
    Ledger,
    /// The time journals are the notary's entries.
    Times,
    /// The entries are the notary's list.
    Notary,
}

/// A check of a dump.
#[derive(Clone, Copy, Debug, PartialEq, Eq)]
pub enum Check {
    /// That its bytes are those of a dump.
    Form,
    /// Of a journal as it is read.
    Early(EarlyCheck),
    /// Of all, once it was read.
    Late(LateCheck),
}

impl Check {
    /// The number by which a report names it: 1 for the form, 3 to 5 for those of a journal, and 2 and 6 to 10 for those at the
    /// end.
    pub fn number(self) -> u8
        ensures { result ≡ number_of (check_of self) }
    {
        match self {
            Check::Form => 1,
            Check::Early(EarlyCheck::Order) => 3,
            Check::Early(EarlyCheck::Parts) => 4,
            Check::Early(EarlyCheck::Approvals) => 5,
            Check::Late(LateCheck::Id) => 2,
            Check::Late(LateCheck::Erasures) => 6,
            Check::Late(LateCheck::Purge) => 7,
            Check::Late(LateCheck::Ledger) => 8,
            Check::Late(LateCheck::Times) => 9,
            Check::Late(LateCheck::Notary) => 10,
        }
    }
}

/// A check that failed, and where.
#[derive(Clone, Copy, Debug, PartialEq, Eq)]
pub struct Fault {
    pub check: Check,
    /// A byte of the dump, counted from 0, where its form is wrong; else the number of a journal, or a size.
    pub place: u64,
}

/// What is reported of a dump. With a fault of its form or of a journal the counts are those of the journals in front of it.
#[derive(Clone, Copy, Debug, PartialEq, Eq)]
pub struct Report {
    /// How many journals there are, with those that the base stands for.
    pub size: u64,
    /// How many journals were read.
    pub kept: u64,
    /// The number of the first of them.
    pub point: u64,
    /// Of how many the content was erased.
    pub occulted: u64,
    /// How many are time journals.
    pub times: u64,
    /// The first check that fails, where one does.
    pub fault: Option<Fault>,
}
