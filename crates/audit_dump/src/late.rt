//! The checks that are made once all of a dump was read.

ghost use Rattle.std.specs.Prelude.{◌≡◌, ◌↔◌, ◌+◌, ◌≤◌, ◌^◌, IsTrue, List, Option, length};
ghost use Rattle.std.specs.Option.{option_map};
ghost use Rattle.journal_record.specs.Items.{Item};
ghost use Rattle.pseudo_genesis.specs.declared.base.Base.{Base};
ghost use Rattle.audit_dump.specs.Audits.{IsHeadShown, dump_behind};
ghost use Rattle.audit_dump.specs.Breaks.{Tail};
ghost use Rattle.audit_dump.specs.Claims.{claims_of};
ghost use Rattle.audit_dump.specs.Ending.{Given as GivenRecord, Passes};
ghost use Rattle.audit_dump.specs.Ending.Late.{of_id, of_ledger, of_purge};
ghost use Rattle.audit_dump.specs.Journals.{AreHeld};
ghost use Rattle.audit_dump.specs.Reports.{IsEndFault};
ghost use Rattle.audit_dump.specs.Tails.{IsEndingOf};
ghost use Rattle.audit_dump.specs.Told.{fault_of};
ghost use Rattle.audit_dump.specs.declared.report.Check.TheVariants as checks;

use crate::ending::{Ending, is_notary_list};
use crate::journals::Journals;
use crate::report::{Check, Fault, LateCheck};
use ledger_bytes::Digest;
use merkle_tree::Head;

/// What an auditor is given to hold a dump against.
#[derive(Clone, Copy, Debug, PartialEq, Eq)]
pub struct Given {
    /// The ledger's id.
    pub id: Digest,
    /// The ledger's head.
    pub ledger: Head,
    /// The notary's head.
    pub notary: Head,
}

// The first check at the end that fails, and where; none where all are passed.
pub(crate) fn first_fault(given: &Given, journals: &Journals, ending: &Ending) -> Option<Fault>
    requires few { journals.now.erasures.first + length journals.now.erasures.marks ≤ 2 ^ 32 }
    ensures { (start : Option Base) (items : List Item) (tail : Tail)
        → AreHeld journals.now.id start items journals.now
        → IsEndingOf (claims_of journals.now.id.0 start items) tail ending.now
        → IsEndFault given.now (dump_behind journals.now.id start items tail)
        (option_map fault_of result) }
{
    if !has_id(given, journals) {
        return Some(late(LateCheck::Id, 0));
    }
    if let Some(number) = journals.erasures.first_wrong() {
        return Some(late(LateCheck::Erasures, number));
    }
    if !is_base_purged(journals) {
        return Some(late(LateCheck::Purge, journals.first()));
    }
    if !has_ledger_head(given, journals, ending) {
        return Some(late(LateCheck::Ledger, ending.head.size));
    }
    if let Some(number) = ending.unmet {
        return Some(late(LateCheck::Times, number));
    }
    if !is_notary_list(ending, &given.notary) {
        return Some(late(LateCheck::Notary, ending.count));
    }
    None
}

// The fault of a check at the end.
fn late(check: LateCheck, place: u64) -> Fault
    ensures { result ≡ record { check = checks.Late check; place = place } }
{
    Fault {
        check: Check::Late(check),
        place,
    }
}

// Whether the dump's id is the given one, and that of the ledger that it shows.
fn has_id(given: &Given, journals: &Journals) -> bool
    ensures { (start : Option Base) (items : List Item) (tail : Tail)
        → AreHeld journals.now.id start items journals.now
        → (IsTrue result
        ↔ Passes given.now (dump_behind journals.now.id start items tail) of_id) }
{
    given.id == journals.id && journals.own == Some(journals.id)
}

// Whether the purge that made the base was read, where there is a base.
fn is_base_purged(journals: &Journals) -> bool
    ensures { (given : GivenRecord) (start : Option Base) (items : List Item) (tail : Tail)
        → AreHeld journals.now.id start items journals.now
        → (IsTrue result
        ↔ Passes given (dump_behind journals.now.id start items tail) of_purge) }
{
    match &journals.purge {
        Some(purge) => purge.was_read(),
        None => true,
    }
}

// Whether the head over all journals is the one that the dump tells, and the given one.
fn has_ledger_head(given: &Given, journals: &Journals, ending: &Ending) -> bool
    // Where there is a base or a journal.
    ensures { (start : Option Base) (items : List Item) (tail : Tail)
        → AreHeld journals.now.id start items journals.now
        → Passes given.now (dump_behind journals.now.id start items tail) of_id
        → ending.now.head ≡ tail.head
        → (IsTrue result
        ↔ Passes given.now (dump_behind journals.now.id start items tail) of_ledger) }
{
    match head_shown(journals) {
        Some(head) => are_same(&ending.head, &head, &given.ledger),
        None => false,
    }
}

// Whether the head that is told is the one that is shown, and the given one.
fn are_same(told: &Head, shown: &Head, given: &Head) -> bool
    ensures { IsTrue result ↔ ((told.now ≡ shown.now) × (told.now ≡ given.now)) }
{
    told == shown && told == given
}

// The head over all journals, where there is a base or a journal.
fn head_shown(journals: &Journals) -> Option<Head>
    ensures { (start : Option Base) (items : List Item)
        → AreHeld journals.now.id start items journals.now → IsHeadShown start items result }
{
    match &journals.standing {
        Some(standing) => standing.head(),
        None => None,
    }
}
