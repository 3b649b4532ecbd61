//! What a notary's list shows of the bounds of a journal.

ghost use Rattle.std.specs.Prelude.{◌≡◌, ◌≤◌, ◌||◌, true, length, IfOk, IfErr};
ghost use Rattle.std.specs.Option.{is_some};
ghost use Rattle.journal_record.specs.declared.rules.TheConstants.{NOTARY_LIMIT};
ghost use Rattle.proof_maker.specs.Making.{CountsFaults};
ghost use Rattle.proof_maker.specs.Parts.{AreDigests, IsNotedOf, IsShortNoted, IsNotaryErr, index_path};

use crate::MakeErr;
use crate::rows::row_of;
use ledger_bytes::Bytes;
use std::alloc::Global;
use time_peg::Notary;

/// The size of a notary's list, and the paths of two of its entries.
#[derive(Drop)]
pub(crate) struct Noted {
    /// 0 where the notary wasn't asked.
    pub(crate) size: u64,
    /// Each path is empty where no entry is asked for, or none is there.
    pub(crate) lower_path: Bytes,
    pub(crate) upper_path: Bytes,
}

impl Noted {
    /// What is shown of the entries with these indexes. The notary is asked only where there is one.
    pub(crate) fn of<N: Notary>(
        alloc: Global,
        notary: &mut N,
        lower: Option<u64>,
        upper: Option<u64>,
    ) -> Result<Self, MakeErr>
        ensures noted { IfOk result (IsNotedOf (N.state notary.old).entries lower upper) }
        ensures short { IfOk result IsShortNoted }
        ensures err { IfErr result (IsNotaryErr (is_some lower || is_some upper)) }
        ensures same { (N.state notary.new).entries ≡ (N.state notary.old).entries }
        ensures origin { (N.state notary.new).origin ≡ (N.state notary.old).origin }
        ensures faults { CountsFaults result (N.state notary.old).faults (N.state notary.new).faults }
    {
        if lower.is_none() && upper.is_none() {
            return Ok(Noted {
                size: 0,
                lower_path: Bytes::of(Vec::new(alloc)),
                upper_path: Bytes::of(Vec::new(alloc)),
            });
        }
        let size = notary.head()?.size;
        Ok(Noted {
            size,
            lower_path: entry_path(alloc, notary, size, lower)?,
            upper_path: entry_path(alloc, notary, size, upper)?,
        })
    }
}

// The path of the entry with an index, where there is an index and the list of this size has the entry.
fn entry_path<N: Notary>(
    alloc: Global,
    notary: &mut N,
    size: u64,
    index: Option<u64>,
) -> Result<Bytes, MakeErr>
    requires all { size ≡ length (N.state notary.old).entries }
    requires few { size ≤ NOTARY_LIMIT }
    ensures path { IfOk result (λ row. row ≡ index_path (N.state notary.old).entries index) }
    ensures short { IfOk result (AreDigests 24) }
    ensures err { IfErr result (IsNotaryErr true) }
    ensures same { (N.state notary.new).entries ≡ (N.state notary.old).entries }
    ensures origin { (N.state notary.new).origin ≡ (N.state notary.old).origin }
    ensures faults { CountsFaults result (N.state notary.old).faults (N.state notary.new).faults }
{
    match index {
        Some(index) if index < size => {
            let digests = notary.path(alloc, index)?;
            Ok(row_of(alloc, digests.as_slice())?)
        }
        _ => Ok(Bytes::of(Vec::new(alloc))),
    }
}
