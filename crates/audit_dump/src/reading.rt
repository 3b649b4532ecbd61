//! The journals of a dump, checked one after the other as they are read.

ghost use Rattle.std.specs.Prelude.{◌≡◌, [], List, IfOk, IfErr, OnOk, Option};
ghost use Rattle.ledger_bytes.specs.declared.digest.Digest.{Digest as DigestRecord};
ghost use Rattle.journal_record.specs.Items.{Item, most_bytes};
ghost use Rattle.pseudo_genesis.specs.declared.base.Base.{Base as BaseRecord};
ghost use Rattle.audit_dump.specs.Journals.{AreKept, AreKeptSomewhere, HasReadJournals, IsToldIn};
ghost use Rattle.audit_dump.specs.Prepared.{IsPreparedIn};
ghost use Rattle.audit_dump.specs.Tails.{HasFailed};

use crate::front::Front;
use crate::journals::Journals;
use crate::passing::EarlyCheck;
use crate::preparing::{Prepared, Queue, next_prepared};
use crate::walking::Break;
use journal_record::Record;
use ledger_bytes::NoMemory;
use ledger_io::{LineErr, Source, Window};
use member_book::Verifier;
use std::alloc::Global;
use std::thread::Threads;

// How the reading of a dump's journals ends.
#[derive(Clone, Copy, Debug, PartialEq, Eq)]
pub(crate) enum Outcome {
    // All were read, and each passed.
    All,
    // The next one breaks.
    Broken(Break),
    // The next one fails this check first.
    Failed(EarlyCheck),
}

// Reads so many journals, and takes each that passes from the window, up to the first that breaks or fails.
pub(crate) fn read_journals<R: Threads + Sync, S: Source, V: Verifier>(
    rt: &R,
    alloc: Global,
    window: &mut Window,
    source: &mut S,
    verifier: &V,
    front: &Front,
    count: u64,
    journals: &mut Journals,
) -> Result<Outcome, LineErr>
    requires { AreKept front.now.id front.now.base [] journals.old }
    ensures read { IfOk result (HasReadJournals (V.shows verifier.now) front.now count
        (S.state source.old) (S.state source.new) window.old window.new journals.new) }
    ensures counts { OnOk result ((S.state source.new).faults ≡ (S.state source.old).faults) }
    ensures errors { IfErr result (HasFailed most_bytes (S.state source.old) (S.state source.new)
        window.old window.new) }
{
    let id = &front.id;
    let mut queue = Queue::new(alloc);
    for read in 0..count {
        match next_prepared(rt, alloc, window, source, verifier, id, &mut queue) {
            Ok(Ok(next)) => {
                let bytes = &window.as_slice()[..next.len];
                match check_item(alloc, verifier, bytes, &next, journals) {
                    Ok(None) => window.consume(next.len),
                    Ok(Some(check)) => return Ok(Outcome::Failed(check)),
                    Err(NoMemory) => return Err(LineErr::NoMemory),
                }
            }
            Ok(Err(broken)) => return Ok(Outcome::Broken(broken)),
            Err(e) => return Err(e),
        }
    }
    Ok(Outcome::All)
}

// Checks the journal that these bytes are, of which this was made ahead, and keeps what is needed of it where it passes.
fn check_item<V: Verifier>(
    alloc: Global,
    verifier: &V,
    bytes: &[u8],
    ahead: &Prepared,
    journals: &mut Journals,
) -> Result<Option<EarlyCheck>, NoMemory>
    requires is { IsPreparedIn (V.shows verifier.now) journals.old.id.0 bytes.now ahead.now }
    requires kept { AreKeptSomewhere journals.old }
    ensures { IfOk result (λ told. (id : DigestRecord) (start : Option BaseRecord)
        (items : List Item) → AreKept id start items journals.old
        → IsToldIn (V.shows verifier.now) id start items bytes.now told journals.new) }
{
    match Record::decode(bytes) {
        Ok(journal) => journals.take(alloc, verifier, &journal, ahead),
        Err(_) => unreachable!(),
    }
}
