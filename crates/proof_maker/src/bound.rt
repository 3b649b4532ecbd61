//! What a book shows of a time journal that bounds another journal in time.

ghost use Rattle.std.specs.Prelude.{◌≡◌, ◌<◌, Option, IfOk, IfErr, IfSome};
ghost use Rattle.journal_record.specs.Entry.{Entry};
ghost use Rattle.proof_codec.specs.Proofs.{IsTimeHeader};
ghost use Rattle.ledger_model.specs.History.{History};
ghost use Rattle.ledger_book.specs.Books.{Serves};
ghost use Rattle.proof_maker.specs.Making.{NeverFaults};
ghost use Rattle.proof_maker.specs.Parts.{IsAt, Bounds, BoundsIf, IsShortBound, IsMarkOf};
ghost use Rattle.proof_maker.specs.declared.made.MakeErr.TheVariants as make_err;

use crate::MakeErr;
use crate::rows::extension_of;
use journal_record::{Header, Kind};
use ledger_book::Book;
use ledger_bytes::{Bytes, Digest, Refusal, TimeMark};
use std::alloc::Global;

/// A time journal, and how the ledger goes on from the journals in front of it.
#[derive(Drop)]
pub(crate) struct Bound {
    pub(crate) header: Header,
    /// The root over the journals in front of it.
    pub(crate) root: Digest,
    /// The proof that the ledger goes on from them.
    pub(crate) ext: Bytes,
}

impl Bound {
    // That of time journal `jsn`.
    fn of(alloc: Global, book: &Book, jsn: u64) -> Result<Self, MakeErr>
        ensures bounds { IfOk result (λ bound. (h : History) (e : Entry) → Serves book.now h
            → IsAt h jsn e → Bounds h e bound) }
        ensures short { IfOk result IsShortBound }
        ensures err { (h : History) (e : Entry) → Serves book.now h → IsAt h jsn e
            → IfErr result (λ e. e ≡ make_err.NoMemory) }
        ensures own { NeverFaults result }
    {
        let tree = book.tree();
        let Some(header) = time_header(book, jsn) else {
            return Err(MakeErr::Refused(Refusal::NoJournal { size: tree.size() }));
        };
        let root = tree.root_at(jsn)?;
        let ext = extension_of(alloc, tree, jsn)?;
        Ok(Bound { header, root, ext })
    }
}

/// What is shown of the time journal that a mark names, where there is a mark.
pub(crate) fn bound_at(
    alloc: Global,
    book: &Book,
    mark: Option<TimeMark>,
) -> Result<Option<Bound>, MakeErr>
    ensures bounds { IfOk result (λ bound. (h : History) (journal : Option Entry) → Serves book.now h
        → IsMarkOf h journal mark → BoundsIf h journal bound) }
    ensures short { IfOk result (λ bound. IfSome bound IsShortBound) }
    ensures err { (h : History) (journal : Option Entry) → Serves book.now h
        → IsMarkOf h journal mark → IfErr result (λ e. e ≡ make_err.NoMemory) }
    ensures own { NeverFaults result }
{
    match mark {
        Some(mark) => Ok(Some(Bound::of(alloc, book, mark.jsn)?)),
        None => Ok(None),
    }
}

// The header of time journal `jsn`, where it's kept, as it's read from its bytes: a proof shows no header that breaks the
// rules of its layout.
fn time_header(book: &Book, jsn: u64) -> Option<Header>
    ensures time { IfSome result IsTimeHeader }
    ensures header { (h : History) (e : Entry) → Serves book.now h → IsAt h jsn e
        → result ≡ Some e.header }
{
    let header = Header::decode(&book.header(jsn)?.encode()).ok()?;
    (header.kind == Kind::Time).then_some(header)
}
