//! The replies to lines that ask for a clue's journals, or where the ledger stands.

ghost use Rattle.std.specs.Prelude.{◌≡◌, [], Bool, ℕ, List, IfOk};
ghost use Rattle.ledger_model.specs.History.{History};
ghost use Rattle.ledger_model.specs.Texts.{told_reply};
ghost use Rattle.ledger_model.specs.Step.{Step};
ghost use Rattle.ledger_model.specs.declared.job.Job.TheVariants.{Ask};
ghost use Rattle.batch_committer.specs.Attending.{step_in, Attended, FailsAtMostOnce};
ghost use Rattle.ledger_model.specs.declared.outcome.Query.TheVariants as query;
ghost use Rattle.ledger_book.specs.Books.{Serves};

use ledger_book::Book;
use ledger_bytes::{Digest, Items, NoMemory, Refusal};
use script_lines::Reply;
use time_peg::Notary;

/// The journals of a clue.
pub(crate) fn clue_reply(book: &Book, clue: &Digest) -> Result<Reply, NoMemory>
    ensures { IfOk result (λ reply. (h : History) (step : Step) → Serves book.now h
        → reply ≡ told_reply h step (query.Clue clue.now)) }
{
    let (count, kept) = book.clue(clue)?;
    Ok(Reply::Clue {
        count,
        kept: Items::of(kept),
    })
}

/// Where the ledger and its notary stand, where no journal waits. Where the notary fails that is told.
pub(crate) fn head_reply<N: Notary>(book: &Book, notary: &mut N) -> Reply
    ensures told { (failed : Bool)
        × ((h : History) (lane index : ℕ) (line : List ℕ) → Serves book.now h → h.waiting ≡ []
        → (let step = step_in (N.state notary.old) (N.state notary.new) failed lane index line in
        (result ≡ told_reply h step query.Head)
        × Attended (N.state notary.old) (N.state notary.new) h step (Ask query.Head))) }
    ensures once { FailsAtMostOnce (N.state notary.old) (N.state notary.new) }
{
    match notary.head() {
        Ok(stamped) => {
            let head = book.head();
            Reply::Head {
                id: book.id(),
                size: head.size,
                root: head.root,
                blocks: book.blocks(),
                point: book.point(),
                notary_size: stamped.size,
                notary_root: stamped.root,
            }
        }
        Err(_) => Reply::Refused(Refusal::NotaryFault),
    }
}
