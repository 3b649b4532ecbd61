//! Why a job that asks for something is refused.

ghost use Rattle.std.specs.Prelude.{◌≡◌, ◌⊎◌, ◌<◌, ◌≤◌, IfSome, IfNone};
ghost use Rattle.ledger_bytes.specs.declared.refusal.Refusal.TheVariants.{NoJournal, Purged, BadSize};
ghost use Rattle.ledger_model.specs.History.{History};
ghost use Rattle.ledger_model.specs.Judgements.{own_refusal};
ghost use Rattle.ledger_model.specs.Proofs as proofs;
ghost use Rattle.ledger_model.specs.declared.job.Job.TheVariants as asked;
ghost use Rattle.ledger_model.specs.declared.limits.Limits.{Limits};
ghost use Rattle.ledger_book.specs.Books.{Serves};

use super::Book;
use ledger_bytes::Refusal;
use ledger_model::Query;
use script_lines::Which;

impl Book {
    /// Why journal `n` has no proof, where it has none: `NoJournal` where there is no such journal, with the size, and then
    /// `Purged` where it lies below the point.
    pub fn prove_refusal(&self, n: u64) -> Option<Refusal>
        ensures why { (h : History) → Serves self.now h → result ≡ proofs.prove_refusal h n }
        ensures kinds { IfSome result (λ why. (why ≡ NoJournal self.now.size) ⊎ (why ≡ Purged self.now.point)) }
    {
        if n >= self.size {
            Some(Refusal::NoJournal { size: self.size })
        } else if n < self.point {
            Some(Refusal::Purged { point: self.point })
        } else {
            None
        }
    }

    /// Why what is asked isn't told, as far as the ledger alone tells it: nothing is known of the notary's list.
    pub(super) fn ask_refusal(&self, query: &Query) -> Option<Refusal>
        ensures { (limits : Limits) (h : History) → Serves self.now h
            → result ≡ own_refusal limits h (asked.Ask query.now) }
    {
        match query {
            Query::Prove { n } => self.prove_refusal(*n),
            Query::Extend { which, m } => match which {
                Which::Ledger => self.ledger_refusal(*m),
                Which::Notary => None,
            },
            Query::Get { .. } | Query::Clue { .. } | Query::Head => None,
        }
    }

    /// Why there is no proof that the ledger goes on from its first `m` journals, where there is none: `BadSize` where they are
    /// none or not so many are there, with the size, and then `Purged` where more lie below the point.
    pub fn ledger_refusal(&self, m: u64) -> Option<Refusal>
        ensures why { (h : History) → Serves self.now h → result ≡ proofs.extend_refusal h m }
        ensures kinds { IfSome result (λ why. (why ≡ BadSize self.now.size) ⊎ (why ≡ Purged self.now.point)) }
        ensures within { IfNone result ((0 < m) × (m ≤ self.now.size) × (self.now.point ≤ m)) }
    {
        if m == 0 || m > self.size {
            Some(Refusal::BadSize { size: self.size })
        } else if m < self.point {
            Some(Refusal::Purged { point: self.point })
        } else {
            None
        }
    }
}
