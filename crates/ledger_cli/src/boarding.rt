//! How a board follows a ledger.

ghost use Rattle.std.specs.Prelude.{◌≡◌, ◌⊎◌, ◌-◌, ◌≤◌, ◌<◌, [], ℕ, All, MatchBool};
ghost use Rattle.ledger_cli.specs.Boards.{IsAlone, IsBlockEnd, lasting};
ghost use Rattle.ledger_book.specs.Books.{Serves};
ghost use Rattle.ledger_model.specs.History.{History, size};
ghost use Rattle.ledger_model.specs.Lawful.{IsBlock};
ghost use Rattle.proof_board.specs.Words.{history_of, waiting_of};
ghost use Rattle.ledger_cli.specs.Beside.{IsPublished, posted_by};

use crate::follower::Follower;
use crate::posting::Posting;
use journal_record::Kind;
use ledger_book::Book;
use ledger_bytes::Sha;
use merkle_batch::Tree;
use std::sync::Wait;

/// How many leaves a board keeps at most, but for those with which it began.
pub(crate) const BOARD_LIMIT: u64 = 1_048_576;

// Whether a book's last journal stands in a block of its own: it is of a kind that shares none.
fn ends_alone(book: &Book) -> bool
    ensures { (h : History) → Serves book.now h → MatchBool result (IsAlone h) (IsAlone h → ⊥) }
{
    match book.header(book.size() - 1) {
        Some(header) => !matches!(header.kind, Kind::Content | Kind::Member),
        None => false,
    }
}

impl<'r, R: Wait> Posting<'r, R> {
    // The greatest size, among those that the board may have, at which a block of a book ended since the last look, where no journal
    // waits. One job ends one block, or two: the open one, and that of a journal which stands alone.
    fn last_end(&self, book: &Book) -> u64
        ensures within { self.now.size < result → result ≤ book.now.tree.size }
        ensures few { self.now.size < result → result ≤ self.now.limit }
        ensures ended { self.now.size < result → (h : History) → Serves book.now h
            → All IsBlock h.closed → h.waiting ≡ [] → IsBlockEnd h result }
        ensures most { (h : History) → Serves book.now h → (n : ℕ)
            → (n ≡ size h) ⊎ ((n ≡ size h - 1) × IsAlone h) → n ≤ self.now.limit → n ≤ result }
    {
        let size = book.tree().size();
        if size <= self.limit {
            size
        } else if size - 1 == self.limit && ends_alone(book) {
            size - 1
        } else {
            self.size
        }
    }

    // Publishes the leaves of a tree up to this size, as one batch. Where memory is missing, none is published from then on.
    fn publish_to(&mut self, tree: &Tree<Sha>, size: u64)
        requires more { self.old.size < size }
        requires within { size ≤ tree.now.size }
        requires none { waiting_of self.old.writer ≡ [] }
        ensures same { lasting (posted_by self.new) ≡ lasting (posted_by self.old) }
        ensures published { MatchBool self.new.lacking (history_of self.new.writer ≡ history_of self.old.writer)
            (IsPublished self.old self.new tree.now size) }
    {
        self.lacking = true;
        let Ok(stretch) = tree.stretch(self.size, size) else {
            return;
        };
        let Ok(()) = self.writer.add_stretch(stretch) else {
            return;
        };
        if let Ok(head) = self.writer.publish(self.rt) {
            self.size = head.size;
            self.lacking = false;
        }
    }
}

impl<'r, R: Wait> Follower for Posting<'r, R> {
    ghost use Rattle.std.specs.Prelude.{Some};
    ghost use Rattle.ledger_cli.specs.Beside.{posted_by};

    ghost board = { λ s. Some (posted_by s) };

    /// Publishes the leaves of whole blocks that were added since the last look, where no journal waits.
    fn look(&mut self, book: &Book) {
        if self.lacking || book.unsealed() != 0 {
            return;
        }
        let end = self.last_end(book);
        if self.size < end {
            self.publish_to(book.tree(), end);
        }
    }

    fn lacks(&self) -> bool {
        self.lacking
    }
}
