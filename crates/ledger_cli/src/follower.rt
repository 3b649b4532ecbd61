//! What follows a session: a board beside it, or nobody.

ghost use Rattle.std.specs.Prelude.{◌≡◌};

use ledger_book::Book;

/// What looks at the book of a ledger whenever a session has placed something there.
pub(crate) trait Follower {
    ghost use Rattle.std.specs.Prelude.{◌≡◌, ℕ, All, Option};
    ghost use Rattle.ledger_book.specs.Books.{Serves};
    ghost use Rattle.ledger_model.specs.History.{History};
    ghost use Rattle.ledger_model.specs.Lawful.{IsBlock};
    ghost use Rattle.ledger_cli.specs.Boards.{Posted, IsFollowed, IsNextTo, is_lacking, lasting_of};

    /// What is known of a board, where there is one.
    ghost board: { Self → Option Posted };

    /// Looks at the book, whose ledger went on by one step since the last look. Where there is no memory for what it is to do, it does nothing from then on, and lacks memory.
    fn look(&mut self, book: &Book)
        ensures same { lasting_of (board self.new) ≡ lasting_of (board self.old) }
        ensures follows { (first : ℕ) (h g : History) → Serves book.now g → All IsBlock g.closed
            → IsNextTo h g → IsFollowed first h (board self.old) → IsFollowed first g (board self.new) };

    /// Whether memory was missing.
    fn lacks(&self) -> bool
        ensures { result ≡ is_lacking (board self.now) };
}

/// Nobody follows.
#[derive(Clone, Copy)]
pub(crate) struct Nobody;

impl Follower for Nobody {
    ghost use Rattle.std.specs.Prelude.{None};

    ghost board = { λ s. None };

    fn look(&mut self, _book: &Book) {}

    fn lacks(&self) -> bool {
        false
    }
}
