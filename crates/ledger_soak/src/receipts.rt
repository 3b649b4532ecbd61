//! The receipts that were written.

ghost use Rattle.std.specs.Prelude.{◌≡◌, ◌<◌, count_by};
ghost use Rattle.ledger_book.specs.Books.{Serves};
ghost use Rattle.ledger_model.specs.Dues.{HasLeaf};
ghost use Rattle.ledger_model.specs.History.{History, journals};
ghost use Rattle.ledger_soak.specs.Auditing.{is_lost};

use crate::lines::leaf_of;
use ledger_book::Book;
use ledger_bytes::Digest;

/// A receipt: a journal's number and its leaf digest.
#[derive(Clone, Copy, Debug, PartialEq, Eq)]
pub(crate) struct Receipt {
    pub(crate) jsn: u64,
    pub(crate) leaf: Digest,
}

impl Receipt {
    /// That of the last journal of a book.
    pub(crate) fn of_last(book: &Book) -> Self
        ensures { (h : History) → Serves book.now h → HasLeaf (journals h) result.jsn result.leaf }
    {
        let jsn = book.size() - 1;
        Receipt {
            jsn,
            leaf: leaf_of(book, jsn),
        }
    }

    // Whether the book's ledger, which hasn't purged the journal, has another one in its place, or none.
    fn is_lost(&self, book: &Book) -> bool
        ensures { (h : History) → Serves book.now h → result ≡ is_lost h self.now }
    {
        if self.jsn < book.point() {
            return false;
        }
        match book.tree().leaf(self.jsn) {
            Ok(leaf) => leaf != self.leaf,
            Err(_) => true,
        }
    }
}

/// How many of these are lost.
pub(crate) fn count_lost(receipts: &[Receipt], book: &Book) -> u64
    ensures { (h : History) → Serves book.now h → result ≡ count_by (is_lost h) receipts.now }
{
    let mut lost = 0;
    for receipt in receipts {
        if receipt.is_lost(book) {
            lost += 1;
        }
    }
    lost
}
