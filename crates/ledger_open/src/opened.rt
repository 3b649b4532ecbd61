//! What making or opening a ledger gives.

use crate::Places;
use ledger_book::Book;
use twin_file::Twin;

/// A ledger that is open: its book, its two files, and where the journals of the open file stand.
#[derive(Drop)]
pub struct Opened {
    pub book: Book,
    pub twin: Twin,
    pub places: Places,
}
