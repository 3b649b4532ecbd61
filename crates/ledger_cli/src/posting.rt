//! What lets a board follow a ledger.

ghost use Rattle.std.specs.Prelude.{◌≡◌, ◌+◌, [], false};
ghost use Rattle.proof_board.specs.Words.{shown_by, waiting_of};
ghost use Rattle.ledger_cli.specs.Boards.{board_limit, published_size};

use proof_board::BoardWriter;
use std::alloc::Global;

/// A board's writer, by which the board follows a ledger: it publishes the leaves of whole blocks, as long as the board keeps
/// few enough. It isn't `Drop`, since the writer isn't.
pub(crate) struct Posting<'r, R> {
    pub(crate) rt: &'r R,
    pub(crate) alloc: Global,
    pub(crate) writer: BoardWriter,
    // The size of the list that is published, and the most that it may become.
    pub(crate) size: u64,
    pub(crate) limit: u64,
    // Memory was missing; from then on nothing is published.
    pub(crate) lacking: bool,
    ghost sized: { size ≡ published_size (shown_by writer) },
    ghost ready: { lacking ≡ false → waiting_of writer ≡ [] },
    ghost limited: { limit ≡ (shown_by writer).base.floor + board_limit },
}
