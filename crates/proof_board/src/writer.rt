//! What adds leaves to a board.

ghost use Rattle.std.specs.Prelude.{◌≡◌, false, [], drop};
ghost use Rattle.proof_board.specs.History.{head_of, all_leaves};

use crate::history::Counter;
use crate::rule::Grows;
use crate::shown::{Growing, Shown};
use crate::view::View;
use ledger_bytes::Sha;
use left_right::writer::Writer;
use merkle_batch::Stretch;
use std::alloc::Global;

/// What adds leaves to a board and publishes them. It isn't `Drop`: end it by [`close`](crate::Board::close).
pub struct BoardWriter {
    pub(crate) alloc: Global,
    pub(crate) writer: Writer<Shown, Growing, View, Grows>,
    pub(crate) counter: Counter,
    pub(crate) waiting: Vec<Stretch<Sha>>,
    // Memory was missing in the middle of a publish; from then on none is there.
    pub(crate) stuck: bool,
    ghost counted: { counter ≡ head_of writer.desk.shown.value.at.book },
    ghost whole: { writer.desk.shown.value.leaves ≡ all_leaves writer.desk.shown.value.at.log },
    ghost ready: { stuck ≡ false → drop writer.behind writer.log.items ≡ [] },
}
