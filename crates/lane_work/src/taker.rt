//! What prepared lines are offered to, one after the other, until it wants no more.

ghost use Rattle.lane_work.specs.Offering.{IfGoOn};

use ledger_book::Prepared;

/// Whether a taker wants more.
#[derive(Clone, Copy, Debug, PartialEq, Eq)]
pub enum Flow {
    GoOn,
    Stop,
}

/// What prepared lines are offered to, one after the other.
pub trait Taker {
    ghost use Rattle.ledger_book.specs.declared.prepared.Prepared.{Prepared};
    ghost use Rattle.lane_work.specs.declared.taker.Flow.{Flow};

    /// The taker may be offered an item.
    ghost ready: { Self → Type 0 };

    /// What an offer does: of the taker before, the item, the answer and the taker after.
    ghost offers: { Self → Prepared → Flow → Self → Type 0 };

    fn offer(&mut self, item: Prepared) -> Flow
        requires { ready self.old }
        ensures does { offers self.old item result self.new }
        ensures ready { IfGoOn result (ready self.new) };
}
