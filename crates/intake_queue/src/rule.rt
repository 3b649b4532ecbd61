//! The rule of the queue (`Kept`), and its steps. The types here are for the proofs alone: no value of them is made.
//!
//! | Step | The queue | The pass whose view changes |
//! |---|---|---|
//! | it is made (`first`, `Opens`) | empty | the taker's: it has all lanes, and nothing was got |
//! | a lane is lent (`Lends`) | as before | the taker's gives the next lane up, a new one has it |
//! | a push (`Sends`) | the item joins at the back | that lane's: it sent the item |
//! | a pop of an item (`Takes`) | the front item leaves | the taker's: it got the item |
//! | a pop that finds nothing (`Takes`) | empty at this step | none |
//! | a lane returns (`Returns`) | as before | the taker's has what the lane sent, the lane's is spent |
//! | the end (`Total`) | as before | none |
use crate::piece::Piece;
use crate::view::View;
use crossbeam_queue::protocol::{Join, Lesson, Outcome, Protocol, Split};
use std::marker::{Brand, PhantomData};

/// What was sent is what was got and then what the queue holds, and each lane's items count on within its quota.
pub struct ByLane;

impl<T: Piece> Protocol<T, View<T>> for ByLane {
    ghost use Rattle.intake_queue.specs.Lanes.{KeepsRule, unopened};

    ghost holds = { KeepsRule T.lane_of T.index_of };

    ghost first = { unopened };
}

/// The plan of one queue's lanes. The view that a step gives is named by types, and a plan is known only where the queue is
/// made: that call picks it (`Brand`).
pub trait Naming {
    ghost use Rattle.std.specs.Prelude.{ℕ, List};

    ghost plan: { List (ℕ × ℕ) };
}

impl Naming for Brand {
    ghost use Rattle.std.specs.Prelude.{[]};

    ghost plan = { [] };
}

/// The taker's pass is told the plan. The second pass that a step of this kind gives is spent.
pub struct Opens<J> {
    of: PhantomData<J>,
}

impl<T, J: Naming> Split<View<T>> for Opens<J> {
    ghost use Rattle.intake_queue.specs.Lanes.{taker, spent};
    ghost use Rattle.std.specs.Prelude.{[]};

    ghost left = { λ v. taker J.plan [] 0 [] };

    ghost right = { λ v. spent };
}

/// The taker's pass gives the next lane up.
pub struct Lends;

impl<T> Split<View<T>> for Lends {
    ghost use Rattle.std.specs.Prelude.{[], ◌+◌};
    ghost use Rattle.intake_queue.specs.Lanes.{taker, sender};

    ghost left = { λ v. taker v.plan v.got (v.lent + 1) v.back };

    ghost right = { λ v. sender v.plan v.lent [] };
}

/// The taker's pass takes the next lane's in.
pub struct Returns;

impl<T> Join<View<T>> for Returns {
    ghost use Rattle.std.specs.Prelude.{[], ◌++◌, ◌∷◌};
    ghost use Rattle.intake_queue.specs.Lanes.{taker, spent};

    ghost both = { λ v w. taker v.plan v.got v.lent (v.back ++ w.sent ∷ []) };

    ghost spent = { spent };
}

/// A push. While it has quota left, its lane learns that the queue isn't full.
pub struct Sends;

impl<T> Outcome<T, View<T>> for Sends {
    ghost use Rattle.std.specs.Prelude.{◌≡◌, [], ◌++◌, ◌∷◌};
    ghost use Rattle.intake_queue.specs.Lanes.{sender};

    ghost then = { λ v x w. w ≡ sender v.plan v.lane (v.sent ++ x ∷ []) };
}

impl<T> Lesson<T, View<T>> for Sends {
    ghost use Rattle.std.specs.Prelude.{◌<◌, length};
    ghost use Rattle.intake_queue.specs.Lanes.{room};

    ghost fact = { λ v items. length items < room v.plan };
}

/// A pop. Where it finds nothing, the queue was empty under the rule.
pub struct Takes;

impl<T: Piece> Outcome<T, View<T>> for Takes {
    ghost use Rattle.intake_queue.specs.Lanes.{Took};

    ghost then = { Took T.lane_of T.index_of };
}

impl<T: Piece> Lesson<T, View<T>> for Takes {
    ghost use Rattle.intake_queue.specs.Lanes.{Stood};

    ghost fact = { Stood T.lane_of T.index_of };
}

/// All lanes are back: what each sent was got or is in the queue.
pub struct Total;

impl<T: Piece> Lesson<T, View<T>> for Total {
    ghost use Rattle.intake_queue.specs.Lanes.{Settled};

    ghost fact = { λ v items. Settled T.lane_of T.index_of v.plan v.back v.got items };
}
