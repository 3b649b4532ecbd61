//! A queue through which lanes hand items to one taker, each lane's in order and each item once.
//!
//! `Intake::new` plans the lanes: each has the number of its first item, and a quota of items. It gives each lane a pass
//! and the taker one. A pass is spent by each call and comes back from it with what it now knows: a lane's, what the lane
//! sent; the taker's, what was taken. `Intake::close` takes all passes in and says how the two belong together.
#![tactic(auto)]

mod intake;
mod piece;
mod rule;
mod view;

pub use intake::{Intake, LanePass, TakerPass};
pub use piece::Piece;
pub use view::View;
