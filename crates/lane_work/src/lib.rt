//! Lines of several lanes are prepared by workers side by side, one for each lane, and a taker is offered what they made of
//! them, each lane's in order.
//!
//! `prepare` makes of a line all that the line alone defines. `run_lanes` divides lines by their lanes (`divide`), starts a
//! worker for each lane that has some (`starting`, `working`), which submits what it made to one queue, and offers the
//! taker what comes out of it, on the calling thread (`offering`). A few lines of one lane go without queue and worker
//! (`alone`).
#![tactic(auto)]

mod alone;
mod divide;
mod front;
mod gate;
mod hands;
mod idle;
mod kinds;
mod lanes;
mod offering;
mod preparing;
mod requests;
mod scoped;
mod starting;
mod taker;
mod tools;
mod working;

pub use gate::{Gate, OpenGate};
pub use kinds::{LaneLine, Made};
pub use lanes::run_lanes;
pub use preparing::prepare;
pub use taker::{Flow, Taker};
pub use tools::Tools;
