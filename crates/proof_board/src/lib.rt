//! A board: one writer lets a hash tree grow and publishes it, while provers make inclusion proofs on what was published. A prover
//! reads a copy of the tree that stands still while the writer works on another, and each proof is accepted under the head that
//! is answered with it.
#![tactic(auto)]

mod bare;
mod beside;
mod board;
mod checking;
mod draws;
mod hands;
mod history;
mod opening;
mod parts;
mod pass;
mod provers;
mod proving;
mod rule;
mod shown;
mod stretches;
mod view;
mod writer;
mod writing;

pub use beside::{Session, finish_all, prove_beside, start_all};
pub use board::{Board, BoardErr};
pub use hands::{Hand, Orders, Returned, Room, Tally, Task};
pub use opening::open_board;
pub use parts::Parts;
pub use pass::ProverPass;
pub use provers::start;
pub use writer::BoardWriter;
