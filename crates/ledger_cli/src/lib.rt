//! The top call of `ledgerctl`: from the words of the command line, the bytes of a script, two files and a notary to the
//! bytes that are written, what is left of them and the exit status.
#![tactic(auto)]

mod beside;
mod boarding;
mod chaining;
mod denial;
mod desk;
mod ending;
mod follower;
mod laws;
mod main_call;
mod numbers;
mod piece;
mod posting;
mod reviving;
mod scheme;
mod scripted;
mod session;
mod signing;
mod standard;
mod surviving;
mod tallies;
mod top;
mod tracing;
mod window;
mod words;

pub use chaining::ChainText;
pub use denial::Denial;
pub use ending::LedgerEnding;
pub use laws::{
    a_run_counts_the_failures_of_its_notary, a_run_that_a_disk_ends_cuts_no_line,
    a_written_receipt_is_shown, lines_of_one_lane_are_answered_in_order,
    the_list_of_a_notary_goes_on,
};
pub use main_call::{Keeping, ledger_main};
pub use session::run_session;
pub use signing::{Request, Signing};
pub use standard::ledger_standard;
pub use top::ledger_top;
pub use words::Command;
