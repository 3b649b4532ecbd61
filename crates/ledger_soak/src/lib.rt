//! A soak: random jobs on a ledger in memory, stopped and opened again, with every receipt looked up behind each stop and
//! every proof given to an auditor.
#![tactic(auto)]

mod approvals;
mod auditor;
mod draws;
mod laws;
mod lines;
mod post;
mod receipts;
mod running;
mod summary;
mod task;

pub use laws::soaks_without_stops_agree;
pub use running::{SoakEnd, soak};
pub use summary::Summary;
pub use task::Task;
