//! What an auditor reports of a dump: the checks of each journal as it is read (`specs/Known.antt`, `specs/Contents.antt`,
//! `specs/Approvals.antt`, `specs/Reading.antt`), those of the whole (`specs/Ending.antt`), and the report of a dump
//! (`specs/Reports.antt`) and of any bytes (`specs/Breaks.antt`, `specs/Bytes.antt`). Of the program the pieces stand here: reading
//! the front, the journals and what follows them (`specs/Fronts.antt`, `specs/Walking.antt`, `specs/Tails.antt`), checking a
//! journal's parts and who placed it (`specs/Said.antt`, `specs/Deciding.antt`), and what is known in front of the next one
//! (`specs/Passing.antt`).
#![tactic(auto)]

mod auditing;
mod base_purge;
mod claims;
mod contents;
mod deciding;
mod ending;
mod erasing;
mod front;
mod given;
mod journals;
mod late;
mod laws;
mod passing;
mod placing;
mod preparing;
mod purging;
mod reading;
mod report;
mod walking;

pub use auditing::{AuditErr, audit};
pub use given::bytes_are_approvals_in_one_way;
pub use late::Given;
pub use laws::{
    a_dump_has_one_report, accepted_jobs_are_placed, an_audit_reports_its_input,
    an_audit_without_a_fault_is_true, journals_that_pass_are_next, kept_journals_are_next,
    the_bytes_of_a_dump_have_its_report,
};
pub use passing::EarlyCheck;
pub use report::{Check, Fault, LateCheck, Report};
