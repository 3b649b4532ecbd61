//! That the dump of a ledger has no fault, where the auditor is told the ledger's id and both heads. Which histories a ledger has
//! stands in `specs/Runs.antt`. Only laws stand here.
#![tactic(auto)]

mod laws;

pub use laws::{
    audits_of_runs_have_no_fault, bytes_of_runs_have_no_fault, dumps_have_the_ledgers_head,
    dumps_have_the_notarys_list, dumps_have_the_purge_of_their_base, dumps_have_their_id,
    dumps_have_their_times, dumps_miss_what_is_hidden, dumps_of_runs_are_dumps,
    dumps_of_runs_have_no_fault, journals_of_runs_are_placed, ledgers_have_histories_of_runs,
    purges_of_runs_link_their_bases, shown_journals_are_next, shown_journals_are_placed,
    shown_journals_are_whole,
};
