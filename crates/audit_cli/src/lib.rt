//! The top calls of `auditctl`: from the words of the command line and the bytes of an audit script or a dump to the bytes
//! that are written and the exit status.
#![tactic(auto)]

mod answer;
mod checking;
mod dumping;
mod laws;
mod line;
mod lineage_line;
mod reply;
mod report_line;
mod session;
mod top;
mod words;

pub use laws::{
    audited_dumps_keep_the_clue_rule, checked_claims_are_true, extended_heads_go_on,
    judged_claims_are_told, judged_clashes_are_clashes, lineages_under_audited_heads_are_whole,
    replies_are_lines, replies_stand_in_place, scripts_are_sound, words_make_commands,
};
pub use report_line::report_text;
pub use top::{audit_run, audit_top};
