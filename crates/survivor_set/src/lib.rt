//! Journals that are kept beside a ledger before it purges them: the set that holds them, how their paths are carried on to a
//! later point, and what is still shown and proved of them.
#![tactic(auto)]

mod carrying;
mod checking;
mod failure;
mod growing;
mod keeping;
mod laws;
mod paths;
mod reading;
mod reviving;
mod set;
mod writing;

pub use carrying::carry;
pub use checking::check_set;
pub use failure::SetErr;
pub use keeping::keep;
pub use laws::{
    carried_journals_stay, carried_sets_keep_the_rules, good_sets_are_carried,
    good_survivors_are_revived, kept_journals_stay, kept_sets_keep_the_rules, kept_sets_live_on,
    only_purges_refuse_carried_sets, only_purges_refuse_kept_sets,
};
pub use reviving::{revive, revive_judged};
pub use set::{SURVIVOR_LIMIT, Set, Survivor};
