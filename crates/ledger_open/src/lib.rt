//! A ledger on two files: what a pair of files stands for, a new ledger, and one that is opened again.
#![tactic(auto)]

mod ahead;
mod base;
mod carrying;
mod erasing;
mod failure;
mod first;
mod founding;
mod laws;
mod opened;
mod pieces;
mod places;
pub mod purging;
mod reading;
mod reopening;
mod replaying;

pub use erasing::finish_erasures;
pub use failure::OpenErr;
pub use founding::init;
pub use laws::{
    a_block_more_is_one_more, a_content_may_be_given_up, a_hidden_content_may_be_zeroed,
    a_new_file_is_clean, a_new_pair_is_clean, a_pair_has_one_cause_of_refusal,
    a_pair_stands_for_one_history, a_shut_pair_is_empty, a_standing_file_has_no_damage,
    a_standing_pair_opens, an_opened_book_stands_for_the_history, an_opened_pair_has_no_damage,
    an_opened_pair_is_clean, contents_end_before_the_tail, journals_stand_at_their_places,
    what_is_left_undone_is_finished,
};
pub use opened::Opened;
pub use pieces::{PieceErr, kept_place, read_piece};
pub use places::Places;
pub use reopening::reopen;
