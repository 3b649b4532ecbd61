//! The lines of a script, and the replies to them, as text.
#![tactic(auto)]

mod fields;
mod laws;
mod line;
mod receipt;
mod reply;
mod said;
mod spellings;
mod splits;
mod spoken;
mod stop;
mod verbs;
mod words;

pub use fields::Fields;
pub use laws::{
    a_written_line_is_a_reply, lines_are_read_back, numbers_are_decimal,
    other_lines_are_no_receipts,
};
pub use line::Line;
pub use receipt::{BlockEnd, put_receipt};
pub use reply::{Reply, put_refusal, put_reply, reply_text};
pub use said::{SaidApproval, Which};
pub use spellings::{
    is_bytes, read_bytes, read_clue, read_count, read_digest, read_name, read_number,
    read_request_number,
};
pub use spoken::Spoken;
pub use stop::Stop;
pub use verbs::{lane_of_line, read_line};
pub use words::{Word, put_no, put_number, put_words};
