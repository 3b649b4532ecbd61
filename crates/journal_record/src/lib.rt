//! A journal's header and its bytes, a journal as it stands in a dump, the digests of a journal's parts and of names,
//! members, and their proofs and requests.
#![tactic(auto)]

mod approval;
mod digests;
mod filling;
mod header;
mod member;
mod reading;
mod record;
mod request;
mod rules;
mod stamp;
mod tags;
mod whole;

pub use approval::{Approval, WHO_LIMIT, who_bytes};
pub use digests::{approval_digest, approvals_digest, content_digest, who_digest};
pub use header::{HEADER_LEN, Header, Kind};
pub use member::Member;
pub use reading::{is_inverse_of_encoding, take_header};
pub use record::{Body, Record, is_inverse_of_dumping, take_record};
pub use request::{
    clue_digest, clue_occult_request_digest, member_request_digest, name_digest,
    occult_request_digest, purge_request_digest, request_digest,
};
pub use rules::{NOTARY_LIMIT, version_of};
pub use stamp::Stamp;
pub use tags::{tag_key, tag_of};
