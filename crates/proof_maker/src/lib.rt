//! Proofs that a journal stands in a ledger between two times, and that a ledger or a notary's list goes on from an
//! earlier head, made from a book and a notary. Each is accepted by an auditor who trusts the heads under which, or from
//! which, it's made.
#![tactic(auto)]

mod bound;
mod extending;
mod laws;
mod made;
mod noted;
mod parts;
mod proving;
mod rows;
mod spelling;

pub use extending::{extend, extend_ledger, extend_notary};
pub use laws::{earlier_heads_lead_on, written_proofs_are_accepted};
pub use made::{Made, MadeExtension, MakeErr};
pub use proving::{prove, prove_from};
