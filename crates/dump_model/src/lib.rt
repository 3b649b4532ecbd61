//! What a dump of a ledger is (`specs/Dumps.antt`), what is checked of a whole one under a ledger's head and a notary's
//! (`specs/Checks.antt`), and what is true of one that passes (`specs/Truth.antt`). Only laws stand here; dumps are written and
//! read elsewhere.
#![tactic(auto)]

mod laws;

pub use laws::{a_text_tells_its_dump, checked_dumps_are_true, true_dumps_pass};
