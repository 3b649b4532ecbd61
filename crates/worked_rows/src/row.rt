//! A row, and what comes of it.

use ledger_bytes::{Bytes, NoMemory};
use std::alloc::Global;

/// What is run.
#[derive(Clone, Copy, Debug, PartialEq, Eq)]
pub(crate) enum Program {
    Ledger,
    Auditor,
    /// The auditor under the toy hash.
    ToyAuditor,
}

impl Program {
    pub(crate) fn of(name: &str) -> Option<Self> {
        match name {
            "ledgerctl" => Some(Program::Ledger),
            "auditctl" => Some(Program::Auditor),
            "auditctl-toy" => Some(Program::ToyAuditor),
            _ => None,
        }
    }
}

/// One run of a program, and what is wanted of it.
#[derive(Drop)]
pub(crate) struct Row {
    pub(crate) name: String,
    pub(crate) program: Program,
    pub(crate) words: Vec<String>,
    pub(crate) script: Vec<u8>,
    /// What stands on the two disks.
    pub(crate) before: [Vec<u8>; 2],
    /// What stands on the disk of the notary's list. None for a notary in memory.
    pub(crate) list: Option<Vec<u8>>,
    pub(crate) wanted: Wanted,
}

/// What is wanted of a run. A disk of which nothing is said may hold anything.
#[derive(Drop)]
pub(crate) struct Wanted {
    pub(crate) status: u8,
    pub(crate) output: Vec<u8>,
    pub(crate) disks: [Option<Vec<u8>>; 2],
    pub(crate) list: Option<Vec<u8>>,
}

/// What came of a run.
#[derive(Drop)]
pub(crate) struct Found {
    pub(crate) status: u8,
    pub(crate) output: Vec<u8>,
    pub(crate) disks: [Bytes; 2],
    pub(crate) list: Option<Bytes>,
}

impl Wanted {
    /// The names of what differs, or none.
    pub(crate) fn differing(&self, alloc: Global, found: &Found) -> Result<String, NoMemory> {
        let [want_a, want_b] = &self.disks;
        let [a, b] = &found.disks;
        let parts = [
            ("status", self.status != found.status),
            ("output", self.output != found.output),
            ("file a", is_other(want_a.as_ref(), a)),
            ("file b", is_other(want_b.as_ref(), b)),
            (
                "notary",
                is_other_list(self.list.as_ref(), found.list.as_ref()),
            ),
        ];
        let mut text = String::new(alloc);
        for (name, _) in parts.iter().filter(|(_, differs)| *differs) {
            if !text.is_empty() {
                text.push_str(", ")?;
            }
            text.push_str(name)?;
        }
        Ok(text)
    }
}

// Whether something else was wanted than was found.
fn is_other(wanted: Option<&Vec<u8>>, found: &Bytes) -> bool {
    match wanted {
        Some(wanted) => wanted.as_slice() != found.as_slice(),
        None => false,
    }
}

// Whether another list was wanted than was found.
fn is_other_list(wanted: Option<&Vec<u8>>, found: Option<&Bytes>) -> bool {
    match found {
        Some(found) => is_other(wanted, found),
        None => wanted.is_some(),
    }
}
