//! Which scheme of proofs a ledger is run with: what the words say, and what a file in its folder says.

use ledger_bytes::{Failed, NoMemory};
use std::fs::{self, File, OpenOptions};
use std::io;
use std::os::unix::fs::OpenOptionsExt;

// The rights of the file, which is its owner's alone as the ledger's are.
const OWNER_ALONE: u32 = 0o600;

/// The scheme of its members' proofs.
#[derive(Clone, Copy, Debug, PartialEq, Eq)]
pub(crate) enum Scheme {
    /// Proofs hold the key.
    Tags,
    /// Proofs are signatures by chains.
    Chains,
}

impl Scheme {
    /// The scheme that the words name, and the words behind its name: the word `chain` may stand in front of all others.
    pub(crate) fn split(words: &[String]) -> (Self, &[String]) {
        match words.split_first() {
            Some((scheme, rest)) if scheme.as_str() == "chain" => (Scheme::Chains, rest),
            _ => (Scheme::Tags, words),
        }
    }
}

/// The empty file `chain` in the folder of a ledger, which says that its members' proofs are signatures by chains. A ledger's own files
/// don't name its scheme, and keys of chains are public: under the scheme of tags they would be all that a proof takes.
#[derive(Drop)]
pub(crate) struct Mark {
    folder: String,
    path: String,
}

impl Mark {
    /// The one of this folder.
    pub(crate) fn of(rt: &HostRuntime, folder: &str) -> Result<Self, NoMemory> {
        let mut path = String::from_str(rt.alloc(), folder)?;
        path.push_str("/chain")?;
        Ok(Mark {
            folder: String::from_str(rt.alloc(), folder)?,
            path,
        })
    }

    /// Whether the file is there.
    pub(crate) fn is_there(&self, rt: &HostRuntime) -> Result<bool, Failed> {
        match File::open(rt, self.path.as_str()) {
            Ok(_) => Ok(true),
            Err(error) if error.kind() == io::ErrorKind::NotFound => Ok(false),
            Err(_) => Err(Failed),
        }
    }

    /// Makes the file. Its name stands for good afterwards.
    pub(crate) fn make(&self, rt: &HostRuntime) -> Result<(), Failed> {
        match self.created(rt) {
            Ok(()) => Ok(()),
            Err(_) => Err(Failed),
        }
    }

    fn created(&self, rt: &HostRuntime) -> io::Result<()> {
        let file = OpenOptions::new()
            .write(true)
            .create(true)
            .mode(OWNER_ALONE)
            .open(rt, self.path.as_str())?;
        file.sync_all()?;
        File::open(rt, self.folder.as_str())?.sync_all()
    }

    /// Removes the file again, where there was a ledger already, and so none was made. One that stays refuses tag proofs, and lets nothing in.
    pub(crate) fn remove(&self, rt: &HostRuntime) {
        let _ = fs::remove_file(rt, self.path.as_str());
    }
}
