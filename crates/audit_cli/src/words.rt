//! The command that the words of the auditor's command line make.

ghost use Rattle.std.specs.Prelude.{◌≡◌, IfOk, map, string_bytes};
ghost use Rattle.audit_words.specs.Words.{told};
ghost use Rattle.audit_cli.specs.Words.{command_of, command_for, dump_for, lineage_for, head_of};

use audit_words::{Wanted, WordsErr, read_words};
use journal_record::clue_digest;
use ledger_bytes::{Digest, NoMemory};
use merkle_tree::Head;
use script_lines::{read_clue, read_digest, read_number};
use std::alloc::Global;

/// What the words of the command line ask for.
#[derive(Clone, Copy, Debug, PartialEq, Eq)]
pub(crate) enum Command {
    /// `script`: the lines of an audit script are answered.
    Script,
    /// `dump ID SIZE ROOT NSIZE NROOT`: a dump is audited against a ledger's id, its head and the head of its notary.
    Dump {
        id: Digest,
        ledger: Head,
        notary: Head,
    },
    /// `lineage NAME SIZE ROOT`: the records of a clue are checked under a head.
    Lineage {
        clue: Digest,
        head: Head,
    },
}

impl Command {
    /// The command that the words after the program's name make, or None where they are of no form.
    pub(crate) fn read(alloc: Global, words: &[String]) -> Result<Option<Self>, NoMemory>
        ensures { IfOk result (λ command. command ≡ command_of (map string_bytes words.now)) }
    {
        match read_words(alloc, words) {
            Ok(wanted) => Ok(read_wanted(&wanted)),
            Err(WordsErr::Usage) => Ok(None),
            Err(WordsErr::NoMemory) => Err(NoMemory),
        }
    }
}

fn read_wanted(wanted: &Wanted) -> Option<Command>
    ensures { result ≡ command_for (told wanted.now) }
{
    match wanted {
        Wanted::Script => Some(Command::Script),
        Wanted::Dump {
            id,
            size,
            root,
            notary_size,
            notary_root,
        } => read_dump(id, size, root, notary_size, notary_root),
        Wanted::Lineage { name, size, root } => read_lineage(name, size, root),
    }
}

fn read_lineage(name: &str, size: &str, root: &str) -> Option<Command>
    ensures { result ≡ lineage_for name.now size.now root.now }
{
    let name = read_clue(name.as_bytes())?;
    let head = read_head(size, root)?;
    let clue = clue_digest(name);
    Some(Command::Lineage { clue, head })
}

fn read_dump(
    id: &str,
    size: &str,
    root: &str,
    notary_size: &str,
    notary_root: &str,
) -> Option<Command>
    ensures { result ≡ dump_for id.now size.now root.now notary_size.now notary_root.now }
{
    let id = read_digest(id.as_bytes())?;
    let ledger = read_head(size, root)?;
    let notary = read_head(notary_size, notary_root)?;
    Some(Command::Dump { id, ledger, notary })
}

fn read_head(size: &str, root: &str) -> Option<Head>
    ensures { result ≡ head_of size.now root.now }
{
    let size = read_number(size.as_bytes(), u64::MAX)?;
    let root = read_digest(root.as_bytes())?;
    Some(Head { size, root })
}
