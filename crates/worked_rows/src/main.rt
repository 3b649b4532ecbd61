//! `worked_rows FOLDER`: runs the top calls of both programs on worked rows, each on two disks in memory, and says which
//! rows differ from what was written down for them. A row is a folder with files:
//!
//! | File | Holds |
//! |---|---|
//! | `program` | `ledgerctl`, `auditctl`, or `auditctl-toy`: the auditor's script under the toy hash |
//! | `args` | the words, one a line |
//! | `stdin` | the script; or `stdin.repeated`, whose lines are COUNT SPACES LINE: so many times the line and so many spaces |
//! | `status`, `stdout` | the exit status and the output that are wanted |
//! | `files/before-a`, `files/before-b` | what stands on the disks before the run, in hexadecimal digits; nothing, where there is no such file |
//! | `files/a`, `files/b` | what is wanted on them behind it, where there is such a file |
//! | `files/before-notary` | what stands on the disk of the notary's list, in hexadecimal digits; no such file: a notary in memory |
//! | `files/notary` | what is wanted on that disk behind the run, where there is such a file |
//!
//! A folder may hold rows that are like one another in the place of one: `words`, whose lines are the words of a row each
//! with tabs between them; or `damages`, whose lines are HEX STATUS LINE: the first disk before and behind the run, the
//! status, and the one line that is wanted; or `changes`, whose lines are WORDS, CHANGE, STATUS and LINE with tabs between
//! them: the words with spaces, what becomes of the input in `input`, in hexadecimal digits, before it is read, the status,
//! and the one line that is wanted. CHANGE is `-` for nothing, `cut N` for its first N bytes, `byte AT VALUE` for another
//! value of one byte, or `more` for a byte 00 behind it.
#![tactic(auto)]

mod folder;
mod reading;
mod row;
mod running;

use anyhow::{Context, Result, ensure};
use folder::Folder;
use std::env;

const USAGE: &str = "usage: worked_rows FOLDER";

fn main(rt: HostRuntime) -> Result<()> {
    let mut words = env::args(&rt)?;
    words.next();
    let all = words.next().context(USAGE)?;
    let mut agreeing = 0u64;
    let mut differing = 0u64;
    for name in &folder::names(&rt, all.as_str())? {
        let folder = Folder {
            rt: &rt,
            all: all.as_str(),
            name: name.as_str(),
        };
        for row in &reading::rows(&folder)? {
            let found = running::run(&rt, rt.alloc(), row)?;
            let text = row.wanted.differing(rt.alloc(), &found)?;
            if text.is_empty() {
                agreeing = agreeing.saturating_add(1);
            } else {
                differing = differing.saturating_add(1);
                println!(rt; "{}: {text}", row.name)?;
            }
        }
    }
    println!(rt; "{agreeing} rows agree")?;
    ensure!(differing == 0, "{differing} rows differ");
    Ok(())
}
