//! `open_bench WORK DIR JOURNALS CLUES`: a run over the two files of a ledger, `DIR/a` and `DIR/b`, to be timed from
//! outside. WORK says what is done, so that each part can be timed alone: `make` makes a ledger of JOURNALS journals in
//! blocks of 64, whose records have so many CLUES in turn, or none; `read` reads the first file once, in the pieces in
//! which it is opened, and hashes each header once; `walk` does the same with the blocks as opening reads them, each
//! header decoded; `open` opens the pair; and `all` does the four. It writes what it saw, which depends on the words of
//! `make` alone.
#![tactic(auto)]

mod making;
mod reading;

use anyhow::{Context, Result};
use ledger_bytes::Digest;
use ledger_disk::{Disk, FileDisk};
use ledger_model::Limits;
use ledger_open::reopen;
use making::Plan;
use std::alloc::Global;
use std::env;
use std::env::Args;
use std::thread::Threads;

const USAGE: &str = "usage: open_bench make|read|walk|open|all DIR [JOURNALS CLUES]";

fn main(rt: HostRuntime) -> Result<()> {
    let alloc = rt.alloc();
    let mut words = env::args(&rt)?;
    words.next();
    let word = words.next().context(USAGE)?;
    let work = Work::of(&word).context(USAGE)?;
    let folder = words.next().context(USAGE)?;
    let mut a = FileDisk::at(&rt, alloc, &format!(in alloc; "{folder}/a")?)?;
    let mut b = FileDisk::at(&rt, alloc, &format!(in alloc; "{folder}/b")?)?;
    if work.has(Work::Make) {
        make(alloc, &mut a, &mut b, &mut words)?;
    }
    let text = told(&rt, alloc, &mut a, &mut b, work)?;
    print!(rt; "{text}")?;
    Ok(())
}

/// Makes a ledger as the words say.
fn make<D: Disk>(alloc: Global, a: &mut D, b: &mut D, words: &mut Args) -> Result<()> {
    let plan = Plan {
        journals: number(words)?,
        clues: number(words)?,
    };
    making::make(alloc, a, b, &plan)
}

/// A line for each part of the work that looks at the ledger.
fn told<R: Threads, D: Disk>(
    rt: &R,
    alloc: Global,
    a: &mut D,
    b: &mut D,
    work: Work,
) -> Result<String> {
    let mut text = String::new(alloc);
    if work.has(Work::Read) {
        let seen = reading::read_all(alloc, a)?;
        text.push_str(&line(alloc, "read", seen.headers, &seen.digest)?)?;
    }
    if work.has(Work::Walk) {
        let seen = reading::walk_all(alloc, a)?;
        text.push_str(&line(alloc, "walk", seen.headers, &seen.digest)?)?;
    }
    if work.has(Work::Open) {
        let head = reopen(rt, alloc, a, b, Limits::real())?.book.head();
        text.push_str(&line(alloc, "open", head.size, &head.root)?)?;
    }
    Ok(text)
}

fn line(alloc: Global, word: &str, count: u64, digest: &Digest) -> Result<String> {
    let digits = hex::encode(alloc, digest.0)?;
    Ok(format!(in alloc; "{word} {count} {digits}\n")?)
}

/// What is done.
#[derive(Clone, Copy, PartialEq, Eq)]
enum Work {
    Make,
    Read,
    Walk,
    Open,
    All,
}

impl Work {
    fn of(word: &str) -> Option<Self> {
        match word {
            "make" => Some(Work::Make),
            "read" => Some(Work::Read),
            "walk" => Some(Work::Walk),
            "open" => Some(Work::Open),
            "all" => Some(Work::All),
            _ => None,
        }
    }

    /// Whether this is among what is done.
    fn has(self, part: Work) -> bool {
        self == part || self == Work::All
    }
}

fn number(words: &mut Args) -> Result<u32> {
    let word = words.next().context(USAGE)?;
    Ok(word.parse::<u32>().context("a word is no number")?)
}
