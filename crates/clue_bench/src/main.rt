//! `clue_bench JOURNALS NEXTS LISTS`: a run of an index of clues, to be timed from outside. It adds JOURNALS journals
//! over a tenth as many clues, asks NEXTS times for each journal's clue what is next, and LISTS times for each clue
//! which journals it has. It writes what it saw, which depends on the words alone.
#![tactic(auto)]

mod bench;

use anyhow::{Context, Result};
use bench::Plan;
use std::env;
use std::env::Args;

fn main(rt: HostRuntime) -> Result<()> {
    let mut words = env::args(&rt)?;
    words.next();
    let plan = Plan {
        journals: number(&mut words)?,
        nexts: number(&mut words)?,
        lists: number(&mut words)?,
    };
    let seen = bench::run(rt.alloc(), &plan)?;
    println!(rt;
        "clues {} ordinals {} kept {}",
        seen.clues, seen.ordinals, seen.kept
    )?;
    Ok(())
}

fn number(words: &mut Args) -> Result<u64> {
    let word = words
        .next()
        .context("usage: clue_bench JOURNALS NEXTS LISTS")?;
    Ok(word.parse::<u64>().context("a word is no number")?)
}
