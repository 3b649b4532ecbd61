//! `full_notary ENTRIES STAMPS`: what a notary answers whose file has ENTRIES entries already, where STAMPS more are asked
//! for. The file is made as it is read, so that a list that is nearly full, of 16,777,215 entries, takes no room on a
//! disk; in memory it takes 2.2 GB. It writes a line for each stamp, with its index or why there is none, and one with the
//! length of the list at the end.
#![tactic(auto)]

mod made;

use anyhow::{Context, Result};
use ledger_bytes::Digest;
use made::MadeDisk;
use notary_ledger::{ListClock, LocalNotary};
use std::env;
use std::env::Args;
use time_peg::Notary;

const USAGE: &str = "usage: full_notary ENTRIES STAMPS";

fn main(rt: HostRuntime) -> Result<()> {
    let alloc = rt.alloc();
    let mut words = env::args(&rt)?;
    words.next();
    let entries = number(&mut words)?;
    let stamps = number(&mut words)?;
    let gate = vec![in alloc; 0u8]?;
    let disk = MadeDisk::of(entries, gate).context("the gate is too long")?;
    let clock = ListClock::new(Vec::new(alloc));
    let Ok(mut notary) = LocalNotary::reopen(alloc, disk, clock, Digest([0; 32])) else {
        println!(rt; "not opened")?;
        return Ok(());
    };
    for _ in 0..stamps {
        match notary.stamp(alloc, &Digest([0; 32])) {
            Ok(stamp) => println!(rt; "stamp {}", stamp.index)?,
            Err(err) => println!(rt; "{err}")?,
        }
    }
    match notary.head() {
        Ok(head) => println!(rt; "entries {}", head.size)?,
        Err(err) => println!(rt; "{err}")?,
    }
    Ok(())
}

fn number(words: &mut Args) -> Result<u32> {
    let word = words.next().context(USAGE)?;
    Ok(word.parse::<u32>().context("a word is no number")?)
}
