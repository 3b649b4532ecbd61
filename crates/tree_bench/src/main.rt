//! `tree_bench WORK LEAVES PROOFS`: a run of a tree that grows, to be timed from outside. WORK says what is done, so
//! that each part can be timed alone: `nodes` hashes as many single nodes as there are LEAVES, `build` grows a tree over
//! LEAVES leaves in batches of 64 with the root after each, and `prove` also makes PROOFS inclusion proofs and as many
//! consistency proofs and checks each. It writes how much it did and saw, which depends on the words alone.
#![tactic(auto)]

mod bench;

use anyhow::{Context, Result};
use bench::Work;
use std::env;
use std::env::Args;

const USAGE: &str = "usage: tree_bench nodes|build|prove LEAVES PROOFS";

fn main(rt: HostRuntime) -> Result<()> {
    let mut words = env::args(&rt)?;
    words.next();
    let word = words.next().context(USAGE)?;
    let work = Work::of(&word).context(USAGE)?;
    let leaves = number(&mut words)?;
    let proofs = number(&mut words)?;
    match work {
        Work::Nodes => {
            let last = bench::hash_nodes(leaves);
            println!(rt; "nodes {leaves} last {:02x}", last.0[31])?;
        }
        Work::Build => {
            let (tree, roots) = bench::built(rt.alloc(), leaves)?;
            println!(rt; "leaves {} roots {roots}", tree.size())?;
        }
        Work::Prove => {
            let (tree, roots) = bench::built(rt.alloc(), leaves)?;
            let good = bench::prove(rt.alloc(), &tree, proofs)?;
            println!(rt; "leaves {} roots {roots} good {good}", tree.size())?;
        }
    }
    Ok(())
}

fn number(words: &mut Args) -> Result<u32> {
    let word = words.next().context(USAGE)?;
    Ok(word.parse::<u32>().context("a word is no number")?)
}
