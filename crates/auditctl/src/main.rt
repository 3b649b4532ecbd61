//! `auditctl`: the auditor of a ledger on the command line. It reads an audit script or a dump from standard input, writes the
//! replies or a report to standard output, and nothing to standard error. Behind the word `chain` in front of all others the proofs in a dump
//! are those of the scheme of chains, else those of the tag scheme.
#![tactic(auto)]

use audit_cli::audit_top;
use chain_sign::ChainScheme;
use ledger_io::{Ending, StdSink, StdSource, command_words, finish};
use member_book::TagScheme;
use std::process::ExitCode;

fn main(rt: HostRuntime) -> ExitCode {
    let mut source = StdSource::new(rt.stdin());
    let mut sink = StdSink::new(rt.stdout());
    let Ok(words) = command_words(&rt) else {
        return ExitCode::from(finish(&mut sink, Ending::NoMemory));
    };
    let words = words.as_slice();
    ExitCode::from(match words.split_first() {
        Some((scheme, words)) if scheme.as_str() == "chain" => {
            audit_top(&rt, rt.alloc(), words, &mut source, &mut sink, &ChainScheme)
        }
        _ => audit_top(&rt, rt.alloc(), words, &mut source, &mut sink, &TagScheme),
    })
}
