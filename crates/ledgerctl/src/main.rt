//! `ledgerctl`: an audit ledger on the command line. It reads a script from standard input and writes the replies
//! to standard output, and nothing to standard error.
#![tactic(auto)]

use ledger_cli::ledger_standard;
use std::process::ExitCode;

fn main(rt: HostRuntime) -> ExitCode {
    ExitCode::from(ledger_standard(&rt, &rt))
}
