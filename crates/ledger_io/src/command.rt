//! The words of the command line.

use ledger_bytes::NoMemory;
use std::env;
use std::io::ErrorKind;
use std::rt::Env;

/// The words of the command line after the program's name. Where one is no text there are none, which is of no form of a
/// command line either. What std answers of the words has no contract, so nothing is promised of them.
pub fn command_words(rt: &(impl Env + AllocGlobal)) -> Result<Vec<String>, NoMemory> {
    let mut words = Vec::new(rt.alloc());
    let all = match env::args(rt) {
        Ok(all) => all,
        Err(error) if error.kind() == ErrorKind::OutOfMemory => return Err(NoMemory),
        Err(_) => return Ok(words),
    };
    for word in all.skip(1) {
        words.push(word)?;
    }
    Ok(words)
}
