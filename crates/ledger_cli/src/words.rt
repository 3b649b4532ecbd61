//! The command that the words of the command line of `ledgerctl` make.

ghost use Rattle.std.specs.Prelude.{◌≡◌, map, string_bytes, IfOk, IfSome, OnErr, IsSome};
ghost use Rattle.ledger_cli.specs.Words.{HasSizes, board_of, chain_sign_from, dry_of, genesis_of, init_of, key_of, of_four, of_more, carry_of, in_folder, keep_of, lineage_of, of_three, of_two, sign_of, soak_of};

use crate::chaining::{ChainText, read_key, read_signature};
use crate::numbers::read_numbers;
use crate::signing::{Signing, read_request};
use arrayvec::ArrayVec;
use journal_record::clue_digest;
use ledger_bytes::{Bytes, Digest, NoMemory};
use ledger_model::Genesis;
use script_lines::{read_clue, read_digest, read_name, read_number};
use std::alloc::Global;

/// What the words of the command line ask for.
#[derive(Debug, Drop)]
pub enum Command {
    /// `dry NAME OPKEY REGKEY`: a new ledger on the disks that are handed in, and a run of the script on it.
    Dry(Genesis),
    /// `init DIR NAME OPKEY REGKEY`: a new ledger. It reads no input.
    Init(Genesis),
    /// `run DIR`: the ledger that is there, and a run of the script on it.
    Run,
    /// `export DIR`: the ledger that is there, and its dump. It reads no input.
    Export,
    /// `lineage DIR NAME FROM`: the ledger that is there, and the lineage of a clue's records that are kept. It reads no input.
    Lineage {
        /// The digest of the clue's name, 32 zero bytes for `-`.
        clue: Digest,
        /// The least ordinal, at least 1.
        from: u32,
    },
    /// `board DIR K COUNT`: what `run` does, and beside it provers, whose lines are written behind the replies.
    Board {
        /// How many provers, from 1 to 8.
        provers: u8,
        /// How many proofs each of them makes, from 1 to 100,000.
        count: u32,
    },
    /// `keep DIR POINT LIST`: the ledger that is there, and the set of some journals in front of a time journal. It reads no input.
    Keep {
        /// The time journal's number.
        point: u64,
        /// The numbers of the journals that are kept, 1 to 64 of them in ascending order.
        numbers: ArrayVec<u64, 64>,
    },
    /// `carry DIR POINT`: the ledger that is there, and the set of survivors of the input, carried on to a later time journal.
    Carry {
        /// The later time journal's number.
        point: u64,
    },
    /// `revive DIR`: the ledger that is there, and the views and the proofs of the survivors of the input's set.
    Revive,
    /// `sign ID KEY` and a request: the request's message, and the key's proof of it. It reads no input.
    Sign(Signing),
    /// `chainkey` or `chainsign`: what is made of a seed in the scheme of chains. It reads no input.
    Chain(ChainText),
    /// `soak SEED COUNT STOP`: so many random jobs on a new ledger in memory, whose disks stop after so many calls each where
    /// that isn't 0, and a line that sums them up. It reads no input.
    Soak {
        /// With which state the generator begins.
        seed: u64,
        /// How many jobs, from 1 to 100,000.
        count: u64,
        /// After how many calls of `write`, `cut` and `sync` each disk stops, up to 1,000,000. For 0 none does.
        stop: u64,
    },
}

/// The most jobs of a `soak`.
const SOAK_JOBS: u64 = 100_000;

/// After how many calls of `write`, `cut` and `sync` the disks of a `soak` may stop at the latest.
const SOAK_CALLS: u64 = 1_000_000;

/// The most provers of a `board`.
const BOARD_PROVERS: u64 = 8;

/// The most proofs of each prover of a `board`.
const BOARD_PROOFS: u64 = 100_000;

impl Command {
    ghost use Rattle.ledger_cli.specs.Words.{command_of};

    /// The command that the words after the program's name make, or None where they are of no form. The folder of a
    /// ledger isn't part of it: the disks over its files are handed in.
    pub fn read(alloc: Global, words: &[String]) -> Result<Option<Self>, NoMemory>
        ensures ok { IfOk result (λ command. command ≡ command_of (map string_bytes words.now)) }
        ensures sizes { IfOk result (λ command. IfSome command HasSizes) }
        ensures err { OnErr result (IsSome (command_of (map string_bytes words.now))) }
    {
        match words {
            [verb, folder] => Ok(read_two(verb.as_str(), folder.as_str())),
            [verb, second, third] => Ok(read_three(verb.as_str(), second.as_str(), third.as_str())),
            [verb, name, operator, regulator] => read_four(
                alloc,
                verb.as_str(),
                name.as_str(),
                operator.as_str(),
                regulator.as_str(),
            ),
            [verb, second, third, fourth, _, ..] => read_more(
                alloc,
                verb.as_str(),
                second.as_str(),
                third.as_str(),
                fourth.as_str(),
                &words[4..],
            ),
            _ => Ok(None),
        }
    }
}

fn read_two(verb: &str, folder: &str) -> Option<Command>
    ensures read { result ≡ of_two verb.now folder.now }
    ensures sizes { IfSome result HasSizes }
{
    if verb == "run" {
        read_folder(Command::Run, folder)
    } else if verb == "export" {
        read_folder(Command::Export, folder)
    } else if verb == "revive" {
        read_folder(Command::Revive, folder)
    } else {
        None
    }
}

fn read_three(verb: &str, second: &str, third: &str) -> Option<Command>
    ensures read { result ≡ of_three verb.now second.now third.now }
    ensures sizes { IfSome result HasSizes }
{
    if verb == "chainkey" {
        read_key(second, third).map(Command::Chain)
    } else if verb == "carry" {
        read_carry(second, third)
    } else {
        None
    }
}

#[tactic(auto, unfolding(crate::specs::Words::carry_of))]
fn read_carry(folder: &str, point: &str) -> Option<Command>
    ensures read { result ≡ carry_of folder.now point.now }
    ensures sizes { IfSome result HasSizes }
{
    if folder.is_empty() {
        return None;
    }
    let point = read_number(point.as_bytes(), u64::MAX)?;
    Some(Command::Carry { point })
}

// The name of a folder has at least one byte.
fn read_folder(command: Command, folder: &str) -> Option<Command>
    ensures read { result ≡ in_folder command folder.now }
    ensures sizes { HasSizes command → IfSome result HasSizes }
{
    if folder.is_empty() {
        None
    } else {
        Some(command)
    }
}

#[tactic(auto, unfolding(crate::specs::Words::of_four))]
fn read_four(
    alloc: Global,
    verb: &str,
    name: &str,
    operator: &str,
    regulator: &str,
) -> Result<Option<Command>, NoMemory>
    ensures ok { IfOk result (λ command. command
        ≡ of_four verb.now name.now operator.now regulator.now) }
    ensures sizes { IfOk result (λ command. IfSome command HasSizes) }
    ensures err { OnErr result (IsSome (of_four verb.now name.now operator.now regulator.now)) }
{
    if verb == "dry" {
        read_dry(alloc, name, operator, regulator)
    } else if verb == "soak" {
        Ok(read_soak(name, operator, regulator))
    } else if verb == "lineage" {
        Ok(read_lineage(name, operator, regulator))
    } else if verb == "keep" {
        Ok(read_keep(name, operator, regulator))
    } else if verb == "board" {
        Ok(read_board(name, operator, regulator))
    } else {
        Ok(None)
    }
}

#[tactic(auto, unfolding(crate::specs::Words::soak_of))]
fn read_soak(seed: &str, count: &str, stop: &str) -> Option<Command>
    ensures read { result ≡ soak_of seed.now count.now stop.now }
    ensures sizes { IfSome result HasSizes }
{
    let seed = read_number(seed.as_bytes(), u64::MAX)?;
    let count = read_number(count.as_bytes(), SOAK_JOBS)?;
    let stop = read_number(stop.as_bytes(), SOAK_CALLS)?;
    if count == 0 {
        return None;
    }
    Some(Command::Soak { seed, count, stop })
}

#[tactic(auto, unfolding(crate::specs::Words::lineage_of))]
fn read_lineage(folder: &str, name: &str, from: &str) -> Option<Command>
    ensures read { result ≡ lineage_of folder.now name.now from.now }
    ensures sizes { IfSome result HasSizes }
{
    let name = name.as_bytes();
    if folder.is_empty() || name.contains(&b' ') {
        return None;
    }
    let clue = clue_digest(read_clue(name)?);
    let from = read_number(from.as_bytes(), u64::from(u32::MAX))? as u32;
    if from == 0 {
        return None;
    }
    Some(Command::Lineage { clue, from })
}

#[tactic(auto, unfolding(crate::specs::Words::keep_of))]
fn read_keep(folder: &str, point: &str, numbers: &str) -> Option<Command>
    ensures read { result ≡ keep_of folder.now point.now numbers.now }
    ensures sizes { IfSome result HasSizes }
{
    if folder.is_empty() {
        return None;
    }
    let point = read_number(point.as_bytes(), u64::MAX)?;
    let numbers = read_numbers(numbers)?;
    Some(Command::Keep { point, numbers })
}

#[tactic(auto, unfolding(crate::specs::Words::board_of))]
fn read_board(folder: &str, provers: &str, count: &str) -> Option<Command>
    ensures read { result ≡ board_of folder.now provers.now count.now }
    ensures sizes { IfSome result HasSizes }
{
    if folder.is_empty() {
        return None;
    }
    let provers = read_number(provers.as_bytes(), BOARD_PROVERS)? as u8;
    let count = read_number(count.as_bytes(), BOARD_PROOFS)? as u32;
    if provers == 0 || count == 0 {
        return None;
    }
    Some(Command::Board { provers, count })
}

// Five words and more.
fn read_more(
    alloc: Global,
    verb: &str,
    second: &str,
    third: &str,
    fourth: &str,
    fields: &[String],
) -> Result<Option<Command>, NoMemory>
    ensures ok { IfOk result (λ command. command
        ≡ of_more verb.now second.now third.now fourth.now (map string_bytes fields.now)) }
    ensures sizes { IfOk result (λ command. IfSome command HasSizes) }
    ensures err { OnErr result (IsSome
        (of_more verb.now second.now third.now fourth.now (map string_bytes fields.now))) }
{
    if verb == "sign" {
        read_sign(alloc, second, third, fourth, fields)
    } else if verb == "init" {
        match fields {
            [regulator] => read_init(alloc, second, third, fourth, regulator.as_str()),
            _ => Ok(None),
        }
    } else if verb == "chainsign" {
        Ok(read_chain_sign(second, third, fourth, fields))
    } else {
        Ok(None)
    }
}

fn read_chain_sign(seed: &str, size: &str, index: &str, fields: &[String]) -> Option<Command>
    ensures read { result ≡ chain_sign_from seed.now size.now index.now (map string_bytes fields.now) }
    ensures sizes { IfSome result HasSizes }
{
    match fields {
        [message] => read_signature(seed, size, index, message.as_str()).map(Command::Chain),
        _ => None,
    }
}

fn read_dry(
    alloc: Global,
    name: &str,
    operator: &str,
    regulator: &str,
) -> Result<Option<Command>, NoMemory>
    ensures ok { IfOk result (λ command. command ≡ dry_of name.now operator.now regulator.now) }
    ensures sizes { IfOk result (λ command. IfSome command HasSizes) }
    ensures err { OnErr result (IsSome (dry_of name.now operator.now regulator.now)) }
{
    match read_genesis(alloc, name, operator, regulator)? {
        Some(genesis) => Ok(Some(Command::Dry(genesis))),
        None => Ok(None),
    }
}

fn read_init(
    alloc: Global,
    folder: &str,
    name: &str,
    operator: &str,
    regulator: &str,
) -> Result<Option<Command>, NoMemory>
    ensures ok { IfOk result (λ command. command
        ≡ init_of folder.now name.now operator.now regulator.now) }
    ensures sizes { IfOk result (λ command. IfSome command HasSizes) }
    ensures err { OnErr result (IsSome (init_of folder.now name.now operator.now regulator.now)) }
{
    if folder.is_empty() {
        return Ok(None);
    }
    match read_genesis(alloc, name, operator, regulator)? {
        Some(genesis) => Ok(Some(Command::Init(genesis))),
        None => Ok(None),
    }
}

fn read_genesis(
    alloc: Global,
    name: &str,
    operator: &str,
    regulator: &str,
) -> Result<Option<Genesis>, NoMemory>
    ensures ok { IfOk result (λ genesis. genesis ≡ genesis_of name.now operator.now regulator.now) }
    ensures err { OnErr result (IsSome (genesis_of name.now operator.now regulator.now)) }
{
    let Some(name) = read_name(name.as_bytes()) else {
        return Ok(None);
    };
    let (Some(operator), Some(regulator)) = (
        read_digest(operator.as_bytes()),
        read_digest(regulator.as_bytes()),
    ) else {
        return Ok(None);
    };
    Ok(Some(Genesis {
        name: Bytes::copy_of(alloc, name)?,
        operator,
        regulator,
    }))
}

fn read_sign(
    alloc: Global,
    id: &str,
    key: &str,
    verb: &str,
    fields: &[String],
) -> Result<Option<Command>, NoMemory>
    ensures ok { IfOk result (λ command. command
        ≡ sign_of id.now key.now verb.now (map string_bytes fields.now)) }
    ensures sizes { IfOk result (λ command. IfSome command HasSizes) }
    ensures err { OnErr result (IsSome (sign_of id.now key.now verb.now
        (map string_bytes fields.now))) }
{
    let (Some(id), Some(key)) = (read_digest(id.as_bytes()), read_digest(key.as_bytes())) else {
        return Ok(None);
    };
    match read_request(alloc, verb.as_bytes(), fields)? {
        Some(request) => Ok(Some(Command::Sign(Signing { id, key, request }))),
        None => Ok(None),
    }
}
