//! The words of the command line of `auditctl`, as `clap` reads them.

ghost use Rattle.std.specs.Prelude.{◌≡◌, ◌≢◌, ◌↔◌, ◌∷◌, [], List, None, true, false, IfOk, IfErr, Some, codes, map};
ghost use Rattle.std.specs.Prelude.{string_bytes, option_map, option_and_then};
ghost use Rattle.clap.specs.Values.{kind_of};
ghost use Rattle.clap.specs.Walk.{Text, rule_of};
ghost use Rattle.clap.specs.declared.error.kind.ErrorKind.TheVariants.{OutOfMemory};
ghost use Rattle.clap.specs.Matches.{found_of, first_value};
ghost use Rattle.clap.specs.Simple.{app_of, with_rule, subcommand_rows_of};
ghost use Rattle.clap.specs.declared.builder.command.Command.TheViews.{out-Command};
ghost use Rattle.audit_words.specs.Words as spec;
ghost use Rattle.audit_words.specs.Words.{audit_app, bare_app, dump_app, lineage_app, dump_of, lineage_of, asked_by, found_in, fault_by, told};
ghost use Rattle.audit_words.specs.Words.{script, dump, lineage, is_plain_word};

use clap::error::ErrorKind;
use clap::{Arg, ArgMatches, Command, Error};
use std::alloc::{AllocError, Global};

/// What the words ask for.
#[derive(Debug, Drop)]
pub enum Wanted<'a> {
    /// `script`: the answers to an audit script.
    Script,
    /// `dump ID SIZE ROOT NSIZE NROOT`: the full audit of a dump. No word's form was looked at.
    Dump {
        id: &'a str,
        size: &'a str,
        root: &'a str,
        notary_size: &'a str,
        notary_root: &'a str,
    },
    /// `lineage NAME SIZE ROOT`: the records of a clue are checked under a head. No word's form was looked at.
    Lineage {
        name: &'a str,
        size: &'a str,
        root: &'a str,
    },
}

/// Why words ask for nothing.
#[derive(Clone, Copy, Debug, PartialEq, Eq, Drop)]
pub enum WordsErr {
    /// `clap` refuses them.
    Usage,
    NoMemory,
}

// A word that has to be there.
fn needed<'a>(alloc: Global, name: &'a str) -> Arg<'a>
    ensures rule { rule_of result ≡ spec.needed name.entry.now }
    ensures own { result.global ≡ false }
{
    Arg::new(alloc, name).required(true)
}

// A command with one word more.
fn with_word<'a>(
    alloc: Global,
    command: Command<'a>,
    name: &'a str,
) -> Result<Command<'a>, AllocError>
    ensures app { IfOk result (λ c. app_of c ≡ with_rule (app_of command.entry)
        (spec.needed name.entry.now)) }
    ensures globals { IfOk result (λ c. (out-Command c).has_globals
        ≡ (out-Command command.entry).has_globals) }
{
    command.arg(needed(alloc, name))
}

// The subcommand that audits a dump.
fn dump_command<'a>(alloc: Global) -> Result<Command<'a>, AllocError>
    ensures app { IfOk result (λ c. app_of c ≡ dump_app) }
    ensures globals { IfOk result (λ c. (out-Command c).has_globals ≡ false) }
{
    let command = Command::new(alloc, "dump");
    let command = with_word(alloc, command, "ID")?;
    let command = with_word(alloc, command, "SIZE")?;
    let command = with_word(alloc, command, "ROOT")?;
    let command = with_word(alloc, command, "NSIZE")?;
    with_word(alloc, command, "NROOT")
}

// The subcommand that checks a lineage.
fn lineage_command<'a>(alloc: Global) -> Result<Command<'a>, AllocError>
    ensures app { IfOk result (λ c. app_of c ≡ lineage_app) }
    ensures globals { IfOk result (λ c. (out-Command c).has_globals ≡ false) }
{
    let command = Command::new(alloc, "lineage");
    let command = with_word(alloc, command, "NAME")?;
    let command = with_word(alloc, command, "SIZE")?;
    with_word(alloc, command, "ROOT")
}

// The auditor's command, without subcommands.
fn bare_command<'a>(alloc: Global) -> Command<'a>
    ensures app { app_of result ≡ bare_app }
{
    Command::new(alloc, "auditctl")
        .no_binary_name(true)
        .disable_help_flag(true)
        .disable_help_subcommand(true)
        .subcommand_required(true)
}

// The auditor's command.
fn command<'a>(alloc: Global) -> Result<Command<'a>, AllocError>
    ensures { IfOk result (λ c. app_of c ≡ audit_app) }
{
    let script = Command::new(alloc, "script");
    let dump = dump_command(alloc)?;
    let lineage = lineage_command(alloc)?;
    let command = bare_command(alloc).subcommand(script)?;
    let command = command.subcommand(dump)?;
    command.subcommand(lineage)
}

/// Reads the words after the program's name: `script`, `dump ID SIZE ROOT NSIZE NROOT`, or `lineage NAME SIZE ROOT`. There is
/// no help, and no other flag. One `--` behind a subcommand is passed over, and words behind it may begin with a hyphen.
pub fn read_words<'a>(alloc: Global, words: &'a [String]) -> Result<Wanted<'a>, WordsErr>
    ensures taken { IfOk result (λ wanted. asked_by (map string_bytes words.entry.now)
        ≡ Some (told wanted)) }
    ensures refused { IfErr result (λ e. e ≡ WordsErr.Usage
        → asked_by (map string_bytes words.entry.now) ≡ None) }
{
    let Ok(command) = command(alloc) else {
        return Err(WordsErr::NoMemory);
    };
    match command.try_get_matches_from(words) {
        Ok(matches) => match wanted_in(&matches) {
            Some(wanted) => Ok(wanted),
            None => unreachable!(),
        },
        Err(error) => Err(refusal(&error)),
    }
}

// Why words are refused.
fn refusal(error: &Error) -> WordsErr
    ensures { (result ≡ WordsErr.Usage) ↔ (kind_of error.now ≢ OutOfMemory) }
{
    if error.kind() == ErrorKind::OutOfMemory {
        WordsErr::NoMemory
    } else {
        WordsErr::Usage
    }
}

// What a parse that went well asks for.
fn wanted_in<'a>(matches: &ArgMatches<'a>) -> Option<Wanted<'a>>
    ensures { option_map told result ≡ option_and_then found_in (subcommand_rows_of matches.now) }
{
    match matches.subcommand() {
        Some((name, found)) => {
            if name == "script" {
                Some(Wanted::Script)
            } else if name == "dump" {
                dump_in(found)
            } else {
                lineage_in(found)
            }
        }
        None => None,
    }
}

// The five words of a dump, where they are there.
fn dump_in<'a>(found: &ArgMatches<'a>) -> Option<Wanted<'a>>
    ensures { option_map told result ≡ dump_of (first_value (found_of found.now) (codes "ID"))
        (first_value (found_of found.now) (codes "SIZE")) (first_value (found_of found.now) (codes "ROOT"))
        (first_value (found_of found.now) (codes "NSIZE")) (first_value (found_of found.now) (codes "NROOT")) }
{
    match (
        found.get_str("ID"),
        found.get_str("SIZE"),
        found.get_str("ROOT"),
        found.get_str("NSIZE"),
        found.get_str("NROOT"),
    ) {
        (Some(id), Some(size), Some(root), Some(notary_size), Some(notary_root)) => {
            Some(Wanted::Dump {
                id,
                size,
                root,
                notary_size,
                notary_root,
            })
        }
        _ => None,
    }
}

// The three words of a lineage, where they are there.
fn lineage_in<'a>(found: &ArgMatches<'a>) -> Option<Wanted<'a>>
    ensures { option_map told result ≡ lineage_of (first_value (found_of found.now) (codes "NAME"))
        (first_value (found_of found.now) (codes "SIZE")) (first_value (found_of found.now) (codes "ROOT")) }
{
    match (
        found.get_str("NAME"),
        found.get_str("SIZE"),
        found.get_str("ROOT"),
    ) {
        (Some(name), Some(size), Some(root)) => Some(Wanted::Lineage { name, size, root }),
        _ => None,
    }
}

/// The word `script` alone is taken, and so is `dump` with five words none of which begins with a hyphen, each in its place, and
/// `lineage` with three.
/// Words ask for nothing exactly where `clap` finds a fault in them: whatever it takes asks for something.
pub fn words_are_read()
    ensures script { asked_by (codes "script" ∷ []) ≡ Some script }
    ensures dump { (id size root notary_size notary_root : Text) → is_plain_word id ≡ true
        → is_plain_word size ≡ true → is_plain_word root ≡ true → is_plain_word notary_size ≡ true
        → is_plain_word notary_root ≡ true
        → asked_by (codes "dump" ∷ id ∷ size ∷ root ∷ notary_size ∷ notary_root ∷ [])
        ≡ Some (dump id size root notary_size notary_root) }
    ensures lineage { (name size root : Text) → is_plain_word name ≡ true → is_plain_word size ≡ true
        → is_plain_word root ≡ true
        → asked_by (codes "lineage" ∷ name ∷ size ∷ root ∷ []) ≡ Some (lineage name size root) }
    ensures refused { (words : List Text) → (asked_by words ≡ None) ↔ (fault_by words ≢ []) }
{}
