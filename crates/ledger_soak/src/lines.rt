//! The line of a job that was drawn.

ghost use Rattle.std.specs.Prelude.{◌≡◌, ◌<◌, ◌≤◌, ◌++◌, IfOk, OnOk, length, map, option_copied};
ghost use Rattle.std.specs.Option.{option_map};
ghost use Rattle.ledger_bytes.specs.Digests.{digest};
ghost use Rattle.ledger_book.specs.Books.{Serves};
ghost use Rattle.ledger_model.specs.History as model;
ghost use Rattle.ledger_model.specs.History.{History};
ghost use Rattle.ledger_model.specs.Targets.{leaf_at};
ghost use Rattle.script_lines.specs.Words.{word_text};
ghost use Rattle.ledger_soak.specs.Lines as spec;
ghost use Rattle.ledger_soak.specs.Tasks.{IsDrawable};

use crate::Task;
use crate::approvals::{MEMBERS, OPERATOR, REGULATOR, key_of, proof_by, put_approval};
use journal_record::{
    Header, Kind, clue_digest, content_digest, member_request_digest, occult_request_digest,
    purge_request_digest, request_digest,
};
use ledger_book::Book;
use ledger_bytes::{Bytes, Digest, NoMemory};
use script_lines::{Word, put_number, put_words};
use std::alloc::Global;

/// The line of what was drawn, on lane 0 of the ledger of this book.
#[tactic(auto, unfolding(crate::specs::Lines::job_line))]
pub(crate) fn job_line(alloc: Global, task: &Task, book: &Book) -> Result<Bytes, NoMemory>
    requires { IsDrawable book.now.size task.now }
    ensures { IfOk result (λ line. (h : History) → Serves book.now h → line ≡ spec.job_line task.now h) }
{
    match task {
        Task::Append {
            member,
            clue,
            content,
        } => record_line(alloc, &book.id(), *member, *clue, content.as_slice()),
        Task::Anchor => line_with(alloc, &[Word::Text(b"anchor")]),
        Task::Occult { target } => occult_line(alloc, book, *target),
        Task::Prove { n } => line_with(alloc, &[Word::Text(b"prove"), Word::Number(*n)]),
        Task::Purge => match last_time_but_one(book) {
            Some(point) => purge_line(alloc, book, point),
            None => line_with(alloc, &[Word::Text(b"anchor")]),
        },
    }
}

// A line on lane 0 with these words.
fn line_with(alloc: Global, words: &[Word]) -> Result<Bytes, NoMemory>
    ensures { IfOk result (λ line. line ≡ spec.line_with (map word_text words.now)) }
{
    let mut line = Vec::new(alloc);
    line.push(b'0')?;
    put_words(&mut line, words)?;
    Ok(Bytes::of(line))
}

// A record with a clue of this number, approved by the member who places it.
#[tactic(auto, unfolding(crate::specs::Lines::record_line))]
fn record_line(
    alloc: Global,
    id: &Digest,
    member: u8,
    clue: u64,
    content: &[u8],
) -> Result<Bytes, NoMemory>
    requires member { member < 5 }
    requires content { length content.now ≤ 64 }
    ensures { IfOk result (λ line. line ≡ spec.record_line id.now.0 member clue content.now) }
{
    let mut name = Vec::new(alloc);
    name.push(b'c')?;
    put_number(&mut name, clue)?;
    let message = request_digest(
        id,
        u32::from(member),
        &clue_digest(name.as_slice()),
        content.len() as u32,
        &content_digest(content),
        0,
    );
    line_with(
        alloc,
        &[
            Word::Text(b"append"),
            Word::Number(u64::from(member)),
            Word::Text(name.as_slice()),
            Word::Hex(content),
            Word::Hex(&proof_by(member, &message)),
        ],
    )
}

/// A new member, approved by the operator.
#[tactic(auto, unfolding(crate::specs::Lines::member_line))]
pub(crate) fn member_line(alloc: Global, id: &Digest, member: u8) -> Result<Bytes, NoMemory>
    requires { member < 5 }
    ensures { IfOk result (λ line. line ≡ spec.member_line id.now.0 member) }
{
    let key = key_of(member);
    let message = member_request_digest(id, u32::from(member), &key);
    line_with(
        alloc,
        &[
            Word::Text(b"member"),
            Word::Number(u64::from(member)),
            Word::Hash(key),
            Word::Hex(&proof_by(OPERATOR, &message)),
        ],
    )
}

// An occult, approved by the operator and the regulator. The leaf digest of a journal that was purged is told as 32 zeros.
#[tactic(auto, unfolding(crate::specs::Lines::occult_line))]
fn occult_line(alloc: Global, book: &Book, target: u64) -> Result<Bytes, NoMemory>
    requires { target < book.now.size }
    ensures { IfOk result (λ line. (h : History) → Serves book.now h → line ≡ spec.occult_line h target) }
{
    let leaf = kept_leaf(book, target);
    let message = occult_request_digest(&book.id(), target, &leaf);
    let mut given = Vec::new(alloc);
    put_approval(&mut given, OPERATOR, &message)?;
    given.push(b',')?;
    put_approval(&mut given, REGULATOR, &message)?;
    line_with(
        alloc,
        &[
            Word::Text(b"occult"),
            Word::Number(target),
            Word::Hash(leaf),
            Word::Text(given.as_slice()),
        ],
    )
}

// A purge, approved by the operator and by each member of whose records it takes one.
#[tactic(auto, unfolding(crate::specs::Lines::purge_line))]
fn purge_line(alloc: Global, book: &Book, point: u64) -> Result<Bytes, NoMemory>
    ensures { IfOk result (λ line. (h : History) → Serves book.now h → model.point h ≤ point
        → point ≤ model.size h → line ≡ spec.purge_line h point) }
{
    let root = root_below(book, point);
    let message = purge_request_digest(&book.id(), point, &root);
    let mut given = Vec::new(alloc);
    put_approval(&mut given, OPERATOR, &message)?;
    let [second, third, fourth] = MEMBERS;
    put_owner(&mut given, book, second, point, &message)?;
    put_owner(&mut given, book, third, point, &message)?;
    put_owner(&mut given, book, fourth, point, &message)?;
    line_with(
        alloc,
        &[
            Word::Text(b"purge"),
            Word::Number(point),
            Word::Hash(root),
            Word::Text(given.as_slice()),
        ],
    )
}

// The leaf digest of a journal, or zeros where it was purged.
fn kept_leaf(book: &Book, n: u64) -> Digest
    requires { n < book.now.size }
    ensures { (h : History) → Serves book.now h → result ≡ spec.kept_leaf h n }
{
    if n < book.point() {
        Digest::ZERO
    } else {
        leaf_of(book, n)
    }
}

/// The leaf digest of a journal that is kept.
pub(crate) fn leaf_of(book: &Book, n: u64) -> Digest
    ensures { (h : History) → Serves book.now h → model.point h ≤ n → n < model.size h
        → result ≡ digest (leaf_at h n) }
{
    match book.tree().leaf(n) {
        Ok(leaf) => leaf,
        Err(_) => Digest::ZERO,
    }
}

// The root over the journals in front of one that is kept.
fn root_below(book: &Book, n: u64) -> Digest
    ensures { (h : History) → Serves book.now h → model.point h ≤ n → n ≤ model.size h
        → result ≡ digest (model.root h n) }
{
    match book.tree().root_at(n) {
        Ok(root) => root,
        Err(_) => Digest::ZERO,
    }
}

// Appends a member's approval of a purge behind a comma, where the purge takes a record of that member.
fn put_owner(
    given: &mut Vec<u8>,
    book: &Book,
    member: u8,
    point: u64,
    message: &Digest,
) -> Result<(), NoMemory>
    requires { member < 5 }
    ensures { OnOk result ((h : History) → Serves book.now h
        → given.new.items ≡ given.old.items ++ spec.owner_approval h point message.now.0 member) }
{
    if has_record_of(book, member, point) {
        given.push(b',')?;
        put_approval(given, member, message)?;
    }
    Ok(())
}

// Whether a record of this member is kept in front of a journal.
fn has_record_of(book: &Book, member: u8, before: u64) -> bool
    ensures { (h : History) → Serves book.now h → result ≡ spec.is_owner h before member }
{
    for n in book.point()..before {
        if is_record_of(book.header(n), member) {
            return true;
        }
    }
    false
}

fn is_record_of(header: Option<&Header>, member: u8) -> bool
    ensures { result ≡ spec.is_record_by member (option_copied header.entry) }
{
    match header {
        Some(header) => header.kind == Kind::Content && header.member == u32::from(member),
        None => false,
    }
}

// The last kept time journal but one.
fn last_time_but_one(book: &Book) -> Option<u64>
    ensures { (h : History) → Serves book.now h
        → result ≡ option_map (λ e. e.header.jsn) (spec.last_time_but_one h) }
{
    let (last, _) = book.bounds_of(book.size());
    let (before, _) = book.bounds_of(last?.jsn);
    Some(before?.jsn)
}
