//! By what a purge is judged: whose approvals it needs, and the root in front of its point.

ghost use Rattle.std.specs.Prelude.{◌≡◌, ◌-◌, ◌≤◌, ◌++◌, List, [], ◌∷◌, Option, slice_get, IfOk, OnOk};
ghost use Rattle.std.specs.Option.{option_to_list};
ghost use Rattle.journal_record.specs.Entry.{Entry};
ghost use Rattle.journal_record.specs.declared.header.Header.{Header as HeaderRecord};
ghost use Rattle.journal_record.specs.declared.header.Kind.TheVariants as kind;
ghost use Rattle.pseudo_genesis.specs.declared.base.Base.{Base};
ghost use Rattle.ledger_model.specs.Behind.{first_of, next_number};
ghost use Rattle.ledger_model.specs.History.{history};
ghost use Rattle.ledger_model.specs.Needs.{HaveSame, purge_needs};
ghost use Rattle.ledger_book.specs.Purges.{owners_in};
ghost use Rattle.ledger_book.specs.Reading.{HasLeaves, StandsBehind};
ghost use Rattle.audit_dump.specs.Deciding.{IsRootBelow};

use journal_record::{Header, Kind};
use ledger_book::Book;
use ledger_bytes::{Digest, NoMemory, Sha};
use merkle_batch::Tree;
use std::alloc::Global;

// The members whose approvals the journal with this header needs, where it is a purge, and else nobody.
pub(crate) fn needed_by(alloc: Global, book: &Book, header: &Header) -> Result<Vec<u32>, NoMemory>
    ensures { IfOk result (λ needed. header.now.kind ≡ kind.Purge → (start : Option Base)
        (before : List Entry) → StandsBehind book.now start before
        → HaveSame needed.items (purge_needs (history [] before) header.now.a)) }
{
    if header.kind == Kind::Purge {
        needed_for(alloc, book, header.a)
    } else {
        Ok(Vec::new(alloc))
    }
}

// The members whose approvals a purge to `p` needs, each once: the operator, and the owners of the records that it takes. Of the
// kept headers those from the point in force up to `p` are looked at.
fn needed_for(alloc: Global, book: &Book, p: u64) -> Result<Vec<u32>, NoMemory>
    ensures { IfOk result (λ needed. (start : Option Base) (before : List Entry)
        → StandsBehind book.now start before
        → HaveSame needed.items (purge_needs (history [] before) p)) }
{
    let first = book.point().max(book.floor());
    let end = p.min(book.size()).max(first);
    let mut owners = vec![in alloc; 0]?;
    for n in first..end {
        add_owner_of(&mut owners, book, n)?;
    }
    Ok(owners)
}

// Adds the owner of journal `n`, where that is a record that is kept, and its owner isn't there yet.
fn add_owner_of(owners: &mut Vec<u32>, book: &Book, n: u64) -> Result<(), NoMemory>
    requires { book.now.floor ≤ n }
    ensures { OnOk result ((headers : List HeaderRecord)
        → HaveSame owners.old.items (owners_in headers)
        → HaveSame owners.new.items (owners_in
        (headers ++ option_to_list (slice_get book.now.headers (n - book.now.floor))))) }
{
    match book.header(n) {
        Some(header) => add_owner(owners, header),
        None => Ok(()),
    }
}

// Adds the owner of this journal, where it is a record, and its owner isn't there yet.
fn add_owner(owners: &mut Vec<u32>, header: &Header) -> Result<(), NoMemory>
    ensures { OnOk result ((headers : List HeaderRecord)
        → HaveSame owners.old.items (owners_in headers)
        → HaveSame owners.new.items (owners_in (headers ++ header.now ∷ []))) }
{
    if header.kind != Kind::Content {
        return Ok(());
    }
    if owners.as_slice().contains(&header.member) {
        return Ok(());
    }
    owners.push(header.member)?;
    Ok(())
}

// The root over the journals in front of `p`, by a tree that has their leaves from the first known journal on; `None` where `p`
// lies in front of that, or behind all journals. It costs a hash for each level of the tree, and takes no memory.
pub(crate) fn root_below(tree: &Tree<Sha>, p: u64) -> Option<Digest>
    ensures { (start : Option Base) (before : List Entry) → HasLeaves start tree.now before
        → tree.now.floor ≡ first_of start → p ≤ tree.now.size
        → IsRootBelow start before p result }
{
    match tree.root_at(p) {
        Ok(root) => Some(root),
        Err(_) => None,
    }
}

// The root over the journals in front of `p`, by what a book keeps of the journals of a dump.
pub(crate) fn root_in(book: &Book, p: u64) -> Option<Digest>
    ensures { (start : Option Base) (before : List Entry) → StandsBehind book.now start before
        → p ≤ next_number start before → IsRootBelow start before p result }
{
    root_below(book.tree(), p)
}

// The root that a purge with this header was approved by, which is none where its point lies in front of the base. For other
// journals it is none.
pub(crate) fn root_asked(book: &Book, header: &Header) -> Option<Digest>
    ensures { header.now.kind ≡ kind.Purge → (start : Option Base) (before : List Entry)
        → StandsBehind book.now start before → header.now.a ≤ next_number start before
        → IsRootBelow start before header.now.a result }
{
    if header.kind == Kind::Purge {
        root_in(book, header.a)
    } else {
        None
    }
}
