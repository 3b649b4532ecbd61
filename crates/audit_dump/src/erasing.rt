//! Which contents of a dump are missing, and which its occults hide.

ghost use Rattle.std.specs.Prelude.{◌≡◌, ◌<◌, ◌+◌, ◌^◌, ◌++◌, [], ◌∷◌, length, count_by, List, OnOk};
ghost use Rattle.journal_record.specs.Items.{Item};
ghost use Rattle.dump_model.specs.Checks.{is_erased};
ghost use Rattle.audit_dump.specs.Notes.{AreInOrder, AreMarksOf, IsFirstWrong, record_clue, is_hidden_by_clue, is_marked_hidden, named_at};

use journal_record::{Header, Kind};
use ledger_bytes::{Digest, NoMemory};
use std::alloc::Global;
use std::collections::BTreeMap;
use std::marker::Model;

// What is marked of a journal.
#[derive(Clone, Copy, Debug, PartialEq, Eq)]
pub(crate) struct Mark {
    // Its content is missing.
    erased: bool,
    // An occult names it.
    named: bool,
    // The clue by which its content may be hidden, where it is a record.
    clue: Option<Digest>,
}

// A mark for each journal that was read, 35 bytes, in their order, and of each clue that occults name the last of them. A contract
// sees lists of both.
#[derive(Drop)]
pub(crate) struct Erasures {
    first: u64,
    marks: Vec<Mark>,
    clues: BTreeMap<[u8; 32], u64>,
}

impl Model for Erasures {
    ghost use Rattle.audit_dump.specs.Notes.{Erased};

    ghost Value = { Erased };

    ghost view = { λ e. record { first = e.first; marks = e.marks.items; clues = e.clues.entries } };
}

impl Erasures {
    // No journal was read; the first one will have this number.
    pub(crate) fn new(alloc: Global, first: u64) -> Self
        ensures first { result.first ≡ first }
        ensures marks { AreMarksOf [] result }
    {
        Erasures {
            first,
            marks: Vec::new(alloc),
            clues: BTreeMap::new(alloc),
        }
    }

    // Marks the next journal, and where it is an occult what it names: a journal, or a clue. One in front of the first isn't marked.
    pub(crate) fn mark(&mut self, header: &Header, erased: bool) -> Result<(), NoMemory>
        ensures { OnOk result ((items : List Item) (item : Item)
            → AreInOrder self.old.first (items ++ item ∷ [])
            → item.header ≡ header.now → is_erased item ≡ erased → AreMarksOf items self.old
            → AreMarksOf (items ++ item ∷ []) self.new × (self.new.first ≡ self.old.first)) }
    {
        self.marks.push(Mark {
            erased,
            named: false,
            clue: record_clue(header),
        })?;
        match header.kind {
            Kind::Occult => self.name(header.a),
            Kind::ClueOccult => {
                self.clues.insert(header.link.0, header.jsn)?;
            }
            Kind::Genesis | Kind::Content | Kind::Member | Kind::Time | Kind::Purge => {}
        }
        Ok(())
    }

    // Marks journal `n` as named, where it is one of these.
    fn name(&mut self, n: u64)
        ensures first { self.new.first ≡ self.old.first }
        ensures marks { self.new.marks ≡ named_at self.old.first n self.old.marks }
        ensures clues { self.new.clues ≡ self.old.clues }
    {
        let Some(place) = n.checked_sub(self.first) else {
            return;
        };
        if let Some(mark) = self.marks.get_mut(place as usize) {
            mark.named = true;
        }
    }

    // The number of the first journal.
    pub(crate) fn first(&self) -> u64
        ensures { result ≡ self.now.first }
    {
        self.first
    }

    // How many journals were read.
    pub(crate) fn count(&self) -> u64
        ensures { result ≡ length self.now.marks }
    {
        self.marks.len() as u64
    }

    // Of how many of them the content is missing.
    pub(crate) fn erased(&self) -> u64
        ensures { result ≡ count_by (λ mark. mark.erased) self.now.marks }
    {
        self.marks.iter().filter(|mark| mark.erased).count() as u64
    }

    // The first journal whose content is missing and isn't hidden, or is hidden and there. Each record is looked up among the clues
    // that occults name.
    pub(crate) fn first_wrong(&self) -> Option<u64>
        requires { self.now.first + length self.now.marks < 2 ^ 64 }
        ensures { (items : List Item) → AreInOrder self.now.first items
            → AreMarksOf items self.now → IsFirstWrong items result }
    {
        for (place, mark) in self.marks.iter().enumerate() {
            let n = self.first + place as u64;
            if mark.erased != self.is_hidden(n, mark) {
                return Some(n);
            }
        }
        None
    }

    // Whether journal `n`, of which this is the mark, is hidden.
    fn is_hidden(&self, n: u64, mark: &Mark) -> bool
        ensures { result ≡ is_marked_hidden self.now.clues n mark.now }
    {
        mark.named || self.is_hidden_by_clue(n, mark.clue)
    }

    // Whether an occult by this clue stands behind journal `n`.
    fn is_hidden_by_clue(&self, n: u64, clue: Option<Digest>) -> bool
        ensures { result ≡ is_hidden_by_clue self.now.clues n clue }
    {
        match clue {
            Some(clue) => self.clues.get(&clue.0).is_some_and(|last| n < *last),
            None => false,
        }
    }
}

// The clue by which the content of a journal may be hidden: that of a record.
fn record_clue(header: &Header) -> Option<Digest>
    ensures { result ≡ record_clue header.now }
{
    match header.kind {
        Kind::Content => Some(header.clue),
        Kind::Genesis | Kind::Member | Kind::Time | Kind::Occult | Kind::Purge | Kind::ClueOccult =>
            None,
    }
}
