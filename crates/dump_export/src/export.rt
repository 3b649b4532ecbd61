//! The dump of an opened ledger.

ghost use Rattle.std.specs.Prelude.{◌≡◌, IsTrue};
ghost use Rattle.dump_model.specs.Dumps.{dump_text};
ghost use Rattle.dump_model.specs.Shown.{ledger_dump};
ghost use Rattle.ledger_model.specs.History.{History};
ghost use Rattle.ledger_open.specs.Pieces.{IsReadAs};
ghost use Rattle.twin_file.specs.Twin.{open_of, other_of};
ghost use Rattle.twin_file.specs.Which.{in_a_of};
ghost use Rattle.dump_export.specs.Exports.{TellsDamage, Writes, handed};
ghost use Rattle.dump_export.specs.Texts.{front_text};

use crate::DumpErr;
use crate::front::write_front;
use crate::journals::write_journals;
use crate::tail::write_tail;
use ledger_book::Book;
use ledger_disk::Disk;
use ledger_io::Sink;
use ledger_open::{Opened, Places};
use std::alloc::Global;
use time_peg::Notary;

// Writes the dump of a ledger with this book, whose open file stands on this disk.
fn write_from<D: Disk, N: Notary, K: Sink>(
    alloc: Global,
    book: &Book,
    places: &Places,
    file: &mut D,
    notary: &mut N,
    sink: &mut K,
) -> Result<(), DumpErr>
    ensures writes { Writes D.tells book.now places.now.list dump_text result
        (handed (D.state file.old) (N.state notary.old) (K.state sink.old))
        (handed (D.state file.new) (N.state notary.new) (K.state sink.new)) }
    ensures damages { IsTrue D.tells → (h : History)
        → IsReadAs book.now places.now.list (D.state file.old).bytes.seen h
        → TellsDamage (front_text (ledger_dump h (N.state notary.old).entries)) h result
        (K.state sink.old) (K.state sink.new) }
{
    write_front(alloc, book, sink)?;
    write_journals(alloc, book, places, file, sink)?;
    write_tail(alloc, book, notary, sink)
}

/// Writes the dump of an opened ledger, whose files stand on these disks, beside this notary's list. Of the disks only the
/// open file's is read, in pages of 64 KiB or of one longer piece, and journals are written in pieces of 64 KiB or somewhat more. What is written
/// is a beginning of the dump, also where it ends early. A journal that is damaged ends it, with all in front of it written, and nothing of that
/// journal is; behind another error the last journals that were read may be missing. The memory that it takes doesn't grow with the number of
/// journals, but for the base, nor with that of the entries.
pub fn write_dump<D: Disk, N: Notary, K: Sink>(
    alloc: Global,
    opened: &Opened,
    a: &mut D,
    b: &mut D,
    notary: &mut N,
    sink: &mut K,
) -> Result<(), DumpErr>
    // At Ok the dump of each history that the ledger has is written, and else a beginning of it; each error has its cause.
    ensures writes { Writes D.tells opened.now.book opened.now.places.list dump_text result
        (handed (open_of (in_a_of opened.now.twin) (D.state a.old) (D.state b.old))
        (N.state notary.old) (K.state sink.old))
        (handed (open_of (in_a_of opened.now.twin) (D.state a.new) (D.state b.new))
        (N.state notary.new) (K.state sink.new)) }
    // At Ok each journal is whole, and a damage is that of the first that isn't: those in front of it are written.
    ensures damages { IsTrue D.tells → (h : History)
        → IsReadAs opened.now.book opened.now.places.list
        (open_of (in_a_of opened.now.twin) (D.state a.old) (D.state b.old)).bytes.seen h
        → TellsDamage (front_text (ledger_dump h (N.state notary.old).entries)) h result
        (K.state sink.old) (K.state sink.new) }
    ensures other { other_of (in_a_of opened.now.twin) (D.state a.new) (D.state b.new)
        ≡ other_of (in_a_of opened.now.twin) (D.state a.old) (D.state b.old) }
{
    if opened.twin.in_a() {
        write_from(alloc, &opened.book, &opened.places, a, notary, sink)
    } else {
        write_from(alloc, &opened.book, &opened.places, b, notary, sink)
    }
}
