//! What the last journal hides is given up.

ghost use Rattle.std.specs.Prelude.{◌≡◌, ◌⊎◌, ◌+◌, ◌-◌, ◌<◌, ◌≤◌, ℕ, false, IsTrue, IfErr, OnOk, slice_get, option_copied, option_map};
ghost use Rattle.block_file.specs.Head.{CountsAlone};
ghost use Rattle.block_file.specs.FileView.{gate_of, HasTail};
ghost use Rattle.ledger_book.specs.Books.{Serves};
ghost use Rattle.ledger_disk.specs.Disk.{KeepsLength};
ghost use Rattle.ledger_model.specs.History.{History, journals, size};
ghost use Rattle.twin_file.specs.Twin.{other_of};
ghost use Rattle.twin_file.specs.Which.{in_a_of, file_of};
ghost use Rattle.ledger_open.specs.Erasing.{AllInside, GivesUp, WritesZeros, StandsMeanwhile, LeavesShown, LeavesErased, LeavesRest, WritesSome, is_given_up};
ghost use Rattle.ledger_open.specs.Opening.{open_state, CountsOpen, OfOpen};
ghost use Rattle.ledger_open.specs.declared.failure.OpenErr.TheVariants as errors;

use crate::{OpenErr, Opened, Places};
use block_file::{BlockFile, FileErr};
use journal_record::{Header, Kind};
use ledger_book::Book;
use ledger_disk::Disk;

// The header of the last journal.
fn last_header(book: &Book) -> Option<&Header>
    ensures { (h : History) → Serves book.now h → option_copied result
        ≡ option_map (λ journal. journal.header) (slice_get (journals h) (size h - 1)) }
{
    book.header(book.size() - 1)
}

// From which on, and up to which, of so many places those stand that are given up. An occult names one journal, so the others
// aren't looked at. The records that one by clue hides may stand at any of them.
fn span(book: &Book, count: usize) -> (usize, usize)
    ensures order { result.0 ≤ result.1 }
    ensures within { result.1 ≤ count }
    ensures others { (h : History) → Serves book.now h → (i : ℕ) → i < count
        → (i < result.0) ⊎ (result.1 ≤ i) → is_given_up h (book.now.floor + i) ≡ false }
{
    let Some(last) = last_header(book) else {
        return (0, 0);
    };
    match last.kind {
        Kind::Occult => match last.a.checked_sub(book.floor()) {
            Some(index) if index < count as u64 => (index as usize, index as usize + 1),
            _ => (0, 0),
        },
        Kind::ClueOccult => (0, count),
        Kind::Genesis | Kind::Content | Kind::Member | Kind::Time | Kind::Purge => (0, 0),
    }
}

// Whether the content of journal `n` is given up: no purge took it, and it is the last journal that hides it.
fn gives_up(book: &Book, n: u64) -> bool
    ensures { (h : History) → Serves book.now h → book.now.floor ≤ n → result ≡ is_given_up h n }
{
    book.point() <= n && book.hider(n) == Some(book.size() - 1)
}

/// Gives up each content that the last journal hides and none before it does, in the open file, whose disk this is. However
/// many they are, they are synced once.
pub(crate) fn finish_in<D: Disk>(
    book: &Book,
    places: &Places,
    file: &mut BlockFile,
    disk: &mut D,
) -> Result<(), FileErr>
    requires told { HasTail (D.state disk.old).told file.old }
    requires inside { AllInside (gate_of file.old) places.now.list }
    ensures bytes { OnOk result (IsTrue D.tells → WritesZeros book.now places.now.list
        (D.state disk.old).bytes (D.state disk.new).bytes) }
    ensures images { IsTrue D.tells → StandsMeanwhile book.now places.now.list
        (D.state disk.old).bytes (D.state disk.new).bytes }
    ensures shown { IsTrue D.tells → LeavesShown book.now places.now.list
        (D.state disk.old).bytes (D.state disk.new).bytes }
    ensures idle { IsTrue D.tells → LeavesErased book.now places.now.list
        (D.state disk.old).bytes (D.state disk.new).bytes }
    ensures rest { IsTrue D.tells → LeavesRest places.now.list
        (D.state disk.old).bytes (D.state disk.new).bytes }
    ensures some { OnOk result (IsTrue D.tells → WritesSome places.now.list
        (D.state disk.old).bytes (D.state disk.new).bytes) }
    ensures same { file.new ≡ file.old }
    ensures length { KeepsLength (D.state disk.old).told (D.state disk.new).told }
    ensures faults { CountsAlone result (D.state disk.old).faults (D.state disk.new).faults }
{
    let floor = book.floor();
    let (first, end) = span(book, places.as_slice().len());
    let mut given_up = false;
    for index in first..end {
        let place = places.as_slice()[index];
        if gives_up(book, floor.saturating_add(index as u64)) {
            file.clear_range(disk, place.content_at, u64::from(place.content_len))?;
            given_up = true;
        }
    }

    // Zeros that stand already may be those of a run that was stopped in front of its sync.
    if given_up {
        file.sync(disk)?;
    }
    Ok(())
}

/// Gives up each content that the last journal hides and none before it does: zeros are written over it, where they don't
/// stand already, and at last the disk is synced. A fault of the disk is the only error.
pub fn finish_erasures<D: Disk>(a: &mut D, b: &mut D, opened: &mut Opened) -> Result<(), OpenErr>
    requires told { HasTail (open_state opened.old.twin (D.state a.old) (D.state b.old)).told
        (file_of opened.old.twin) }
    requires inside { AllInside (gate_of (file_of opened.old.twin)) opened.old.places.list }
    ensures ok { OnOk result (OfOpen D.tells opened.old.twin (GivesUp opened.old.book opened.old.places.list)
        (D.state a.old) (D.state b.old) (D.state a.new) (D.state b.new)) }
    ensures bytes { OnOk result (OfOpen D.tells opened.old.twin (WritesZeros opened.old.book opened.old.places.list)
        (D.state a.old) (D.state b.old) (D.state a.new) (D.state b.new)) }
    ensures images { OfOpen D.tells opened.old.twin (StandsMeanwhile opened.old.book opened.old.places.list)
        (D.state a.old) (D.state b.old) (D.state a.new) (D.state b.new) }
    ensures shown { OfOpen D.tells opened.old.twin (LeavesShown opened.old.book opened.old.places.list)
        (D.state a.old) (D.state b.old) (D.state a.new) (D.state b.new) }
    ensures idle { OfOpen D.tells opened.old.twin (LeavesErased opened.old.book opened.old.places.list)
        (D.state a.old) (D.state b.old) (D.state a.new) (D.state b.new) }
    ensures rest { OfOpen D.tells opened.old.twin (LeavesRest opened.old.places.list)
        (D.state a.old) (D.state b.old) (D.state a.new) (D.state b.new) }
    ensures some { OnOk result (OfOpen D.tells opened.old.twin (WritesSome opened.old.places.list)
        (D.state a.old) (D.state b.old) (D.state a.new) (D.state b.new)) }
    ensures other { other_of (in_a_of opened.old.twin) (D.state a.new) (D.state b.new)
        ≡ other_of (in_a_of opened.old.twin) (D.state a.old) (D.state b.old) }
    ensures told { HasTail (open_state opened.old.twin (D.state a.new) (D.state b.new)).told (file_of opened.old.twin) }
    ensures only { IfErr result (λ e. e ≡ errors.DiskFault) }
    ensures same { opened.new ≡ opened.old }
    ensures faults { CountsOpen result (D.state a.old).faults (D.state a.new).faults
        (D.state b.old).faults (D.state b.new).faults }
{
    if opened.twin.in_a() {
        match finish_in(&opened.book, &opened.places, opened.twin.file(), a) {
            Ok(()) => Ok(()),
            Err(_) => Err(OpenErr::DiskFault),
        }
    } else {
        match finish_in(&opened.book, &opened.places, opened.twin.file(), b) {
            Ok(()) => Ok(()),
            Err(_) => Err(OpenErr::DiskFault),
        }
    }
}
