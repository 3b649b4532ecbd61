//! How what an occult hides or a purge takes is given up in the files, for good.

ghost use Rattle.std.specs.Prelude.{◌≡◌, None, IfOk, IfErr, OnOk, OnErr};
ghost use Rattle.block_file.specs.FileView.{gate_of, HasTail};
ghost use Rattle.twin_file.specs.Twin.{open_of};
ghost use Rattle.twin_file.specs.Which.{in_a_of, file_of, copy_of};
ghost use Rattle.ledger_open.specs.Cutting.{IsPrepared};
ghost use Rattle.ledger_open.specs.Places.{AreInOrder};
ghost use Rattle.ledger_open.specs.Purging.{LetsGo, MayLetGo};
ghost use Rattle.ledger_open.specs.declared.opened.Opened.{Opened as OpenedRecord};
ghost use Rattle.batch_committer.specs.Committed.{ledger_on, IsFinished, IsUnfinished};
ghost use Rattle.batch_committer.specs.World.{pair};
ghost use Rattle.batch_committer.specs.declared.failure.CommitErr.TheVariants as ends;

use crate::CommitErr;
use ledger_disk::Disk;
use ledger_open::purging::{Gone, Purge, purge_files};
use ledger_open::{Opened, finish_erasures};

/// Gives up what the last journal hides or purges, for good, in the files. What a purge needs was prepared, where one is left
/// undone: then it is a block of its own, and hides nothing. What it took memory has still, until it is let go of.
pub(crate) fn give_up<D: Disk>(
    opened: &mut Opened,
    a: &mut D,
    b: &mut D,
    purge: Option<Purge>,
) -> Result<Option<Gone>, CommitErr>
    requires told { HasTail (open_of (in_a_of opened.old.twin) (D.state a.old) (D.state b.old)).told
        (file_of opened.old.twin) }
    requires order { AreInOrder 64 (gate_of (file_of opened.old.twin)) opened.old.places.list }
    requires prepared { IsPrepared opened.old.book opened.old.places.list purge }
    ensures ok { IfOk result (λ gone. (later : OpenedRecord) → LetsGo gone opened.new later → IsFinished D.tells
        (ledger_on opened.old (pair (D.state a.old) (D.state b.old)))
        (ledger_on later (pair (D.state a.new) (D.state b.new)))
        (pair (D.state a.old) (D.state b.old)) (pair (D.state a.new) (D.state b.new))) }
    ensures may { IfOk result (MayLetGo opened.new) }
    ensures copy { OnOk result (copy_of opened.old.twin ≡ None → copy_of opened.new.twin ≡ None) }
    ensures err { OnErr result (IsUnfinished D.tells
        (ledger_on opened.old (pair (D.state a.old) (D.state b.old)))
        (pair (D.state a.old) (D.state b.old)) (pair (D.state a.new) (D.state b.new))) }
    ensures only { IfErr result (λ end. end ≡ ends.DiskFault) }
{
    if purge.is_some() {
        match purge_files(a, b, opened, purge) {
            Ok(gone) => Ok(gone),
            Err(_) => Err(CommitErr::DiskFault),
        }
    } else {
        match finish_erasures(a, b, opened) {
            Ok(()) => Ok(None),
            Err(_) => Err(CommitErr::DiskFault),
        }
    }
}
