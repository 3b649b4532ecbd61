//! Laws of a committer's ledger: it holds the lawful history of the files that were made or opened.

ghost use Rattle.std.specs.Prelude.{◌≡◌, ◌≤◌, ℕ, Bool, true, IsTrue, List, [], Option, None};
ghost use Rattle.ledger_open.specs.Heads.{Edition, edition_from, edition_of};
ghost use Rattle.journal_record.specs.Entry.{Entry};
ghost use Rattle.ledger_disk.specs.Disk.{State};
ghost use Rattle.ledger_io.specs.Outside.{SinkState};
ghost use Rattle.ledger_model.specs.Genesis.{HasKeys, new_ledger};
ghost use Rattle.ledger_model.specs.History.{History, size};
ghost use Rattle.ledger_model.specs.Lawful.{IsLawful};
ghost use Rattle.ledger_model.specs.Limits.{real_limits};
ghost use Rattle.ledger_model.specs.declared.genesis.Genesis.{Genesis};
ghost use Rattle.twin_file.specs.Twin.{open_of};
ghost use Rattle.pseudo_genesis.specs.declared.base.Base.{Base};
ghost use Rattle.ledger_open.specs.Founding.{IsFounded};
ghost use Rattle.ledger_open.specs.Opening.{Known};
ghost use Rattle.ledger_open.specs.Reopened.{IsReopened};
ghost use Rattle.ledger_open.specs.Standing.{PairFor};
ghost use Rattle.batch_committer.specs.Opened.{kept_from, IsOpened, IsQuietFor};
ghost use Rattle.batch_committer.specs.World.{CommitterState, World, Pair, world, Fits, HasRoom, Holds, stored_part};

/// What is known of a ledger that was opened is all that the first call asks for. Under the limits of each ledger each
/// history that the pair stood for is the one that the committer and its disks have.
pub fn an_opened_ledger_is_held()
    ensures held { (tells : Bool) (k : Known) (in_a : Bool) (edition : Edition)
        (start : Option Base) (blocks : List (List Entry))
        (a b : State) (disks : Pair) (sink : SinkState) (h : History)
        → IsOpened k in_a disks start blocks → k.book.limits ≡ real_limits → IsTrue tells
        → IsReopened in_a k start blocks a b disks.a.bytes disks.b.bytes
        → PairFor a.seen b.seen h
        → Holds tells (world (kept_from k in_a edition) disks sink) h }
    ensures fits { (tells : Bool) (k : Known) (in_a : Bool) (edition : Edition)
        (start : Option Base) (blocks : List (List Entry))
        (a b : State) (disks : Pair) (sink : SinkState)
        → IsOpened k in_a disks start blocks
        → (IsTrue tells → IsReopened in_a k start blocks a b disks.a.bytes disks.b.bytes)
        → (IsTrue tells → edition ≡ edition_of (open_of in_a disks.a.bytes disks.b.bytes).seen)
        → Fits tells (world (kept_from k in_a edition) disks sink) }
    ensures room { (k : Known) (in_a : Bool) (edition : Edition) (start : Option Base)
        (blocks : List (List Entry)) (disks : Pair)
        → IsOpened k in_a disks start blocks → HasRoom (kept_from k in_a edition) }
{}

/// The same of a ledger that was made: it is the new ledger's history.
pub fn a_new_ledger_is_held()
    ensures held { (tells : Bool) (k : Known) (genesis : Genesis) (disks : Pair) (sink : SinkState)
        → HasKeys genesis → IsOpened k true disks None (new_ledger genesis).closed
        → k.book.limits ≡ real_limits → IsTrue tells → IsFounded genesis disks.a.bytes disks.b.bytes
        → Holds tells (world (kept_from k true (edition_from 2 1)) disks sink) (new_ledger genesis) }
    ensures fits { (tells : Bool) (k : Known) (genesis : Genesis) (disks : Pair) (sink : SinkState)
        → HasKeys genesis → IsOpened k true disks None (new_ledger genesis).closed
        → (IsTrue tells → IsFounded genesis disks.a.bytes disks.b.bytes)
        → Fits tells (world (kept_from k true (edition_from 2 1)) disks sink) }
{}

/// Nothing is pending, and each pair of images stands for what is stored of the history that is held. Where no journal waits and
/// no block is gathered, that is all of it.
pub fn a_held_ledger_is_clean()
    ensures clean { (tells : Bool) (w : World) (h : History) → Holds tells w h
        → IsQuietFor w.disks (stored_part w.kept h) }
    ensures whole { (k : CommitterState) (h : History) → k.ended ≡ 0 → h.waiting ≡ []
        → stored_part k h ≡ h }
{}

/// The history that is held is lawful, where a journal more has room.
pub fn a_held_history_is_lawful()
    ensures lawful { (tells : Bool) (w : World) (h : History) → Holds tells w h → HasRoom w.kept
        → IsLawful h }
    ensures some { (tells : Bool) (w : World) (h : History) → Holds tells w h → 1 ≤ size h }
{}
