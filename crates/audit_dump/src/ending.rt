//! What stands behind the journals of a dump, read to the input's end through a window on its source.

ghost use Rattle.std.specs.Prelude.{◌≡◌, ◌↔◌, IsTrue, ◌+◌, ◌-◌, ◌<◌, ◌≤◌, ◌^◌, ◌∷◌, ◌++◌, [], ℕ, List, map, take, length, IfOk, IfErr, OnOk, Ok, Err};
ghost use Rattle.std.specs.Int.{w64, from_be_bytes};
ghost use Rattle.sha2.specs.Sha256.{sha256};
ghost use Rattle.ledger_io.specs.Lines.{script_limit};
ghost use Rattle.ledger_io.specs.Windows.{HasSeen, HasEnough};
ghost use Rattle.tree_model.specs.Tree.{leaf};
ghost use Rattle.merkle_batch.specs.Rows.{StandsFor};
ghost use Rattle.journal_record.specs.Items.{Item};
ghost use Rattle.time_peg.specs.Entries.{time_in};
ghost use Rattle.audit_dump.specs.Breaks.{Front, Tail};
ghost use Rattle.audit_dump.specs.Bytes.{dump_of};
ghost use Rattle.audit_dump.specs.Claims.{MeetFirst};
ghost use Rattle.audit_dump.specs.Ending.{IsNotaryList};
ghost use Rattle.audit_dump.specs.Fronts.{HasReadOn};
ghost use Rattle.audit_dump.specs.Tails.{HasNoEnd, HasStopped, HasStoppedInEntries, HasTaken, HasTakenEntries, IsEndingOf, IsOfEntries, IsOver, StopsOver, TellsEnding};
ghost use Rattle.audit_dump.specs.declared.claims.Claim.{Claim};

use crate::claims::{Claims, Meeting};
use crate::front::Stop;
use crate::walking::Break;
use ledger_bytes::{Bad, Digest, NoMemory, Sha};
use ledger_io::{LineErr, Source, Window};
use merkle_batch::Tree;
use merkle_tree::{Head, leaf_of};
use std::alloc::Global;

// How many leaves of the tree are kept at most.
const KEPT: u64 = 64;

// The bytes of an entry.
const ENTRY_LEN: usize = 72;

// What a dump tells behind its journals, and what its entries are.
#[derive(Clone, Copy, Debug, PartialEq, Eq)]
pub(crate) struct Ending {
    // The ledger's head, as the dump tells it.
    pub(crate) head: Head,
    // How many entries there are.
    pub(crate) count: u64,
    // The root over the entries that are there.
    pub(crate) entries_root: Digest,
    // The notary's root, as the dump tells it.
    pub(crate) notary_root: Digest,
    // Whether the entries' times never fall.
    pub(crate) never_falls: bool,
    // The least number of a time journal whose entry is missing, or isn't the one that the journal claims.
    pub(crate) unmet: Option<u64>,
}

// What is kept of the entries that were read.
#[derive(Drop)]
pub(crate) struct Entries {
    tree: Tree<Sha>,
    last: u64,
    never_falls: bool,
}

// Reads what stands behind a dump's journals, to the input's end: the head and its entries, or how it breaks. All of it is
// taken from the window, as far as it was read. Each entry is held against what the time journals claim of it, for which the
// claims are sorted first.
//
// It takes memory for 64 leaves and the peaks in front of them, however many entries there are, hashes each entry once, and
// looks at each claim once.
// `ReadFault` where a read failed, `ScriptTooLong` where 2^40 bytes were read and more are wanted, and `NoMemory`;
// `LineTooLong` doesn't come.
pub(crate) fn read_tail<S: Source>(
    alloc: Global,
    window: &mut Window,
    source: &mut S,
    claims: &mut Claims,
) -> Result<Result<Ending, Break>, LineErr>
    // What is told is so of the input. No window holds more than was read.
    ensures over { length window.old.held ≤ window.old.total → IfOk result (TellsEnding claims.old
        (S.state source.old) (S.state source.new) window.old window.new) }
    ensures counts { OnOk result ((S.state source.new).faults ≡ (S.state source.old).faults) }
    ensures errors { IfErr result (λ e. HasEnough (S.state source.old) (S.state source.new)
        72 window.new (Err e)) }
    // So many bytes were read, also where it breaks or an error comes.
    ensures seen { (bytes : List ℕ) × HasReadOn (S.state source.old) (S.state source.new)
        window.old window.new bytes }
{
    match read_ending(alloc, window, source, claims) {
        Ok(ending) => Ok(Ok(ending)),
        Err(Stop::Broken(broken)) => Ok(Err(broken)),
        Err(Stop::Failed(e)) => Err(e),
    }
}

// Whether the entries are a notary's list with this head: so many, with that root, which the dump tells too, and their times
// never fall.
pub(crate) fn is_notary_list(ending: &Ending, given: &Head) -> bool
    ensures { (front : Front) (items : List Item) (tail : Tail) (claims : List Claim)
        → IsEndingOf claims tail ending.now
        → (IsTrue result ↔ IsNotaryList (dump_of front items tail) given.now) }
{
    has_head(ending, given) && ending.never_falls
}

// Whether the entries have this head, and the dump tells its root.
fn has_head(ending: &Ending, given: &Head) -> bool
    ensures { IsTrue result ↔ ((ending.now.count ≡ given.now.size)
        × (ending.now.entries_root ≡ ending.now.notary_root)
        × (ending.now.notary_root ≡ given.now.root)) }
{
    ending.count == given.size
        && ending.entries_root == ending.notary_root
        && ending.notary_root == given.root
}

// Adds an entry's leaf. After each 64 the leaves are forgotten, and their peaks stay.
fn add_entry(tree: &mut Tree<Sha>, entry: &[u8]) -> Result<(), NoMemory>
    requires small { tree.old.size + 1 < 2 ^ 63 }
    requires few { tree.old.size - tree.old.floor < 64 }
    // It stands for one entry more.
    ensures stands { OnOk result ((entries : List (List ℕ))
        → StandsFor sha256 tree.old (map (leaf sha256) entries)
        → StandsFor sha256 tree.new (map (leaf sha256) (entries ++ entry.now ∷ []))) }
    ensures size { OnOk result (tree.new.size ≡ tree.old.size + 1) }
    ensures few { OnOk result (tree.new.size - tree.new.floor < 64) }
{
    tree.reserve(1)?;
    tree.add_leaves(&[leaf_of::<Sha>(entry)]);
    if tree.size().saturating_sub(tree.floor()) >= KEPT {
        let _ = tree.forget_below(tree.size());
    }
    Ok(())
}

// The first bytes, so many.
fn first_bytes<const N: usize>(bytes: &[u8]) -> [u8; N]
    requires { N ≤ length bytes.now }
    ensures { result ≡ take N bytes.now }
{
    match bytes.split_first_chunk::<N>() {
        Some((first, _)) => *first,
        None => unreachable!(),
    }
}

// The time of an entry.
fn time_of(entry: &[u8; ENTRY_LEN]) -> u64
    ensures { result ≡ time_in entry.now }
{
    u64::from_be_bytes(first_bytes::<8>(entry.as_slice()))
}

// Whether times that never fell so far still do not, where this is the last and that the next.
fn still(never_falls: bool, last: u64, next: u64) -> bool
    ensures { IsTrue result ↔ (IsTrue never_falls × (last ≤ next)) }
{
    never_falls && last <= next
}

// Adds an entry to what is kept of those before it.
fn keep_entry(entries: &mut Entries, entry: &[u8; ENTRY_LEN]) -> Result<(), NoMemory>
    requires small { entries.old.tree.size + 1 < 2 ^ 63 }
    requires few { entries.old.tree.size - entries.old.tree.floor < 64 }
    ensures { OnOk result ((es : List (List ℕ)) → IsOfEntries es entries.old
        → IsOfEntries (es ++ entry.now ∷ []) entries.new) }
{
    add_entry(&mut entries.tree, entry.as_slice())?;
    let time = time_of(entry);
    entries.never_falls = still(entries.never_falls, entries.last, time);
    entries.last = time;
    Ok(())
}

// Reads on until so many bytes are held.
fn hold<S: Source>(window: &mut Window, source: &mut S, want: usize) -> Result<(), Stop>
    ensures taken { OnOk result (HasTaken (S.state source.old) (S.state source.new)
        window.old window.new []) }
    ensures long { OnOk result (want ≤ length window.new.held) }
    ensures bounded { OnOk result (window.new.total ≤ script_limit) }
    ensures fits { OnOk result (length window.new.held < 2 ^ 64) }
    ensures stopped { IfErr result (HasStopped want (S.state source.old) (S.state source.new)
        window.old window.new) }
{
    match window.fill(source, want) {
        Ok(()) => (),
        Err(e) => return Err(Stop::Failed(e)),
    }
    let held = window.as_slice().len();
    if held < want {
        let end = window.place() + held as u64;
        return Err(Stop::Broken(Break {
            bad: Bad::Short { at: end },
            place: end,
        }));
    }
    Ok(())
}

// The next bytes, so many, which are taken from the window.
fn read_bytes<const N: usize, S: Source>(
    window: &mut Window,
    source: &mut S,
) -> Result<[u8; N], Stop>
    ensures taken { IfOk result (HasTaken (S.state source.old) (S.state source.new)
        window.old window.new) }
    ensures width { IfOk result (λ text. length text ≡ N) }
    ensures bounded { OnOk result (window.new.total ≤ script_limit) }
    ensures fits { OnOk result (length window.new.held < 2 ^ 64) }
    ensures stopped { IfErr result (HasStopped N (S.state source.old) (S.state source.new)
        window.old window.new) }
{
    hold(window, source, N)?;
    let bytes = first_bytes::<N>(window.as_slice());
    window.consume(N);
    Ok(bytes)
}

// The next number.
fn read_number<S: Source>(window: &mut Window, source: &mut S) -> Result<u64, Stop>
    ensures taken { IfOk result (λ n. (text : List ℕ) × (length text ≡ 8)
        × (n ≡ from_be_bytes w64 text)
        × HasTaken (S.state source.old) (S.state source.new) window.old window.new text) }
    ensures fits { OnOk result (length window.new.held < 2 ^ 64) }
    ensures stopped { IfErr result (HasStopped 8 (S.state source.old) (S.state source.new)
        window.old window.new) }
{
    Ok(u64::from_be_bytes(read_bytes::<8, S>(window, source)?))
}

// The next digest.
fn read_digest<S: Source>(window: &mut Window, source: &mut S) -> Result<Digest, Stop>
    ensures taken { IfOk result (λ digest. HasTaken (S.state source.old) (S.state source.new)
        window.old window.new digest.0) }
    ensures width { IfOk result (λ digest. length digest.0 ≡ 32) }
    ensures stopped { IfErr result (HasStopped 32 (S.state source.old) (S.state source.new)
        window.old window.new) }
{
    Ok(Digest(read_bytes::<32, S>(window, source)?))
}

// What is kept of the first entries, so many. They are held against the claims.
fn read_entries<S: Source>(
    alloc: Global,
    window: &mut Window,
    source: &mut S,
    count: u64,
    meeting: &mut Meeting<'_>,
) -> Result<Entries, Stop>
    requires fits { length window.old.held < 2 ^ 64 }
    ensures taken { IfOk result (λ entries. (es : List (List ℕ)) × (length es ≡ count)
        × HasTakenEntries (S.state source.old) (S.state source.new) window.old window.new
        es entries × MeetFirst es meeting.old meeting.new) }
    ensures stopped { IfErr result (HasStoppedInEntries count (S.state source.old)
        (S.state source.new) window.old window.new) }
{
    let mut entries = Entries {
        tree: Tree::new(alloc),
        last: 0,
        never_falls: true,
    };
    for index in 0..count {
        let entry = read_bytes::<ENTRY_LEN, S>(window, source)?;
        meeting.meet(index, &entry);
        match keep_entry(&mut entries, &entry) {
            Ok(()) => (),
            Err(NoMemory) => return Err(Stop::Failed(LineErr::NoMemory)),
        }
    }
    Ok(entries)
}

// Nothing is to follow.
fn read_end<S: Source>(window: &mut Window, source: &mut S) -> Result<(), Stop>
    ensures taken { OnOk result (HasTaken (S.state source.old) (S.state source.new)
        window.old window.new []) }
    ensures over { OnOk result (IsOver window.new) }
    ensures stopped { IfErr result (HasNoEnd (S.state source.old) (S.state source.new)
        window.old window.new) }
{
    match window.fill(source, 1) {
        Ok(()) => (),
        Err(e) => return Err(Stop::Failed(e)),
    }
    if window.as_slice().is_empty() {
        return Ok(());
    }
    let place = window.place();
    Err(Stop::Broken(Break {
        bad: Bad::Trailing { at: place },
        place,
    }))
}

// Reads on to the input's end.
fn read_ending<S: Source>(
    alloc: Global,
    window: &mut Window,
    source: &mut S,
    claims: &mut Claims,
) -> Result<Ending, Stop>
    ensures over { length window.old.held ≤ window.old.total → IfOk result (λ ending. TellsEnding
        claims.old (S.state source.old) (S.state source.new) window.old window.new (Ok ending)) }
    ensures counts { OnOk result ((S.state source.new).faults ≡ (S.state source.old).faults) }
    ensures seen { OnOk result ((bytes : List ℕ) × HasReadOn (S.state source.old)
        (S.state source.new) window.old window.new bytes) }
    ensures stopped { IfErr result (StopsOver claims.old (S.state source.old) (S.state source.new)
        window.old window.new) }
{
    let mut meeting = claims.meeting();
    let size = read_number(window, source)?;
    let root = read_digest(window, source)?;
    let count = read_number(window, source)?;
    let entries = read_entries(alloc, window, source, count, &mut meeting)?;
    let notary_root = read_digest(window, source)?;
    read_end(window, source)?;
    Ok(Ending {
        head: Head { size, root },
        count,
        entries_root: entries.tree.root(),
        notary_root,
        never_falls: entries.never_falls,
        unmet: meeting.least_unmet(),
    })
}
