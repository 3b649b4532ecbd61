//! What the bytes of a journal alone tell, made for many journals at a time, side by side in threads.

ghost use Rattle.std.specs.Prelude.{◌≡◌, ◌≤◌, ℕ, List, [], ◌∷◌, ◌<◌, length, map, slice_index_or, IfOk, IfErr, IfSome, IfNone, OnOk, Err};
ghost use Rattle.ledger_io.specs.Windows.{HasEnough};
ghost use Rattle.journal_record.specs.Items.{most_bytes};
ghost use Rattle.audit_dump.specs.Journals.{IsOfItem};
ghost use Rattle.audit_dump.specs.Prepared.{AreCut, ArePrepared, HasReadThere, IsPreparedWhole, IsNextPrepared};
ghost use Rattle.audit_dump.specs.Walking.{HasItem};

use crate::contents::is_kept_whole;
use crate::deciding::record_key;
use crate::walking::{Break, item_len, next_item};
use journal_record::Record;
use ledger_bytes::{Digest, NoMemory, Sha};
use ledger_io::{LineErr, Source, Window};
use member_book::Verifier;
use merkle_tree::leaf_of;
use std::alloc::Global;
use std::marker::Model;
use std::thread::{Threads, for_each_mut};

// How many journals are prepared at a time at most. A window holds fewer, of 179 bytes at least.
const MOST: usize = 8_192;

// In how many threads.
const THREADS: usize = 4;

// What the bytes of a journal alone tell, whatever stands in front of it.
#[derive(Clone, Copy, Debug)]
pub(crate) struct Prepared {
    // How many bytes it has.
    pub(crate) len: usize,
    // Its leaf digest.
    pub(crate) leaf: Digest,
    // Whether its content and its who are those that its header names.
    pub(crate) whole: bool,
    // The key that shows who placed it as a record, where one is shown.
    pub(crate) key: Option<Digest>,
}

// What stands in room that is to be filled.
const NOTHING: Prepared = Prepared {
    len: 0,
    leaf: Digest::ZERO,
    whole: false,
    key: None,
};

// What was prepared of the next journals that a window holds. A contract sees it as a list.
#[derive(Drop)]
pub(crate) struct Queue {
    list: Vec<Prepared>,
    taken: usize,
}

impl Model for Queue {
    ghost use Rattle.std.specs.Prelude.{List, drop};
    ghost use Rattle.audit_dump.specs.declared.preparing.Prepared.{Prepared};

    ghost Value = { List Prepared };

    ghost view = { λ q. drop q.taken q.list.items };
}

impl Queue {
    // Nothing was prepared.
    pub(crate) fn new(alloc: Global) -> Self
        ensures { result ≡ [] }
    {
        Queue::of(Vec::new(alloc))
    }

    // These were prepared.
    fn of(list: Vec<Prepared>) -> Self
        ensures { result ≡ list.items }
    {
        Queue { list, taken: 0 }
    }

    // Takes the next one.
    fn next(&mut self) -> Option<Prepared>
        ensures some { IfSome result (λ next. self.old ≡ next ∷ self.new) }
        ensures none { IfNone result (self.old ≡ []) }
    {
        let next = *self.list.as_slice().get(self.taken)?;
        self.taken += 1;
        Some(next)
    }
}

// What is known of the next journal by its bytes alone, which the window then holds whole; or how it breaks. Nothing is taken from
// the window. Where nothing is left in the queue, the source is read as `next_item` tells, and all journals that the window then
// holds whole are prepared, so that each takes part of a piece's work in threads beside.
pub(crate) fn next_prepared<R: Threads + Sync, S: Source, V: Verifier>(
    rt: &R,
    alloc: Global,
    window: &mut Window,
    source: &mut S,
    verifier: &V,
    id: &Digest,
    queue: &mut Queue,
) -> Result<Result<Prepared, Break>, LineErr>
    requires { ArePrepared (V.shows verifier.now) id.now.0 window.old.held queue.old }
    ensures seen { HasReadThere (S.state source.old) (S.state source.new) window.old window.new }
    ensures told { IfOk result (IsNextPrepared (V.shows verifier.now) id.now.0 window.new queue.new) }
    ensures counts { OnOk result ((S.state source.new).faults ≡ (S.state source.old).faults) }
    ensures errors { IfErr result (λ e. HasEnough (S.state source.old) (S.state source.new)
        most_bytes window.new (Err e)) }
{
    if let Some(next) = queue.next() {
        return Ok(Ok(next));
    }
    match next_item(window, source) {
        Ok(Ok(len)) => match prepare_items(rt, alloc, verifier, id, window.as_slice(), len) {
            Ok(list) => {
                *queue = Queue::of(list);
                match queue.next() {
                    Some(next) => Ok(Ok(next)),
                    None => unreachable!(),
                }
            }
            Err(NoMemory) => Err(LineErr::NoMemory),
        },
        Ok(Err(broken)) => Ok(Err(broken)),
        Err(e) => Err(e),
    }
}

// Prepares the journals with which these bytes begin, of which the first has so many.
fn prepare_items<R: Threads + Sync, V: Verifier>(
    rt: &R,
    alloc: Global,
    verifier: &V,
    id: &Digest,
    bytes: &[u8],
    first: usize,
) -> Result<Vec<Prepared>, NoMemory>
    requires { HasItem bytes.now first }
    ensures prepared { IfOk result (λ list. ArePrepared
        (V.shows verifier.now) id.now.0 bytes.now list.items) }
    ensures some { IfOk result (λ list. 1 ≤ length list.items) }
{
    let items = cut(alloc, bytes, first)?;
    let items = items.as_slice();
    let mut list = vec![in alloc; NOTHING; items.len()]?;
    let prepare_at = |index: usize, ahead: &mut Prepared|
        requires { (index < length items.now)
            × ((d : _) → IsOfItem (slice_index_or items.now index d).now) }
        ensures { (d : _) → IsPreparedWhole (V.shows verifier.entry.now) id.entry.now.0
            (slice_index_or items.entry.now index d).now ahead.exit.now }
    {
        *ahead = prepared_of(verifier, id, items[index]);
    };
    for_each_mut(rt, list.as_mut_slice(), THREADS, &prepare_at);
    Ok(list)
}

// Cuts bytes into the journals with which they begin, of which the first has so many.
fn cut<'a>(alloc: Global, bytes: &'a [u8], first: usize) -> Result<Vec<&'a [u8]>, NoMemory>
    requires { HasItem bytes.now first }
    ensures cut { IfOk result (λ items. AreCut bytes.now (map (λ item. item.now) items.items)) }
    ensures some { IfOk result (λ items. 1 ≤ length items.items) }
{
    let (item, mut rest) = bytes.split_at(first);
    let mut items = vec![in alloc; item]?;
    for _ in 1..MOST {
        let Ok(len) = item_len(rest, 0) else {
            break;
        };
        let (item, behind) = rest.split_at(len);
        items.push(item)?;
        rest = behind;
    }
    Ok(items)
}

// What the bytes of a journal alone tell.
fn prepared_of<V: Verifier>(verifier: &V, id: &Digest, bytes: &[u8]) -> Prepared
    requires { IsOfItem bytes.now }
    ensures { IsPreparedWhole (V.shows verifier.now) id.now.0 bytes.now result }
{
    match Record::decode(bytes) {
        Ok(journal) => Prepared {
            len: bytes.len(),
            leaf: leaf_of::<Sha>(&journal.header.encode()),
            whole: is_kept_whole(&journal),
            key: record_key(verifier, id, &journal),
        },
        Err(_) => unreachable!(),
    }
}
