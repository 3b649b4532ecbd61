//! The command `board`: a script is run on an opened ledger, and provers make proofs beside it.

ghost use Rattle.std.specs.Prelude.{◌≡◌, ◌≢◌, ◌<◌, false, [], None, All, IfOk, MatchBool, length, vec_len};
ghost use Rattle.sha2.specs.Sha256.{sha256};
ghost use Rattle.batch_committer.specs.World.{pair, world, Fits, HasRoom};
ghost use Rattle.merkle_batch.specs.Rows.{StandsFor};
ghost use Rattle.proof_board.specs.History.{Digests, IsWide, all_leaves};
ghost use Rattle.proof_board.specs.Growing.{IsListOf};
ghost use Rattle.proof_board.specs.Hands.{EachGives, HasPartRoom, HasProverRoom};
ghost use Rattle.proof_board.specs.Words.{shown_by, history_of, waiting_of, IsNew, IsPassOf, IsWriterOf};
ghost use Rattle.ledger_cli.specs.Boards.{HasFollowed, lasting_of};
ghost use Rattle.ledger_cli.specs.Beside.{handed_to, world_of, RunsBeside, SameScript, WritesTallies};
ghost use Rattle.ledger_cli.specs.Endings.{refusal_of};
ghost use Rattle.ledger_cli.specs.declared.ending.LedgerEnding.TheVariants as ending;
ghost use Rattle.ledger_io.specs.Outside.{SourceState, outside};
ghost use Rattle.ledger_io.specs.declared.ending.Ending.TheVariants as run;
ghost use Rattle.proof_board.specs.Returning.{Returns};
ghost use Rattle.ledger_cli.specs.Runs.{handed, Runs, RunsBoard};

use crate::boarding::BOARD_LIMIT;
use crate::ending::LedgerEnding;
use crate::follower::Follower;
use crate::posting::Posting;
use crate::scripted::{Script, side_by_side};
use crate::session::follow_session;
use crate::tallies::spell_tallies;
use crate::top::write_text;
use batch_committer::Committer;
use lane_work::{Gate, Tools};
use ledger_book::Book;
use ledger_bytes::NoMemory;
use ledger_disk::Disk;
use ledger_io::{Ending, Sink, Source};
use ledger_model::Limits;
use ledger_open::reopen;
use member_book::Verifier;
use proof_board::{Board, Orders, Parts, ProverPass, Returned, Room, Tally, open_board};
use std::alloc::Global;
use std::sync::Wait;
use std::thread::Threads;
use time_peg::Notary;

// A board that is opened, with its provers' passes and what lets it follow the ledger, and room for what provers hand back.
struct Boarded<'r, R> {
    board: Board,
    posting: Posting<'r, R>,
    passes: Vec<ProverPass>,
    room: Room,
    parts: Parts,
}

// Opens a board on the tree of a book. A book keeps a journal, so that of a tree without one nothing is said.
fn open<'r, R: Wait>(
    rt: &'r R,
    alloc: Global,
    book: &Book,
    provers: u8,
) -> Result<Boarded<'r, R>, NoMemory>
    requires some { 0 < provers }
    ensures lists { IfOk result (λ x. (ds : Digests) → StandsFor sha256 book.now.tree ds → All IsWide ds
        → IsListOf (shown_by x.posting.writer).base (all_leaves (history_of x.posting.writer)) ds) }
    ensures writer { IfOk result (λ x. IsWriterOf x.board x.posting.writer) }
    ensures len { IfOk result (λ x. vec_len x.passes ≡ provers) }
    ensures passes { IfOk result (λ x. All (λ p. IsPassOf x.board p
        × IsNew (shown_by x.posting.writer) p) x.passes.items) }
    ensures floor { IfOk result (λ x. (shown_by x.posting.writer).base.floor ≡ book.now.floor) }
    ensures begins { IfOk result (λ x. (length (history_of x.posting.writer) ≡ 1)
        × (waiting_of x.posting.writer ≡ [])) }
    ensures room { IfOk result (λ x. HasProverRoom provers x.room × HasPartRoom provers x.parts) }
{
    let tree = book.tree();
    let floor = tree.floor();
    if floor >= tree.size() {
        return Err(NoMemory);
    }
    let room = Room::new(alloc, usize::from(provers))?;
    let parts = Parts::new(alloc, usize::from(provers))?;
    let (board, writer, passes) = open_board(rt, alloc, tree, 0, provers)?;
    let size = passes[0].seen();
    let posting = Posting {
        rt,
        alloc,
        writer,
        size,
        limit: floor + BOARD_LIMIT,
        lacking: false,
    };
    Ok(Boarded {
        board,
        posting,
        passes,
        room,
        parts,
    })
}

// Runs a script, and provers beside it. What each of them hands back.
fn run_script<
    'c,
    'a,
    'b,
    'f,
    's,
    'n,
    'w,
    R: Threads + Wait + Sync,
    S: Source,
    K: Sink,
    D: Disk,
    N: Notary,
    V: Verifier,
    G: Gate,
    W: Follower,
>(
    tools: &Tools<R, V, G>,
    board: &Board,
    passes: Vec<ProverPass>,
    orders: Orders,
    room: Room,
    script: Script<'c, 'a, 'b, 'f, 's, 'n, 'w, S, K, D, N, W>,
) -> (
    Script<'c, 'a, 'b, 'f, 's, 'n, 'w, S, K, D, N, W>,
    LedgerEnding,
    Vec<Returned>,
)
    requires open { script.committer.now.ended ≡ false }
    requires fits { Fits D.tells (world_of D.state K.state script) }
    requires room { HasRoom script.committer.now.kept }
    requires none { script.committer.now.kept.dues ≡ [] }
    requires passes { All (IsPassOf board.now) passes.items }
    requires hands { HasProverRoom (vec_len passes) room }
    ensures back { SameScript script.entry result.0 }
    ensures ran { Runs (V.shows tools.now.verifier.now) D.tells (world_of D.state K.state script.entry)
        (HasFollowed (W.board script.entry.follower.now) (W.board result.0.follower.now)) result.1
        (handed_to S.state K.state D.state N.state script.entry) (handed_to S.state K.state D.state N.state result.0) }
    ensures unrefused { refusal_of result.1 ≡ None }
    ensures same { lasting_of (W.board result.0.follower.now) ≡ lasting_of (W.board script.entry.follower.now) }
    ensures len { vec_len result.2 ≡ vec_len passes }
    ensures provers { EachGives (λ p r. Returns board.now p orders.count r) passes.items result.2.items }
{
    let (rt, alloc, verifier, gate) = (tools.rt, tools.alloc, tools.verifier, tools.gate);
    let ((script, met), returned) = side_by_side(
        rt,
        board,
        passes,
        orders,
        room,
        script,
        move |script| -> (_, LedgerEnding)
            requires open { script.committer.now.ended ≡ false }
            requires fits { Fits D.tells (world_of D.state K.state script) }
            requires room { HasRoom script.committer.now.kept }
            requires none { script.committer.now.kept.dues ≡ [] }
            ensures back { SameScript script.entry result.0 }
            ensures ran { Runs (V.shows verifier.entry.now) D.tells (world_of D.state K.state script.entry)
                (HasFollowed (W.board script.entry.follower.now) (W.board result.0.follower.now)) result.1
                (handed_to S.state K.state D.state N.state script.entry) (handed_to S.state K.state D.state N.state result.0) }
            ensures unrefused { refusal_of result.1 ≡ None }
            ensures same { lasting_of (W.board result.0.follower.now) ≡ lasting_of (W.board script.entry.follower.now) }
        {
            let tools = Tools {
                rt,
                alloc,
                verifier,
                gate,
            };
            let Script {
                committer,
                a,
                b,
                source,
                sink,
                notary,
                follower,
            } = script;
            let met = follow_session(&tools, committer, a, b, source, sink, notary, follower);
            let script = Script {
                committer,
                a,
                b,
                source,
                sink,
                notary,
                follower,
            };
            (script, met)
        },
    );
    (script, met, returned)
}

// A use of the reference that came back, which ties it to the one that was lent.
fn take_back<T>(x: &mut T)
    ensures { x.new ≡ x.old }
{}

// The same on what is handed in, each by a reference.
fn run_lent<
    R: Threads + Wait + Sync,
    S: Source,
    K: Sink,
    D: Disk,
    N: Notary,
    V: Verifier,
    G: Gate,
    W: Follower,
>(
    tools: &Tools<R, V, G>,
    board: &Board,
    passes: Vec<ProverPass>,
    orders: Orders,
    room: Room,
    committer: &mut Committer,
    a: &mut D,
    b: &mut D,
    source: &mut S,
    sink: &mut K,
    notary: &mut N,
    follower: &mut W,
) -> (LedgerEnding, Vec<Returned>)
    requires open { committer.old.ended ≡ false }
    requires fits { Fits D.tells (world committer.old.kept (pair (D.state a.old) (D.state b.old))
        (K.state sink.old)) }
    requires room { HasRoom committer.old.kept }
    requires none { committer.old.kept.dues ≡ [] }
    requires passes { All (IsPassOf board.now) passes.items }
    requires hands { HasProverRoom (vec_len passes) room }
    ensures ran { Runs (V.shows tools.now.verifier.now) D.tells (world committer.old.kept
        (pair (D.state a.old) (D.state b.old)) (K.state sink.old))
        (HasFollowed (W.board follower.old) (W.board follower.new)) result.0
        (handed (S.state source.old) (K.state sink.old) (pair (D.state a.old) (D.state b.old)) (N.state notary.old))
        (handed (S.state source.new) (K.state sink.new) (pair (D.state a.new) (D.state b.new)) (N.state notary.new)) }
    ensures unrefused { refusal_of result.0 ≡ None }
    ensures same { lasting_of (W.board follower.new) ≡ lasting_of (W.board follower.old) }
    ensures len { vec_len result.1 ≡ vec_len passes }
    ensures provers { EachGives (λ p r. Returns board.now p orders.count r) passes.items result.1.items }
{
    let script = Script {
        committer,
        a,
        b,
        source,
        sink,
        notary,
        follower,
    };
    let (back, met, returned) = run_script(tools, board, passes, orders, room, script);
    let Script {
        committer: the_committer,
        a: the_a,
        b: the_b,
        source: the_source,
        sink: the_sink,
        notary: the_notary,
        follower: the_follower,
    } = back;
    take_back(the_committer);
    take_back(the_a);
    take_back(the_b);
    take_back(the_source);
    take_back(the_sink);
    take_back(the_notary);
    take_back(the_follower);
    (met, returned)
}

// Whether all lines of a script were answered.
fn is_done(met: LedgerEnding) -> bool
    ensures { MatchBool result (met ≡ ending.Run run.Done) (met ≢ ending.Run run.Done) }
{
    match met {
        LedgerEnding::Run(Ending::Done) => true,
        _ => false,
    }
}

// Writes the lines of provers. Where one of them lacked memory none is written.
fn tell_provers<K: Sink>(
    alloc: Global,
    results: &[Result<Tally, NoMemory>],
    published: u64,
    sink: &mut K,
) -> LedgerEnding
    ensures { (source : SourceState) → WritesTallies results.now published result
        (outside source (K.state sink.old)) (outside source (K.state sink.new)) }
{
    match spell_tallies(alloc, results, published) {
        Ok(text) => write_text(text.as_slice(), sink),
        Err(NoMemory) => LedgerEnding::Run(Ending::NoMemory),
    }
}

// Runs a script on an opened ledger with provers beside it, and writes their lines.
fn run_beside<
    R: Threads + Wait + Sync,
    S: Source,
    K: Sink,
    D: Disk,
    N: Notary,
    V: Verifier,
    G: Gate,
>(
    tools: &Tools<R, V, G>,
    provers: u8,
    orders: Orders,
    committer: &mut Committer,
    a: &mut D,
    b: &mut D,
    source: &mut S,
    sink: &mut K,
    notary: &mut N,
) -> LedgerEnding
    requires some { 0 < provers }
    requires open { committer.old.ended ≡ false }
    requires fits { Fits D.tells (world committer.old.kept (pair (D.state a.old) (D.state b.old))
        (K.state sink.old)) }
    requires room { HasRoom committer.old.kept }
    requires none { committer.old.kept.dues ≡ [] }
    ensures { RunsBeside (V.shows tools.now.verifier.now) D.tells (world committer.old.kept
        (pair (D.state a.old) (D.state b.old)) (K.state sink.old)) provers orders.count result
        (handed (S.state source.old) (K.state sink.old) (pair (D.state a.old) (D.state b.old)) (N.state notary.old))
        (handed (S.state source.new) (K.state sink.new) (pair (D.state a.new) (D.state b.new)) (N.state notary.new)) }
{
    let Ok(boarded) = open(tools.rt, tools.alloc, &committer.opened().book, provers) else {
        return LedgerEnding::Run(Ending::NoMemory);
    };
    let Boarded {
        board,
        mut posting,
        passes,
        room,
        parts,
    } = boarded;
    let (met, returned) = run_lent(
        tools,
        &board,
        passes,
        orders,
        room,
        committer,
        a,
        b,
        source,
        sink,
        notary,
        &mut posting,
    );
    let Parts { passes, tallies } = parts.of(returned);
    let Posting {
        rt,
        alloc,
        writer,
        size,
        limit: _limit,
        lacking: _lacking,
    } = posting;
    board.close(rt, writer, passes);
    if !is_done(met) {
        return met;
    }
    tell_provers(alloc, tallies.as_slice(), size, sink)
}

/// Opens the ledger of two disks, and runs a script on it with so many provers beside it, each of which makes so many proofs.
/// Behind the replies their lines are written.
pub(crate) fn run_board<
    R: Threads + Wait + Sync,
    S: Source,
    K: Sink,
    D: Disk,
    N: Notary,
    V: Verifier,
    G: Gate,
>(
    tools: &Tools<R, V, G>,
    provers: u8,
    count: u32,
    source: &mut S,
    sink: &mut K,
    a: &mut D,
    b: &mut D,
    notary: &mut N,
) -> LedgerEnding
    requires { 0 < provers }
    ensures { RunsBoard (V.shows tools.now.verifier.now) D.tells provers count result
        (handed (S.state source.old) (K.state sink.old) (pair (D.state a.old) (D.state b.old)) (N.state notary.old))
        (handed (S.state source.new) (K.state sink.new) (pair (D.state a.new) (D.state b.new)) (N.state notary.new)) }
{
    match reopen(tools.rt, tools.alloc, a, b, Limits::real()) {
        Ok(opened) => {
            let id = opened.book.id();
            let orders = Orders { id, count };
            let mut committer = Committer::new(tools.alloc, opened);
            run_beside(
                tools,
                provers,
                orders,
                &mut committer,
                a,
                b,
                source,
                sink,
                notary,
            )
        }
        Err(error) => LedgerEnding::from(error),
    }
}
