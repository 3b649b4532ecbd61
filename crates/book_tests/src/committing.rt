//! Jobs on disks in memory: what is written, and what the disks leave wherever they stop.

ghost use Rattle.std.specs.Prelude.{◌≡◌, ◌≤◌, true, length, IfOk};
ghost use Rattle.ledger_model.specs.Fitting.{fits_job};

use batch_committer::{CommitErr, Committer};
use hex::FromHex;
use journal_record::{
    Approval, approval_digest, clue_digest, content_digest, member_request_digest, request_digest,
};
use ledger_book::{Job, Prepared, Query};
use ledger_bytes::{Bytes, Digest, NoMemory};
use ledger_disk::{Disk, MemDisk};
use ledger_io::{MemSink, Sink};
use ledger_model::{Genesis, Limits};
use ledger_open::{OpenErr, init, reopen};
use member_book::tag_proof;
use notary_ledger::MemNotary;
use sha2::{Digest as Hasher, Sha256};
use std::alloc::Global;
use std::marker::Model;
use std::test::Fail;
use std::thread::Threads;

// The keys of the operator, the regulator and a third member.
pub(crate) const OPERATOR: Digest = Digest([1; 32]);

const REGULATOR: Digest = Digest([2; 32]);

const THIRD: Digest = Digest([3; 32]);

// The block of member 2 and its record abc with the clue inv, without its gate.
const BLOCK: [&str; 12] = [
    "0000000200000000000001f345244e5bba01692ff6f59b826791827e96e891465f758d139d92d81a53b478c501020000",
    "000000000001000000000000000000000000000000000000000000000000000000000000000000000000000000000000",
    "000000000000000000000000000200000000000000000303030303030303030303030303030303030303030303030303",
    "03030303030300000000dbc1b4c900ffe48d575b5da5c638040125f65db0fe3e24494b76ea986457d9869a1d89c119e6",
    "8e87a795259b07ebe8642015c93186b59ef124834ac79be9693d00000046000000000040010101010101010101010101",
    "01010101010101010101010101010101010101016e2700604cd288e681c238fa71ae802ef173e93907477f0111a56a7b",
    "e4890e8c01010000000000000002000000023536d837609504a8406dcb211cb403cb9290736cc3a94b2fa0601b2cd543",
    "e6da00000001000000000000000000000000000000000000000000000000c91e8e640e57e2e878b7b2840e07636c0753",
    "9496336fbcc57c40f1cc60c359fc00000003909ac45e439911193205994d09399c29fede977ab212605f29ead5250a81",
    "2e73c31de51580a8656b63f753ec142454bafa09b766de1b25b0ac75c128005d40cb0000004661626300000002004003",
    "030303030303030303030303030303030303030303030303030303030303031c73656160873b10becb5d4a75a046056d",
    "790b17f79672513778ab540c22c6df",
];

// The digest of what is written for 65 records of the operator without content.
const DIGEST_OF_65: &str = "b4586317b4683210ebfa43a2832de90b54d01ef89b6c1ceba1b7abebc39c07ff";

// What is written for one of these records and a line that asks for the head.
const RECORD_AND_HEAD: &str =
    "0.1 ok 1 e17cd0a38398533f50004ec57f5dd3837680b6b072223c6ffc9e2bfa0d0e723c 1 2 \
    89713d47487c9be9875bd8f6a471f021f10440bea34709c459dce3a170313951\n0.2 head \
    64915354a6547b1f887e596e872fd13b2abdc860729da9fe31180a81726cf4a2 2 \
    89713d47487c9be9875bd8f6a471f021f10440bea34709c459dce3a170313951 2 0 0 \
    e3b0c44298fc1c149afbf4c8996fb92427ae41e4649b934ca495991b7852b855\n";

// What is written in one block for a record with a number, the same once more, another record of the member with that number,
// and one of another member.
const REPEAT_THAT_WAITS: &str = "\
    0.1 ok 1 ef911ff1aa71d0114e773248ae8b93ef36a18faee2de2d3684a77dcade792807 1 3 \
    26f49ec2d8af52f9c1ea13672ed89aa723149e235cb40869e371f5b0eac73a1e\n\
    0.2 ok 1 ef911ff1aa71d0114e773248ae8b93ef36a18faee2de2d3684a77dcade792807 1 3 \
    26f49ec2d8af52f9c1ea13672ed89aa723149e235cb40869e371f5b0eac73a1e\n\
    0.3 no 48 1\n\
    0.4 ok 2 7f90f030bd8cd4a9d13226cf23d39407eb8668e035efb0ee0589634bcecdc80f 1 3 \
    26f49ec2d8af52f9c1ea13672ed89aa723149e235cb40869e371f5b0eac73a1e\n";

// What is written for repeats of an earlier run, of the open block and of the last block, where none waits any more.
const REPEATS_OF_TWO_RUNS: &str = "\
    0.1 ok 2 14dfcfb152503a90cf4fd91e65e34777776390e1e1d8d37e9bc567119db424e1 1 4 \
    4c8864e9304001ec822d179e43c0d6cb13a708ccaf0cb49d446a58991066b4ec\n\
    0.2 ok 4 0f335240cbd170280c329e712effc3f96404a518843f715a3b58518760260a60 2 6 \
    646a0694439919017ee3ffdc622c4b61c66ca410392a72da41b58ca646c850ab\n\
    0.3 ok 4 0f335240cbd170280c329e712effc3f96404a518843f715a3b58518760260a60 2 6 \
    646a0694439919017ee3ffdc622c4b61c66ca410392a72da41b58ca646c850ab\n\
    0.4 no 48 3\n\
    0.5 ok 5 8990248f0ddcb04457f919fcd9e5499c0e7f9c9f0b120e5bb4057d33e6e5518a 2 6 \
    646a0694439919017ee3ffdc622c4b61c66ca410392a72da41b58ca646c850ab\n\
    0.6 ok 5 8990248f0ddcb04457f919fcd9e5499c0e7f9c9f0b120e5bb4057d33e6e5518a 2 6 \
    646a0694439919017ee3ffdc622c4b61c66ca410392a72da41b58ca646c850ab\n\
    0.10 head 64915354a6547b1f887e596e872fd13b2abdc860729da9fe31180a81726cf4a2 6 \
    646a0694439919017ee3ffdc622c4b61c66ca410392a72da41b58ca646c850ab 3 0 0 \
    e3b0c44298fc1c149afbf4c8996fb92427ae41e4649b934ca495991b7852b855\n\
    0.11 ok 2 14dfcfb152503a90cf4fd91e65e34777776390e1e1d8d37e9bc567119db424e1 1 4 \
    4c8864e9304001ec822d179e43c0d6cb13a708ccaf0cb49d446a58991066b4ec\n";

// What is told of journal 2 where that block stands behind journal 0.
const WHOLE_2: &str = "\
    0.1 whole 01010000000000000002000000023536d837609504a8406dcb211cb403cb9290736cc3a94b2fa060\
    1b2cd543e6da00000001000000000000000000000000000000000000000000000000c91e8e640e57e2e878b7b2\
    840e07636c07539496336fbcc57c40f1cc60c359fc00000003909ac45e439911193205994d09399c29fede977a\
    b212605f29ead5250a812e73c31de51580a8656b63f753ec142454bafa09b766de1b25b0ac75c128005d40cb 6\
    16263 00000002004003030303030303030303030303030303030303030303030303030303030303031c736561\
    60873b10becb5d4a75a046056d790b17f79672513778ab540c22c6df\n";

// .. where the first byte of its content is 60, and where the first byte of its who is 01.
const OTHER_CONTENT: &str =
    "0.1 no 13 909ac45e439911193205994d09399c29fede977ab212605f29ead5250a812e73 \
    895cb0a0e456cba430e14f813b551b6792de125c2494cf1c7b089eb2e6c2eeb5\n";

const OTHER_WHO: &str =
    "0.1 no 13 c31de51580a8656b63f753ec142454bafa09b766de1b25b0ac75c128005d40cb \
    8b42cfa353ff6282c741c9714c91f5a5dd70c10ce5cdc7d7e70664f95a53d7a9\n";

// .. and where there is no journal of that number.
const NO_JOURNAL: &str = "0.1 no 20 3\n";

// Where the content and the who of journal 2 stand in that file.
const CONTENT_AT: usize = 822;

const WHO_AT: usize = 825;

// More room than any of these runs takes.
pub(crate) const AMPLE: usize = 2_097_152;

/// The job of a record of a member: without a name it has no clue, and by 0 it has no number.
fn record(
    alloc: Global,
    id: &Digest,
    member: u32,
    name: &str,
    content: &str,
    number: u64,
) -> Result<Job, NoMemory>
    requires { length content.now ≤ 64 }
    ensures { IfOk result (λ job. fits_job job ≡ true) }
{
    let key = key_of(member);
    let clue = clue_of(name);
    let content = Bytes::copy_of(alloc, content.as_bytes())?;
    let digest = content_digest(content.as_slice());
    let len = content.as_slice().len() as u32;
    let request = request_digest(id, member, &clue, len, &digest, number);
    let by = Approval {
        member,
        key: Some(key),
        proof: Bytes::copy_of(alloc, &tag_proof(&key, &request))?,
    };
    let who = approval_digest(&by);
    Ok(Job::Append {
        member,
        clue,
        content,
        content_digest: digest,
        request,
        by,
        who,
        number,
    })
}

/// The key of a member.
fn key_of(member: u32) -> Digest {
    match member {
        0 => OPERATOR,
        1 => REGULATOR,
        _ => THIRD,
    }
}

/// The clue of a name.
fn clue_of(name: &str) -> Digest {
    if name.is_empty() {
        Digest::ZERO
    } else {
        clue_digest(name.as_bytes())
    }
}

/// The job of a new member, number 2.
fn third_member(alloc: Global, id: &Digest) -> Result<Job, NoMemory>
    ensures { IfOk result (λ job. fits_job job ≡ true) }
{
    let request = member_request_digest(id, 2, &THIRD);
    let proof = Bytes::copy_of(alloc, &tag_proof(&OPERATOR, &request))?;
    Ok(Job::NewMember {
        number: 2,
        key: THIRD,
        by: Approval {
            member: 0,
            key: Some(OPERATOR),
            proof,
        },
    })
}

/// A disk with nothing on it.
fn empty_disk(alloc: Global) -> Result<MemDisk, NoMemory> {
    MemDisk::new(alloc, AMPLE, Vec::new(alloc))
}

/// Makes a ledger on these disks.
fn make<D: Disk>(alloc: Global, a: &mut D, b: &mut D) -> Result<(), Fail> {
    let genesis = Genesis {
        name: Bytes::copy_of(alloc, b"demo")?,
        operator: OPERATOR,
        regulator: REGULATOR,
    };
    init(alloc, a, b, &genesis, Limits::real())?;
    Ok(())
}

/// Two disks with a new ledger.
pub(crate) fn new_pair(alloc: Global) -> Result<(MemDisk, MemDisk), Fail> {
    let mut a = empty_disk(alloc)?;
    let mut b = empty_disk(alloc)?;
    make(alloc, &mut a, &mut b)?;
    Ok((a, b))
}

/// The file of a new ledger behind whose journal 0 stands that block.
fn worked_file(alloc: Global) -> Result<Vec<u8>, Fail> {
    let (a, _) = new_pair(alloc)?;
    let mut file = a.bytes()?.as_slice().to_vec(alloc)?;
    file.pop();
    file.push(1)?;
    for line in BLOCK {
        file.extend_from_slice(&hex::decode(alloc, line)?)?;
    }
    file.push(0)?;
    Ok(file)
}

/// What a line asks for.
#[derive(Clone, Copy)]
enum Ask {
    /// A record of this member, with the clue of this name, this content and this number.
    Record(u32, &'static str, &'static str, u64),
    /// Member 2.
    Member,
    Head,
    Get(u64),
}

/// A record of the operator without content.
const EMPTY: Ask = Ask::Record(0, "", "", 0);

/// The job of a line. None of these tests has a content of more than 64 bytes.
fn job_of(alloc: Global, id: &Digest, ask: Ask) -> Result<Job, NoMemory>
    ensures { IfOk result (λ job. fits_job job ≡ true) }
{
    match ask {
        Ask::Record(member, name, content, number) => {
            if content.len() > 64 {
                return Err(NoMemory);
            }
            record(alloc, id, member, name, content, number)
        }
        Ask::Member => third_member(alloc, id),
        Ask::Head => Ok(Job::Ask(Query::Head)),
        Ask::Get(n) => Ok(Job::Ask(Query::Get { n })),
    }
}

/// A committer with its disks, its sink and a notary, which meet what the next call asks for.
#[derive(Drop)]
pub(crate) struct Bench<D: Disk + Drop, K: Sink + Drop> {
    committer: Committer,
    a: D,
    b: D,
    sink: K,
    notary: MemNotary,
}

impl<D: Disk + Drop, K: Sink + Drop> Model for Bench<D, K> {
    ghost use Rattle.std.specs.Prelude.{◌≡◌, false};
    ghost use Rattle.batch_committer.specs.World.{pair, world, Fits, HasRoom};

    ghost Value = { Unit {0} };

    ghost view = { λ _. tt };

    ghost invariant = { λ t. t.committer.ended ≡ false
        → Fits D.tells (world t.committer.kept (pair (D.state t.a) (D.state t.b))
        (K.state t.sink)) × HasRoom t.committer.kept };
}

impl<D: Disk + Drop, K: Sink + Drop> Bench<D, K> {
    /// Opens the ledger on these disks.
    pub(crate) fn open<R: Threads>(
        rt: &R,
        alloc: Global,
        mut a: D,
        mut b: D,
        sink: K,
    ) -> Result<Self, OpenErr> {
        match reopen(rt, alloc, &mut a, &mut b, Limits::real()) {
            Ok(opened) => Ok(Bench {
                committer: Committer::new(alloc, opened),
                a,
                b,
                sink,
                notary: MemNotary::new(alloc, Vec::new(alloc)),
            }),
            Err(e) => Err(e),
        }
    }

    pub(crate) fn id(&self) -> Digest {
        self.committer.id()
    }

    /// The size of the ledger where its last block ended.
    pub(crate) fn size(&self) -> u64 {
        self.committer.opened().book.head().size
    }

    /// Offers a job of lane 0.
    fn offer(&mut self, index: u64, job: Job) -> Result<(), CommitErr>
        requires { fits_job job ≡ true }
    {
        self.offer_item(Prepared {
            lane: 0,
            index,
            job,
        })
    }

    /// Offers a job.
    pub(crate) fn offer_item(&mut self, item: Prepared) -> Result<(), CommitErr> {
        self.committer.offer(
            &mut self.a,
            &mut self.b,
            &mut self.sink,
            &mut self.notary,
            item,
        )
    }

    pub(crate) fn flush(&mut self) -> Result<(), CommitErr> {
        self.committer
            .flush(&mut self.a, &mut self.b, &mut self.sink)
    }

    pub(crate) fn settle(&mut self) -> Result<(), CommitErr> {
        self.committer
            .settle(&mut self.a, &mut self.b, &mut self.sink)
    }

    /// Whether the files have all blocks that ended.
    pub(crate) fn is_stored(&self) -> bool {
        self.committer.is_stored()
    }

    pub(crate) fn sink(&self) -> &K {
        &self.sink
    }

    pub(crate) fn into_parts(self) -> (D, D, K) {
        (self.a, self.b, self.sink)
    }

    /// Offers so many records of the operator without content.
    pub(crate) fn offer_records(&mut self, alloc: Global, count: u64) -> Result<(), CommitErr> {
        let id = self.id();
        for index in 1..=count {
            let job = job_of(alloc, &id, EMPTY)?;
            self.offer(index, job)?;
        }
        Ok(())
    }

    /// Offers the jobs of these lines, and flushes.
    fn run_lines(&mut self, alloc: Global, lines: &[(u64, Ask)]) -> Result<(), CommitErr> {
        self.offer_lines(alloc, lines)?;
        self.flush()
    }

    /// Offers the jobs of lines with these numbers.
    fn offer_lines(&mut self, alloc: Global, lines: &[(u64, Ask)]) -> Result<(), CommitErr> {
        let id = self.id();
        for (index, ask) in lines {
            let job = job_of(alloc, &id, *ask)?;
            self.offer(*index, job)?;
        }
        Ok(())
    }
}

/// What came of some records, a call to settle and a flush, and what stood before these two: the size where the last block
/// ended, and how many lines were written.
#[derive(Clone, Copy, Debug, PartialEq, Eq)]
pub(crate) struct Run {
    offered: Result<(), CommitErr>,
    size: u64,
    lines: usize,
    pub(crate) settled: Result<(), CommitErr>,
    flushed: Result<(), CommitErr>,
}

/// Opens the ledger on these disks, offers so many records of the operator without content, settles, and flushes.
pub(crate) fn run_records<R: Threads, D: Disk + Drop>(
    rt: &R,
    alloc: Global,
    a: D,
    b: D,
    room: usize,
    count: u64,
) -> Result<(Run, MemSink, D, D), Fail> {
    let sink = sink_of(alloc, room)?;
    let mut bench = Bench::open(rt, alloc, a, b, sink)?;
    let offered = bench.offer_records(alloc, count);
    let size = bench.size();
    let lines = lines_in(bench.sink.written());
    let settled = bench.settle();
    let flushed = bench.flush();
    let (a, b, sink) = bench.into_parts();
    let run = Run {
        offered,
        size,
        lines,
        settled,
        flushed,
    };
    Ok((run, sink, a, b))
}

/// What is written for these lines and a flush, and the first disk then; the second is empty.
fn run_lines<R: Threads>(
    rt: &R,
    alloc: Global,
    (a, b): (MemDisk, MemDisk),
    lines: &[(u64, Ask)],
) -> Result<(MemSink, MemDisk), Fail> {
    let sink = sink_of(alloc, AMPLE)?;
    let mut bench = Bench::open(rt, alloc, a, b, sink)?;
    bench.run_lines(alloc, lines)?;
    let (a, _, sink) = bench.into_parts();
    Ok((sink, a))
}

/// The size of the ledger on these disks.
pub(crate) fn size_on<R: Threads, D: Disk + Drop>(
    rt: &R,
    alloc: Global,
    a: D,
    b: D,
) -> Result<u64, OpenErr> {
    let (mut a, mut b) = (a, b);
    match reopen(rt, alloc, &mut a, &mut b, Limits::real()) {
        Ok(opened) => Ok(opened.book.head().size),
        Err(e) => Err(e),
    }
}

/// How many lines these bytes have.
pub(crate) fn lines_in(bytes: &[u8]) -> usize {
    let mut lines = 0usize;
    for byte in bytes {
        if *byte == b'\n' {
            lines = lines.saturating_add(1);
        }
    }
    lines
}

pub(crate) fn sink_of(alloc: Global, room: usize) -> Result<MemSink, NoMemory> {
    MemSink::new(alloc, room, Vec::new(alloc))
}

/// Two disks of which the first has the worked file, with these first bytes of the content and the who of journal 2.
fn pair_with(alloc: Global, content: u8, who: u8) -> Result<(MemDisk, MemDisk), Fail> {
    let mut file = worked_file(alloc)?;
    set_byte(file.as_mut_slice(), CONTENT_AT, content);
    set_byte(file.as_mut_slice(), WHO_AT, who);
    let mut a = empty_disk(alloc)?;
    a.write(0, file.as_slice())?;
    Ok((a, empty_disk(alloc)?))
}

/// Puts another byte at this place, where there is one.
fn set_byte(bytes: &mut [u8], at: usize, to: u8) {
    if let Some(place) = bytes.get_mut(at) {
        *place = to;
    }
}

#[test]
fn blocks_end_where_they_are_full_and_by_a_flush(rt: HostRuntime) -> Result<(), Fail> {
    let alloc = rt.alloc();
    // A group is committed once it has 64 blocks.
    let rows = [
        (63, 1, 0),
        (64, 65, 0),
        (65, 65, 0),
        (4095, 4033, 0),
        (4096, 4097, 4096),
    ];
    for (count, size, lines) in rows {
        let (a, b) = new_pair(alloc)?;
        let (run, sink, a, b) = run_records(&rt, alloc, a, b, AMPLE, count)?;
        let want = Run {
            offered: Ok(()),
            size,
            lines,
            settled: Ok(()),
            flushed: Ok(()),
        };
        let text = sink.written();
        assert_eq!(rt; (run, size_on(&rt, alloc, a, b)?), (want, count + 1));
        if count == 65 {
            assert_eq!(rt; Sha256::digest(text), <[u8; 32]>::from_hex(DIGEST_OF_65)?);
        }
    }
    Ok(())
}

#[test]
fn a_fault_of_the_sink_ends_the_run(rt: HostRuntime) -> Result<(), Fail> {
    let alloc = rt.alloc();
    let (a, b) = new_pair(alloc)?;
    let (run, sink, a, b) = run_records(&rt, alloc, a, b, 100, 64)?;
    let written = sink.written().len();
    let found = (
        run.settled,
        run.flushed,
        written,
        size_on(&rt, alloc, a, b)?,
    );
    assert_eq!(rt;
        found,
        (Err(CommitErr::WriteFault), Err(CommitErr::Closed), 100, 65)
    );
    Ok(())
}

#[test]
fn a_block_has_the_worked_bytes_and_is_read_back(rt: HostRuntime) -> Result<(), Fail> {
    let alloc = rt.alloc();
    let abc = Ask::Record(2, "inv", "abc", 0);
    let lines = [(1, Ask::Member), (2, abc), (1, Ask::Get(2))];
    let (sink, a) = run_lines(&rt, alloc, new_pair(alloc)?, &lines)?;
    assert_eq!(rt; a.bytes()?.as_slice(), worked_file(alloc)?.as_slice());
    assert!(rt; sink.written().ends_with(WHOLE_2.as_bytes()));
    Ok(())
}

#[test]
fn a_job_that_asks_ends_the_block_before_it_and_a_repeat_ends_none(
    rt: HostRuntime,
) -> Result<(), Fail> {
    let alloc = rt.alloc();
    let seventh = Ask::Record(0, "", "a", 7);
    let rows: [(&[(u64, Ask)], &str); 2] = [
        (&[(1, EMPTY), (2, Ask::Head)], RECORD_AND_HEAD),
        (
            &[
                (1, seventh),
                (2, seventh),
                (3, Ask::Record(0, "", "b", 7)),
                (4, Ask::Record(1, "", "a", 7)),
            ],
            REPEAT_THAT_WAITS,
        ),
    ];
    for (lines, wanted) in rows {
        let (sink, _) = run_lines(&rt, alloc, new_pair(alloc)?, lines)?;
        assert_eq!(rt; sink.written(), wanted.as_bytes());
    }
    Ok(())
}

#[test]
fn a_repeat_is_told_the_block_of_its_first_journal(rt: HostRuntime) -> Result<(), Fail> {
    let alloc = rt.alloc();
    let seventh = Ask::Record(2, "inv", "a", 7);
    let ninth = Ask::Record(2, "", "x", 9);
    let greatest = Ask::Record(0, "", "", u64::MAX);
    let first = [
        (1, Ask::Member),
        (2, seventh),
        (3, Ask::Record(2, "inv", "b", 8)),
    ];
    let later = [
        (1, seventh),
        (2, ninth),
        (3, ninth),
        (4, Ask::Record(2, "inv", "zz", 8)),
        (5, greatest),
        (6, greatest),
        (10, Ask::Head),
        (11, seventh),
    ];
    let (_, a) = run_lines(&rt, alloc, new_pair(alloc)?, &first)?;
    let (sink, _) = run_lines(&rt, alloc, (a, empty_disk(alloc)?), &later)?;
    assert_eq!(rt; sink.written(), REPEATS_OF_TWO_RUNS.as_bytes());
    Ok(())
}

#[test]
fn a_journal_is_read_back_and_changed_bytes_are_found(rt: HostRuntime) -> Result<(), Fail> {
    let alloc = rt.alloc();
    for (content, who, n, wanted) in [
        (b'a', 0, 2, WHOLE_2),
        (b'a', 0, 3, NO_JOURNAL),
        (b'a', 0, u64::MAX, NO_JOURNAL),
        (b'a', 1, 2, OTHER_WHO),
        (96, 0, 2, OTHER_CONTENT),
        (96, 1, 2, OTHER_CONTENT),
    ] {
        let pair = pair_with(alloc, content, who)?;
        let (sink, _) = run_lines(&rt, alloc, pair, &[(1, Ask::Get(n))])?;
        assert_eq!(rt; sink.written(), wanted.as_bytes(), "{n}: {content}, {who}");
    }
    Ok(())
}
