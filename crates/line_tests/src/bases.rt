//! Headers that are replayed behind a base.

ghost use Rattle.std.specs.Prelude.{IfOk};
ghost use Rattle.pseudo_genesis.specs.Bases.{IsBase, HasWidths};

use crate::books::{SALT, demo, digest, place_all, take};
use block_file::Damage;
use journal_record::{Header, Kind};
use ledger_book::{Book, Limits};
use ledger_bytes::Digest;
use pseudo_genesis::Base;
use std::alloc::Global;
use std::process::Abort;
use std::test::Fail;

/// The base at the time journal, as it is read again.
fn base_of(alloc: Global, book: &Book) -> Result<Base, Fail>
    ensures { IfOk result (λ base. IsBase base × HasWidths base) }
{
    if book.floor() > 3 || book.size() < 3 {
        return Err("journal 3 isn't kept".into());
    }
    let bytes = book.base_at(3)?.encode(alloc)?;
    Ok(Base::decode(alloc, bytes.as_slice()).map_err(|_| "no base")?)
}

#[test]
fn a_later_purge_alone_tells_nothing_of_the_front(rt: HostRuntime) -> Result<(), Fail> {
    let salt = digest(SALT)?;
    let mut book = demo(rt.alloc())?;
    place_all(rt.alloc(), &mut book, salt)?;
    for (point, told) in [(4, Ok(())), (3, Err(Damage::Entry { jsn: 6 }))] {
        assert!(rt; hide_behind(rt.alloc(), &book, point)? == told);
    }
    Ok(())
}

/// What comes of an occult of journal 2, which lies in front of the base at journal 3, behind a purge to this point.
fn hide_behind(alloc: Global, book: &Book, point: u64) -> Result<Result<(), Damage>, Fail> {
    let base = base_of(alloc, book)?;
    let mut behind = Book::from_base(alloc, &base, Limits::real())?;
    let time = *book.header(3).ok_or("no header")?;
    let purge = Header {
        kind: Kind::Purge,
        jsn: 5,
        a: point,
        b: 0,
        link: Digest([9; 32]),
        ..time
    };
    for header in [time, Header { jsn: 4, ..time }, purge] {
        if take(&mut behind, &header)? != Ok(()) {
            return Err("a header isn't taken".into());
        }
    }
    let occult = Header {
        kind: Kind::Occult,
        jsn: 6,
        a: 2,
        ..purge
    };
    take(&mut behind, &occult)
}
