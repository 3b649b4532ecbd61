//! A notary's entry has the worked bytes, and the bounds of a journal are the nearest marks that are kept.

ghost use Rattle.std.specs.Prelude.{◌≡◌};

use hex::FromHex;
use ledger_bytes::{Digest, Sha};
use merkle_tree::mth;
use std::test::Fail;
use time_peg::{TimeIndex, TimeMark, entry_bytes, peg_of};

const ID: &str = "64915354a6547b1f887e596e872fd13b2abdc860729da9fe31180a81726cf4a2";

fn digest(text: &str) -> Result<Digest, hex::FromHexError> {
    Ok(Digest(<[u8; 32]>::from_hex(text)?))
}

// A ledger of two journals, the salt of the notary's first entry, and the root over that entry.
#[test]
fn the_first_entry_pegs_two_journals(rt: HostRuntime) -> Result<(), Fail> {
    let root = digest("89713d47487c9be9875bd8f6a471f021f10440bea34709c459dce3a170313951")?;
    let salt = digest("8b3b30a051bca9ec8bacbfaf3a351389842d99f1769a4959994077e9ec8d8757")?;
    let peg = peg_of::<Sha>(&digest(ID)?, 2, &root);
    assert_eq!(rt;
        mth::<Sha>(&entry_bytes(1000, &peg, &salt), 72),
        digest("70f8401b84cf76c926c415bdf912718f30518dcb518d3493aad2f17ce92b2cd8")?
    );
    Ok(())
}

fn mark(jsn: u64, index: u64) -> TimeMark
    ensures { result.jsn ≡ jsn }
{
    TimeMark {
        jsn,
        index,
        time: 1000_u64.saturating_mul(index.saturating_add(1)),
    }
}

#[test]
fn bounds_are_the_nearest_kept_marks(rt: HostRuntime) -> Result<(), Fail> {
    let mut index = TimeIndex::new(rt.alloc());
    index.add(mark(54, 0))?;
    index.add(mark(105, 1))?;
    index.add(mark(156, 2))?;
    index.add(mark(207, 3))?;
    assert_eq!(rt;
        index.bounds_of(104),
        (Some(mark(54, 0)), Some(mark(105, 1)))
    );
    index.drop_below(105);
    for (n, lower, upper) in [
        (104, None, Some(mark(105, 1))),
        (105, None, Some(mark(156, 2))),
        (110, Some(mark(105, 1)), Some(mark(156, 2))),
        (209, Some(mark(207, 3)), None),
    ] {
        assert_eq!(rt; index.bounds_of(n), (lower, upper));
    }
    Ok(())
}
