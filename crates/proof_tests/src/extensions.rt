//! An auditor trusts 65,536 heads of a tree and no more, and none that differs from a trusted one.

use audit_core::{Heads, No, TrustErr};
use ledger_bytes::Digest;
use merkle_tree::Head;
use script_lines::Which;

const ID: Digest = Digest([1; 32]);

const OTHER: Digest = Digest([2; 32]);

#[test]
fn trusts_as_many_heads_as_may_be(rt: HostRuntime) {
    let mut heads = Heads::new(rt.alloc());
    for size in 0..65_536 {
        assert_eq!(rt; heads.trust_ledger(&ID, &Head { size, root: ID }), Ok(()));
    }
    for (size, root, want) in [
        (65_536, ID, Err(TrustErr::No(No::HeadsFull))),
        (65_535, ID, Ok(())),
        (
            65_535,
            OTHER,
            Err(TrustErr::No(No::HeadDiffers { kept: ID })),
        ),
    ] {
        assert_eq!(rt; heads.trust_ledger(&ID, &Head { size, root }), want);
    }
    let notary = heads.trust_notary(&Head { size: 0, root: ID });
    assert_eq!(rt;
        (notary, heads.root_of(Which::Ledger, 65_536)),
        (Ok(()), None)
    );
}
