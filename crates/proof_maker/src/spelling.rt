//! The proof of its parts.

ghost use Rattle.std.specs.Prelude.{◌≡◌, IfOk, option_map};
ghost use Rattle.proof_codec.specs.Proofs.{IsProof};
ghost use Rattle.proof_maker.specs.Making.{IsMade};
ghost use Rattle.proof_maker.specs.Parts.{shown_by, lower_by, upper_by};

use crate::Made;
use crate::bound::Bound;
use crate::noted::Noted;
use crate::parts::Parts;
use ledger_bytes::NoMemory;
use proof_codec::{Lower, Proof, Upper};
use std::alloc::Global;
use time_peg::TimeMark;

/// The proof of journal `n` among so many, by its parts and by what is noted of its bounds.
pub(crate) fn spell(
    alloc: Global,
    size: u64,
    n: u64,
    parts: &Parts,
    noted: &Noted,
) -> Result<Made, NoMemory>
    requires { IsProof (shown_by size n parts.now noted.now) }
    ensures { IfOk result (IsMade (shown_by size n parts.now noted.now)) }
{
    let proof = Proof {
        size,
        n,
        leaf: parts.leaf,
        path: parts.path.as_slice(),
        lo: lower_of(&parts.lower, parts.lower_path.as_slice()),
        hi: upper_of(&parts.upper),
        notary_size: noted.size,
        lo_path: noted.lower_path.as_slice(),
        hi_path: noted.upper_path.as_slice(),
    };
    Ok(Made {
        claim: proof.claim(),
        proof: proof.encode(alloc)?,
    })
}

// What is shown of the bound in front, whose path is this.
fn lower_of<'a>(bound: &'a Option<Bound>, path: &'a [u8]) -> Option<Lower<'a>>
    ensures { result ≡ option_map (lower_by path.now) bound.now }
{
    match bound {
        Some(bound) => Some(Lower {
            header: bound.header,
            path,
            root: bound.root,
            ext: bound.ext.as_slice(),
        }),
        None => None,
    }
}

// What is shown of the bound behind.
fn upper_of<'a>(bound: &'a Option<Bound>) -> Option<Upper<'a>>
    ensures { result ≡ option_map upper_by bound.now }
{
    match bound {
        Some(bound) => Some(Upper {
            mark: TimeMark {
                jsn: bound.header.jsn,
                index: bound.header.a,
                time: bound.header.b,
            },
            salt: bound.header.link,
            root: bound.root,
            ext: bound.ext.as_slice(),
        }),
        None => None,
    }
}
