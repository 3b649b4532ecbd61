//! What provers handed back, in two lists: their passes, which end the board, and what each did.

ghost use Rattle.std.specs.Prelude.{◌≡◌, map, IfOk, vec_len};
ghost use Rattle.proof_board.specs.Hands.{HasPartRoom};

use crate::hands::{Returned, Tally};
use crate::pass::ProverPass;
use ledger_bytes::NoMemory;
use std::alloc::Global;

/// The passes of provers, and in the same order what each of them did.
#[derive(Drop)]
pub struct Parts {
    pub passes: Vec<ProverPass>,
    pub tallies: Vec<Result<Tally, NoMemory>>,
}

impl Parts {
    /// Room for the parts of so many provers.
    pub fn new(alloc: Global, provers: usize) -> Result<Parts, NoMemory>
        ensures { IfOk result (HasPartRoom provers) }
    {
        Ok(Parts {
            passes: Vec::with_capacity(alloc, provers)?,
            tallies: Vec::with_capacity(alloc, provers)?,
        })
    }

    /// The parts of what provers handed back.
    pub fn of(self, returned: Vec<Returned>) -> Parts
        requires { HasPartRoom (vec_len returned) self }
        ensures passes { result.passes.items ≡ map (λ r. r.pass) returned.items }
        ensures tallies { result.tallies.items ≡ map (λ r. r.tally) returned.items }
    {
        let Parts {
            mut passes,
            mut tallies,
        } = self;
        for prover in returned {
            let Returned { pass, tally } = prover;
            passes.push_reserved(pass);
            tallies.push_reserved(tally);
        }
        Parts { passes, tallies }
    }
}
