//! The rule of a board's snapshot, and its steps. The types here are for the proofs alone: no value of them is made.
//!
//! | Step | The snapshot | The seat whose view changes |
//! |---|---|---|
//! | it is made | the tree at the start | the writer's knows nothing yet |
//! | the writer opens, by a publish of nothing (`Sees`) | as before | the writer's: it knows the history so far |
//! | a prover's pass is split off (`Tells`, `Starts`) | as before | the new one: it knows what the writer knows |
//! | a publish (`Sees`) | the batch joins | the writer's |
//! | a look (`Sees`) | as before | the prover's |
//!
//! Telling a pass later, and taking the passes in at the end, are no steps of the snapshot: they copy and compare beginnings of
//! the history.

use crate::shown::Shown;
use crate::view::View;
use atomic_table::{Join, Split};
use crossbeam_utils::rule::{Outcome, Protocol};

/// Each seat knows a beginning of the history of which the leaves are made.
pub struct Grows;

impl Protocol<Shown, View> for Grows {
    ghost use Rattle.proof_board.specs.Rule.{KeepsRule, unaware};

    ghost holds = { λ x views. KeepsRule x views };

    ghost first = { unaware };
}

/// A look, also the writer's at what it publishes: the history begins with what was known.
pub struct Sees;

impl Outcome<Shown, View> for Sees {
    ghost use Rattle.proof_board.specs.Rule.{Saw};

    ghost then = { λ v x y w. Saw v y w };
}

/// The writer tells what it knows.
pub struct Tells;

impl Split<View> for Tells {
    ghost left = { λ v. v };

    ghost right = { λ v. v };
}

/// A new pass takes in what it was told.
pub struct Starts;

impl Join<View> for Starts {
    ghost use Rattle.proof_board.specs.Rule.{unaware};

    ghost both = { λ v w. w };

    ghost spent = { unaware };
}
