//! Laws of the proofs that runs write: each is accepted, and earlier heads lead on to later ones.

ghost use Rattle.std.specs.Prelude.{List, ℕ};
ghost use Rattle.ledger_bytes.specs.Begins.{Begins};
ghost use Rattle.time_peg.specs.Entries.{NotaryState, IsList};
ghost use Rattle.ledger_model.specs.History.{History, journals};
ghost use Rattle.ledger_model.specs.Lawful.{IsLawful};
ghost use Rattle.ledger_model.specs.Pegs.{Pegged};
ghost use Rattle.ledger_model.specs.Scheme.{Scheme};
ghost use Rattle.ledger_model.specs.Step.{Step};
ghost use Rattle.ledger_model.specs.Took.{TookAll};
ghost use Rattle.proof_maker.specs.Written.{AllGood, HasWideTimes, LeadsOn};

/// Whatever lines are run on a history whose pegs the notary keeps: each proof and each extension that is due for them is
/// accepted under the heads of the step that it is due for.
pub fn written_proofs_are_accepted()
    ensures { (scheme : Scheme) (h : History) (n m : NotaryState) (steps : List (List Step)) → IsLawful h
        → HasWideTimes h → TookAll scheme h n steps m → Pegged h n.entries → AllGood scheme h steps }
{}

/// What stood earlier leads on to what stands later: where the ledger's journals went on, and the notary's list.
pub fn earlier_heads_lead_on()
    ensures { (h f : History) (es later : List (List ℕ)) → IsLawful f → Begins (journals h) (journals f)
        → IsList later → Begins es later → LeadsOn h f es later }
{}
