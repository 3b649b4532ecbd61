//! Laws of what the auditor accepts: it is true of each list under the trusted heads, or two strings have one digest.

ghost use Rattle.std.specs.Prelude.{◌≡◌, ◌≢◌, ◌⊎◌, ℕ, ◌^◌, ◌<◌, ◌≤◌, List, [], ◌∷◌, length, Some, None, Ok};
ghost use Rattle.ledger_bytes.specs.declared.digest.Digest.{Digest as DigestRecord};
ghost use Rattle.ledger_bytes.specs.Fields.{IsBytes};
ghost use Rattle.journal_record.specs.Header.{spelling};
ghost use Rattle.journal_record.specs.declared.header.Header.{Header as HeaderRecord};
ghost use Rattle.merkle_tree.specs.declared.head.Head.{Head as HeadRecord};
ghost use Rattle.proof_codec.specs.declared.claim.Claim.{Claim as ClaimRecord};
ghost use Rattle.proof_codec.specs.Proofs.{Shown, IsTimeHeader};
ghost use Rattle.proof_codec.specs.Reading.{proof_of};
ghost use Rattle.script_lines.specs.declared.said.Which.{Which as Tree};
ghost use Rattle.script_lines.specs.declared.said.Which.TheVariants.{Ledger};
ghost use Rattle.tree_model.specs.Tree.{Hash, mth};
ghost use Rattle.tree_model.specs.Clash.{Clashes};
ghost use Rattle.audit_core.specs.Trust.{Trust, TrustsMore, root_of};
ghost use Rattle.audit_core.specs.Acceptance.{acceptance, IsAccepted};
ghost use Rattle.audit_core.specs.Extending.{extend_refusal, IsExtension};
ghost use Rattle.audit_core.specs.Truth.{Lists, HasJournal, IsTrueOf};
ghost use Rattle.audit_core.specs.Judgement.{IsUnderHead, leaf_clash, clash_of};
ghost use Rattle.audit_core.specs.Parts.{extension_clash};
ghost use Rattle.audit_core.specs.Honest.{IsHonest, AreMoments, pegged_once};
ghost use Rattle.audit_core.specs.Chains.{lists_until, BeginsWith, Extension, LeadsTo, chain_clash, AreReached, named_by, reached_clash};

/// Where `accept` says yes, the claim is true of each list of headers under the trusted head that the proof names, or the
/// proof and the list show two different strings with one digest. This rests on the bytes and the trusted heads alone,
/// and holds for every hash whose digests have 32 bytes.
pub fn yes_is_true()
    // The ledger has the journal, with or without bounds in the claim.
    ensures journal { (hash : Hash) (bytes : List ℕ) (claim : ClaimRecord) (trust : Trust)
        (lists : Lists) → ((message : List ℕ) → length (hash message) ≡ 32)
        → acceptance hash bytes claim trust ≡ Ok tt
        → (under : IsUnderHead hash trust bytes lists.headers)
        → HasJournal hash lists claim.n claim.leaf
        ⊎ Clashes hash (leaf_clash hash lists under.proof) }
    // Where the claim has no bounds the proof has none.
    ensures bare { (hash : Hash) (bytes : List ℕ) (claim : ClaimRecord) (trust : Trust)
        (proof : Shown) → acceptance hash bytes claim trust ≡ Ok tt
        → claim.lo ≡ None → claim.hi ≡ None → proof_of bytes ≡ Ok proof
        → (proof.lo ≡ None) × (proof.hi ≡ None) }
    // Then the journal is all that is claimed.
    ensures unbounded { (hash : Hash) (bytes : List ℕ) (claim : ClaimRecord) (trust : Trust)
        (lists : Lists) → ((message : List ℕ) → length (hash message) ≡ 32)
        → acceptance hash bytes claim trust ≡ Ok tt → claim.lo ≡ None → claim.hi ≡ None
        → IsUnderHead hash trust bytes lists.headers
        → IsTrueOf hash lists claim ⊎ Clashes hash (clash_of hash lists bytes) }
    // With bounds the claim is true of each list of headers and each list of entries under the heads that the proof names.
    ensures bounded { (hash : Hash) (bytes : List ℕ) (claim : ClaimRecord) (trust : Trust)
        (lists : Lists) (proof : Shown) → ((message : List ℕ) → length (hash message) ≡ 32)
        → IsBytes bytes → acceptance hash bytes claim trust ≡ Ok tt → proof_of bytes ≡ Ok proof
        → AreReached hash trust proof [] [] lists
        → IsTrueOf hash lists claim ⊎ Clashes hash (clash_of hash lists bytes) }
{}

/// Where an extension from the trusted root of the first `m` items is accepted, each list under the new head begins
/// with `m` items that have that root, or the extension and the list show two different strings with one digest.
pub fn extension_is_true()
    ensures list { (hash : Hash) (which : Tree) (m : ℕ) (head : HeadRecord) (bytes : List ℕ)
        (trust : Trust) (list : List (List ℕ))
        → ((message : List ℕ) → length (hash message) ≡ 32)
        → (it : IsExtension hash which m head bytes trust)
        → length list ≡ head.size → mth hash list ≡ head.root.0
        → BeginsWith hash list m it.old.0
        ⊎ Clashes hash (extension_clash hash list m it.old.0 bytes) }
    // It is one where nothing stands against the new head.
    ensures extends { (hash : Hash) (which : Tree) (m : ℕ) (head : HeadRecord) (bytes : List ℕ)
        (trust : Trust) → extend_refusal hash which m head bytes trust ≡ None
        → IsExtension hash which m head bytes trust }
{}

/// Where extensions lead from one head to another, each list under the last one begins with items under the first, or
/// the first extension, back from the last head, that isn't the list's shows two different strings with one digest.
pub fn extensions_are_true()
    ensures list { (hash : Hash) (m : ℕ) (old : List ℕ) (extensions : List Extension) (size : ℕ)
        (root : List ℕ) (list : List (List ℕ))
        → ((message : List ℕ) → length (hash message) ≡ 32)
        → LeadsTo hash m old extensions size root
        → length list ≡ size → mth hash list ≡ root
        → BeginsWith hash list m old ⊎ Clashes hash (chain_clash hash list extensions) }
    // An extension that is accepted goes on from where others lead.
    ensures next { (hash : Hash) (which : Tree) (first : ℕ) (root : List ℕ)
        (extensions : List Extension) (m : ℕ) (head : HeadRecord) (bytes : List ℕ) (trust : Trust)
        (it : IsExtension hash which m head bytes trust)
        → LeadsTo hash first root extensions m it.old.0
        → LeadsTo hash first root (record { m = m; old = it.old.0; digests = bytes } ∷ extensions)
        head.size head.root.0 }
{}

/// Where `accept` says yes, the claim is also true of each list of headers under another head that extensions lead to
/// from the one that the proof names, or they or the proof show two different strings with one digest.
pub fn yes_stays_true()
    ensures unbounded { (hash : Hash) (bytes : List ℕ) (claim : ClaimRecord) (trust : Trust)
        (lists : Lists) (proof : Shown) (root : DigestRecord) (extensions : List Extension)
        (head : HeadRecord) → ((message : List ℕ) → length (hash message) ≡ 32)
        → acceptance hash bytes claim trust ≡ Ok tt → claim.lo ≡ None → claim.hi ≡ None
        → proof_of bytes ≡ Ok proof → root_of Ledger trust proof.size ≡ Some root
        → LeadsTo hash proof.size root.0 extensions head.size head.root.0
        → length lists.headers ≡ head.size → mth hash lists.headers ≡ head.root.0
        → IsTrueOf hash lists claim ⊎ (Clashes hash (chain_clash hash lists.headers extensions)
        ⊎ Clashes hash (clash_of hash (lists_until proof.size lists) bytes)) }
    // Its journal is the ledger's, with bounds or without, where extensions of the ledger lead to the list's head.
    ensures journal { (hash : Hash) (bytes : List ℕ) (claim : ClaimRecord) (trust : Trust)
        (lists : Lists) (proof : Shown) (root : DigestRecord) (extensions : List Extension)
        → ((message : List ℕ) → length (hash message) ≡ 32)
        → acceptance hash bytes claim trust ≡ Ok tt
        → proof_of bytes ≡ Ok proof → root_of Ledger trust proof.size ≡ Some root
        → LeadsTo hash proof.size root.0 extensions (length lists.headers) (mth hash lists.headers)
        → HasJournal hash lists claim.n claim.leaf
        ⊎ (Clashes hash (chain_clash hash lists.headers extensions)
        ⊎ Clashes hash (leaf_clash hash (lists_until proof.size lists) proof)) }
    // All of it is true with bounds, where extensions lead to the lists' heads from those that the proof names. The strings are those
    // of the first that isn't of the lists: of the ledger's extensions, back from the last head, of the notary's, and then of
    // the proof's parts.
    ensures bounded { (hash : Hash) (bytes : List ℕ) (claim : ClaimRecord) (trust : Trust)
        (lists : Lists) (proof : Shown) (ledger notary : List Extension)
        → ((message : List ℕ) → length (hash message) ≡ 32)
        → IsBytes bytes → acceptance hash bytes claim trust ≡ Ok tt → proof_of bytes ≡ Ok proof
        → AreReached hash trust proof ledger notary lists
        → IsTrueOf hash lists claim ⊎ Clashes hash (reached_clash hash lists proof ledger notary) }
{}

/// A claim stays true when the lists grow.
pub fn claims_stay_true()
    ensures { (hash : Hash) (claim : ClaimRecord) (proof : Shown) (lists : Lists)
        → IsTrueOf hash (named_by proof lists) claim → IsTrueOf hash lists claim }
{}

/// Where a claim is true, and the notary is honest about the ledger whose journals were placed at these moments, the
/// time in front isn't after the moment of the claim's journal, and the time behind isn't before it.
pub fn honest_bounds_are_moments()
    ensures { (hash : Hash) (lists : Lists) (claim : ClaimRecord) (moments : List ℕ)
        → IsTrueOf hash lists claim → IsHonest hash lists moments → AreMoments moments claim }
{}

/// A notary can be honest: over one journal that is no time journal, with one entry that pegs it, it is where the journal was
/// placed at the entry's time or before.
pub fn a_notary_can_be_honest()
    ensures { (hash : Hash) (id salt : DigestRecord) (journal : List ℕ) (moment time : ℕ)
        → ((header : HeaderRecord) → IsTimeHeader header → journal ≢ spelling header)
        → moment ≤ time → time < 2 ^ 64
        → IsHonest hash (pegged_once hash id salt journal time) (moment ∷ []) }
{}

/// What was accepted stays accepted where more heads are trusted.
pub fn accepted_proofs_stay_accepted()
    ensures { (trust more : Trust) → TrustsMore trust more → (hash : Hash) (bytes : List ℕ) (claim : ClaimRecord)
        → IsAccepted hash bytes claim trust → IsAccepted hash bytes claim more }
{}
