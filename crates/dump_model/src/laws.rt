//! What is true of a dump that passes its checks, and that a dump's bytes tell it.

ghost use Rattle.std.specs.Prelude.{◌≡◌, ℕ, List, [], ◌++◌, length, None};
ghost use Rattle.sha2.specs.Sha256.{sha256};
ghost use Rattle.merkle_tree.specs.declared.head.Head.{Head as HeadRecord};
ghost use Rattle.tree_model.specs.Tree.{Hash, mth};
ghost use Rattle.tree_model.specs.TreeClash.{ShowsOr};
ghost use Rattle.dump_model.specs.Dumps.{Dump, IsDump, dump_text};
ghost use Rattle.dump_model.specs.Checks.{ErasedAreHidden, BaseIsPurged, HasLedgerHead, HasNotaryHead};
ghost use Rattle.dump_model.specs.Truth.{IsTrueDump, dump_clash};

/// A dump that passes these checks under the head of a ledger and the head of a notary is true of every ledger and every
/// notary's list with these heads; or it shows two different strings with one digest, those of the first place where it differs
/// from them. Where no such strings are found the dump is true.
///
/// A true dump shows each journal of the ledger from its first one on, in order and with the ledger's header, and none else.
/// What stands for the journals in front has their peaks, and the purge that made it is in the ledger. A content is missing
/// exactly where one of these journals hides it. The entries are all of the notary's.
///
/// This rests on the dump and the heads alone. It says nothing of a ledger with another head, nor of what is checked of the
/// journals one by one: that contents and approvals have the digests that their headers name. Nor does it say whose id the
/// dump has.
pub fn checked_dumps_are_true()
    // By every hash whose digests have 32 bytes.
    ensures any { (hash : Hash) (dump : Dump) (ledger notary : HeadRecord)
        (headers entries : List (List ℕ))
        → ((message : List ℕ) → length (hash message) ≡ 32) → IsDump dump
        → ErasedAreHidden dump → BaseIsPurged hash dump
        → HasLedgerHead hash dump ledger → HasNotaryHead hash dump notary
        → length headers ≡ ledger.size → mth hash headers ≡ ledger.root.0
        → length entries ≡ notary.size → mth hash entries ≡ notary.root.0
        → ShowsOr hash (IsTrueDump hash headers entries dump)
        (dump_clash hash headers entries dump) }
    // By SHA-256, of which nothing is assumed.
    ensures by_sha256 { (dump : Dump) (ledger notary : HeadRecord) (headers entries : List (List ℕ))
        → IsDump dump → ErasedAreHidden dump → BaseIsPurged sha256 dump
        → HasLedgerHead sha256 dump ledger → HasNotaryHead sha256 dump notary
        → length headers ≡ ledger.size → mth sha256 headers ≡ ledger.root.0
        → length entries ≡ notary.size → mth sha256 entries ≡ notary.root.0
        → ShowsOr sha256 (IsTrueDump sha256 headers entries dump)
        (dump_clash sha256 headers entries dump) }
    // No strings are found of a true dump.
    ensures exact { (hash : Hash) (dump : Dump) (headers entries : List (List ℕ))
        → IsTrueDump hash headers entries dump → dump_clash hash headers entries dump ≡ None }
{}

/// A dump that is true of a ledger and of a notary's list passes each of these checks, under the heads that these have. So the
/// checks refuse no true dump, and one that fails any of them is true of nothing under these heads.
pub fn true_dumps_pass()
    ensures erased { (hash : Hash) (dump : Dump) (headers entries : List (List ℕ)) → IsDump dump
        → IsTrueDump hash headers entries dump → ErasedAreHidden dump }
    ensures purged { (hash : Hash) (dump : Dump) (headers entries : List (List ℕ)) → IsDump dump
        → IsTrueDump hash headers entries dump → BaseIsPurged hash dump }
    ensures ledger { (hash : Hash) (dump : Dump) (headers entries : List (List ℕ))
        (head : HeadRecord) → IsTrueDump hash headers entries dump
        → length headers ≡ head.size → mth hash headers ≡ head.root.0
        → HasLedgerHead hash dump head }
    ensures notary { (hash : Hash) (dump : Dump) (headers entries : List (List ℕ))
        (head : HeadRecord) → IsTrueDump hash headers entries dump
        → length entries ≡ head.size → mth hash entries ≡ head.root.0
        → HasNotaryHead hash dump head }
{}

/// The bytes of a dump that keeps the rules tell it: two such dumps with the same bytes are the same. And none is the
/// beginning of another, so its bytes tell where it ends too.
pub fn a_text_tells_its_dump()
    ensures same { (dump other : Dump) → IsDump dump → IsDump other
        → dump_text dump ≡ dump_text other → dump ≡ other }
    ensures whole { (dump other : Dump) (more : List ℕ) → IsDump dump → IsDump other
        → dump_text dump ++ more ≡ dump_text other → (dump ≡ other) × (more ≡ []) }
{}
