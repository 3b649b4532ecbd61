//! Laws of the words that make commands, and of an audit script's replies: each stands in its place, and what `yes`,
//! `true` and `clash` tell is so. What a dump without a fault says of the lineages under its head.

ghost use Rattle.std.specs.Prelude.{◌≡◌, true, ◌⊎◌, ◌↔◌, ◌+◌, ℕ, List, [], ◌∷◌, ◌++◌, length, codes, None, Some, Ok};
ghost use Rattle.sha2.specs.Sha256.{sha256};
ghost use Rattle.ledger_bytes.specs.Fields.{IsBytes};
ghost use Rattle.ledger_bytes.specs.declared.digest.Digest.{Digest as DigestRecord};
ghost use Rattle.merkle_tree.specs.declared.head.Head.{Head as HeadRecord};
ghost use Rattle.proof_codec.specs.declared.claim.Claim.{Claim as ClaimRecord};
ghost use Rattle.proof_codec.specs.Proofs.{Shown};
ghost use Rattle.proof_codec.specs.Reading.{proof_of};
ghost use Rattle.script_lines.specs.Spellings.{clue_of, digest_of};
ghost use Rattle.audit_words.specs.Words.{is_plain_word};
ghost use Rattle.script_lines.specs.declared.said.Which.{Which as Tree};
ghost use Rattle.ledger_io.specs.Lines.{lines_of};
ghost use Rattle.tree_model.specs.Tree.{Hash, mth};
ghost use Rattle.tree_model.specs.Clash.{Clashes, IsClash};
ghost use Rattle.tree_model.specs.TreeClash.{ShowsOr, tree_clash};
ghost use Rattle.ledger_model.specs.Lawful.{AreLawful};
ghost use Rattle.ledger_model.specs.Scheme.{Scheme};
ghost use Rattle.dump_model.specs.Dumps.{Dump as DumpRecord, IsDump, leaves_of};
ghost use Rattle.audit_dump.specs.declared.late.Given.{Given};
ghost use Rattle.audit_dump.specs.Known.{journals_of};
ghost use Rattle.audit_dump.specs.Reports.{Report, IsReport};
ghost use Rattle.clue_lineage.specs.declared.answer.Run.{Run};
ghost use Rattle.clue_lineage.specs.Accepting.{acceptance, IsAccepted};
ghost use Rattle.clue_lineage.specs.Runs.{KeepsClueRule};
ghost use Rattle.audit_core.specs.Trust.{Trust, root_of};
ghost use Rattle.audit_core.specs.Truth.{Lists, lists_of, HasJournal, IsTrueOf};
ghost use Rattle.audit_core.specs.Judgement.{IsAcceptedByOwn, IsUnderHead, leaf_clash, clash_of};
ghost use Rattle.audit_core.specs.Parts.{extension_clash};
ghost use Rattle.audit_core.specs.Chains.{BeginsWith, AreReached};
ghost use Rattle.audit_cli.specs.declared.line.Line.TheVariants.{Extend, Check, Judge};
ghost use Rattle.audit_cli.specs.declared.reply.Reply.{Reply as ReplyRecord};
ghost use Rattle.audit_cli.specs.declared.reply.Reply.TheVariants.{Yes, True, Clash};
ghost use Rattle.audit_cli.specs.declared.words.Command.TheVariants.{Script, Dump, Lineage};
ghost use Rattle.audit_cli.specs.Dumps.{IsTrueText};
ghost use Rattle.audit_cli.specs.Grammar.{line_of};
ghost use Rattle.audit_cli.specs.Lineages.{IsWholeIn};
ghost use Rattle.audit_cli.specs.Replies.{reply_text, IsOneLine};
ghost use Rattle.audit_cli.specs.Answers.{answer_to};
ghost use Rattle.audit_cli.specs.Sound.{IsSoundText};
ghost use Rattle.audit_cli.specs.Words.{command_of, head_of, named_clue};
ghost use Rattle.audit_cli.specs.Texts.{audit_text, text_from, trusted_behind, reply_behind, next_text};

/// The text of a script tells the reply to each line in its place: behind the text of the lines in front of it, with its
/// number, judged under what those lines made trusted. It reads `yes` there exactly where the reply is yes.
pub fn replies_stand_in_place()
    ensures place { (hash : Hash) (lines : List (List ℕ)) (line : List ℕ) (rest : List (List ℕ))
        → audit_text hash (lines ++ line ∷ rest)
        ≡ audit_text hash lines ++ (reply_text (length lines + 1) (reply_behind hash lines line)
        ++ text_from hash (trusted_behind hash (lines ++ line ∷ [])) (length lines + 2) rest) }
    ensures told { (number : ℕ) (reply : ReplyRecord)
        → (reply_text number reply ≡ reply_text number Yes) ↔ (reply ≡ Yes) }
{}

/// Each reply is one line: it has one newline, at its end, whatever is trusted and however long the line is. So the text
/// of a script has as many lines as the script.
pub fn replies_are_lines()
    ensures reply { (hash : Hash) (trust : Trust) (number : ℕ) (line : List ℕ)
        → IsOneLine (reply_text number (answer_to hash trust line)) }
    ensures text { (hash : Hash) (lines : List (List ℕ))
        → length (lines_of (audit_text hash lines)) ≡ length lines }
{}

/// Where a line of a script asks to check a proof of a claim, and the reply is yes, each list of headers under the trusted
/// head that the proof names has the claim's journal, or the proof and the list show two different strings with one
/// digest. This holds for every hash whose digests have 32 bytes, whatever the lines in front are.
pub fn checked_claims_are_true()
    // With bounds or without.
    ensures journal { (hash : Hash) (lines : List (List ℕ)) (line : List ℕ) (claim : ClaimRecord)
        (bytes : List ℕ) (lists : Lists) → ((message : List ℕ) → length (hash message) ≡ 32)
        → line_of line ≡ Ok (Check claim bytes) → reply_behind hash lines line ≡ Yes
        → (under : IsUnderHead hash (trusted_behind hash lines) bytes lists.headers)
        → HasJournal hash lists claim.n claim.leaf
        ⊎ Clashes hash (leaf_clash hash lists under.proof) }
    // Without bounds the whole claim is true.
    ensures unbounded { (hash : Hash) (lines : List (List ℕ)) (line : List ℕ) (claim : ClaimRecord)
        (bytes : List ℕ) (lists : Lists) → ((message : List ℕ) → length (hash message) ≡ 32)
        → line_of line ≡ Ok (Check claim bytes) → reply_behind hash lines line ≡ Yes
        → claim.lo ≡ None → claim.hi ≡ None
        → IsUnderHead hash (trusted_behind hash lines) bytes lists.headers
        → IsTrueOf hash lists claim ⊎ Clashes hash (clash_of hash lists bytes) }
    // With bounds it is true of all lists of the ledger and of its notary under the trusted heads that the proof names.
    ensures bounded { (hash : Hash) (lines : List (List ℕ)) (line : List ℕ) (claim : ClaimRecord)
        (bytes : List ℕ) (proof : Shown) (lists : Lists)
        → ((message : List ℕ) → length (hash message) ≡ 32)
        → line_of line ≡ Ok (Check claim bytes) → reply_behind hash lines line ≡ Yes
        → proof_of bytes ≡ Ok proof
        → AreReached hash (trusted_behind hash lines) proof [] [] lists
        → IsTrueOf hash lists claim ⊎ Clashes hash (clash_of hash lists bytes) }
{}

/// Where a line of a script asks to judge a proof of a claim by whole lists, the text of its reply reads `true` exactly
/// where the proof is accepted under the lists' own heads and the claim is true of the lists, and `clash` with two strings
/// exactly where it is accepted and the claim is false of them, whatever the lines in front are.
pub fn judged_claims_are_told()
    ensures holds { (hash : Hash) (lines : List (List ℕ)) (line : List ℕ) (id : DigestRecord)
        (headers entries : List ℕ) (claim : ClaimRecord) (bytes : List ℕ)
        → line_of line ≡ Ok (Judge id headers entries claim bytes)
        → (next_text hash lines line ≡ reply_text (length lines + 1) True)
        ↔ (IsAcceptedByOwn hash (lists_of id headers entries) bytes claim
        × IsTrueOf hash (lists_of id headers entries) claim) }
    ensures fails { (hash : Hash) (lines : List (List ℕ)) (line : List ℕ) (id : DigestRecord)
        (headers entries : List ℕ) (claim : ClaimRecord) (bytes : List ℕ)
        → line_of line ≡ Ok (Judge id headers entries claim bytes)
        → ((told : List ℕ) × (truth : List ℕ)
        × (next_text hash lines line ≡ reply_text (length lines + 1) (Clash told truth)))
        ↔ (IsAcceptedByOwn hash (lists_of id headers entries) bytes claim
        × (IsTrueOf hash (lists_of id headers entries) claim → ⊥)) }
{}

/// Where a line of a script asks to extend the trusted head of `m` items, and the reply is yes, there is such a head, and
/// each list under the new one begins with `m` items under it, or the extension and the list show two different strings
/// with one digest. This holds for every hash whose digests have 32 bytes, whatever the lines in front are.
pub fn extended_heads_go_on()
    ensures { (hash : Hash) (lines : List (List ℕ)) (line : List ℕ) (which : Tree) (m : ℕ)
        (head : HeadRecord) (bytes : List ℕ) (list : List (List ℕ))
        → ((message : List ℕ) → length (hash message) ≡ 32)
        → line_of line ≡ Ok (Extend which m head bytes) → reply_behind hash lines line ≡ Yes
        → length list ≡ head.size → mth hash list ≡ head.root.0
        → (old : DigestRecord) × (root_of which (trusted_behind hash lines) m ≡ Some old)
        × (BeginsWith hash list m old.0 ⊎ Clashes hash (extension_clash hash list m old.0 bytes)) }
{}

/// What the text of a script says is so, or it shows two different strings with one digest: each claim that a `yes` answers
/// is true of the lists under the heads that its proof names, and under all that the script's extensions lead to, and its
/// bounds are moments where the notary is honest; and two strings beside `clash` are such strings. This holds for every hash whose digests have 32 bytes.
pub fn scripts_are_sound()
    ensures { (hash : Hash) (lines : List (List ℕ)) → ((message : List ℕ) → length (hash message) ≡ 32)
        → IsSoundText hash lines (audit_text hash lines) }
{}

/// Where a `judge` line is answered by two strings, these are different and have one digest, whatever the lines in front are.
/// This holds for every hash whose digests have 32 bytes.
pub fn judged_clashes_are_clashes()
    ensures { (hash : Hash) (lines : List (List ℕ)) (line : List ℕ) (id : DigestRecord)
        (headers entries : List ℕ) (claim : ClaimRecord) (bytes told truth : List ℕ)
        → ((message : List ℕ) → length (hash message) ≡ 32)
        → line_of line ≡ Ok (Judge id headers entries claim bytes)
        → reply_behind hash lines line ≡ Clash told truth → IsClash hash told truth }
{}

/// The word `script` alone makes a command, and so do `dump` with five words of their forms, and `lineage` with three of which the
/// name doesn't begin with a hyphen: so none of them is of no form.
pub fn words_make_commands()
    ensures script { command_of (codes "script" ∷ []) ≡ Some Script }
    ensures dump { (id_word size root notary_size notary_root : List ℕ) (id : DigestRecord)
        (ledger notary : HeadRecord) → digest_of id_word ≡ Some id
        → head_of size root ≡ Some ledger → head_of notary_size notary_root ≡ Some notary
        → command_of
        (codes "dump" ∷ id_word ∷ size ∷ root ∷ notary_size ∷ notary_root ∷ [])
        ≡ Some (Dump id ledger notary) }
    ensures lineage { (name_word size root name : List ℕ) (head : HeadRecord)
        → is_plain_word name_word ≡ true → clue_of name_word ≡ Some name → head_of size root ≡ Some head
        → command_of (codes "lineage" ∷ name_word ∷ size ∷ root ∷ [])
        ≡ Some (Lineage (named_clue name) head) }
{}

/// Where the report of a dump without a base has no fault, the dump's journals are such as a ledger may have, one after the other,
/// and their headers keep the rule of clues: each record's ordinal is one more than how many records of its clue stand in front
/// of it, and it names the number of the last of them.
///
/// Of a dump with a base it says nothing: the records in front of the base aren't there to be counted.
pub fn audited_dumps_keep_the_clue_rule()
    ensures lawful { (scheme : Scheme) (given : Given) (dump : DumpRecord) (report : Report)
        → IsDump dump → IsReport scheme given dump report → report.fault ≡ None → dump.base ≡ None
        → AreLawful (journals_of dump.items) }
    ensures rule { (scheme : Scheme) (given : Given) (dump : DumpRecord) (report : Report)
        → IsDump dump → IsReport scheme given dump report → report.fault ≡ None → dump.base ≡ None
        → KeepsClueRule (leaves_of dump) }
    // So does each list of headers under the ledger's head that was given, or the dump and the list show two different strings
    // with one digest.
    ensures lists { (scheme : Scheme) (given : Given) (dump : DumpRecord) (report : Report)
        (headers : List (List ℕ)) → IsDump dump → IsReport scheme given dump report
        → report.fault ≡ None → dump.base ≡ None
        → length headers ≡ given.ledger.size → mth sha256 headers ≡ given.ledger.root.0
        → ShowsOr sha256 (KeepsClueRule headers) (tree_clash sha256 [] 0 (leaves_of dump) headers) }
{}

/// Where the report of a dump without a base has no fault, and a lineage is accepted under the same head of the ledger, the
/// lineage's headers are all records of the clue in that dump with an ordinal from the run's first to its last, in order; or the
/// lineage and the dump show two different strings with one digest. That the last is the clue's last isn't said.
pub fn lineages_under_audited_heads_are_whole()
    ensures reported { (scheme : Scheme) (given : Given) (dump : DumpRecord) (report : Report)
        (bytes : List ℕ) (clue : DigestRecord) (run : Run)
        → IsDump dump → IsReport scheme given dump report → report.fault ≡ None → dump.base ≡ None
        → IsBytes bytes → acceptance sha256 bytes clue given.ledger ≡ Ok run
        → IsWholeIn (leaves_of dump) bytes clue run }
    // The same by what two runs of the program read that ended with the status 0: one over the dump (`SoundDump`), and one over
    // the lineage (`SoundLineage`).
    ensures read { (ledger notary : HeadRecord) (text bytes : List ℕ) (clue : DigestRecord) (run : Run)
        → (told : IsTrueText ledger notary text) → told.dump.base ≡ None
        → IsBytes bytes → IsAccepted sha256 bytes clue ledger run
        → IsWholeIn (leaves_of told.dump) bytes clue run }
{}
