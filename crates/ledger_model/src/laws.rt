//! Laws of the model: what jobs and runs keep true of a history, and of its erasures, receipts, times and proofs.

ghost use Rattle.std.specs.Prelude.{◌≡◌, ◌≢◌, ℕ, ◌+◌, ◌^◌, ◌<◌, ◌≤◌, List, [], ◌++◌, length, All, Option, Some, None, slice_get, true, false};
ghost use Rattle.std.specs.List.{flat_map, list_all};
ghost use Rattle.std.specs.Option.{option_or};
ghost use Rattle.ledger_bytes.specs.Begins.{Begins};
ghost use Rattle.ledger_bytes.specs.Digests.{digest};
ghost use Rattle.ledger_bytes.specs.declared.digest.Digest.{Digest};
ghost use Rattle.ledger_bytes.specs.declared.refusal.Refusal.TheVariants as refusals;
ghost use Rattle.journal_record.specs.Entry.{Entry};
ghost use Rattle.journal_record.specs.Header.{spelling};
ghost use Rattle.journal_record.specs.Rules.{IsHeader};
ghost use Rattle.journal_record.specs.declared.approval.Approval.{Approval};
ghost use Rattle.journal_record.specs.declared.header.Kind.TheVariants as kinds;
ghost use Rattle.journal_record.specs.declared.stamp.Stamp.{Stamp as StampRecord};
ghost use Rattle.member_book.specs.Approvals.{approves, least_missing, shows_key};
ghost use Rattle.script_lines.specs.Receipts.{AllFit, AllHeads, IsReceipted};
ghost use Rattle.script_lines.specs.declared.reply.Reply.TheVariants as replies;
ghost use Rattle.script_lines.specs.declared.said.Which.TheVariants.{Ledger, Notary};
ghost use Rattle.sha2.specs.Sha256.{sha256};
ghost use Rattle.tree_model.specs.Tree.{mth};
ghost use Rattle.time_peg.specs.Entries.{IsList, NotaryState};
ghost use Rattle.ledger_model.specs.Bounds.{lower_journal, upper_journal, IsNearestBefore, IsNearestBehind};
ghost use Rattle.ledger_model.specs.Clues.{is_of_clue, jsns_with};
ghost use Rattle.ledger_model.specs.Dues.{dues, all_dues, due_lines, due_replies, EachCounted, HasLeaf, IsHeadOf, AllIn};
ghost use Rattle.ledger_model.specs.Ends.{ends_from, cut_at, Rises};
ghost use Rattle.ledger_model.specs.Fitting.{fits_job};
ghost use Rattle.ledger_model.specs.Genesis.{new_ledger, HasKeys};
ghost use Rattle.ledger_model.specs.Getting.{get_reply};
ghost use Rattle.ledger_model.specs.Growing.{Grows};
ghost use Rattle.ledger_model.specs.History.{History, journals, journals_of, size, id, point, seen_point, close, root};
ghost use Rattle.ledger_model.specs.InOrder.{steps_of};
ghost use Rattle.ledger_model.specs.Judgements.{own_refusal};
ghost use Rattle.ledger_model.specs.Lawful.{IsLawful, IsSound};
ghost use Rattle.ledger_model.specs.Limits.{real_limits};
ghost use Rattle.ledger_model.specs.Members.{keys};
ghost use Rattle.ledger_model.specs.Needs.{HaveSame};
ghost use Rattle.ledger_model.specs.Numbers.{link_at, numbered, repeated};
ghost use Rattle.ledger_model.specs.Outcomes.{accepted_outcome, placed_as, placed_journal, view};
ghost use Rattle.ledger_model.specs.Pegs.{Pegged};
ghost use Rattle.ledger_model.specs.Prepared.{prepared_items, after_jobs, job_dues};
ghost use Rattle.ledger_model.specs.Proofs.{shown_of, extension_in, list_extension};
ghost use Rattle.ledger_model.specs.Repeats.{IsKeptRecord, who_refusal};
ghost use Rattle.ledger_model.specs.Rules.{after_job, after_steps, after};
ghost use Rattle.ledger_model.specs.Scheme.{Scheme};
ghost use Rattle.ledger_model.specs.Step.{Step};
ghost use Rattle.ledger_model.specs.Targets.{hider, is_hidden, kind_at, leaf_at, shown_with};
ghost use Rattle.ledger_model.specs.Texts.{text, answer_to, proof_reply, extension_reply};
ghost use Rattle.ledger_model.specs.Took.{counts_after, NoneCall, Took, TookAll, GoesOnMade};
ghost use Rattle.ledger_model.specs.Windows.{Said, said_lines, windows, AllButLastWhole, NoneWholeBefore};
ghost use Rattle.ledger_model.specs.declared.answer.Answer.TheVariants as answers;
ghost use Rattle.ledger_model.specs.declared.due.Due.{Due as AnyDue};
ghost use Rattle.ledger_model.specs.declared.genesis.Genesis.{Genesis};
ghost use Rattle.ledger_model.specs.declared.job.Job.{Job};
ghost use Rattle.ledger_model.specs.declared.job.Job.TheVariants as jobs;
ghost use Rattle.ledger_model.specs.declared.outcome.Outcome.TheVariants as outcomes;
ghost use Rattle.ledger_model.specs.declared.outcome.PlacedJournal.{PlacedJournal};
ghost use Rattle.ledger_model.specs.declared.outcome.Query.TheVariants as queries;
ghost use Rattle.ledger_model.specs.declared.view.View.TheVariants as views;

/// The windows of a script are its lines in order, none lost. Each but the last has 4,096 lines or
/// 16,777,216 bytes, and none has so many before its last line.
pub fn windows_are_parts()
    ensures joined { (lines : List Said) → flat_map (λ window. window) (windows lines) ≡ lines }
    ensures whole { (lines : List Said) → AllButLastWhole (windows lines) }
    ensures not_before { (lines : List Said) → NoneWholeBefore (windows lines) }
{}

/// Blocks are the same as all journals in a row with the sizes at which blocks end: from the blocks come the
/// sizes, and from the sizes the blocks.
pub fn blocks_are_journals_with_ends()
    ensures blocks { (n : ℕ) (blocks : List (List Entry)) (open_block : List Entry)
        → cut_at n (ends_from n blocks) (flat_map (λ block. block) blocks ++ open_block) ≡ blocks }
    ensures journals { (n : ℕ) (ends : List ℕ) (journals : List Entry)
        → Rises n ends (n + length journals)
        → flat_map (λ block. block) (cut_at n ends journals) ≡ journals }
    ensures ends { (n : ℕ) (ends : List ℕ) (journals : List Entry)
        → Rises n ends (n + length journals)
        → ends_from n (cut_at n ends journals) ≡ ends }
{}

/// A new ledger's history is lawful and sound.
pub fn new_ledgers_keep_the_rules()
    ensures lawful { (genesis : Genesis) → IsLawful (new_ledger genesis) }
    ensures sound { (genesis : Genesis) → HasKeys genesis → IsSound (new_ledger genesis) }
{}

/// A job that a line may make leaves a lawful history lawful, and a sound one sound.
pub fn each_job_keeps_the_rules()
    ensures lawful { (h : History) (step : Step) (job : Job) → fits_job job ≡ true → IsLawful h
        → IsLawful (after_job h step job) }
    ensures sound { (h : History) (step : Step) (job : Job) → fits_job job ≡ true → IsSound h
        → IsSound (after_job h step job) }
{}

/// Whatever lines are run, in whatever windows: each history after them is lawful and sound.
pub fn each_run_keeps_the_rules()
    ensures lawful { (scheme : Scheme) (h : History) (steps : List (List Step)) → IsLawful h
        → IsLawful (after scheme h steps) }
    ensures sound { (scheme : Scheme) (h : History) (steps : List (List Step)) → IsSound h
        → IsSound (after scheme h steps) }
{}

/// In a lawful history each header obeys its layout.
pub fn lawful_headers_obey_their_layout()
    ensures { (h : History) → IsLawful h → All (λ journal. IsHeader journal.header) (journals h) }
{}

/// A sound history is told as it is: a journal that is whole with its header, its content and its who, and one whose
/// content is hidden with its header and its who. So no journal of it is told to be damaged.
pub fn sound_histories_show_their_journals()
    ensures whole { (h : History) (n : ℕ) (e : Entry) → IsSound h
        → slice_get (journals h) n ≡ Some e → view h n ≡ views.Whole
        → get_reply h n ≡ replies.Whole (spelling e.header) e.content e.who }
    ensures occulted { (h : History) (n : ℕ) (e : Entry) → IsSound h
        → slice_get (journals h) n ≡ Some e → view h n ≡ views.Occulted
        → get_reply h n ≡ replies.Occulted (spelling e.header) e.who }
{}

/// An occult that is accepted, of a record that was shown whole, hides its content: the occult is the first journal that does.
/// What can be shown of all others stays as it was.
pub fn an_occult_hides_its_target()
    ensures hider { (h : History) (step : Step) (target : ℕ) (leaf : Digest) (given : List Approval)
        → IsLawful h
        → own_refusal real_limits (close h) (jobs.Occult target leaf given) ≡ None
        → hider (after_job h step (jobs.Occult target leaf given)) target ≡ Some (size h) }
    ensures before { (h : History) (step : Step) (target : ℕ) (leaf : Digest) (given : List Approval)
        → IsLawful h
        → own_refusal real_limits (close h) (jobs.Occult target leaf given) ≡ None
        → view h target ≡ views.Whole }
    ensures after { (h : History) (step : Step) (target : ℕ) (leaf : Digest) (given : List Approval)
        → IsLawful h
        → own_refusal real_limits (close h) (jobs.Occult target leaf given) ≡ None
        → view (after_job h step (jobs.Occult target leaf given)) target ≡ views.Occulted }
    ensures others { (h : History) (step : Step) (target : ℕ) (leaf : Digest) (given : List Approval) (n : ℕ)
        → IsLawful h
        → own_refusal real_limits (close h) (jobs.Occult target leaf given) ≡ None
        → n < size h → n ≢ target
        → view (after_job h step (jobs.Occult target leaf given)) n ≡ view h n }
{}

/// An occult by clue that is accepted tells how many records its clue has, and one of them was shown whole. Behind it each
/// record of the clue that is kept is hidden: by the occult where none had hidden it, and else by the one that had. What
/// can be shown of all others stays as it was, and what is placed behind it isn't hidden by it.
pub fn an_occult_by_clue_hides_its_records()
    ensures count { (h : History) (step : Step) (clue : Digest) (count : ℕ) (given : List Approval) → IsLawful h
        → own_refusal real_limits (close h) (jobs.OccultClue clue count given) ≡ None
        → length (jsns_with h clue) ≡ count }
    ensures before { (h : History) (step : Step) (clue : Digest) (count : ℕ) (given : List Approval) → IsLawful h
        → own_refusal real_limits (close h) (jobs.OccultClue clue count given) ≡ None
        → shown_with h clue ≢ [] }
    ensures hider { (h : History) (step : Step) (clue : Digest) (count : ℕ) (given : List Approval) (n : ℕ) (e : Entry)
        → IsLawful h
        → own_refusal real_limits (close h) (jobs.OccultClue clue count given) ≡ None
        → slice_get (journals h) n ≡ Some e → is_of_clue clue e ≡ true
        → hider (after_job h step (jobs.OccultClue clue count given)) n ≡ option_or (hider h n) (Some (size h)) }
    ensures after { (h : History) (step : Step) (clue : Digest) (count : ℕ) (given : List Approval) (n : ℕ) (e : Entry)
        → IsLawful h
        → own_refusal real_limits (close h) (jobs.OccultClue clue count given) ≡ None
        → slice_get (journals h) n ≡ Some e → is_of_clue clue e ≡ true → point h ≤ n
        → view (after_job h step (jobs.OccultClue clue count given)) n ≡ views.Occulted }
    ensures others { (h : History) (step : Step) (clue : Digest) (count : ℕ) (given : List Approval) (n : ℕ) (e : Entry)
        → IsLawful h
        → own_refusal real_limits (close h) (jobs.OccultClue clue count given) ≡ None
        → slice_get (journals h) n ≡ Some e → is_of_clue clue e ≡ false
        → view (after_job h step (jobs.OccultClue clue count given)) n ≡ view h n }
    ensures behind { (h : History) (n j : ℕ) → IsLawful h → hider h n ≡ Some j → n < j }
{}

/// A purge that is accepted, up to a journal p, takes the journals in front of p: none of them can be shown any more. What
/// can be shown of those from p on stays as it was, the purge's own journal is whole, and p is the point.
pub fn a_purge_takes_what_is_in_front()
    ensures front { (h : History) (step : Step) (p : ℕ) (told : Digest) (given : List Approval) (n : ℕ)
        → IsLawful h
        → own_refusal real_limits (close h) (jobs.Purge p told given) ≡ None
        → n < p
        → view (after_job h step (jobs.Purge p told given)) n ≡ views.Purged p }
    ensures kept { (h : History) (step : Step) (p : ℕ) (told : Digest) (given : List Approval) (n : ℕ)
        → IsLawful h
        → own_refusal real_limits (close h) (jobs.Purge p told given) ≡ None
        → p ≤ n → n < size h
        → view (after_job h step (jobs.Purge p told given)) n ≡ view h n }
    ensures own { (h : History) (step : Step) (p : ℕ) (told : Digest) (given : List Approval)
        → IsLawful h
        → own_refusal real_limits (close h) (jobs.Purge p told given) ≡ None
        → view (after_job h step (jobs.Purge p told given)) (size h) ≡ views.Whole }
    ensures point { (h : History) (step : Step) (p : ℕ) (told : Digest) (given : List Approval)
        → IsLawful h
        → own_refusal real_limits (close h) (jobs.Purge p told given) ≡ None
        → point (after_job h step (jobs.Purge p told given)) ≡ p }
{}

/// A purge that is accepted, up to a journal p, is approved by the operator and by the member of each record that it takes, and
/// each of its approvals shows the key of its member.
pub fn a_purge_is_approved()
    ensures operator { (h : History) (p : ℕ) (told : Digest) (given : List Approval)
        → own_refusal real_limits h (jobs.Purge p told given) ≡ None
        → approves given 0 ≡ true }
    ensures owners { (h : History) (p : ℕ) (told : Digest) (given : List Approval) (n : ℕ) (e : Entry)
        → own_refusal real_limits h (jobs.Purge p told given) ≡ None
        → IsLawful h → slice_get (journals h) n ≡ Some e → e.header.kind ≡ kinds.Content
        → point h ≤ n → n < p
        → approves given e.header.member ≡ true }
    ensures keys { (h : History) (p : ℕ) (told : Digest) (given : List Approval)
        → own_refusal real_limits h (jobs.Purge p told given) ≡ None
        → list_all (shows_key (keys h)) given ≡ true }
{}

/// Whose approval is missing depends on who is needed alone: not on how often or in which order they are named.
pub fn needs_are_a_set()
    ensures { (given : List Approval) (xs ys : List ℕ) → HaveSame xs ys
        → least_missing given xs ≡ least_missing given ys }
{}

/// In a lawful history only records are hidden, so the first journal never is.
pub fn only_records_are_hidden()
    ensures records { (h : History) (n : ℕ) → IsLawful h → is_hidden h n ≡ true
        → kind_at h n ≡ kinds.Content }
    ensures first { (h : History) → IsLawful h → is_hidden h 0 ≡ false }
{}

/// From journal 0 on the whole point is seen; from a later journal on it is, where what is seen reaches that journal.
pub fn points_are_seen()
    ensures all { (h : History) → seen_point 0 h ≡ point h }
    ensures later { (h : History) (floor : ℕ) → IsLawful h → floor ≤ seen_point floor h
        → seen_point floor h ≡ point h }
{}

/// What is due for the lines of a run is what the run writes: each due as its line, in any later history.
pub fn a_run_is_its_dues()
    ensures { (scheme : Scheme) (h f : History) (steps : List (List Step))
        → Grows (after scheme h steps) f
        → due_lines f (all_dues scheme h steps) ≡ text scheme h steps }
{}

/// Jobs that were prepared with the ledger's id at a window's start are those of the window's lines.
pub fn a_window_is_its_lines()
    ensures after { (scheme : Scheme) (h : History) (steps : List Step) → 1 ≤ size h
        → after_jobs h (prepared_items scheme (id h) steps) ≡ after_steps scheme h steps }
    ensures dues { (scheme : Scheme) (h : History) (steps : List Step) → 1 ≤ size h
        → job_dues h (prepared_items scheme (id h) steps) ≡ dues scheme h steps }
{}

/// Where what was written begins the lines of dues whose journals stand in some blocks, each whole line of it that is
/// a receipt is that of a journal of these blocks. The same holds where the lines are followed by a tail in which
/// no line is a receipt.
pub fn a_written_receipt_is_kept()
    ensures lines { (f : History) (blocks : List (List Entry)) (dues : List AnyDue)
        (part rest : List ℕ) (jsn : ℕ) (leaf : Digest)
        → part ++ rest ≡ due_lines f dues → AllFit (due_replies f dues) → AllIn blocks dues
        → IsReceipted part jsn leaf → HasLeaf (journals_of blocks) jsn leaf }
    ensures tail { (f : History) (blocks : List (List Entry)) (dues : List AnyDue)
        (tail part rest : List ℕ) (jsn : ℕ) (leaf : Digest)
        → part ++ rest ≡ due_lines f dues ++ tail → AllFit (due_replies f dues) → AllIn blocks dues
        → (IsReceipted tail jsn leaf → ⊥)
        → IsReceipted part jsn leaf → HasLeaf (journals_of blocks) jsn leaf }
{}

/// The journal that an accepted job places is the one that is told of it, with the next number; and where one is told, one is
/// placed.
pub fn what_is_placed_is_told()
    ensures told { (h : History) (stamp : Option StampRecord) (job : Job) (journal : Entry)
        → placed_journal h stamp job ≡ Some journal
        → accepted_outcome h stamp job ≡ placed_as (size h) journal }
    ensures placed { (h : History) (stamp : Option StampRecord) (job : Job) (placed : PlacedJournal)
        → accepted_outcome h stamp job ≡ outcomes.Placed placed → placed_journal h stamp job ≢ None }
{}

/// The record that is found under a member's number is kept, and has this number. In a lawful history no other kept record of the
/// member has it, so each of them is found under its own.
pub fn a_number_is_one_record()
    ensures found { (h : History) (member number n : ℕ) → numbered h member number ≡ Some n
        → IsKeptRecord h member number n }
    ensures only { (h : History) (member number n : ℕ) → IsLawful h → 0 < number
        → IsKeptRecord h member number n → numbered h member number ≡ Some n }
{}

/// A record is asked for once more where a kept record of the member has its number and answers the same request: then nothing
/// changes, and that record's receipt is told, without a stamp. No bound of the ledger refuses it: only that there is no such
/// member, or that the proof shows another key. Where the kept record answers another request, the number is taken.
pub fn a_repeat_is_told_its_record()
    ensures repeat { (h : History) (member number : ℕ) (request : Digest) (n : ℕ)
        → numbered h member number ≡ Some n → request.0 ≡ link_at h n
        → repeated h member number request ≡ Some n }
    ensures same { (h : History) (step : Step) (member : ℕ) (clue : Digest) (content : List ℕ)
        (content_digest request : Digest) (by : Approval) (who : Digest) (number n : ℕ)
        → IsLawful h → repeated h member number request ≡ Some n
        → after_job h step (jobs.Append member clue content content_digest request by who number) ≡ h }
    ensures told { (h : History) (step : Step) (member : ℕ) (clue : Digest) (content : List ℕ)
        (content_digest request : Digest) (by : Approval) (who : Digest) (number n : ℕ)
        → repeated h member number request ≡ Some n → who_refusal h member by.key ≡ None
        → answer_to h step (jobs.Append member clue content content_digest request by who number)
        ≡ answers.Receipt n (digest (leaf_at h n)) None }
    ensures refused { (h : History) (member : ℕ) (clue : Digest) (content : List ℕ)
        (content_digest request : Digest) (by : Approval) (who : Digest) (number n : ℕ)
        → repeated h member number request ≡ Some n
        → own_refusal real_limits h (jobs.Append member clue content content_digest request by who number)
        ≡ who_refusal h member by.key }
    ensures taken { (h : History) (member : ℕ) (clue : Digest) (content : List ℕ)
        (content_digest request : Digest) (by : Approval) (who : Digest) (number n : ℕ)
        → numbered h member number ≡ Some n → request.0 ≢ link_at h n
        → who_refusal h member by.key ≡ None
        → own_refusal real_limits h (jobs.Append member clue content content_digest request by who number)
        ≡ Some (refusals.NumberTaken n) }
{}

/// Where a numbered record was placed, the same request is a repeat of it.
pub fn a_placed_number_is_repeated()
    ensures { (h : History) (step : Step) (member : ℕ) (clue : Digest) (content : List ℕ)
        (content_digest request : Digest) (by : Approval) (who : Digest) (number : ℕ)
        → IsLawful h → 0 < number
        → fits_job (jobs.Append member clue content content_digest request by who number) ≡ true
        → own_refusal real_limits h (jobs.Append member clue content content_digest request by who number) ≡ None
        → repeated h member number request ≡ None
        → repeated (after_job h step (jobs.Append member clue content content_digest request by who number))
        member number request ≡ Some (size h) }
{}

/// Where what was written begins the lines of dues whose journals stand in some blocks, and these begin those of the history in
/// which the lines are written, each head of the ledger that stands in a whole line is that over the first journals of these
/// blocks: in a receipt, in the reply to `head`, and in that to `extend ledger`.
pub fn a_written_head_is_kept()
    ensures { (f : History) (blocks : List (List Entry)) (dues : List AnyDue) (part rest : List ℕ)
        → f.waiting ≡ [] → Begins blocks f.closed
        → part ++ rest ≡ due_lines f dues → AllIn blocks dues
        → AllHeads (IsHeadOf (journals_of blocks)) part }
{}

/// Whatever lines are run: in each later lawful history, the numbers of each reply that is due are as programs have
/// them, and the leaf digests of receipts are bytes, where the steps' numbers are as programs have them. They are for each script of fewer than 2^64 lines.
pub fn the_replies_of_a_run_fit()
    ensures replies { (scheme : Scheme) (h f : History) (steps : List (List Step))
        → EachCounted steps → IsLawful h → IsLawful f → Grows (after scheme h steps) f
        → AllFit (due_replies f (all_dues scheme h steps)) }
    ensures steps { (lines : List (List ℕ)) → length lines < 2 ^ 64
        → EachCounted (steps_of (windows (said_lines lines))) }
{}

/// The notary takes part in a run as in its parts, one after the other, and its failures are those of the steps in which it
/// failed; where no step calls it there are none.
pub fn the_notary_is_attended()
    ensures joined { (scheme : Scheme) (h : History) (n mid m : NotaryState) (xs ys : List Step)
        → Took scheme h n xs mid → Took scheme (after_steps scheme h xs) mid ys m
        → Took scheme h n (xs ++ ys) m }
    ensures counted { (scheme : Scheme) (h : History) (n m : NotaryState) (steps : List Step)
        → Took scheme h n steps m → m.faults ≡ counts_after steps n.faults }
    ensures uncalled { (scheme : Scheme) (h : History) (n m : NotaryState) (steps : List Step)
        → Took scheme h n steps m → NoneCall scheme h steps → m.faults ≡ n.faults }
    // How it makes its entries stays, and so it made each that it added.
    ensures origin { (scheme : Scheme) (h : History) (n m : NotaryState) (steps : List Step)
        → Took scheme h n steps m → m.origin ≡ n.origin }
    ensures made { (scheme : Scheme) (h : History) (n m : NotaryState) (steps : List Step)
        → Took scheme h n steps m → GoesOnMade n.origin.making n.entries m.entries }
{}

/// Whatever lines are run, the notary's list keeps the entry of each kept time journal, with its time and its salt: along
/// steps, at a block's end, where the list alone grows, for each history on the way from the first to the last, whose point may
/// be an earlier one, and for a beginning of a history with the same point.
pub fn a_run_keeps_its_pegs()
    ensures steps { (scheme : Scheme) (h : History) (n m : NotaryState) (steps : List Step) → 0 < size h
        → Took scheme h n steps m → Pegged h n.entries → Pegged (after_steps scheme h steps) m.entries }
    ensures windows { (scheme : Scheme) (h : History) (n m : NotaryState) (steps : List (List Step)) → 0 < size h
        → TookAll scheme h n steps m → Pegged h n.entries → Pegged (after scheme h steps) m.entries }
    ensures ended { (h : History) (es : List (List ℕ)) → 0 < size h → Pegged h es → Pegged (close h) es }
    ensures longer { (h : History) (es more : List (List ℕ)) → IsList (es ++ more) → Pegged h es
        → Pegged h (es ++ more) }
    ensures between { (scheme : Scheme) (h k : History) (n mid m : NotaryState)
        (windows : List (List Step)) (steps : List Step) (placed more : List Entry) → 0 < size h
        → TookAll scheme h n windows mid → Took scheme (after scheme h windows) mid steps m
        → Pegged h n.entries → journals k ≡ journals h ++ placed
        → journals (after_steps scheme (after scheme h windows) steps) ≡ journals k ++ more
        → Pegged k m.entries }
    ensures fewer { (k g : History) (more : List Entry) (es : List (List ℕ))
        → journals g ≡ journals k ++ more → 0 < size k → point g ≤ point k → Pegged g es → Pegged k es }
    ensures new { (genesis : Genesis) (es : List (List ℕ)) → IsList es → Pegged (new_ledger genesis) es }
{}

/// The bounds of a journal are the nearest kept time journals on its two sides, and each is missing exactly where none is
/// kept on that side.
pub fn the_bounds_are_nearest()
    ensures lower { (h : History) (n : ℕ) → IsLawful h → IsNearestBefore h n (lower_journal h n) }
    ensures upper { (h : History) (n : ℕ) → IsLawful h → IsNearestBehind h n (upper_journal h n) }
{}

/// What isn't refused is proved: each journal from the point on, each beginning of the ledger from the point on, and each
/// beginning of the notary's list. Where the notary is called it may fail instead.
pub fn what_is_kept_is_proved()
    ensures journals { (h : History) (step : Step) (n : ℕ) → point h ≤ n → n < size h → step.failed ≡ false
        → answer_to h step (jobs.Ask (queries.Prove n))
        ≡ answers.Reply (proof_reply (shown_of (close h) step.after n)) }
    ensures ledger { (h : History) (step : Step) (m : ℕ) → 0 < m → m ≤ size h → point h ≤ m
        → answer_to h step (jobs.Ask (queries.Extend Ledger m))
        ≡ answers.Reply (extension_reply Ledger m (size (close h))
        (root (close h) (size (close h))) (extension_in (close h) m)) }
    ensures notary { (h : History) (step : Step) (m : ℕ) → 0 < m → m ≤ length step.after
        → step.failed ≡ false
        → answer_to h step (jobs.Ask (queries.Extend Notary m))
        ≡ answers.Reply (extension_reply Notary m (length step.after)
        (mth sha256 step.after) (list_extension step.after m)) }
{}
