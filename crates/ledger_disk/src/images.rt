//! Laws of the crash model, by which its definitions are compared with what they are to mean.

ghost use Rattle.std.specs.Prelude.{◌≡◌, ℕ, ◌+◌, ◌<◌, ◌≤◌, List, ◌∷◌, ◌++◌, length, take, drop};
ghost use Rattle.ledger_disk.specs.Disk.{State, MayLeave, settled_state, cut_to, MayHaveWritten, MayHaveCut};
ghost use Rattle.ledger_disk.specs.Guards.{Guards, Outside, Confined};

/// What a crash may leave of a disk where nothing was pending.
pub fn is_crash_model()
    // After a sync that succeeded the only image is what a read gives.
    ensures one { (file image : List ℕ) → MayLeave (settled_state file) image → image ≡ file }
    ensures seen { (file : List ℕ) → MayLeave (settled_state file) file }

    // After a cut an image is a front of it.
    ensures cut { (file image : List ℕ) (n : ℕ) → n ≤ length file
        → MayLeave (cut_to n (settled_state file)) image → image ≡ take (length image) file }

    // After one byte was written, whether that call failed or not, an image differs in that byte at most.
    ensures byte { (file image : List ℕ) (at : ℕ) (new : State) → at < length file
        → MayHaveWritten at 1 (settled_state file) new → MayLeave new image
        → (other : ℕ) × (image ≡ take at file ++ other ∷ drop (at + 1) file) }
{}

/// The bytes that a disk guards are the front of each image, for as long as every write and cut stays behind them.
pub fn is_guarding()
    ensures image { (s : State) (front image : List ℕ) → Guards s front → MayLeave s image
        → take (length front) image ≡ front }
    ensures settled { (file : List ℕ) (n : ℕ) → n ≤ length file
        → Guards (settled_state file) (take n file) }
    ensures written { (old new : State) (front : List ℕ) (at n : ℕ) → Guards old front
        → length front ≤ at → MayHaveWritten at n old new → Guards new front }
    ensures cut { (old new : State) (front : List ℕ) (n : ℕ) → Guards old front → length front ≤ n
        → MayHaveCut n old new → Guards new front }
{}

/// Where only n bytes of a settled file were written, each image is that file outside them.
pub fn is_confining()
    ensures image { (at n : ℕ) (file : List ℕ) (s : State) (image : List ℕ) → Confined at n file s
        → MayLeave s image → Outside at n file image }
    ensures settled { (at n : ℕ) (file : List ℕ) → Confined at n file (settled_state file) }
    ensures written { (at n b k : ℕ) (file : List ℕ) (old new : State) → Confined at n file old
        → at ≤ b → b + k ≤ at + n → at + n ≤ length file → MayHaveWritten b k old new
        → Confined at n file new }
{}
