//! Laws of lines and replies as text: what is said is read back, and a written line is that of a reply.

ghost use Rattle.std.specs.Prelude.{◌≡◌, ◌⊎◌, ℕ, ◌^◌, ◌<◌, ◌≤◌, ◌==◌, List, [], ◌∷◌, ◌++◌, Some, Ok, decimal, true, not};
ghost use Rattle.std.specs.List.{list_all};
ghost use Rattle.ledger_bytes.specs.declared.digest.Digest.{Digest as AnyDigest};
ghost use Rattle.script_lines.specs.Grammar.{spoken_line};
ghost use Rattle.script_lines.specs.Receipts.{whole_lines, IsAmong, IsLineOf, IsReceipted, Told, told_text};
ghost use Rattle.script_lines.specs.Sayings.{line_text, IsSayable};
ghost use Rattle.script_lines.specs.Spellings.{number_of};
ghost use Rattle.script_lines.specs.declared.line.Line.{Line as AnyLine};

/// A number in a line is that number's decimal digits, and the decimal digits of each number up to the limit are
/// read as it.
pub fn numbers_are_decimal()
    ensures spelled { (most n : ℕ) (text : List ℕ) → most < 2 ^ 64 → number_of most text ≡ Some n
        → text ≡ decimal n }
    ensures read { (most n : ℕ) → most < 2 ^ 64 → n ≤ most → number_of most (decimal n) ≡ Some n }
{}

/// What a line can say is read from its text: with its numbers in decimal digits, its bytes and keys as lower-case
/// hexadecimal digits, `-` for no bytes and for no clue, and one space between.
pub fn lines_are_read_back()
    ensures { (line : AnyLine) → IsSayable line → spoken_line (line_text line) ≡ (0, Ok line) }
{}

/// A line that doesn't begin with a digit, as the last line of a run that failed, is no receipt.
pub fn other_lines_are_no_receipts()
    ensures { (first : ℕ) (text : List ℕ) (jsn : ℕ) (leaf : AnyDigest) → 57 < first
        → list_all (λ byte. not (byte == 10)) (first ∷ text) ≡ true
        → IsReceipted (first ∷ text ++ 10 ∷ []) jsn leaf → ⊥ }
{}

/// Where what was written begins the lines of replies and a tail behind them, each whole line of it is that of one of these
/// replies, or one of the tail.
pub fn a_written_line_is_a_reply()
    ensures { (replies : List Told) (tail part rest line : List ℕ) → part ++ rest ≡ told_text replies ++ tail
        → IsAmong (whole_lines part) line → IsLineOf replies line ⊎ IsAmong (whole_lines tail) line }
{}
