//! A list of journals' numbers, as a word of the command line gives it.

ghost use Rattle.std.specs.Prelude.{◌≡◌, ◌≤◌, ◌<◌, ◌+◌, ◌++◌, ◌∷◌, ◌⊎◌, ℕ, List, [], None, Some, true, false, length, option_map, IfSome};
ghost use Rattle.script_lines.specs.Parts.{parts};
ghost use Rattle.survivor_set.specs.Keeping.{AreAscending};
ghost use Rattle.ledger_cli.specs.Words.{any_number, is_ascending, numbers_of, numbers_told};

use arrayvec::ArrayVec;
use script_lines::read_number;

/// Reads 1 to 64 numbers in ascending order with commas between; None where the text is no such list.
pub(crate) fn read_numbers(text: &str) -> Option<ArrayVec<u64, 64>>
    ensures read { option_map (λ numbers. numbers.items) result ≡ numbers_of text.now }
    ensures some { IfSome result (λ numbers. 1 ≤ length numbers.items) }
    ensures few { IfSome result (λ numbers. length numbers.items ≤ 64) }
    ensures ascending { IfSome result (λ numbers. AreAscending numbers.items) }
{
    let mut numbers = ArrayVec::new();
    if !add_numbers(text, &mut numbers) {
        return None;
    }
    if is_ascending(numbers.as_slice()) {
        Some(numbers)
    } else {
        None
    }
}

// Appends the numbers that stand with commas between, and tells whether each is one and has room.
fn add_numbers(text: &str, numbers: &mut ArrayVec<u64, 64>) -> bool
    ensures yes { result ≡ true → (told : List ℕ) × (numbers_told text.now ≡ Some told)
        × (numbers.new.items ≡ numbers.old.items ++ told) }
    ensures no { result ≡ false → (numbers_told text.now ≡ None)
        ⊎ (64 < length numbers.old.items + length (parts 44 text.now)) }
{
    match text.split_once(',') {
        Some((first, rest)) => add_number(first, numbers) && add_numbers(rest, numbers),
        None => add_number(text, numbers),
    }
}

// Appends a number, and tells whether the text is one and there is room.
fn add_number(text: &str, numbers: &mut ArrayVec<u64, 64>) -> bool
    ensures yes { result ≡ true → (n : ℕ) × (any_number text.now ≡ Some n)
        × (numbers.new.items ≡ numbers.old.items ++ n ∷ []) }
    ensures no { result ≡ false → (any_number text.now ≡ None) ⊎ (length numbers.old.items ≡ 64) }
{
    match read_number(text.as_bytes(), u64::MAX) {
        Some(number) => numbers.try_push(number).is_ok(),
        None => false,
    }
}

// Whether each number is above the one in front of it.
fn is_ascending(numbers: &[u64]) -> bool
    ensures { result ≡ is_ascending numbers.now }
{
    match numbers {
        [first, second, ..] => first < second && is_ascending(&numbers[1..]),
        _ => true,
    }
}
