//! Bytes that are written over others, copied out, or brought up to date.

ghost use Rattle.std.specs.Prelude.{◌≡◌, ◌⊎◌, ◌+◌, ◌-◌, ◌<◌, ◌≤◌, ◌++◌, ℕ, get_or, length, min, take, drop};
ghost use Rattle.std.specs.Vec.{vec_capacity};
ghost use Rattle.ledger_disk.specs.Disk.{overlay, IsUntouched};

/// Puts a piece over what is there, and past the end, without taking memory.
pub fn overlay(file: &mut Vec<u8>, at: usize, piece: &[u8])
    requires within { at ≤ length file.old.items }
    requires room { at + length piece.now ≤ vec_capacity file.old }
    requires held { length file.old.items ≤ vec_capacity file.old }
    ensures items { file.new.items ≡ overlay at piece.now file.old.items }
    ensures capacity { vec_capacity file.old ≤ vec_capacity file.new }
{
    let inside = piece.len().min(file.len() - at);
    let Ok(()) = file.extend_from_slice(&piece[inside..]) else {
        unreachable!()
    };
    file[at..at + inside].copy_from_slice(&piece[..inside]);
}

/// Copies what stands from a place on, as much as fits, and answers how much that is.
pub fn copy_out(file: &[u8], at: u64, into: &mut [u8]) -> usize
    ensures count { result ≡ min (length into.old) (length file.now - at) }
    ensures bytes { into.new ≡ take result (drop at file.now) ++ drop result into.old }
{
    if at >= file.len() as u64 {
        return 0;
    }
    let rest = &file[at as usize..];
    let n = rest.len().min(into.len());
    into[..n].copy_from_slice(&rest[..n]);
    n
}

/// Brings the stable bytes up to date, where they differ only in these ranges and past their end. It copies the
/// bytes in these places and no others, and takes no memory.
pub fn settle(stable: &mut Vec<u8>, bytes: &[u8], ranges: &[(u64, u64)])
    requires room { length bytes.now ≤ vec_capacity stable.old }
    requires kept { (i : ℕ) → i < length bytes.now → i < length stable.old.items
        → IsUntouched i ranges.now → get_or bytes.now i 0 ≡ get_or stable.old.items i 0 }
    ensures items { stable.new.items ≡ bytes.now }
    ensures capacity { vec_capacity stable.old ≤ vec_capacity stable.new }
{
    level(stable, bytes);
    copy_ranges(stable.as_mut_slice(), bytes, ranges);
}

// Gives it the length of these bytes: it is cut, or goes on as they do.
fn level(stable: &mut Vec<u8>, bytes: &[u8])
    requires room { length bytes.now ≤ vec_capacity stable.old }
    ensures items { stable.new.items
        ≡ take (length bytes.now) stable.old.items ++ drop (length stable.old.items) bytes.now }
    ensures capacity { vec_capacity stable.old ≤ vec_capacity stable.new }
{
    stable.truncate(bytes.len());
    let Ok(()) = stable.extend_from_slice(&bytes[stable.len()..]) else {
        unreachable!()
    };
}

// Copies what stands in these ranges.
fn copy_ranges(stable: &mut [u8], bytes: &[u8], ranges: &[(u64, u64)])
    requires size { length stable.old ≡ length bytes.now }
    requires kept { (i : ℕ) → i < length bytes.now → IsUntouched i ranges.now
        → get_or stable.old i 0 ≡ get_or bytes.now i 0 }
    ensures { stable.new ≡ bytes.now }
{
    for range in ranges {
        copy_range(stable, bytes, *range);
    }
}

// Copies what stands in a range, of which a part may lie past the end.
fn copy_range(stable: &mut [u8], bytes: &[u8], range: (u64, u64))
    requires { length stable.old ≡ length bytes.now }
    ensures size { length stable.new ≡ length bytes.now }
    ensures inside { (i : ℕ) → range.0 ≤ i → i < range.0 + range.1
        → get_or stable.new i 0 ≡ get_or bytes.now i 0 }
    ensures outside { (i : ℕ) → (i < range.0) ⊎ (range.0 + range.1 ≤ i)
        → get_or stable.new i 0 ≡ get_or stable.old i 0 }
{
    let size = bytes.len() as u64;
    let begin = range.0.min(size);
    let end = begin + range.1.min(size - begin);
    let (begin, end) = (begin as usize, end as usize);
    stable[begin..end].copy_from_slice(&bytes[begin..end]);
}
