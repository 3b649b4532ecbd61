//! The bytes of a torn image.

ghost use Rattle.std.specs.Prelude.{◌≡◌, ◌<◌, ℕ, get_or, length, IfOk};
ghost use Rattle.ledger_disk.specs.Generator.{is_written, covers, is_kept, next_draw, drawn_byte, torn_byte};

use std::alloc::{AllocError, Global};

/// What a crash leaves where each byte that was written since the last sync is torn: the stable byte at each other
/// place below `size`, and else the generator's next byte.
pub fn torn_bytes(
    alloc: Global,
    stable: &[u8],
    ranges: &[(u64, u64)],
    size: u64,
    seed: u64,
) -> Result<Vec<u8>, AllocError>
    ensures size { IfOk result (λ image. length image.items ≡ size) }
    ensures torn { IfOk result (λ image. (i : ℕ) → i < size
        → get_or image.items i 0 ≡ torn_byte stable.now ranges.now seed i) }
{
    let mut image = Vec::new(alloc);
    let mut draw = seed;
    for at in 0..size {
        if is_kept(stable, ranges, at) {
            image.push(stable[at as usize])?;
        } else {
            draw = next_draw(draw);
            image.push(drawn_byte(draw))?;
        }
    }
    Ok(image)
}

// Whether a torn image has the stable byte at this place.
fn is_kept(stable: &[u8], ranges: &[(u64, u64)], at: u64) -> bool
    ensures { result ≡ is_kept stable.now ranges.now at }
{
    at < stable.len() as u64 && !is_written(ranges, at)
}

// Whether some range has this place.
fn is_written(ranges: &[(u64, u64)], at: u64) -> bool
    ensures { result ≡ is_written at ranges.now }
{
    let mut written = false;
    for range in ranges {
        written |= covers(*range, at);
    }
    written
}

// Whether a range has this place.
fn covers(range: (u64, u64), at: u64) -> bool
    ensures { result ≡ covers range at }
{
    range.0 <= at && at - range.0 < range.1
}

// The generator's next state: Knuth's linear congruential generator of 64 bits (MMIX).
fn next_draw(state: u64) -> u64
    ensures { result ≡ next_draw state }
{
    state
        .wrapping_mul(6364136223846793005)
        .wrapping_add(1442695040888963407)
}

// The byte that a state of the generator gives.
fn drawn_byte(state: u64) -> u8
    ensures { result ≡ drawn_byte state }
{
    ((state >> 33) % 256) as u8
}
