//! How far the chains of a message's signature go (the base-w digits and the checksum of RFC 8391, section 3.1.5, for w = 16).

ghost use Rattle.std.specs.Prelude.{◌≡◌, ◌≢◌, ℕ, ◌<◌, ◌≤◌, List, length, get_or, All};
ghost use Rattle.ledger_bytes.specs.Fields.{IsBytes};
ghost use Rattle.chain_sign.specs.Digits.{digits as digits_of};

use ledger_bytes::Digest;

/// How far each of the 67 chains of a signature of a message has gone: the message's 64 hexadecimal digits, the high one
/// of each byte first, and then the three of the sum of what each of them lacks of fifteen.
pub fn digits(message: &Digest) -> [u8; 67]
    ensures digits { result ≡ digits_of message.now.0 }
    ensures small { All (λ d. d ≤ 15) result }

    // Of two messages each has a digit that is smaller than the other's.
    ensures smaller { (other : List ℕ) → length other ≡ 32 → IsBytes other → message.now.0 ≢ other
        → (c : ℕ) × (c < 67) × (get_or (digits_of other) c 0 < get_or result c 0) }
{
    let mut digits = [0; 67];
    let mut lack: u16 = 0;
    for (i, byte) in message.0.iter().enumerate() {
        let high = *byte / 16;
        let low = *byte % 16;
        digits[2 * i] = high;
        digits[2 * i + 1] = low;
        lack += (30 - high - low) as u16;
    }
    digits[64] = (lack / 256) as u8;
    digits[65] = (lack / 16 % 16) as u8;
    digits[66] = (lack % 16) as u8;
    digits
}
