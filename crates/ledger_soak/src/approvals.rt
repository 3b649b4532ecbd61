//! The keys of a soak's members, and their proofs.

ghost use Rattle.std.specs.Prelude.{◌≡◌, ◌++◌, ◌<◌, OnOk};
ghost use Rattle.ledger_soak.specs.Lines.{key_of, proof_by, given_text};

use ledger_bytes::{Digest, NoMemory};
use member_book::tag_proof;
use script_lines::put_number;

/// The operator, who is member 0.
pub(crate) const OPERATOR: u8 = 0;

/// The regulator, who is member 1.
pub(crate) const REGULATOR: u8 = 1;

/// The members of a soak's ledger beside these two.
pub(crate) const MEMBERS: [u8; 3] = [2, 3, 4];

/// The key of a member: a byte more than the member's number, 32 times.
pub(crate) fn key_of(member: u8) -> Digest
    requires { member < 255 }
    ensures { result ≡ key_of member }
{
    Digest([member + 1; 32])
}

/// The member's proof of a message.
pub(crate) fn proof_by(member: u8, message: &Digest) -> [u8; 64]
    requires { member < 255 }
    ensures { result ≡ proof_by member message.now.0 }
{
    tag_proof(&key_of(member), message)
}

/// Appends the member's approval of a message, as `MEMBER:PROOF`.
pub(crate) fn put_approval(out: &mut Vec<u8>, member: u8, message: &Digest) -> Result<(), NoMemory>
    requires { member < 255 }
    ensures { OnOk result (out.new.items ≡ out.old.items ++ given_text member message.now.0) }
{
    put_number(out, u64::from(member))?;
    out.push(b':')?;
    let mut digits = [0; 128];
    hex::encode_to_slice(proof_by(member, message), &mut digits).unwrap();
    Ok(out.extend_from_slice(&digits)?)
}
