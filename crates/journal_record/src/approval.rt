//! A member's word for a journal, and the bytes that show who placed one.

ghost use Rattle.std.specs.Prelude.{◌≡◌, ◌<◌, ◌^◌, ◌++◌, length, All, IfOk};
ghost use Rattle.std.specs.Int.{w16, w32, to_be_bytes};
ghost use Rattle.journal_record.specs.Approval.{who_of};

use ledger_bytes::{Bytes, Digest, FieldWriter, NoMemory};
use std::alloc::Global;

/// The most bytes that show who placed a journal: those of 256 approvals, each with a proof of 4,096 bytes.
pub const WHO_LIMIT: u32 = 1_050_112;

/// A member's word for a journal: its number, and the proof that the member gave for what is asked. In the who bytes of a
/// journal it is the member's number in 4 bytes, the proof's length in 2 bytes, both unsigned and big-endian, and the proof.
#[derive(Debug, Drop)]
pub struct Approval {
    /// The member's number.
    pub member: u32,
    /// The key that the proof shows; `None` where it is the proof of no key.
    pub key: Option<Digest>,
    /// The proof as it came.
    pub proof: Bytes,
}

impl Approval {
    /// What stands in front of the proof in the who bytes: the member's number and the proof's length.
    pub fn front(&self) -> [u8; 6]
        requires { length self.now.proof < 2 ^ 16 }
        ensures { result ≡ to_be_bytes w32 self.now.member ++ to_be_bytes w16 (length self.now.proof) }
    {
        let mut front = [0; 6];
        let (member, len) = front.split_at_mut(4);
        member.copy_from_slice(&self.member.to_be_bytes());
        len.copy_from_slice(&(self.proof.as_slice().len() as u16).to_be_bytes());
        front
    }
}

/// The bytes that show who placed a journal: for each approval what [`Approval::front`] gives, and the proof.
pub fn who_bytes(alloc: Global, given: &[Approval]) -> Result<Bytes, NoMemory>
    requires { All (λ a. length a.proof < 2 ^ 16) given.now }
    ensures { IfOk result (λ who. who ≡ who_of given.now) }
{
    let mut out = FieldWriter::new(alloc);
    for approval in given {
        out.put_slice(&approval.front())?;
        out.put_slice(approval.proof.as_slice())?;
    }
    Ok(out.finish())
}
