//! How much a part of a ledger or of a script may hold. `docs/FORMATS.md` says where each limit is met.

/// The most journals of a block.
pub const BLOCK_LIMIT: u64 = 64;

/// The most members, the operator and the regulator among them. Their numbers are those below it.
pub const MEMBER_LIMIT: u32 = 256;

/// The most approvals in one line.
pub const APPROVAL_LIMIT: usize = 256;

/// The most bytes of a content.
pub const CONTENT_LIMIT: u32 = 1_048_576;

/// The most bytes of a proof.
pub const PROOF_LIMIT: usize = 4_096;

/// The most bytes of a name, be it a ledger's or a clue's.
pub const NAME_LIMIT: usize = 64;

/// How many lines of a script are a whole window.
pub const WINDOW_LINES: u64 = 4_096;

/// How many bytes in lines of a script are a whole window, their newlines not counted.
pub const WINDOW_BYTES: u64 = 16_777_216;
