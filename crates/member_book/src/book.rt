//! The members of a ledger with their numbers and keys, and how a further one is admitted.

ghost use Rattle.std.specs.Prelude.{◌≡◌, ◌<◌, ◌≤◌, ◌++◌, [], ◌∷◌, length, option_map, slice_get, Some, IfOk, OnOk, OnErr, IfErr, IfNone, ◌⊎◌};
ghost use Rattle.journal_record.specs.Members.{keys, founders, number_refusal};
ghost use Rattle.member_book.specs.Members.{count_below, refusal_of};
ghost use Rattle.member_book.specs.declared.book.AddErr.{AddErr};

use journal_record::Member;
use ledger_bytes::{Digest, MEMBER_LIMIT, NoMemory, Refusal};
use std::alloc::Global;
use std::marker::Model;
use thiserror::Error;

/// Why a member isn't admitted.
#[derive(Clone, Copy, Debug, PartialEq, Eq, Error)]
pub enum AddErr {
    #[error("there are 256 members")]
    MembersFull,
    /// The member's number isn't the next one.
    #[error("the next member's number is {next}")]
    MemberNumber { next: u32 },
    #[error("out of memory")]
    NoMemory,
}

impl From<NoMemory> for AddErr {
    ghost use Rattle.std.specs.Prelude.{◌≡◌};
    ghost use Rattle.member_book.specs.declared.book.AddErr.TheVariants as add_err;

    ghost from_gives = { λ _ e. e ≡ add_err.NoMemory };

    fn from(_: NoMemory) -> Self {
        AddErr::NoMemory
    }
}

/// The members of a ledger by their numbers: 0 is the operator, 1 the regulator. A contract sees their list.
#[derive(Debug, Drop)]
pub struct MemberBook {
    members: Vec<Member>,
}

impl Model for MemberBook {
    ghost use Rattle.std.specs.Prelude.{◌≤◌, List, vec_len};
    ghost use Rattle.ledger_bytes.specs.declared.limits.TheConstants.{MEMBER_LIMIT};
    ghost use Rattle.journal_record.specs.declared.member.Member.{Member};

    ghost Value = { List Member };

    ghost view = { λ b. b.members.items };

    ghost invariant = { λ b. (2 ≤ vec_len b.members) × (vec_len b.members ≤ MEMBER_LIMIT) };
}

impl MemberBook {
    /// The book of a new ledger.
    pub fn new(alloc: Global, operator: &Digest, regulator: &Digest) -> Result<Self, NoMemory>
        ensures { IfOk result (λ book. book ≡ founders operator.now regulator.now) }
    {
        let members = vec![in alloc;
            Member {
                key: *operator,
                jsn: 0
            },
            Member {
                key: *regulator,
                jsn: 0
            },
        ]?;
        Ok(MemberBook { members })
    }

    /// The key of the member with this number; `None` where there is no such member.
    pub fn key(&self, number: u32) -> Option<Digest>
        ensures { option_map (λ d. d.0) result ≡ slice_get (keys self.now) number }
    {
        let member = self.members.get(number as usize)?;
        Some(member.key)
    }

    /// How many members there are: at least operator and regulator, at most 256.
    pub fn count(&self) -> u32
        ensures count { result ≡ length self.now }
        ensures least { 2 ≤ result }
        ensures most { result ≤ MEMBER_LIMIT }
    {
        self.members.len() as u32
    }

    /// How many members there were when the first `p` journals had been placed: operator, regulator, and those whose
    /// journal's number is below `p`.
    pub fn count_at(&self, p: u64) -> u32
        ensures { result ≡ count_below p self.now }
    {
        let admitted = self.members.iter().skip(2);
        2 + admitted.filter(|member| member.jsn < p).count() as u32
    }

    /// Why a member with this number isn't admitted, where it isn't: there are as many members as there may be, or
    /// another number is next.
    pub fn number_refusal(&self, number: u32) -> Option<Refusal>
        ensures refusal { result ≡ number_refusal self.now number }
        ensures room { IfNone result (length self.now < MEMBER_LIMIT) }
        ensures some { 2 ≤ length self.now }
    {
        let next = self.count();
        if next >= MEMBER_LIMIT {
            Some(Refusal::MembersFull)
        } else if number != next {
            Some(Refusal::MemberNumber { next })
        } else {
            None
        }
    }

    /// Admits the next member. After an `Err` the members are as before.
    pub fn admit(&mut self, key: &Digest, jsn: u64) -> Result<(), NoMemory>
        requires { length self.old < MEMBER_LIMIT }
        ensures ok { OnOk result (self.new ≡ self.old ++ record { key = key.now; jsn = jsn } ∷ []) }
        ensures err { OnErr result (self.new ≡ self.old) }
    {
        self.members.push(Member { key: *key, jsn })?;
        Ok(())
    }

    /// Admits a member with this number, where it is the next one. After an `Err` the members are as before.
    pub fn add(&mut self, number: u32, key: &Digest, jsn: u64) -> Result<(), AddErr>
        ensures ok { OnOk result ((number_refusal self.old number ≡ None)
            × (self.new ≡ self.old ++ record { key = key.now; jsn = jsn } ∷ [])) }
        ensures err { OnErr result (self.new ≡ self.old) }
        ensures cause { IfErr result (λ e. (e ≡ AddErr.NoMemory)
            ⊎ (number_refusal self.old number ≡ refusal_of e)) }
    {
        match self.number_refusal(number) {
            Some(Refusal::MemberNumber { next }) => Err(AddErr::MemberNumber { next }),
            Some(_) => Err(AddErr::MembersFull),
            None => Ok(self.admit(key, jsn)?),
        }
    }
}
