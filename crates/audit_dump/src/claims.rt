//! What the time journals of a dump claim of the notary's list, and how the entries of that list meet it as they are read.

ghost use Rattle.std.specs.Prelude.{◌≡◌, ◌∷◌, ◌++◌, [], ℕ, List, length, min, MatchOption, OnOk, OnErr};
ghost use Rattle.std.specs.List.Sorted.{IsPermutation};
ghost use Rattle.audit_dump.specs.Claims.{HaveMet, IsLeastUnmet, claim_by};
ghost use Rattle.audit_dump.specs.declared.claims.Claim.{Claim as ClaimRecord};

use journal_record::Header;
use ledger_bytes::{Digest, NoMemory, Sha};
use std::alloc::Global;
use std::marker::Model;
use time_peg::{ENTRY_LEN, entry_bytes, peg_of};

// That the notary's entry with this index is this one, as the time journal with this number says.
#[derive(Clone, Copy, Debug)]
pub(crate) struct Claim {
    index: u64,
    number: u64,
    entry: [u8; ENTRY_LEN],
}

// What the time journals of a dump claim of the notary's list: 88 bytes for each of them. A contract sees the claims as a list.
#[derive(Debug, Drop)]
pub(crate) struct Claims {
    list: Vec<Claim>,
}

impl Model for Claims {
    ghost use Rattle.std.specs.Prelude.{List};
    ghost use Rattle.audit_dump.specs.declared.claims.Claim.{Claim};

    ghost Value = { List Claim };

    ghost view = { λ c. c.list.items };
}

impl Claims {
    // No claim.
    pub(crate) fn new(alloc: Global) -> Self
        ensures { result ≡ [] }
    {
        Claims {
            list: Vec::new(alloc),
        }
    }

    // Adds what a time journal of the ledger with this id claims, where `root` is the root over all journals in front of it. It
    // hashes once.
    pub(crate) fn add(
        &mut self,
        id: &Digest,
        root: &Digest,
        journal: &Header,
    ) -> Result<(), NoMemory>
        ensures ok { OnOk result (self.new ≡ self.old
            ++ claim_by id.now.0 root.now.0 journal.now ∷ []) }
        ensures err { OnErr result (self.new ≡ self.old) }
    {
        let peg = peg_of::<Sha>(id, journal.jsn, root);
        Ok(
            self.list.push(Claim {
                index: journal.a,
                number: journal.jsn,
                entry: entry_bytes(journal.b, &peg, &journal.link),
            })?,
        )
    }

    // How many claims there are.
    pub(crate) fn count(&self) -> u64
        ensures { result ≡ length self.now }
    {
        self.list.len() as u64
    }

    // Sorts the claims by their index, to be met by the entries from the first on.
    pub(crate) fn meeting(&mut self) -> Meeting<'_>
        ensures { HaveMet self.old [] result }
    {
        self.list.sort_unstable_by_key(|claim| claim.index);
        Meeting {
            rest: self.list.as_slice(),
            least: None,
        }
    }
}

// Claims that are met by the entries as these come: those that no entry so far decided, by rising index, and the least number of
// the others that isn't met.
#[derive(Drop)]
pub(crate) struct Meeting<'a> {
    rest: &'a [Claim],
    least: Option<u64>,
}

impl<'a> Meeting<'a> {
    // Holds the next entry, which has this index, against the claims that name it. Each claim is looked at once.
    pub(crate) fn meet(&mut self, index: u64, entry: &[u8; ENTRY_LEN])
        ensures { (claims : List ClaimRecord) (es : List (List ℕ)) → index ≡ length es
            → HaveMet claims es self.old → HaveMet claims (es ++ entry.now ∷ []) self.new }
    {
        while let Some((claim, rest)) = self.rest.split_first()
            && claim.index == index
        {
            if claim.entry != *entry {
                self.least = Some(least_with(self.least, claim.number));
            }
            self.rest = rest;
        }
    }

    // The least number of a claim that the entries so far don't meet.
    pub(crate) fn least_unmet(&self) -> Option<u64>
        ensures { (claims : List ClaimRecord) (es : List (List ℕ)) → HaveMet claims es self.now
            → IsLeastUnmet claims es result }
    {
        let mut least = self.least;
        for claim in self.rest {
            least = Some(least_with(least, claim.number));
        }
        least
    }
}

// The least of some numbers, of which the least so far is given, and one more.
fn least_with(least: Option<u64>, number: u64) -> u64
    ensures { MatchOption least (result ≡ number) (λ so_far. result ≡ min so_far number) }
{
    match least {
        Some(so_far) => so_far.min(number),
        None => number,
    }
}
