//! The purge that made a dump's base, which is looked for among its journals.

ghost use Rattle.std.specs.Prelude.{◌≡◌, ◌||◌, false, IfOk, bytes_eq};
ghost use Rattle.sha2.specs.Sha256.{sha256};
ghost use Rattle.journal_record.specs.Items.{Item};
ghost use Rattle.pseudo_genesis.specs.Bases.{IsBase, HasWidths};
ghost use Rattle.pseudo_genesis.specs.declared.base.Base.{Base as BaseRecord};
ghost use Rattle.dump_model.specs.Checks.{digest_of_base, makes_base};
ghost use Rattle.audit_dump.specs.Notes.{IsOfBase};

use journal_record::{Header, Kind};
use ledger_bytes::{Digest, NoMemory, Sha};
use pseudo_genesis::{Base, base_digest};
use std::alloc::Global;

// What the purge says that made a base, and whether it was read.
#[derive(Clone, Copy, Debug, PartialEq, Eq)]
pub(crate) struct BasePurge {
    point: u64,
    digest: Digest,
    found: bool,
}

impl BasePurge {
    // The purge that made this base, which wasn't read yet. The base's bytes are made once more meanwhile, to be hashed.
    pub(crate) fn of(alloc: Global, base: &Base) -> Result<Self, NoMemory>
        requires rules { IsBase base.now }
        requires widths { HasWidths base.now }
        ensures base { IfOk result (IsOfBase base.now) }
        ensures found { IfOk result (λ purge. purge.found ≡ false) }
    {
        let bytes = base.encode(alloc)?;
        Ok(BasePurge {
            point: base.point,
            digest: base_digest::<Sha>(bytes.as_slice()),
            found: false,
        })
    }

    // Looks at the next journal.
    pub(crate) fn look(&mut self, header: &Header)
        ensures base { (base : BaseRecord) → IsOfBase base self.old → IsOfBase base self.new }
        ensures found { (base : BaseRecord) (item : Item) → IsOfBase base self.old → item.header ≡ header.now
            → self.new.found ≡ (self.old.found || makes_base sha256 base item) }
    {
        if self.is_made_by(header) {
            self.found = true;
        }
    }

    // Whether this is the header of that purge.
    fn is_made_by(&self, header: &Header) -> bool
        ensures { (base : BaseRecord) (item : Item) → IsOfBase base self.now → item.header ≡ header.now
            → result ≡ makes_base sha256 base item }
    {
        header.kind == Kind::Purge && header.a == self.point && header.link == self.digest
    }

    // Whether it was read.
    pub(crate) fn was_read(&self) -> bool
        ensures { result ≡ self.now.found }
    {
        self.found
    }
}
