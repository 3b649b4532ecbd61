//! The index of a ledger's time journals, in which the bounds of a journal are found.

ghost use Rattle.std.specs.Prelude.{◌≡◌, ◌<◌, [], ◌∷◌, ◌++◌, OnOk, OnErr};
ghost use Rattle.std.specs.List.{AllByRecursion};
ghost use Rattle.time_peg.specs.Times.{lower_bound, upper_bound, marks_from, Rises};

use crate::TimeMark;
use ledger_bytes::NoMemory;
use std::alloc::Global;
use std::marker::Model;

/// The time journals that a ledger keeps, in the order of their numbers. A contract sees them as a list.
#[derive(Debug, Drop)]
pub struct TimeIndex {
    marks: Vec<TimeMark>,
}

impl Model for TimeIndex {
    ghost use Rattle.std.specs.Prelude.{List};
    ghost use Rattle.time_peg.specs.Times.{Rises};
    ghost use Rattle.ledger_bytes.specs.declared.mark.TimeMark.{TimeMark};

    ghost Value = { List TimeMark };

    ghost view = { λ t. t.marks.items };

    ghost invariant = { λ t. Rises t.marks.items };
}

impl TimeIndex {
    /// The index of a ledger without a time journal.
    pub fn new(alloc: Global) -> Self
        ensures { result ≡ [] }
    {
        TimeIndex {
            marks: Vec::new(alloc),
        }
    }

    /// Adds a time journal behind all that are kept.
    pub fn add(&mut self, mark: TimeMark) -> Result<(), NoMemory>
        requires { AllByRecursion (λ m. m.jsn < mark.jsn) self.old }
        ensures ok { OnOk result (self.new ≡ self.old ++ mark ∷ []) }
        ensures err { OnErr result (self.new ≡ self.old) }
    {
        Ok(self.marks.push(mark)?)
    }

    /// The bounds of journal n in time: the last time journal in front of it, and the first behind it. A time journal is
    /// no bound of itself. They are found by a search.
    pub fn bounds_of(&self, n: u64) -> (Option<TimeMark>, Option<TimeMark>)
        ensures lower { result.0 ≡ lower_bound n self.now }
        ensures upper { result.1 ≡ upper_bound n self.now }
        // The numbers rise, so that these are the nearest.
        ensures rises { Rises self.now }
    {
        (self.before(n), self.behind(n))
    }

    /// Keeps the time journals from journal p on.
    pub fn drop_below(&mut self, p: u64)
        ensures { self.new ≡ marks_from p self.old }
    {
        self.marks.retain(|m| p <= m.jsn);
    }

    fn before(&self, n: u64) -> Option<TimeMark>
        ensures mark { result ≡ lower_bound n self.now }
        ensures rises { Rises self.now }
    {
        let end = self.marks.partition_point(|m| m.jsn < n);
        self.marks.as_slice()[..end].last().copied()
    }

    fn behind(&self, n: u64) -> Option<TimeMark>
        ensures { result ≡ upper_bound n self.now }
    {
        let first = self.marks.partition_point(|m| m.jsn <= n);
        self.marks.as_slice()[first..].first().copied()
    }
}
