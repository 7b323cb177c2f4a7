//! How many cases there were, and how many of them differ.

ghost use Rattle.std.specs.Prelude.{◌≡◌, ◌+◌, ◌-◌, ◌^◌, ◌<◌, ◌↔◌, min, IsTrue};
ghost use Rattle.std.specs.Bool.{OnTrue, OnFalse};
ghost use Rattle.hem_cli.specs.Code.{code_of};

use crate::ask::Given;
use crate::table::Case;
use std::io;

/// How many cases were asked for, and of how many the answer isn't the one that is wanted.
#[derive(Clone, Copy, Debug, PartialEq, Eq)]
pub(crate) struct Tally {
    pub(crate) cases: u64,
    pub(crate) differ: u64,
}

impl Tally {
    /// Nothing was asked for so far.
    pub(crate) fn new() -> Self
        ensures { (result.cases ≡ 0) × (result.differ ≡ 0) }
    {
        Tally {
            cases: 0,
            differ: 0,
        }
    }

    /// Counts a case with what was answered to it, and tells whether that is wanted: the same status and the same text, whole.
    /// Past the last number a count stays there.
    pub(crate) fn weigh(&mut self, case: &Case<'_>, given: &Given) -> bool
        ensures wanted { IsTrue result ↔ (code_of given.now.status ≡ case.now.status) × (given.now.sink.bytes ≡ case.now.text.items) }
        ensures cases { self.new.cases ≡ min (self.old.cases + 1) (2 ^ 64 - 1) }
        ensures same { OnTrue result (self.new.differ ≡ self.old.differ) }
        ensures differ { OnFalse result (self.new.differ ≡ min (self.old.differ + 1) (2 ^ 64 - 1)) }
    {
        let is_wanted = given.is_wanted(case);
        self.cases = self.cases.saturating_add(1);
        if !is_wanted {
            self.differ = self.differ.saturating_add(1);
        }
        is_wanted
    }

    /// The number that the process ends with: 0 where a case was read and none differs, 1 where one differs, 2 where there
    /// was none.
    pub(crate) fn code(self) -> u8
        ensures same { (result ≡ 0) ↔ (0 < self.cases) × (self.differ ≡ 0) }
        ensures differ { (result ≡ 1) ↔ 0 < self.differ }
    {
        match self {
            Tally { differ: 1.., .. } => 1,
            Tally { cases: 1.., .. } => 0,
            _ => 2,
        }
    }

    /// Prints both numbers.
    pub(crate) fn tell(self, rt: &impl Print) -> io::Result<()> {
        let Tally { cases, differ } = self;
        println!(rt; "{cases} cases, {differ} differ")
    }
}
