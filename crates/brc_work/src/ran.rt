//! How a worker's run has ended.

ghost use Rattle.std.specs.Prelude.{◌≡◌};
ghost use Rattle.brc_work.specs.Totals.{totals_of, with_totals, is_done};

use crate::totals::Totals;

/// How a worker's run has ended, with what the worker has counted.
#[derive(Clone, Copy)]
pub enum Ran {
    /// The worker has made all its calls.
    Done(Totals),
    /// The worker has begun as many instructions as it may, with an instruction or a call left to begin. It has given
    /// up what it held.
    Stopped(Totals),
}

impl Ran {
    /// Returns what the worker has counted.
    pub fn totals(self) -> Totals
        ensures { result ≡ totals_of self }
    {
        match self {
            Ran::Done(totals) | Ran::Stopped(totals) => totals,
        }
    }

    /// Returns whether the worker has made all its calls.
    pub fn is_done(self) -> bool
        ensures { result ≡ is_done self }
    {
        matches!(self, Ran::Done(_))
    }

    /// Returns the same end with these totals.
    pub(crate) fn with_totals(self, totals: Totals) -> Ran
        ensures { result ≡ with_totals totals self }
    {
        match self {
            Ran::Done(_) => Ran::Done(totals),
            Ran::Stopped(_) => Ran::Stopped(totals),
        }
    }
}
