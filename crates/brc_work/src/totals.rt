//! What a worker counts.

ghost use Rattle.std.specs.Prelude.{◌≡◌};
ghost use Rattle.brc_host.specs.HostCounts.{raised};
ghost use Rattle.brc_work.specs.Totals.{no_totals};

/// What a worker has counted of its calls. The counts of faults stop at the greatest number.
#[derive(Clone, Copy, Debug)]
pub struct Totals {
    /// The objects that it has given birth to.
    pub created: u32,
    /// The calls of `open`, `connect`, `read` and `write` that have failed.
    pub host_faults: u64,
    /// The calls of `close` that have failed.
    pub close_faults: u64,
}

impl Totals {
    /// Returns the totals of a worker that has made no call yet.
    pub(crate) fn new() -> Totals
        ensures { result ≡ no_totals }
    {
        Totals {
            created: 0,
            host_faults: 0,
            close_faults: 0,
        }
    }

    /// Counts a call of the host that has failed.
    pub(crate) fn count_host_fault(&mut self)
        ensures { self.new ≡ record self.old { host_faults = raised 1 self.old.host_faults } }
    {
        self.host_faults = self.host_faults.saturating_add(1);
    }

    /// Counts closes that have failed.
    pub(crate) fn count_close_faults(&mut self, failed: u64)
        ensures { self.new ≡ record self.old { close_faults = raised failed self.old.close_faults } }
    {
        self.close_faults = self.close_faults.saturating_add(failed);
    }
}
