ghost use Rattle.std.specs.Prelude.{◌≡◌, is_err};

use crate::host::Fault;

/// What a host counts. Each count stops at the greatest number.
#[derive(Clone, Copy)]
pub struct HostCounts {
    /// The calls that have failed.
    pub failures: u64,
    /// The files and connections that were opened.
    pub opened: u64,
    /// The calls of `close`, those that failed too.
    pub closed: u64,
}

impl HostCounts {
    ghost use Rattle.brc_host.specs.HostCounts.{after_close, after_opening, after_use, no_counts};

    /// Returns the counts of a host that hasn't been called.
    pub const fn new() -> HostCounts
        ensures { result ≡ no_counts }
    {
        HostCounts {
            failures: 0,
            opened: 0,
            closed: 0,
        }
    }

    /// Counts how a call ended that opens a file or connects to a peer (`fault_uncounted`).
    pub fn count_opening<T>(&mut self, answer: &Result<T, Fault>)
        ensures { self.new ≡ after_opening (is_err answer.now) self.old }
    {
        match answer {
            Ok(_) => self.opened = self.opened.saturating_add(1),
            Err(_) => self.failures = self.failures.saturating_add(1),
        }
    }

    /// Counts how a call ended that reads or writes (`count_wraps`).
    pub fn count_use<T>(&mut self, answer: &Result<T, Fault>)
        ensures { self.new ≡ after_use (is_err answer.now) self.old }
    {
        if answer.is_err() {
            self.failures = self.failures.saturating_add(1);
        }
    }

    /// Counts how a close ended. One that failed is a close too, since nobody can make it again
    /// (`failed_close_uncounted`).
    pub fn count_close(&mut self, answer: &Result<(), Fault>)
        ensures { self.new ≡ after_close (is_err answer.now) self.old }
    {
        self.count_use(answer);
        self.closed = self.closed.saturating_add(1);
    }
}
