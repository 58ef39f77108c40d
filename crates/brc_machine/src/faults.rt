//! The counts of faults: of calls of the host, and of closes of resources.

ghost use Rattle.std.specs.Prelude.{◌≡◌, if◌then◌else◌};
ghost use Rattle.brc_model.specs.StepMachine.{counted, closes};

use brc_model::{Duty, Exit};

/// How often the host has faulted. A count stops at the greatest number.
#[derive(Clone, Copy, Debug)]
pub struct Faults {
    /// The number of host calls that have faulted.
    pub calls: u64,
    /// The number of closes that have faulted.
    pub closes: u64,
}

impl Faults {
    /// Counts how a host call ended.
    #[inline(always)]
    pub fn count_call(&mut self, exit: Exit)
        ensures { self.new ≡ record self.old { calls = counted exit self.old.calls } }
    {
        self.calls = counted(exit, self.calls);
    }

    /// Counts how the step that did the duty ended: only a close may fault. The resource is closed all the same, and
    /// the host isn't asked again (`close_again`). (Linux, close(2): after an error the descriptor is closed all
    /// the same.)
    #[inline(always)]
    pub fn count_duty(&mut self, duty: &Duty, exit: Exit)
        ensures { self.new ≡ record self.old {
          closes = if closes duty.now then counted exit self.old.closes else self.old.closes;
        } }
    {
        if let Duty::CloseResource { .. } = duty {
            self.closes = counted(exit, self.closes);
        }
    }
}

/// Returns the count after a host call or a close that ended by the exit (`fault_uncounted`).
fn counted(exit: Exit, count: u64) -> u64
    ensures { result ≡ counted exit count }
{
    match exit {
        Exit::Success => count,
        Exit::Fault => count.saturating_add(1),
    }
}
