//! What a search asks of a machine.

ghost use Rattle.std.specs.Prelude.{◌≡◌};
ghost use Rattle.brc_plain.specs.Gone.{is_gone_at};
ghost use Rattle.brc_plain.specs.Plains.{machine_in};

use crate::act::Act;
use crate::plain::{Plain, numbered};
use crate::refused::Refused;
use brc_machine::threads::has_gone;
use brc_model::{Choice, Duty};
use std::alloc::Global;

impl Plain<'_> {
    /// Returns whether the thread is gone. One that isn't there is.
    #[tactic(auto, using(crate::proofs::Threads::get_in))]
    pub fn is_gone(&self, number: usize) -> bool
        ensures { result ≡ is_gone_at (machine_in self.now) number }
    {
        match self.threads.get(number) {
            Some(thread) => has_gone(thread.status),
            None => true,
        }
    }

    /// Returns whether the thread's next step asks the host, which may fault: whether it is a host call or a close.
    pub fn asks_host(&self, alloc: Global, number: usize) -> Result<bool, Refused> {
        let Some(thread) = self.threads.get(number) else {
            return Ok(false);
        };
        let act = self.act(alloc, numbered(number)?, thread, Choice::Ok)?;
        Ok(calls_host(&act))
    }
}

/// Returns whether the act is a host call or a close.
fn calls_host(act: &Act) -> bool {
    match act {
        Act::Calls { .. } => true,
        Act::Does { duty, .. } => matches!(duty, Duty::CloseResource { .. }),
        Act::Skip | Act::Stuck | Act::Silent { .. } => false,
    }
}
