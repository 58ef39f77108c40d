//! The tally of the machine.

ghost use Rattle.std.specs.Prelude.{◌≡◌, count_by, map, not, IfOk};
ghost use Rattle.brc_model.specs.Safety.{has_gone};
ghost use Rattle.brc_machine.specs.MachineTallies.{is_left, left_object, machine_tally, objects_left};
ghost use Rattle.brc_plain.specs.Plains.{machine_in};

use crate::bag::is_among;
use crate::plain::Plain;
use crate::refused::Refused;
use crate::thread::Thread;
use brc_effect::rows::row_count;
use brc_lang::{Kind, Sequence};
use brc_machine::threads::has_gone;
use brc_report::{Left, Tally};
use std::alloc::Global;

/// Returns the number of threads that aren't gone.
fn running_in(threads: &[Thread]) -> usize
    ensures { result ≡ count_by (λ thread. not (has_gone thread.status)) threads.now }
{
    let mut running = 0;
    for thread in threads {
        if !has_gone(thread.status) {
            running += 1;
        }
    }
    running
}

impl Plain<'_> {
    /// Returns the tally of the machine: how many threads run, how many objects were created and closed, and which are
    /// left.
    pub fn tally(&self, alloc: Global) -> Result<Tally, Refused>
        ensures { IfOk result (λ tally. tally ≡ machine_tally (machine_in self.now)) }
    {
        let created = self.bag.born.len() as u64;
        let closed = self.bag.closed.len() as u64;
        Ok(Tally {
            threads: (self.threads.len() as u64).saturating_sub(1),
            running: running_in(self.threads.as_slice()) as u64,
            created,
            closed,
            alive: created.saturating_sub(closed),
            host_faults: self.faults.calls,
            close_faults: self.faults.closes,
            left: self.left(alloc)?,
        })
    }

    /// Returns the objects that are born and not closed, in rising order of their rows.
    fn left(&self, alloc: Global) -> Result<Sequence<Left>, Refused>
        ensures { IfOk result (λ left. left ≡ map (left_object (machine_in self.now).abstract)
            (objects_left (machine_in self.now))) }
    {
        let mut left = Sequence::new(alloc);
        for row in 1..row_count(self.blocks.layout()) as u32 {
            if self.is_left(row) {
                left.push(Left {
                    row,
                    kind: self.kind_of(row),
                })?;
            }
        }
        Ok(left)
    }

    /// Returns the kind of the row's object.
    pub fn kind_of(&self, row: u32) -> Kind
        ensures { result ≡ (machine_in self.now).abstract.kinds row }
    {
        match self.bag.kinds.get(row as usize) {
            Some(kind) => *kind,
            None => Kind::Any,
        }
    }

    /// Returns whether the row's object is born and not closed.
    fn is_left(&self, row: u32) -> bool
        ensures { result ≡ is_left (machine_in self.now).abstract row }
    {
        is_among(row, self.bag.born.as_slice()) && !is_among(row, self.bag.closed.as_slice())
    }
}
