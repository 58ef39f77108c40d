//! The plain machine.

ghost use Rattle.std.specs.Prelude.{◌≡◌, ◌<◌, ◌≤◌, ◌↔◌, true, length, IfOk, IfSome};
ghost use Rattle.std.specs.List.{find};
ghost use Rattle.brc_lang.specs.Grammar.{IsModule};
ghost use Rattle.brc_model.specs.Limits.{row_limit};
ghost use Rattle.brc_model.specs.Safety.{AllGone, AreCalls};
ghost use Rattle.brc_model.specs.StepMachine.{counting};
ghost use Rattle.brc_plain.specs.Plains.{machine_in};
ghost use Rattle.brc_plain.specs.Begun.{begun};
ghost use Rattle.brc_plain.specs.Lost.{IsLost, is_lost};

use crate::bag::Bag;
use crate::first::{first_bag, first_lives, first_threads};
use crate::key::{Key, key_of};
use crate::lives::{Life, number_of};
use crate::refused::Refused;
use crate::thread::Thread;
use brc_effect::{Blocks, layout_of};
use brc_lang::Module;
use brc_machine::threads::has_gone;
use brc_machine::{Faults, Memory, first_memory};
use brc_model::{Call, MOST_WORKERS};
use std::alloc::Global;

mod acting;
mod bad_events;
mod complaint;
mod looking;
mod sight;
mod stepping;
mod tally;
mod touching;

/// The model's step machine of a module, as a value that code can copy and step. Nothing is known of it but what its
/// steps are: the module need not be one that the checker accepts.
#[derive(Drop)]
pub struct Plain<'a> {
    module: &'a Module,
    blocks: Blocks,
    memory: Memory,
    /// By thread number: main is 0, the workers are 1, 2, ..
    threads: Vec<Thread>,
    bag: Bag,
    /// The life of each row's object.
    lives: Vec<Life>,
    faults: Faults,
}

/// A bound of the rows of a machine.
pub(crate) const MOST_ROWS: usize = 1 << 20;

/// Returns the number in the machine's own type.
pub(crate) fn numbered(number: usize) -> Result<u8, Refused>
    ensures { IfOk result (λ own. (own ≡ number) × (own ≤ 32)) }
{
    if number > usize::from(MOST_WORKERS) {
        return Err(Refused::OutOfBounds);
    }
    Ok(number as u8)
}

impl<'a> Plain<'a> {
    /// Returns the machine of the module before any step, with main and one worker for each of the 1 to 32 calls. Each
    /// worker has `rows` rows of its own, 1 to 1024.
    pub fn first(
        alloc: Global,
        module: &'a Module,
        rows: u16,
        calls: &[Call],
    ) -> Result<Plain<'a>, Refused>
        requires fits { IsModule «module».now }
        requires some_rows { 0 < rows }
        requires most_rows { rows ≤ row_limit }
        requires calls_fit { AreCalls «module».now calls.now }
        ensures { IfOk result (λ plain. machine_in plain ≡ begun «module».now rows calls.now) }
    {
        let workers = calls.len() as u8;
        let layout = layout_of(module, workers, rows);
        let statics = module.statics.as_slice();
        Ok(Plain {
            module,
            blocks: Blocks::new(layout),
            memory: first_memory(alloc, layout, statics)?,
            threads: first_threads(alloc, layout, calls)?,
            bag: first_bag(alloc, layout, 1 + workers, statics)?,
            lives: first_lives(alloc, layout)?,
            faults: Faults {
                calls: 0,
                closes: 0,
            },
        })
    }

    /// Returns a copy.
    pub fn copy(&self, alloc: Global) -> Result<Plain<'a>, Refused>
        ensures { IfOk result (λ copy. machine_in copy ≡ machine_in self.now) }
    {
        let mut threads = Vec::with_capacity(alloc, self.threads.len())?;
        for thread in self.threads.as_slice() {
            threads.push(thread.copy(alloc)?)?;
        }
        Ok(Plain {
            module: self.module,
            blocks: self.blocks,
            memory: self.memory.copy(alloc)?,
            threads,
            bag: self.bag.copy(alloc)?,
            lives: Vec::from_slice(alloc, self.lives.as_slice())?,
            faults: self.faults,
        })
    }

    /// Returns the key of the machine. The order of the references and the counts of faults don't matter to it: no step
    /// depends on them.
    pub fn key(&self) -> u64 {
        let mut key = Key::new();
        for column in self.memory.columns() {
            key.put_all(column);
        }
        for thread in self.threads.as_slice() {
            key.put_place(&thread.place);
            key.put_status(thread.status);
            for duty in thread.agenda.as_slice() {
                key.put_duty(*duty);
            }
            key.put(thread.agenda.len() as u64);
            key.put(u64::from(thread.head));
            key.put(u64::from(thread.used));
            key.put_row(thread.locked);
            key.put_row(thread.lent);
        }
        for life in self.lives.as_slice() {
            key.put(number_of(*life));
        }
        let mut references = 0u64;
        for reference in self.bag.references.as_slice() {
            references = references.wrapping_add(key_of(reference));
        }
        key.put(references);
        key.value()
    }

    /// Returns the number of threads, main included.
    pub fn threads(&self) -> usize
        ensures { result ≡ length (machine_in self.now).actors }
    {
        self.threads.len()
    }

    /// Returns whether all threads are gone.
    #[tactic(auto, using(crate::proofs::Threads::gone_in))]
    pub fn has_ended(&self) -> bool
        ensures { (result ≡ true) ↔ AllGone (counting (machine_in self.now)) }
    {
        self.threads.iter().all(|thread| has_gone(thread.status))
    }

    /// Returns the row of an object that is born and that nobody has closed, and to which no cell of an open list holds
    /// a reference, if there is one. At the end of a safe module's run there is none.
    pub fn lost(&self) -> Option<u32>
        ensures first { result ≡ find (is_lost (machine_in self.now).abstract) (machine_in self.now).abstract.born }
        ensures lost { IfSome result (λ row. IsLost (machine_in self.now) row) }
    {
        let found = self.bag.born.iter().find(|row| self.bag.is_lost(**row));
        found.copied()
    }
}
