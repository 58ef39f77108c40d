ghost use Rattle.std.specs.Prelude.{◌≡◌, ◌≢◌, ◌<◌, ◌≤◌, not, length, map, filter, slice_get, IfOk, IfErr, OnOk, OnErr};
ghost use Rattle.std.specs.List.{All};
ghost use Rattle.brc_model.specs.declared.thread.Choice.TheVariants.{Claim as claims, Stop as stops};
ghost use Rattle.brc_model.specs.Safety.{AreCalls};
ghost use Rattle.brc_model.specs.Dispatch.{exit_of};
ghost use Rattle.brc_model.specs.Limits.{row_limit};
ghost use Rattle.brc_model.specs.World.{first_world, step};
ghost use Rattle.brc_check.specs.Tables.{states_of};
ghost use Rattle.brc_world.specs.Sights.{sight_at};
ghost use Rattle.brc_world.specs.Worlds.{model_of, choice_of};
ghost use Rattle.brc_world.specs.Tallies.{used_of, is_born, is_closed_row, rows_born, left_in, tally_of};
ghost use Rattle.brc_world.specs.MachineTallies.{IsMachineTally};
ghost use Rattle.brc_world.specs.Answers.{is_gone_at, IsAnswer};
ghost use Rattle.brc_model.specs.Layout.{row_count};

use crate::claim_and_stop::{claim, stop};
use crate::did::Did;
use crate::doing::act;
use crate::first::first_threads;
use crate::laws::tallies_follow_machines;
use crate::peek::peek;
use crate::scratch::Scratch;
use crate::tally::running_in;
use crate::thread::Thread;
use brc_check::Checked;
use brc_effect::kinds::kind_of_word;
use brc_effect::rows::is_immortal_row;
use brc_effect::{Blocks, layout_of};
use brc_lang::Sequence;
use brc_machine::threads::exit_of;
use brc_machine::{Faults, Memory, NoMemory, Sight, first_memory};
use brc_model::{
    Address, Call, Choice, Exit, Status, steps_are_within, steps_move, stops_give_up_what_is_owned,
    worlds_are_small, worlds_lead_on,
};
use brc_report::{Left, Tally};
use brc_word::is_closed;
use std::alloc::Global;
use std::marker::Model;

/// A reachable world: some list of steps leads to it from the first world.
#[derive(Debug, Drop)]
pub struct World<'a> {
    accepted: &'a Checked,
    blocks: Blocks,
    memory: Memory,
    /// By thread number: main is 0, the workers are 1, 2, ..
    threads: Vec<Thread>,
    faults: Faults,
}

impl<'a> Model for World<'a> {
    ghost use Rattle.std.specs.Prelude.{map};
    ghost use Rattle.brc_world.specs.Actors.{actor_of};
    ghost use Rattle.brc_world.specs.Worlds.{Contents, IsWorld};

    ghost Value = { Contents };

    ghost view = { λ w. record {
      accepted = w.accepted.now;
      layout = w.blocks;
      words = w.memory;
      actors = map actor_of w.threads.items;
      faults = w.faults;
    } };

    ghost invariant = { λ w. IsWorld w.accepted.now.module
        (record {
          accepted = w.accepted.now;
          layout = w.blocks;
          words = w.memory;
          actors = map actor_of w.threads.items;
          faults = w.faults;
        }) };
}

impl<'a> World<'a> {
    /// Returns the world before any step, with main and one worker for each of the 1 to 32 calls. Each worker has
    /// `rows` rows of its own, 1 to 1024. Each static line of the module is an immortal list from the start. Returns
    /// `NoMemory` if memory is refused.
    pub fn new(
        alloc: Global,
        checked: &'a Checked,
        workers: usize,
        rows: u16,
        calls: &[Call],
    ) -> Result<World<'a>, NoMemory>
        requires one_each { length calls.now ≡ workers }
        requires some_rows { 0 < rows }
        requires most_rows { rows ≤ row_limit }
        requires calls_fit { AreCalls checked.now.module calls.now }
        ensures { IfOk result (λ w. model_of w ≡ first_world checked.now.module
            (states_of checked.now.module checked.now.table) rows calls.now) }
    {
        worlds_lead_on();
        worlds_are_small();
        checked.states_are_true();
        let module = checked.module();
        let layout = layout_of(module, workers as u8, rows);
        Ok(World {
            accepted: checked,
            blocks: Blocks::new(layout),
            memory: first_memory(alloc, layout, module.statics.as_slice())?,
            threads: first_threads(alloc, layout, calls)?,
            faults: Faults {
                calls: 0,
                closes: 0,
            },
        })
    }

    /// Returns the number of threads, main included.
    pub fn threads(&self) -> usize
        ensures value { result ≡ length self.now.actors }
        ensures some { 0 < result }
    {
        worlds_are_small();
        self.threads.len()
    }

    /// Returns whether the thread is gone: it takes no further step.
    pub fn is_gone(&self, thread: usize) -> bool
        requires { thread < length self.now.actors }
        ensures { result ≡ is_gone_at (model_of self.now) thread }
    {
        matches!(self.threads[thread].status, Status::Gone)
    }

    /// Returns the tally of the world: how many threads run, how many objects were created and closed, and which are
    /// left. Returns `NoMemory` if memory is refused.
    pub fn tally(&self) -> Result<Tally, NoMemory>
        ensures counted { IfOk result (λ tally. tally ≡ tally_of (model_of self.now)) }
        ensures machine { IfOk result (IsMachineTally (model_of self.now)) }
    {
        worlds_are_small();
        tallies_follow_machines();
        let born = self.rows_born()?;
        let left = self.left_of(&born)?;
        Ok(Tally {
            threads: self.threads.len() as u64 - 1,
            running: running_in(&self.threads) as u64,
            created: born.len() as u64,
            closed: born.len().saturating_sub(left.len()) as u64,
            alive: left.len() as u64,
            host_faults: self.faults.calls,
            close_faults: self.faults.closes,
            left,
        })
    }

    /// Returns the rows of all counted objects that have been born, in rising order.
    fn rows_born(&self) -> Result<Vec<u32>, NoMemory>
        ensures { IfOk result (λ born. born.items ≡ rows_born (model_of self.now)) }
    {
        worlds_are_small();
        let mut born = Vec::new(*self.threads.allocator());
        for row in 1..self.memory.rows() as u32 {
            if self.is_born(row) {
                born.push(row)?;
            }
        }
        Ok(born)
    }

    /// Returns the rows of `born` whose objects aren't closed, with the objects' kinds.
    fn left_of(&self, born: &[u32]) -> Result<Sequence<Left>, NoMemory>
        requires { All (λ row. row < row_count self.now.layout) born.now }
        ensures { IfOk result (λ left. left ≡ map (left_in (model_of self.now))
            (filter (λ row. not (is_closed_row (model_of self.now) row)) born.now)) }
    {
        let mut left = Sequence::new(*self.threads.allocator());
        for row in born {
            if !self.is_closed(*row) {
                left.push(self.left_in(*row))?;
            }
        }
        Ok(left)
    }

    fn is_closed(&self, row: u32) -> bool
        requires { row < row_count self.now.layout }
        ensures { result ≡ is_closed_row (model_of self.now) row }
    {
        is_closed(self.memory.load(Address::Gate { row }))
    }

    /// Returns whether an object has been born in the row: the row is counted, and the thread of its block has used it.
    fn is_born(&self, row: u32) -> bool
        requires { row < row_count self.now.layout }
        ensures { result ≡ is_born (model_of self.now) row }
    {
        worlds_are_small();
        let (block, index) = self.blocks.locate(row);
        !is_immortal_row(self.blocks.layout(), row) && index < self.used_in(block)
    }

    /// Returns how many rows of its block the thread has used, or 0 if there is no such thread.
    fn used_in(&self, block: u32) -> u32
        ensures { result ≡ used_of (slice_get self.now.actors block) }
    {
        match self.threads.get(block as usize) {
            Some(thread) => thread.used,
            None => 0,
        }
    }

    fn left_in(&self, row: u32) -> Left
        requires { row < row_count self.now.layout }
        ensures { result ≡ left_in (model_of self.now) row }
    {
        Left {
            row,
            kind: kind_of_word(self.memory.load(Address::KindOf { row })),
        }
    }

    /// Returns what the thread's step by the choice does, without taking it, or `None` if the thread takes no step: it
    /// is gone, may not claim the row, or can't stop where it is. A lock that another thread holds, and a claim that
    /// finds no mark, change nothing, but are steps all the same: each finds a word. Returns `NoMemory` if memory is
    /// refused.
    pub fn next_event(
        &self,
        scratch: &mut Scratch,
        thread: usize,
        choice: Choice,
    ) -> Result<Option<Sight>, NoMemory>
        requires { thread < length self.now.actors }
        ensures { IfOk result (λ sight. sight ≡ sight_at (model_of self.now) thread choice) }
    {
        worlds_are_small();
        worlds_lead_on();
        steps_are_within();
        peek(
            self.accepted,
            &self.memory,
            self.blocks,
            thread as u8,
            &self.threads[thread],
            choice,
            &mut scratch.thread,
        )
    }

    /// Takes one step of the thread, which accesses one word at most, and returns what the step did. Returns
    /// `NoMemory`, with nothing changed, if memory is refused; a step that changes nothing is never refused. The choice
    /// `Fault` means what `Ok` means, unless the step is a host call or a close.
    #[inline(always)]
    pub fn step(&mut self, thread: usize, choice: Choice) -> Result<Did, NoMemory>
        requires { thread < length self.old.actors }
        ensures made { OnOk result (model_of self.new ≡ step (model_of self.old) thread choice) }
        ensures answer { IfOk result (IsAnswer (model_of self.old) thread (model_of self.new)) }
        ensures unchanged { OnErr result (self.new ≡ self.old) }
        ensures refused { IfErr result (λ _. step (model_of self.old) thread choice ≢ model_of self.old) }
        ensures as_many { length self.new.actors ≡ length self.old.actors }
    {
        match choice {
            Choice::Ok | Choice::Fault => self.go_on(thread, exit_of(choice)),
            Choice::Claim(row) => self.look_for(thread, row),
            Choice::Stop => Ok(self.stop(thread)),
        }
    }

    #[inline(always)]
    fn go_on(&mut self, thread: usize, exit: Exit) -> Result<Did, NoMemory>
        requires { thread < length self.old.actors }
        ensures made { OnOk result (model_of self.new ≡ step (model_of self.old) thread (choice_of exit)) }
        ensures answer { IfOk result (IsAnswer (model_of self.old) thread (model_of self.new)) }
        ensures unchanged { OnErr result (self.new ≡ self.old) }
        ensures refused { IfErr result (λ _. step (model_of self.old) thread (choice_of exit) ≢ model_of self.old) }
        ensures as_many { length self.new.actors ≡ length self.old.actors }
    {
        worlds_are_small();
        worlds_lead_on();
        steps_are_within();
        steps_move();
        act(
            self.accepted.module().functions.as_slice(),
            &mut self.memory,
            self.blocks,
            thread as u8,
            &mut self.threads[thread],
            &mut self.faults,
            exit,
        )
    }

    fn look_for(&mut self, thread: usize, row: u32) -> Result<Did, NoMemory>
        requires { thread < length self.old.actors }
        ensures made { OnOk result (model_of self.new ≡ step (model_of self.old) thread (claims row)) }
        ensures answer { IfOk result (IsAnswer (model_of self.old) thread (model_of self.new)) }
        ensures unchanged { OnErr result (self.new ≡ self.old) }
        ensures refused { IfErr result (λ _. step (model_of self.old) thread (claims row) ≢ model_of self.old) }
        ensures as_many { length self.new.actors ≡ length self.old.actors }
    {
        worlds_are_small();
        worlds_lead_on();
        steps_are_within();
        steps_move();
        claim(
            &mut self.memory,
            self.blocks,
            thread as u8,
            &mut self.threads[thread],
            row,
        )
    }

    fn stop(&mut self, thread: usize) -> Did
        requires { thread < length self.old.actors }
        ensures made { model_of self.new ≡ step (model_of self.old) thread stops }
        ensures answer { IsAnswer (model_of self.old) thread (model_of self.new) result }
        ensures as_many { length self.new.actors ≡ length self.old.actors }
    {
        worlds_are_small();
        worlds_lead_on();
        steps_move();
        stops_give_up_what_is_owned();
        stop(self.accepted, &mut self.threads[thread])
    }
}
