//! A thread of the step world.

ghost use Rattle.std.specs.Prelude.{◌≡◌, ◌≤◌, ◌∷◌, [], replicate, slice_index_or, slice_set, length, MatchOption};
ghost use Rattle.std.specs.Prelude.{vec_capacity};
ghost use Rattle.brc_model.specs.declared.duty.Holding.TheVariants.{ByVariable};
ghost use Rattle.brc_model.specs.Limits.{total_limit};
ghost use Rattle.brc_model.specs.Threads.{entry_variables, number_under, row_of};
ghost use Rattle.brc_effect.specs.Effects.{status_after, used_after, locked_after, lent_after};
ghost use Rattle.brc_world.specs.OpenCalls.{all_rows, mode_stopped, holds_rows};
ghost use Rattle.brc_machine.specs.OpenCalls.{open_of};

use crate::open_calls::OpenCalls;
use brc_effect::Change;
use brc_lang::Variable;
use brc_machine::variables::{Variables, entry_variables, names_some, row_of};
use brc_machine::{OpenCall, Turns};
use brc_model::{Duty, Holding, Stage, Status};
use std::fmt;

/// The room for duties that each thread's agenda has from the start: four when a step starts, and four when its duty is
/// done. So a step that begins an instruction is never refused memory.
pub const ROOM: usize = 8;

/// Whether a thread is in a call, between calls or exiting.
#[derive(Clone, Copy, Debug)]
pub enum Mode {
    /// Before its first call, between two calls or after the last.
    Idle,
    /// Before an instruction of a call.
    InCall,
    /// Inside an instruction that takes several steps, after its first step.
    Inside(Stage),
    /// It has stopped, and has still to unlock the row, or to give up what the variables of its calls name.
    Stopping { locked: Option<u32> },
    /// Its exit has begun.
    Exiting,
}

/// A thread: where it is in its calls, and the duties that it still has to do.
#[derive(Drop)]
pub struct Thread {
    /// The number of the function that it calls from outside.
    pub function: usize,
    pub mode: Mode,
    /// The number of calls from outside that it still has to make, without the current one.
    pub left: u32,
    /// In a call, the number of the next instruction, or of the one that the thread is inside of.
    pub at: usize,
    /// In a call, the rows that its variables name.
    pub variables: Variables,
    /// In a call, how often each instruction `again` has gone back. It is reset with the call, and with nothing else
    /// (`turns_kept_between_calls`, `turns_reset_inside`).
    pub turns: Turns,
    /// In a call, the calls that are open around it.
    pub outer: OpenCalls,
    pub status: Status,
    /// The duties to do. The last is done next: a step takes it from the end, and adds there the duties that follow it.
    pub agenda: Vec<Duty>,
    /// The head of its dying chain: 0 if it is empty, else a row plus 1.
    pub head: u32,
    /// The number of rows of its block that it has used.
    pub used: u32,
    /// The row of the object that it has locked.
    pub locked: Option<u32>,
    /// The row of the object whose resource it has lent.
    pub lent: Option<u32>,
    ghost has_room: { 8 ≤ vec_capacity agenda },
    ghost few_rows: { used ≤ total_limit },
}

impl Thread {
    /// Returns the row that the variable names, or `None` if the variable is empty.
    pub fn row_of(&self, variable: Variable) -> Option<u32>
        ensures { result ≡ row_of self.now.variables variable }
    {
        row_of(&self.variables, variable)
    }

    /// Makes the variable name the row, or empties it.
    pub fn set(&mut self, variable: Variable, row: Option<u32>)
        ensures { self.new ≡ record self.old { variables = slice_set self.old.variables variable row } }
    {
        self.variables[usize::from(variable.number())] = row;
    }

    /// Returns the holding by the variable of the innermost call.
    #[inline(always)]
    pub fn holding(&self, variable: Variable) -> Holding
        ensures { result ≡ ByVariable (length self.now.outer) variable }
    {
        Holding::ByVariable {
            depth: self.outer.depth(),
            variable,
        }
    }

    /// Returns the number of the function that the innermost call runs, if the thread is in a call.
    #[inline(always)]
    pub fn running(&self) -> usize
        ensures { result ≡ number_under self.now.function self.now.outer }
    {
        self.outer.running(self.function)
    }

    /// Returns how often the instruction `again` that the thread is at has gone back in the call.
    pub fn turns_here(&self) -> u16
        ensures { result ≡ slice_index_or self.now.turns self.now.at 0 }
    {
        match self.turns.get(self.at) {
            Some(turns) => *turns,
            None => 0,
        }
    }

    /// Says that the instruction `again` that the thread is at has gone back `turns` times in the call.
    pub fn set_turns_here(&mut self, turns: u16)
        ensures { self.new ≡ record self.old { turns = slice_set self.old.turns self.old.at turns } }
    {
        if self.at < self.turns.len() {
            self.turns[self.at] = turns;
        }
    }

    /// Puts the thread at the instruction `at` of a call after which `left` calls remain.
    pub fn go_to(&mut self, left: u32, at: usize)
        ensures { self.new ≡ record self.old { mode = Mode.InCall; left = left; at = at } }
    {
        self.mode = Mode::InCall;
        self.left = left;
        self.at = at;
    }

    /// Puts the thread at the beginning of a call from outside, but for its mode.
    #[inline(always)]
    pub fn begin_call(&mut self)
        ensures { self.new ≡ record self.old {
          at = 0;
          variables = entry_variables;
          turns = replicate 256 0;
          outer = [];
        } }
    {
        self.at = 0;
        self.variables = entry_variables();
        self.turns = [0; 256];
        self.outer.clear();
    }

    /// Ends the innermost call, if it was made by another one: the thread is in that one again, with its variables and
    /// its turns. Returns what the call waited with, or `None`, with nothing changed, if the call was made from
    /// outside.
    pub fn go_back(&mut self) -> Option<OpenCall>
        ensures { MatchOption result ((self.old.outer ≡ []) × (self.new ≡ self.old)) (λ call.
            (self.old.outer ≡ open_of call ∷ self.new.outer) × (self.new ≡ record self.old {
              variables = call.variables;
              turns = call.turns;
              outer = self.new.outer;
            })) }
    {
        let call = self.outer.close()?;
        let variables = call.variables;
        let turns = call.turns;
        self.variables = variables;
        self.turns = turns;
        Some(call)
    }

    /// Makes the change that a duty's effect names.
    #[inline(always)]
    pub fn change(&mut self, change: Change)
        requires { used_after self.old.used change ≤ total_limit }
        ensures status { self.new.status ≡ status_after self.old.status change }
        ensures used { self.new.used ≡ used_after self.old.used change }
        ensures locked { self.new.locked ≡ locked_after self.old.locked change }
        ensures lent { self.new.lent ≡ lent_after self.old.lent change }
        ensures function { self.new.function ≡ self.old.function }
        ensures mode { self.new.mode ≡ self.old.mode }
        ensures calls { self.new.left ≡ self.old.left }
        ensures point { self.new.at ≡ self.old.at }
        ensures variables { self.new.variables ≡ self.old.variables }
        ensures turns { self.new.turns ≡ self.old.turns }
        ensures outer { self.new.outer ≡ self.old.outer }
        ensures agenda { self.new.agenda ≡ self.old.agenda }
        ensures head { self.new.head ≡ self.old.head }
    {
        match change {
            Change::Nothing => (),
            Change::Becomes(status) => self.status = status,
            Change::Uses(used) => self.used = used,
            Change::Locks(locked) => self.locked = locked,
            Change::Lends(lent) => self.lent = lent,
        }
    }

    /// Puts a thread that has stopped where it is then: it has this row to unlock, if there is one, and the references
    /// of all variables of its calls to give up. With nothing to do it is done with its calls. It makes no further one.
    pub fn stop(&mut self, locked: Option<u32>)
        ensures { self.new ≡ record self.old {
          mode = mode_stopped locked (all_rows self.old.variables self.old.outer);
          left = 0;
        } }
    {
        self.mode = if locked.is_some() || self.holds_some() {
            Mode::Stopping { locked }
        } else {
            Mode::Idle
        };
        self.left = 0;
    }

    /// Returns whether some variable of a call of the thread names a row.
    pub fn holds_some(&self) -> bool
        ensures { result ≡ holds_rows self.now.variables self.now.outer }
    {
        names_some(&self.variables) || self.outer.hold_some()
    }

    /// Ends the call from outside, with `left` calls still to make.
    pub fn rest(&mut self, left: u32)
        ensures { self.new ≡ record self.old { mode = Mode.Idle; left = left } }
    {
        self.mode = Mode::Idle;
        self.left = left;
    }
}

/// Writes the fields that are part of the world. An instruction, variables, counts of the instructions `again` and open
/// calls are part of it only while the thread is in a call. Of the counts it writes those that aren't 0, each behind
/// its point.
impl fmt::Debug for Thread {
    fn fmt<W: fmt::Write>(&self, f: &mut fmt::Formatter<W>) -> fmt::Result {
        let Thread {
            function,
            mode,
            left,
            status,
            agenda,
            head,
            used,
            locked,
            lent,
            ..
        } = self;
        write!(
            f,
            "{function} {mode:?} {left} {status:?} {agenda:?} {head} {used} {locked:?} {lent:?}"
        )?;
        match mode {
            Mode::Stopping { .. } => write!(f, " {:?}{:?}", self.variables, self.outer),
            Mode::InCall | Mode::Inside(_) => {
                write!(f, " {} {:?}", self.at, self.variables)?;
                for (at, turns) in self.turns.iter().enumerate() {
                    if *turns != 0 {
                        write!(f, " {at}:{turns}")?;
                    }
                }
                write!(f, "{:?}", self.outer)
            }
            Mode::Idle | Mode::Exiting => Ok(()),
        }
    }
}
