//! Where a thread is in its calls.

ghost use Rattle.std.specs.Prelude.{◌≡◌, slice_set, IfOk};
ghost use Rattle.brc_model.specs.Actions.{first_context, turns_at};
ghost use Rattle.brc_plain.specs.Places.{context_in, place_in};

use crate::refused::Refused;
use brc_machine::variables::Variables;
use brc_machine::{OpenCall, Turns};
use brc_model::Stage;
use std::alloc::Global;

/// What a call counts, and the calls that are open around it.
#[derive(Drop)]
pub struct Context {
    /// The calls from outside that the thread has still to make after its outermost one.
    pub left: u32,
    /// How often each instruction `again` has gone back in this call.
    pub turns: Turns,
    /// The calls open around this one, the nearest first.
    pub outer: Vec<OpenCall>,
}

impl Context {
    /// Returns the context at the beginning of a call from outside, after which `left` calls are still to be made.
    pub fn first(alloc: Global, left: u32) -> Context
        ensures { context_in result ≡ first_context left }
    {
        Context {
            left,
            turns: [0; 256],
            outer: Vec::new(alloc),
        }
    }

    /// Returns a copy.
    pub fn copy(&self, alloc: Global) -> Result<Context, Refused>
        ensures { IfOk result (λ copy. context_in copy ≡ context_in self.now) }
    {
        Ok(Context {
            left: self.left,
            turns: self.turns,
            outer: Vec::from_slice(alloc, self.outer.as_slice())?,
        })
    }

    /// Returns how often the instruction `again` at the point has gone back in the call.
    pub fn turns_at(&self, at: usize) -> u16
        ensures { result ≡ turns_at (context_in self.now) at }
    {
        match self.turns.get(at) {
            Some(turns) => *turns,
            None => 0,
        }
    }

    /// Says that the instruction `again` at the point has gone back `turns` times in the call.
    pub fn set_turns(&mut self, at: usize, turns: u16)
        ensures { context_in self.new ≡ record (context_in self.old) {
          turns = slice_set self.old.turns at turns;
        } }
    {
        if at < self.turns.len() {
            self.turns[at] = turns;
        }
    }
}

/// Where a thread is once its agenda is done. No thread of the plain machine stops.
#[derive(Drop)]
pub enum Place {
    /// Outside all calls, with `left` calls still to make.
    Idle {
        left: u32,
    },
    /// Before the instruction `at` of a call.
    InCall {
        context: Context,
        at: usize,
        variables: Variables,
    },
    /// Inside the instruction `at`, which takes several steps, after its first one.
    Inside {
        context: Context,
        at: usize,
        variables: Variables,
        stage: Stage,
    },
    /// It has dispatched its exit.
    Exiting,
}

impl Place {
    /// Returns a copy.
    pub fn copy(&self, alloc: Global) -> Result<Place, Refused>
        ensures { IfOk result (λ copy. place_in copy ≡ place_in self.now) }
    {
        Ok(match self {
            Place::Idle { left } => Place::Idle { left: *left },
            Place::InCall {
                context,
                at,
                variables,
            } => Place::InCall {
                context: context.copy(alloc)?,
                at: *at,
                variables: *variables,
            },
            Place::Inside {
                context,
                at,
                variables,
                stage,
            } => Place::Inside {
                context: context.copy(alloc)?,
                at: *at,
                variables: *variables,
                stage: *stage,
            },
            Place::Exiting => Place::Exiting,
        })
    }
}
