//! The calls that are open around a thread's innermost one.

ghost use Rattle.std.specs.Prelude.{◌≡◌, ◌+◌, ◌<◌, ◌∷◌, [], length, map, MatchOption, OnOk, IfOk};
ghost use Rattle.std.specs.Prelude.{is_some};
ghost use Rattle.std.specs.List.{list_any};
ghost use Rattle.brc_lang.specs.Limits.{depth_limit};
ghost use Rattle.brc_model.specs.Threads.{number_under};
ghost use Rattle.brc_world.specs.OpenCalls.{rows_of, names_row};
ghost use Rattle.brc_machine.specs.OpenCalls.{open_of};

use brc_machine::variables::names_some;
use brc_machine::{NoMemory, OpenCall};
use std::alloc::Global;
use std::fmt;
use std::marker::Model;

/// The most calls that are open around a call. It is one less than the greatest depth of a function.
const MOST: usize = 7;

/// The calls that are open around a thread's innermost one. The first is from outside, each has made the next, and the
/// last, the nearest, has made the innermost one. There is room for all of them from the start, so no step that opens a
/// call is refused memory.
#[derive(Drop)]
pub struct OpenCalls {
    pub(crate) calls: Vec<OpenCall>,
}

impl Model for OpenCalls {
    ghost use Rattle.std.specs.Prelude.{List, ◌<◌, ◌≤◌, ◌+◌, length, map, reverse, vec_capacity};
    ghost use Rattle.brc_lang.specs.Limits.{depth_limit};
    ghost use Rattle.brc_model.specs.declared.actor.OpenCall.{OpenCall as ModelCall};
    ghost use Rattle.brc_world.specs.OpenCalls.{calls_around};

    ghost Value = { List ModelCall };

    ghost view = { λ c. calls_around c.calls.items };

    ghost invariant = { λ c. (length c.calls.items < depth_limit) × (depth_limit ≤ 1 + vec_capacity c.calls) };
}

impl OpenCalls {
    /// Returns no open calls, with room for all that there can be, or `NoMemory` if memory is refused.
    pub fn new(alloc: Global) -> Result<OpenCalls, NoMemory>
        ensures { IfOk result (λ calls. calls ≡ []) }
    {
        Ok(OpenCalls {
            calls: Vec::with_capacity(alloc, MOST)?,
        })
    }

    /// Returns how many there are.
    #[inline(always)]
    #[tactic(auto, using(crate::proofs::Around::around_length))]
    pub fn depth(&self) -> u8
        ensures { result ≡ length self.now }
    {
        self.calls.len() as u8
    }

    /// Returns the number of the function that the innermost call runs, where the thread calls `first` from outside.
    #[inline(always)]
    #[tactic(auto, using(crate::proofs::Around::around_last))]
    pub fn running(&self, first: usize) -> usize
        ensures { result ≡ number_under first self.now }
    {
        match self.calls.last() {
            Some(call) => usize::from(call.callee),
            None => first,
        }
    }

    /// Closes all of them.
    #[inline(always)]
    pub fn clear(&mut self)
        ensures { self.new ≡ [] }
    {
        self.calls.clear();
    }

    /// Adds the call that has made the innermost one.
    #[tactic(auto, using(crate::proofs::Around::around_last, crate::proofs::Around::around_length))]
    pub fn open(&mut self, call: OpenCall)
        requires { length self.old + 1 < depth_limit }
        ensures { self.new ≡ open_of call ∷ self.old }
    {
        self.calls.push_reserved(call);
    }

    /// Takes the nearest one away, if there is one, and returns it.
    #[tactic(auto, using(crate::proofs::Around::around_last))]
    pub fn close(&mut self) -> Option<OpenCall>
        ensures { MatchOption result ((self.old ≡ []) × (self.new ≡ [])) (λ call. self.old ≡ open_of call ∷ self.new) }
    {
        self.calls.pop()
    }

    /// Returns whether some variable of one of them names a row.
    pub fn hold_some(&self) -> bool
        ensures { result ≡ list_any (list_any is_some) (map rows_of self.now) }
    {
        some_names(self.calls.as_slice())
    }

    /// Makes them those of another thread. Returns `NoMemory` if memory is refused.
    pub fn copy_from(&mut self, others: &OpenCalls) -> Result<(), NoMemory>
        ensures { OnOk result (self.new ≡ others.now) }
    {
        self.calls.clear();
        self.calls.extend_from_slice(others.calls.as_slice())?;
        Ok(())
    }
}

fn some_names(calls: &[OpenCall]) -> bool
    ensures { result ≡ list_any names_row calls.now }
{
    calls.iter().any(|call| names_row(call))
}

fn names_row(call: &OpenCall) -> bool
    ensures { result ≡ names_row call.now }
{
    names_some(&call.variables)
}

/// Writes each call in parentheses: its callee, its instruction, its variables, where its result goes and where its
/// fault goes on, and the counts of its instructions `again` that aren't 0, each behind its point.
impl fmt::Debug for OpenCalls {
    fn fmt<W: fmt::Write>(&self, f: &mut fmt::Formatter<W>) -> fmt::Result {
        for call in self.calls.iter() {
            let OpenCall {
                callee,
                at,
                variables,
                to,
                otherwise,
                ..
            } = call;
            write!(f, " ({callee} {at} {variables:?} {to:?} {otherwise}")?;
            for (at, turns) in call.turns.iter().enumerate() {
                if *turns != 0 {
                    write!(f, " {at}:{turns}")?;
                }
            }
            write!(f, ")")?;
        }
        Ok(())
    }
}
