//! A thread before or inside an instruction.

ghost use Rattle.std.specs.Prelude.{◌≡◌, ◌<◌, ◌≤◌, ◌+◌, ◌^◌, ◌∷◌, [], slice_set, suc, IfOk, IfErr};
ghost use Rattle.brc_model.specs.declared.actor.Place.TheVariants as places;
ghost use Rattle.brc_model.specs.Action as model;
ghost use Rattle.brc_model.specs.Actions.{by_variable, depth_of};
ghost use Rattle.brc_model.specs.Layout.{row_at};
ghost use Rattle.brc_model.specs.Machine.{has_room};
ghost use Rattle.brc_model.specs.Threads.{row_of};
ghost use Rattle.brc_model.specs.AbstractState.{ByThread};
ghost use Rattle.brc_plain.specs.Acts.{act_in, rest_in};
ghost use Rattle.brc_plain.specs.Bags.{move_in, reference_in};
ghost use Rattle.brc_plain.specs.Places.{context_in, place_in};

use crate::act::{Act, AfterDuty, Rest};
use crate::bag::{Holder, Move, Reference};
use crate::place::{Context, Place};
use crate::refused::Refused;
use brc_effect::rows::row_at;
use brc_lang::Variable;
use brc_machine::threads::has_room;
use brc_machine::variables::{Variables, row_of};
use brc_model::{Duty, Holding, Layout, Stage};
use std::alloc::Global;

/// A thread that is at an instruction of a call.
#[derive(Clone, Copy)]
pub struct Here<'a> {
    pub alloc: Global,
    pub layout: Layout,
    /// The thread's number.
    pub thread: u8,
    /// The number of rows of its block that the thread has used.
    pub used: u32,
    /// Where the thread stays if it doesn't get a lock.
    pub before: &'a Place,
    pub context: &'a Context,
    pub at: usize,
    pub variables: &'a Variables,
}

/// Returns the number of the instruction behind this one.
pub fn next_of(at: usize) -> Result<usize, Refused>
    ensures next { IfOk result (λ next. next ≡ at + 1) }
    ensures after { IfOk result (λ next. next ≡ suc at) }
    ensures refused { IfErr result (λ refused. 2 ^ 64 ≤ at + 1) }
{
    if at == usize::MAX {
        return Err(Refused::OutOfBounds);
    }
    Ok(at + 1)
}

/// Returns the holding by the variable of a call around which this number of calls is open.
pub fn holding_at(depth: usize, variable: Variable) -> Result<Holding, Refused>
    ensures holding { IfOk result (λ holding. holding ≡ Holding.ByVariable depth variable) }
    ensures refused { IfErr result (λ refused. 255 < depth) }
{
    if depth > 255 {
        return Err(Refused::OutOfBounds);
    }
    Ok(Holding::ByVariable {
        depth: depth as u8,
        variable,
    })
}

impl<'a> Here<'a> {
    /// Returns the row that the variable names, if it isn't empty.
    pub fn row_of(&self, variable: Variable) -> Option<u32>
        ensures { result ≡ row_of self.now.variables.now variable }
    {
        row_of(self.variables, variable)
    }

    /// Returns the variables, of which this one names the row now, or is empty.
    pub fn naming(&self, variable: Variable, row: Option<u32>) -> Variables
        ensures { result ≡ slice_set self.now.variables.now variable row }
    {
        let mut variables = *self.variables;
        variables[usize::from(variable.number())] = row;
        variables
    }

    /// Returns how many calls are open around this one.
    #[tactic(auto, using(crate::proofs::Around::outer_length))]
    pub fn depth(&self) -> usize
        ensures { result ≡ depth_of (context_in self.now.context.now) }
    {
        self.context.outer.len()
    }

    /// Returns the holding by the variable of this call.
    pub fn holding(&self, variable: Variable) -> Result<Holding, Refused>
        ensures { IfOk result (λ holding. holding ≡ by_variable (context_in self.now.context.now) variable) }
    {
        holding_at(self.depth(), variable)
    }

    /// Returns the place before the instruction `at` of this call, with these variables.
    pub fn in_call(&self, at: usize, variables: Variables) -> Result<Place, Refused>
        ensures { IfOk result (λ place. place_in place ≡ places.InCall (context_in self.now.context.now) at variables) }
    {
        Ok(Place::InCall {
            context: self.context.copy(self.alloc)?,
            at,
            variables,
        })
    }

    /// Returns the place before the next instruction, with these variables.
    pub fn next(&self, variables: Variables) -> Result<Place, Refused>
        ensures { IfOk result (λ place. place_in place
            ≡ places.InCall (context_in self.now.context.now) (self.now.at + 1) variables) }
    {
        self.in_call(next_of(self.at)?, variables)
    }

    /// Returns the place at the instruction where a fault leads, with the variable empty.
    pub fn missed(&self, otherwise: u8, to: Variable) -> Result<Place, Refused>
        ensures { IfOk result (λ place. place_in place
            ≡ places.InCall (context_in self.now.context.now) otherwise (slice_set self.now.variables.now to None)) }
    {
        self.in_call(usize::from(otherwise), self.naming(to, None))
    }

    /// Returns the place inside this instruction, at the stage.
    pub fn inside(&self, stage: Stage) -> Result<Place, Refused>
        ensures { IfOk result (λ place. place_in place
            ≡ places.Inside (context_in self.now.context.now) self.now.at self.now.variables.now stage) }
    {
        Ok(Place::Inside {
            context: self.context.copy(self.alloc)?,
            at: self.at,
            variables: *self.variables,
            stage,
        })
    }

    /// Returns a reference of the thread.
    pub fn reference(&self, holding: Holding, object: u32) -> Reference
        ensures { reference_in result ≡ record {
          holder = ByThread self.now.thread holding;
          object = object;
        } }
    {
        Reference {
            holder: Holder::ByThread {
                thread: self.thread,
                holding,
            },
            object,
        }
    }

    /// Returns whether the thread's block has a row for one more object.
    pub fn has_room(&self) -> bool
        ensures { result ≡ has_room self.now.layout self.now.thread self.now.used }
    {
        has_room(self.layout, self.thread, self.used)
    }

    /// Returns the row of the thread's next object.
    pub fn next_row(&self) -> Result<u32, Refused>
        ensures row { IfOk result (λ row. row ≡ row_at self.now.layout self.now.thread self.now.used) }
        ensures refused { IfErr result (λ refused. 2 ^ 31 ≤ self.now.used) }
    {
        if self.used >= 1 << 31 {
            return Err(Refused::OutOfBounds);
        }
        Ok(row_at(self.layout, self.thread, self.used))
    }
}

/// Returns the act of a thread that does the duty, and is then at the place.
pub fn does(duty: Duty, rest: Rest, place: Place) -> Act
    ensures { act_in result ≡ model.Does duty (rest_in rest) (model.always (place_in place)) }
{
    Act::Does {
        duty,
        rest,
        after: AfterDuty::Always(place),
    }
}

/// Returns the act of a silent step that moves no reference.
pub fn silent(alloc: Global, place: Place) -> Act
    ensures { act_in result ≡ model.Silent [] (place_in place) }
{
    Act::Silent {
        moves: Vec::new(alloc),
        place,
    }
}

/// Returns the act of a silent step that moves one reference.
pub fn moves(alloc: Global, change: Move, place: Place) -> Result<Act, Refused>
    ensures { IfOk result (λ act. act_in act ≡ model.Silent (move_in change ∷ []) (place_in place)) }
{
    Ok(Act::Silent {
        moves: vec![in alloc; change]?,
        place,
    })
}
