//! What is wrong about an event, for those who read of it. Nothing is claimed of it.

use crate::act::Act;
use crate::bag::{Holder, Move};
use crate::complaint::{Complaint, Use};
use crate::dispatch::number_in;
use crate::fits::ask_indexed;
use crate::lives::{Life, is_freed_for, life_at, touched_row};
use crate::moves::reference_effects;
use crate::place::Place;
use crate::plain::{Plain, numbered};
use crate::refused::Refused;
use crate::thread::Thread;
use brc_effect::address_of;
use brc_lang::{Instr, Variable};
use brc_machine::variables::{Variables, entry_variables, row_of};
use brc_model::{Choice, Duty, Holding};
use std::alloc::Global;

impl Plain<'_> {
    /// Returns what is wrong about the thread's next step by the choice.
    pub fn complaint(
        &self,
        alloc: Global,
        number: usize,
        choice: Choice,
    ) -> Result<Complaint, Refused> {
        let Some(thread) = self.threads.get(number) else {
            return Ok(Complaint::Nothing);
        };
        let own = numbered(number)?;
        let act = self.act(alloc, own, thread, choice)?;
        self.of_step(alloc, own, thread, choice, &act)
    }

    /// Returns what is wrong about the thread's step by the choice, which does what the act says.
    fn of_step(
        &self,
        alloc: Global,
        own: u8,
        thread: &Thread,
        choice: Choice,
        act: &Act,
    ) -> Result<Complaint, Refused> {
        let found = match act {
            Act::Skip => Complaint::Nothing,
            Act::Stuck => return Ok(self.stuck(thread)),
            Act::Silent { moves, .. } => self.of_moves(alloc, moves.as_slice())?,
            Act::Calls { row, .. } => self.of_touch(own, *row),
            Act::Does { duty, .. } => self.of_duty(alloc, own, thread, duty)?,
        };
        Ok(match found {
            Complaint::Nothing if self.chooses_unfit(thread, choice) => Complaint::Unfit {
                locked: thread.locked,
            },
            found => found,
        })
    }

    /// Returns the number of the function that the thread's innermost call runs, and that of the instruction at which
    /// it is. Outside its calls these are its function and 0.
    pub fn at(&self, number: usize) -> Option<(usize, usize)> {
        let thread = self.threads.get(number)?;
        let function = number_in(thread.function, &thread.place);
        match &thread.place {
            Place::Idle { .. } => Some((function, 0)),
            Place::InCall { at, .. } | Place::Inside { at, .. } => Some((function, *at)),
            Place::Exiting => None,
        }
    }

    /// Returns a thread that holds a reference to the row's object, and how, if there is one.
    pub fn holder_of(&self, row: u32) -> Option<(u8, Holding)> {
        for reference in self.bag.references.as_slice() {
            if let Holder::ByThread { thread, holding } = reference.holder {
                if reference.object == row {
                    return Some((thread, holding));
                }
            }
        }
        None
    }

    fn stuck(&self, thread: &Thread) -> Complaint {
        let code = self.code_of(thread);
        let (at, variables) = match &thread.place {
            Place::Idle { .. } => (0, entry_variables()),
            Place::InCall { at, variables, .. } | Place::Inside { at, variables, .. } => {
                (*at, *variables)
            }
            Place::Exiting => return Complaint::Stuck,
        };
        match code.get(at) {
            None => Complaint::RunsOff,
            Some(instr) => empty_in(&variables, *instr),
        }
    }

    fn of_touch(&self, own: u8, row: Option<u32>) -> Complaint {
        let Some(row) = row else {
            return Complaint::Nothing;
        };
        let life = life_at(self.lives.as_slice(), row);
        if !is_freed_for(own, life) {
            return Complaint::Nothing;
        }
        Complaint::Freed {
            row,
            by: match life {
                Life::Dying { thread } => Some(thread),
                _ => None,
            },
        }
    }

    fn of_duty(
        &self,
        alloc: Global,
        own: u8,
        thread: &Thread,
        duty: &Duty,
    ) -> Result<Complaint, Refused> {
        ask_indexed(*duty)?;
        let address = address_of(self.blocks, own, thread.head, *duty);
        match self.of_touch(own, touched_row(address)) {
            Complaint::Nothing => {}
            touch => return Ok(touch),
        }
        let found = self.memory.read(address);
        let moves = reference_effects(alloc, &self.memory, own, *duty, found)?;
        self.of_moves(alloc, moves.as_slice())
    }

    fn of_moves(&self, alloc: Global, moves: &[Move]) -> Result<Complaint, Refused> {
        Ok(
            match self.bag.first_refused(alloc, self.blocks.layout(), moves)? {
                None => Complaint::Nothing,
                Some(Move::Gain(reference)) => Complaint::Unreferenced {
                    row: reference.object,
                },
                Some(Move::Lose(reference)) => unheld(
                    reference.holder,
                    reference.object,
                    Use::GivesUp,
                ),
                Some(Move::PassOn { reference, holder }) => {
                    unheld(reference.holder, reference.object, way_to(holder))
                }
                Some(Move::Finalise(row)) => Complaint::Closes { row },
                Some(Move::Born { .. }) => Complaint::Stuck,
            },
        )
    }
}

fn unheld(holder: Holder, row: u32, way: Use) -> Complaint {
    match holder {
        Holder::ByThread { holding, .. } => Complaint::Unheld { row, holding, way },
        Holder::ByCell { .. } => Complaint::Stuck,
    }
}

fn way_to(holder: Holder) -> Use {
    match holder {
        Holder::ByThread {
            holding: Holding::InFlight,
            ..
        } => Use::GivesUp,
        Holder::ByThread { .. } => Use::HandsOn,
        Holder::ByCell { .. } => Use::Stores,
    }
}

/// Returns the first variable that the instruction reads and that is empty.
fn empty_in(variables: &Variables, instr: Instr) -> Complaint {
    match instr {
        Instr::Newref { from, .. }
        | Instr::Move { from, .. }
        | Instr::Drop { from }
        | Instr::Ret { from }
        | Instr::As { from, .. } => empty_of(variables, &[from]),
        Instr::Lock { object } | Instr::Unlock { object } => empty_of(variables, &[object]),
        Instr::Borrow { list, .. } | Instr::Fetch { list, .. } => empty_of(variables, &[list]),
        Instr::Set { list, from, .. } | Instr::Put { list, from, .. } => {
            empty_of(variables, &[list, from])
        }
        Instr::Read { file, .. } => empty_of(variables, &[file]),
        Instr::Write { file, number, .. } => empty_of(variables, &[file, number]),
        Instr::Call { arguments, .. } => {
            for argument in arguments.as_slice() {
                if row_of(variables, argument.from).is_none() {
                    return Complaint::Empty {
                        variable: argument.from,
                    };
                }
            }
            Complaint::Stuck
        }
        _ => Complaint::Stuck,
    }
}

fn empty_of(variables: &Variables, read: &[Variable]) -> Complaint {
    for variable in read {
        if row_of(variables, *variable).is_none() {
            return Complaint::Empty {
                variable: *variable,
            };
        }
    }
    Complaint::Stuck
}
