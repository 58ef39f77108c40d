//! What a thread does at an event, as a value.

ghost use Rattle.std.specs.Prelude.{◌≡◌, if◌then◌else◌, reverse, IfOk};
ghost use Rattle.brc_model.specs.Kinds.{kind_of_word, same_kind};
ghost use Rattle.brc_machine.specs.Items.{item_in};
ghost use Rattle.brc_plain.specs.Acts.{place_at, place_by, rest_in};
ghost use Rattle.brc_plain.specs.Places.{place_in};

use crate::bag::Move;
use crate::place::{Context, Place};
use crate::refused::Refused;
use brc_effect::kinds::{cells_of, kind_of_word, same_kind};
use brc_lang::{Kind, Variable};
use brc_machine::objects::item_in;
use brc_machine::variables::Variables;
use brc_model::{Duty, Exit, Stage};
use brc_word::values::FREE;
use std::alloc::Global;

/// What a thread does at an event.
#[derive(Drop)]
pub enum Act {
    /// It takes no step.
    Skip,
    /// It can't go on.
    Stuck,
    /// It takes a silent step: these of its references move, and it is then at the place.
    Silent {
        moves: Vec<Move>,
        place: Place,
    },
    /// It calls the host, which uses the resource of the row, if there is one.
    Calls {
        row: Option<u32>,
        after: AfterCall,
    },
    /// It does the duty, with these duties behind it.
    Does {
        duty: Duty,
        rest: Rest,
        after: AfterDuty,
    },
}

/// The duties behind the one that a thread begins with.
#[derive(Drop)]
pub enum Rest {
    Nothing,
    /// The thread settles.
    Settle,
    /// The thread settles, and then announces its exit and scans the marks of the rows of its block.
    SettleAndLeave { rows: u32 },
    /// Those of its agenda, of which the last is done next.
    Agenda(Vec<Duty>),
}

impl Rest {
    /// Returns them as an agenda, of which the last is done next.
    pub fn agenda(self, alloc: Global) -> Result<Vec<Duty>, Refused>
        ensures { IfOk result (λ agenda. reverse agenda.items ≡ rest_in self) }
    {
        match self {
            Rest::Nothing => Ok(Vec::new(alloc)),
            Rest::Settle => Ok(vec![in alloc; Duty::Settle]?),
            Rest::SettleAndLeave { rows } => {
                Ok(vec![in alloc; Duty::Leave { word: 0, rows }, Duty::Settle]?)
            }
            Rest::Agenda(duties) => Ok(duties),
        }
    }
}

/// Where the exit of a host call leads.
#[derive(Drop)]
pub enum AfterCall {
    ByExit {
        success: Place,
        fault: Place,
    },
    /// Inside the instruction, whose stage keeps the exit.
    Kept {
        context: Context,
        at: usize,
        variables: Variables,
    },
}

/// Where the word that a duty finds leads.
#[derive(Drop)]
pub enum AfterDuty {
    /// To the place, whatever the word is.
    Always(Place),
    /// To one place if the gate is free, and otherwise to another.
    IfFree {
        free: Place,
        taken: Place,
    },
    /// To one place if the list of this kind word has the cell, and otherwise to another.
    ByRange {
        index: u8,
        inside: Place,
        outside: Place,
    },
    /// If the cell is empty, to the place. Otherwise the variable names the item, at the instruction `at`.
    Borrows {
        empty: Place,
        context: Context,
        at: usize,
        variables: Variables,
        to: Variable,
    },
    /// If the cell is empty, to the place. Otherwise inside the instruction, whose stage keeps the item.
    Fetches {
        empty: Place,
        context: Context,
        at: usize,
        variables: Variables,
    },
    /// To the instruction `same` if the kind word is of the kind, and otherwise to `other`.
    ByKind {
        context: Context,
        kind: Kind,
        same: usize,
        other: usize,
        variables: Variables,
    },
}

impl AfterCall {
    /// Returns the place to which the exit leads.
    pub fn at(self, exit: Exit) -> Place
        ensures { place_in result ≡ place_by self exit }
    {
        match self {
            AfterCall::ByExit { success, fault } => match exit {
                Exit::Success => success,
                Exit::Fault => fault,
            },
            AfterCall::Kept {
                context,
                at,
                variables,
            } => Place::Inside {
                context,
                at,
                variables,
                stage: Stage::Called { exit },
            },
        }
    }
}

impl AfterDuty {
    /// Returns the place to which the word leads.
    pub fn at(self, found: u64) -> Result<Place, Refused>
        ensures { IfOk result (λ place. place_in place ≡ place_at self found) }
    {
        match self {
            AfterDuty::Always(place) => Ok(place),
            AfterDuty::IfFree { free, taken } => {
                if found == FREE {
                    return Ok(free);
                }
                Ok(taken)
            }
            AfterDuty::ByRange {
                index,
                inside,
                outside,
            } => {
                if u32::from(index) < cells_of(found) {
                    return Ok(inside);
                }
                Ok(outside)
            }
            AfterDuty::Borrows {
                empty,
                context,
                at,
                variables,
                to,
            } => match item_named(found)? {
                None => Ok(empty),
                Some(row) => {
                    let mut variables = variables;
                    variables[usize::from(to.number())] = Some(row);
                    Ok(Place::InCall {
                        context,
                        at,
                        variables,
                    })
                }
            },
            AfterDuty::Fetches {
                empty,
                context,
                at,
                variables,
            } => match item_named(found)? {
                None => Ok(empty),
                Some(row) => Ok(Place::Inside {
                    context,
                    at,
                    variables,
                    stage: Stage::Found { row },
                }),
            },
            AfterDuty::ByKind {
                context,
                kind,
                same,
                other,
                variables,
            } => Ok(Place::InCall {
                context,
                at: by_kind(found, kind, same, other),
                variables,
            }),
        }
    }
}

/// Returns `same` if the kind word is of the kind, and otherwise `other`.
fn by_kind(word: u64, kind: Kind, same: usize, other: usize) -> usize
    ensures { result ≡ (if same_kind (kind_of_word word) kind then same else other) }
{
    if same_kind(kind_of_word(word), kind) {
        same
    } else {
        other
    }
}

/// Returns the row that a cell's word names, or `None` if the cell is empty. Refuses a word that names no row.
fn item_named(word: u64) -> Result<Option<u32>, Refused>
    ensures { IfOk result (λ item. item ≡ item_in word) }
{
    if word > 1 << 32 {
        return Err(Refused::OutOfBounds);
    }
    Ok(item_in(word))
}
