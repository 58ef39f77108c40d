//! What an instruction needs of the machine beside its variables.

ghost use Rattle.std.specs.Prelude.{◌≡◌, option_copied, slice_get};
ghost use Rattle.std.specs.List.{list_all};
ghost use Rattle.brc_model.specs.Needs.{has_its_kind, has_locked, has_locked_list, has_locked_resource, has_needs, kind_at, lacks_needs, starts_unfit, suits_kind};
ghost use Rattle.brc_model.specs.Threads.{entry_variables};
ghost use Rattle.brc_model.specs.SlotStates.{is_one_of};
ghost use Rattle.brc_plain.specs.Places.{place_in};
ghost use Rattle.brc_machine.specs.Storage.{word_in};

use crate::place::Place;
use brc_effect::kinds::{kind_of_word, same_kind};
use brc_lang::{Argument, Instr, Kind};
use brc_machine::Memory;
use brc_machine::variables::{Variables, entry_variables, row_of};
use brc_model::Address;

fn is_one_of(kind: Kind, asked: &[Kind]) -> bool
    ensures { result ≡ is_one_of kind asked.now }
{
    asked.iter().any(|other| same_kind(kind, *other))
}

/// Returns the kind of the row's object, by its kind word.
fn kind_at(memory: &Memory, row: Option<u32>) -> Kind
    ensures { result ≡ kind_at (word_in memory.now) row }
{
    match row {
        Some(row) => kind_of_word(memory.read(Address::KindOf { row })),
        None => Kind::Any,
    }
}

/// Returns whether a thread that has locked the first row has locked the second one.
fn has_locked(locked: Option<u32>, row: Option<u32>) -> bool
    ensures { result ≡ has_locked locked row }
{
    match (locked, row) {
        (Some(one), Some(other)) => one == other,
        _ => false,
    }
}

fn has_locked_list(memory: &Memory, locked: Option<u32>, row: Option<u32>) -> bool
    ensures { result ≡ has_locked_list (word_in memory.now) locked row }
{
    is_one_of(kind_at(memory, row), &[Kind::List]) && has_locked(locked, row)
}

fn has_locked_resource(memory: &Memory, locked: Option<u32>, row: Option<u32>) -> bool
    ensures { result ≡ has_locked_resource (word_in memory.now) locked row }
{
    is_one_of(kind_at(memory, row), &[Kind::File, Kind::Sock]) && has_locked(locked, row)
}

/// Returns whether an object of the first kind is one for a parameter of the second.
fn suits_kind(kind: Kind, asked: Kind) -> bool
    ensures { result ≡ suits_kind kind asked }
{
    match asked {
        Kind::Any => true,
        _ => is_one_of(kind, &[asked]),
    }
}

fn has_its_kind(memory: &Memory, variables: &Variables, argument: &Argument) -> bool
    ensures { result ≡ has_its_kind (word_in memory.now) variables.now argument.now }
{
    let row = row_of(variables, argument.from);
    suits_kind(kind_at(memory, row), argument.parameter.kind)
}

fn have_their_kinds(memory: &Memory, variables: &Variables, arguments: &[Argument]) -> bool
    ensures { result ≡ list_all (has_its_kind (word_in memory.now) variables.now) arguments.now }
{
    arguments
        .iter()
        .all(|argument| has_its_kind(memory, variables, argument))
}

/// Returns whether the instruction has what it needs, where the thread has locked the row.
fn has_needs(memory: &Memory, locked: Option<u32>, variables: &Variables, instr: Instr) -> bool
    ensures { result ≡ has_needs (word_in memory.now) locked variables.now instr }
{
    match instr {
        Instr::Lock { object } => {
            let kind = kind_at(memory, row_of(variables, object));
            is_one_of(kind, &[Kind::List, Kind::File, Kind::Sock]) && locked.is_none()
        }
        Instr::Unlock { object } => has_locked(locked, row_of(variables, object)),
        Instr::Borrow { list, .. } | Instr::Fetch { list, .. } | Instr::Set { list, .. } => {
            has_locked_list(memory, locked, row_of(variables, list))
        }
        Instr::Put { list, from, .. } => {
            has_locked_list(memory, locked, row_of(variables, list))
                && row_of(variables, from).is_some()
        }
        Instr::Read { file, .. } => { has_locked_resource(memory, locked, row_of(variables, file)) }
        Instr::Write { file, number, .. } => {
            has_locked_resource(memory, locked, row_of(variables, file))
                && is_one_of(kind_at(memory, row_of(variables, number)), &[Kind::Num])
        }
        Instr::Call { arguments, .. } => {
            locked.is_none() && have_their_kinds(memory, variables, arguments.as_slice())
        }
        Instr::Ret { .. } | Instr::Fail => locked.is_none(),
        _ => true,
    }
}

fn lacks_needs(
    memory: &Memory,
    locked: Option<u32>,
    variables: &Variables,
    instr: Option<&Instr>,
) -> bool
    ensures { result ≡ lacks_needs (word_in memory.now) locked variables.now (option_copied instr.entry) }
{
    match instr {
        Some(instr) => !has_needs(memory, locked, variables, *instr),
        None => false,
    }
}

/// Returns whether a call from outside lacks what its first instruction needs.
fn begins_unfit(memory: &Memory, locked: Option<u32>, code: &[Instr]) -> bool
    ensures { result ≡ lacks_needs (word_in memory.now) locked entry_variables (slice_get code.now 0) }
{
    lacks_needs(memory, locked, &entry_variables(), code.get(0))
}

/// Returns whether the next instruction of a thread at the place lacks what it needs, where the innermost call runs
/// this code and the thread has locked the row.
pub fn starts_unfit(memory: &Memory, locked: Option<u32>, code: &[Instr], place: &Place) -> bool
    ensures { result ≡ starts_unfit (word_in memory.now) locked code.now (place_in place.now) }
{
    match place {
        Place::Idle { left } => {
            if *left == 0 {
                return locked.is_some();
            }
            begins_unfit(memory, locked, code)
        }
        Place::InCall { at, variables, .. } => {
            lacks_needs(memory, locked, variables, code.get(*at))
        }
        Place::Inside { at, variables, .. } => {
            lacks_needs(memory, locked, variables, code.get(*at))
        }
        Place::Exiting => false,
    }
}
