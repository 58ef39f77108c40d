//! Why a variable is empty that an instruction uses.

use crate::operand_roles::{arguments_of, roles_of};
use crate::state_text::{is_empty, var_at, write_variable};
use crate::walking::reached;
use brc_check::{Exit, State};
use brc_lang::{
    Argument, Function, Instr, Passing, Variable, write_bytes, write_instruction, write_number,
};
use std::io;
use std::io::Write;

/// Returns the variable that is used and empty; or else the one that a call has at two places, and gives up at one.
pub fn empty_variable(instr: Instr, state: &State) -> Option<Variable> {
    match empty_one(instr, state) {
        Some(variable) => Some(variable),
        None => {
            let (variable, _) = clash_of(arguments_of(&instr))?;
            Some(variable)
        }
    }
}

/// Returns the first of the instruction's variables that is empty, but for the one that it fills.
fn empty_one(instr: Instr, state: &State) -> Option<Variable> {
    let roles = roles_of(instr);
    for variable in [roles.given, roles.object, roles.used] {
        if let Some(variable) = variable {
            if is_empty(var_at(state, variable)) {
                return Some(variable);
            }
        }
    }
    empty_argument(&instr, state)
}

/// Returns the first argument that is empty.
fn empty_argument(instr: &Instr, state: &State) -> Option<Variable> {
    for argument in arguments_of(instr) {
        if is_empty(var_at(state, argument.from)) {
            return Some(argument.from);
        }
    }
    None
}

/// Writes which of the variables that the instruction uses is empty, and since when.
pub fn write_empty<W: Write>(
    functions: &[Function],
    function: &Function,
    exits: &[Exit],
    instr: Instr,
    state: &State,
    out: &mut W,
) -> io::Result<()> {
    let Some(variable) = empty_one(instr, state) else {
        return write_clash(&instr, out);
    };
    write_variable(variable, out)?;
    match emptied(function, exits, variable) {
        None => write_bytes(b" is empty: nothing was put into it on this path.\n", out),
        Some((at, cause)) => {
            write_bytes(b" is empty since @", out)?;
            write_number(at as u64, out)?;
            write_bytes(b", `", out)?;
            write_instruction(functions, cause, out)?;
            write_bytes(b"`.\n", out)?;
            write_bytes(reason(&cause, variable).as_bytes(), out)?;
            write_bytes(b"\n", out)
        }
    }
}

/// Writes which variable is at two places of a call that steals its reference at one of them.
fn write_clash<W: Write>(instr: &Instr, out: &mut W) -> io::Result<()> {
    let Some((variable, passing)) = clash_of(arguments_of(instr)) else {
        return Ok(());
    };
    write_variable(variable, out)?;
    match passing {
        Passing::Steal => write_bytes(b" is given up at two places of the call.\n", out),
        Passing::Borrow => write_bytes(
            b" is given up at one place of the call, and used at another.\n",
            out,
        ),
    }
}

/// Returns the first variable whose reference one argument steals and that is another argument too, and how the other
/// one is passed.
fn clash_of(arguments: &[Argument]) -> Option<(Variable, Passing)> {
    for (number, argument) in arguments.iter().enumerate() {
        if argument.parameter.passing == Passing::Steal {
            if let Some(passing) = passing_elsewhere(arguments, number, argument.from) {
                return Some((argument.from, passing));
            }
        }
    }
    None
}

/// Returns how the variable is passed at the first place of the call but this one, if it is at another.
fn passing_elsewhere(arguments: &[Argument], place: usize, variable: Variable) -> Option<Passing> {
    for (number, argument) in arguments.iter().enumerate() {
        if number != place && argument.from == variable {
            return Some(argument.parameter.passing);
        }
    }
    None
}

/// Returns the last instruction on the path that left the variable empty, and its number.
fn emptied(function: &Function, exits: &[Exit], variable: Variable) -> Option<(usize, Instr)> {
    let code = function.code.as_slice();
    let mut found = None;
    for taken in 0..exits.len() {
        let before = reached(function, &exits[..taken]);
        let after = reached(function, &exits[..taken + 1]);
        if let (Some((at, before)), Some((_, after))) = (before, after) {
            if at < code.len() && empties(code[at], &before, &after, variable) {
                found = Some((at, code[at]));
            }
        }
    }
    found
}

/// Returns whether the instruction empties the variable, or should have filled it and didn't.
fn empties(instr: Instr, before: &State, after: &State, variable: Variable) -> bool {
    let fills = roles_of(instr).filled == Some(variable);
    is_empty(var_at(after, variable)) && (fills || !is_empty(var_at(before, variable)))
}

/// Returns why the instruction leaves the variable empty.
fn reason(instr: &Instr, variable: Variable) -> &'static str {
    let roles = roles_of(*instr);
    if roles.filled == Some(variable) {
        return "On this path it failed, and made nothing.";
    }
    let given = roles.given == Some(variable);
    match instr {
        Instr::Drop { .. } => "The reference was given up there.",
        Instr::Move { .. } => "The reference was handed on there.",
        Instr::Set { .. } if given => { "PyList_SetItem steals the reference, also if it fails." }
        Instr::Set { .. } | Instr::Put { .. } => {
            "It borrowed an item, and the list may have freed the item there."
        }
        Instr::Unlock { .. } => {
            "It borrowed an item, and from there on another thread may free the item."
        }
        Instr::Call { .. } if is_stolen(instr, variable) => {
            "The function called steals the reference, also if it fails."
        }
        _ => "Nothing is in it from there on.",
    }
}

/// Returns whether the instruction is a call that steals the reference of the variable.
fn is_stolen(instr: &Instr, variable: Variable) -> bool {
    for argument in arguments_of(instr) {
        if argument.parameter.passing == Passing::Steal && argument.from == variable {
            return true;
        }
    }
    false
}
