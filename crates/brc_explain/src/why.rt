//! What is wrong at the point of a refusal, in a sentence about its variables.

use crate::empty::write_empty;
use crate::operand_roles::{arguments_of, roles_of};
use crate::state_text::{is_empty, is_owned, var_at, var_words, write_variable};
use brc_check::{CheckCode, Exit, Slot, State};
use brc_lang::{Function, Instr, Kind, Passing, Variable, write_bytes, write_number, write_pieces};
use std::io;
use std::io::Write;

/// Writes why the instruction at the end of the path reports the code in the state there, in a module of these
/// functions.
pub fn write_why<W: Write>(
    functions: &[Function],
    function: &Function,
    exits: &[Exit],
    at: usize,
    state: &State,
    reported: CheckCode,
    out: &mut W,
) -> io::Result<()> {
    let code = function.code.as_slice();
    if at >= code.len() {
        return Ok(());
    }
    let instr = code[at];
    match reported {
        CheckCode::EmptyUsed => write_empty(functions, function, exits, instr, state, out),
        CheckCode::WrongKind => write_kind(instr, state, out),
        CheckCode::NotOwned => write_borrowed(instr, state, out),
        CheckCode::StillOwns => write_still(instr, state, out),
        CheckCode::LeftOwned => write_left(instr, state, out),
        CheckCode::LeftLocked | CheckCode::SecondLock => write_locked(state, out),
        CheckCode::NotLocked => write_unlocked(instr, state, out),
        CheckCode::LockedChanged => write_locked(state, out),
        CheckCode::RunsOff => write_bytes(b"No instruction comes behind this one.\n", out),
        CheckCode::StatesDiffer | CheckCode::NoMemory => Ok(()),
    }
}

/// Returns the kinds that the instruction wants for its object.
fn wanted_kinds(instr: &Instr) -> &'static str {
    match instr {
        Instr::Lock { .. } => "a list, a file or a socket",
        Instr::Read { .. } | Instr::Write { .. } => "a file or a socket",
        _ => "a list",
    }
}

/// Returns the kind that the instruction wants for the object of a variable that it only uses.
fn wanted_kind(instr: &Instr) -> &'static str {
    match instr {
        Instr::As { kind, .. } => kind_phrase(*kind),
        _ => "a number",
    }
}

fn kind_phrase(kind: Kind) -> &'static str {
    match kind {
        Kind::None => "none",
        Kind::Num => "a number",
        Kind::List => "a list",
        Kind::File => "a file",
        Kind::Sock => "a socket",
        Kind::Any => "an object of a kind that isn't known",
    }
}

fn kind_of(var: Slot) -> Kind {
    match var {
        Slot::Empty => Kind::Any,
        Slot::Owned(kind) | Slot::Caller(kind) | Slot::Locked(kind) => kind,
    }
}

/// Returns whether the instruction wants an object of the kind.
fn is_right(instr: Instr, kind: Kind) -> bool {
    match instr {
        Instr::Lock { .. } => matches!(kind, Kind::List | Kind::File | Kind::Sock),
        Instr::Read { .. } | Instr::Write { .. } => matches!(kind, Kind::File | Kind::Sock),
        _ => kind == Kind::List,
    }
}

/// A variable whose object is of a kind that its instruction doesn't want there.
#[derive(Clone, Copy)]
pub struct Misfit {
    pub variable: Variable,
    /// The kind that is wanted, in words.
    pub wanted: &'static str,
}

/// Returns the first of the instruction's variables whose object isn't of a kind that is wanted there.
pub fn misfit_of(instr: Instr, state: &State) -> Option<Misfit> {
    let roles = roles_of(instr);
    if let Some(object) = roles.object {
        if !is_right(instr, kind_of(var_at(state, object))) {
            return Some(Misfit {
                variable: object,
                wanted: wanted_kinds(&instr),
            });
        }
    }
    match roles.used {
        Some(used) => Some(Misfit {
            variable: used,
            wanted: wanted_kind(&instr),
        }),
        None => argument_misfit(&instr, state),
    }
}

/// Returns the first argument whose object isn't of the kind that its parameter takes.
fn argument_misfit(instr: &Instr, state: &State) -> Option<Misfit> {
    for argument in arguments_of(instr) {
        let wanted = argument.parameter.kind;
        if wanted != Kind::Any && kind_of(var_at(state, argument.from)) != wanted {
            return Some(Misfit {
                variable: argument.from,
                wanted: kind_phrase(wanted),
            });
        }
    }
    None
}

fn write_kind<W: Write>(instr: Instr, state: &State, out: &mut W) -> io::Result<()> {
    match misfit_of(instr, state) {
        Some(Misfit { variable, wanted }) => {
            write_misfit(variable, kind_of(var_at(state, variable)), wanted, out)
        }
        None => Ok(()),
    }
}

fn write_misfit<W: Write>(
    variable: Variable,
    kind: Kind,
    wanted: &str,
    out: &mut W,
) -> io::Result<()> {
    write_variable(variable, out)?;
    write_bytes(b" is ", out)?;
    write_bytes(kind_phrase(kind).as_bytes(), out)?;
    write_pieces(&[b". Wanted: ", wanted.as_bytes(), b".\n"], out)
}

/// Returns the variable whose reference the instruction gives away; of those of a call, the first that owns none.
pub fn given_one(instr: Instr, state: &State) -> Option<Variable> {
    match roles_of(instr).given {
        Some(given) => Some(given),
        None => unowned_argument(&instr, state),
    }
}

/// Returns the first argument whose reference the call steals and that owns none.
fn unowned_argument(instr: &Instr, state: &State) -> Option<Variable> {
    for argument in arguments_of(instr) {
        let steals = argument.parameter.passing == Passing::Steal;
        if steals && !is_owned(var_at(state, argument.from)) {
            return Some(argument.from);
        }
    }
    None
}

fn write_borrowed<W: Write>(instr: Instr, state: &State, out: &mut W) -> io::Result<()> {
    let Some(given) = given_one(instr, state) else {
        return Ok(());
    };
    write_variable(given, out)?;
    let whose: &[u8] = match var_at(state, given) {
        Slot::Locked(_) =>
            b" borrows an item: the reference is the list's, and isn't given up here.\n",
        _ => b" borrows from the caller: the reference isn't given up here.\n",
    };
    write_bytes(whose, out)
}

fn write_still<W: Write>(instr: Instr, state: &State, out: &mut W) -> io::Result<()> {
    let Some(filled) = roles_of(instr).filled else {
        return Ok(());
    };
    write_variable(filled, out)?;
    let kind = kind_phrase(kind_of(var_at(state, filled)));
    write_pieces(
        &[
            b" still owns a reference to ",
            kind.as_bytes(),
            b", which would be lost.\n",
        ],
        out,
    )
}

/// Returns the first variable that owns a reference at the end of a call, but for the one that is returned.
pub fn left_one(instr: Instr, state: &State) -> Option<Variable> {
    let returned = roles_of(instr).given;
    for (number, var) in state.slots.iter().enumerate() {
        let variable = Variable::new(number as u8);
        if is_owned(*var) && returned != Some(variable) {
            return Some(variable);
        }
    }
    None
}

/// Writes which variables own references at the end of a call, but for the one that is returned.
fn write_left<W: Write>(instr: Instr, state: &State, out: &mut W) -> io::Result<()> {
    let returned = roles_of(instr).given;
    for (number, var) in state.slots.iter().enumerate() {
        let variable = Variable::new(number as u8);
        if is_owned(*var) && returned != Some(variable) {
            write_variable(variable, out)?;
            let kind = kind_phrase(kind_of(*var));
            write_pieces(
                &[
                    b" still owns a reference to ",
                    kind.as_bytes(),
                    b", which nobody gives up.\n",
                ],
                out,
            )?;
        }
    }
    Ok(())
}

fn write_locked<W: Write>(state: &State, out: &mut W) -> io::Result<()> {
    let Some(locked) = state.locked else {
        return Ok(());
    };
    write_variable(locked, out)?;
    write_bytes(
        b" is the locked variable here, and isn't unlocked yet.\n",
        out,
    )
}

fn write_unlocked<W: Write>(instr: Instr, state: &State, out: &mut W) -> io::Result<()> {
    let Some(object) = roles_of(instr).object else {
        return Ok(());
    };
    write_variable(object, out)?;
    match state.locked {
        None => write_bytes(b" isn't locked here, and no other variable is.\n", out),
        Some(locked) => {
            write_bytes(b" isn't the locked variable here: ", out)?;
            write_variable(locked, out)?;
            write_bytes(b" is.\n", out)
        }
    }
}

/// Writes each variable in which two states differ.
pub fn write_differences<W: Write>(one: &State, other: &State, out: &mut W) -> io::Result<()> {
    for (number, (first, second)) in one.slots.iter().zip(other.slots.iter()).enumerate() {
        if first != second {
            write_bytes(b"    v", out)?;
            write_number(number as u64, out)?;
            write_pair(*first, *second, out)?;
        }
    }
    if one.locked != other.locked {
        write_bytes(b"    locked: ", out)?;
        write_lock(one.locked, out)?;
        write_bytes(b" on the first path, ", out)?;
        write_lock(other.locked, out)?;
        write_bytes(b" on the second\n", out)?;
    }
    Ok(())
}

fn write_pair<W: Write>(first: Slot, second: Slot, out: &mut W) -> io::Result<()> {
    let (how, what) = words_or_empty(first);
    let (other_how, other_what) = words_or_empty(second);
    write_pieces(
        &[
            b": ",
            how.as_bytes(),
            what.as_bytes(),
            b" on the first path, ",
            other_how.as_bytes(),
            other_what.as_bytes(),
            b" on the second\n",
        ],
        out,
    )
}

fn words_or_empty(var: Slot) -> (&'static str, &'static str) {
    if is_empty(var) {
        ("", "empty")
    } else {
        var_words(var)
    }
}

fn write_lock<W: Write>(locked: Option<Variable>, out: &mut W) -> io::Result<()> {
    match locked {
        None => write_bytes(b"none", out),
        Some(variable) => write_variable(variable, out),
    }
}
