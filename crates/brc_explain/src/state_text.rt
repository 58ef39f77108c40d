//! The state of the variables in a few words.

ghost use Rattle.std.specs.Prelude.{◌≡◌};
ghost use Rattle.brc_explain.specs.Rows.{holding_word};

use brc_check::{Slot, State};
use brc_lang::{Kind, Variable, Version, write_bytes, write_number, write_pieces};
use brc_pages::write_in;
use brc_report::{Paint, Role};
use std::io;
use std::io::Write;

/// Returns an object's kind as a noun.
pub fn kind_noun(kind: Kind) -> &'static str {
    match kind {
        Kind::Any => "object",
        _ => kind.name(),
    }
}

/// Returns the two words for a variable's state, as `owned` and `list`; none if it is empty.
pub fn var_words(var: Slot) -> (&'static str, &'static str)
    ensures { result.0.now ≡ holding_word var }
{
    match var {
        Slot::Empty => ("", ""),
        Slot::Owned(kind) => ("owned ", kind_noun(kind)),
        Slot::Caller(kind) => ("borrowed ", kind_noun(kind)),
        Slot::Locked(Kind::Any) => ("borrowed ", "item"),
        Slot::Locked(Kind::None) => ("borrowed ", "item none"),
        Slot::Locked(Kind::Num) => ("borrowed ", "item num"),
        Slot::Locked(Kind::List) => ("borrowed ", "item list"),
        Slot::Locked(Kind::File) => ("borrowed ", "item file"),
        Slot::Locked(Kind::Sock) => ("borrowed ", "item sock"),
    }
}

/// Returns whether the variable's state is empty.
pub fn is_empty(var: Slot) -> bool {
    matches!(var, Slot::Empty)
}

/// Returns whether the variable's state owns a reference.
pub fn is_owned(var: Slot) -> bool {
    matches!(var, Slot::Owned(_))
}

/// Returns the variable's state.
pub fn var_at(state: &State, variable: Variable) -> Slot {
    state.slots[variable.number() as usize]
}

/// Writes each variable that isn't empty, and the locked one, as in `v0 borrowed list, v1 owned num, locked v0`.
pub fn write_state<W: Write>(state: &State, paint: Paint, out: &mut W) -> io::Result<()> {
    write_bytes(paint.on(Role::State).as_bytes(), out)?;
    let mut separator: &[u8] = b"";
    for (number, var) in state.slots.iter().enumerate() {
        if !is_empty(*var) {
            write_bytes(separator, out)?;
            write_var(number as u64, *var, out)?;
            separator = b", ";
        }
    }
    if let Some(locked) = state.locked {
        write_pieces(&[separator, b"locked "], out)?;
        write_variable(locked, out)?;
        separator = b", ";
    }
    if separator.is_empty() {
        write_bytes(b"all variables empty", out)?;
    }
    write_bytes(paint.off().as_bytes(), out)
}

fn write_var<W: Write>(number: u64, var: Slot, out: &mut W) -> io::Result<()> {
    let (how, what) = var_words(var);
    write_bytes(b"v", out)?;
    write_number(number, out)?;
    write_pieces(&[b" ", how.as_bytes(), what.as_bytes()], out)
}

/// Writes the variable, as `v1`.
pub fn write_variable<W: Write>(variable: Variable, out: &mut W) -> io::Result<()> {
    write_bytes(b"v", out)?;
    write_number(u64::from(variable.number()), out)
}

/// Writes what the words of a state mean, in a module of the version.
pub fn write_legend<W: Write>(version: Version, out: &mut W) -> io::Result<()> {
    write_bytes(
        b"  owned     this function must give the reference up once: drop (Py_DECREF), ret\n\
        \x20           (return), set (PyList_SetItem steals it) or move\n\
        \x20 borrowed  somebody else keeps the object alive: the caller, or the locked list\n\
        \x20           whose item it is\n\
        \x20 locked    the critical section of this variable's object is open\n",
        out,
    )?;
    match version {
        Version::One => write_bytes(
            b"  A variable that isn't named is empty (NULL). v0 is the function's argument, a\n\
            \x20 list that the caller lends.\n",
            out,
        ),
        Version::Two | Version::Three => write_bytes(
            b"  borrows   the call uses the object, and the reference stays where it is\n\
            \x20 steals    the call takes the reference over, also if it fails: the variable is\n\
            \x20           empty behind it\n\
            \x20 A variable that isn't named is empty (NULL). v0 is a list that the caller\n\
            \x20 lends. The parameters behind the function's name are v1, v2 and so on: the\n\
            \x20 caller lends the object (borrow), or hands the reference over (steal).\n",
            out,
        ),
    }
}
