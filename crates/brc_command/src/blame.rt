//! What is wrong about a run, in words.

use brc_lang::{Instr, Kind, Module, write_bytes, write_instruction};
use brc_model::Holding;
use brc_plain::{Complaint, Plain, Use};
use std::io;
use std::io::Write;

/// Writes what is wrong about the thread's next event.
pub fn write_complaint<W: Write>(
    module: &Module,
    plain: &Plain<'_>,
    thread: usize,
    complaint: &Complaint,
    out: &mut W,
) -> io::Result<()> {
    match *complaint {
        Complaint::Empty { variable } => {
            write_place(module, plain, thread, out)?;
            write_thread(thread, out)?;
            write!(
                out,
                " uses v{}, which is empty (NULL).\n",
                variable.number()
            )
        }
        Complaint::RunsOff => {
            write_thread(thread, out)?;
            write!(
                out,
                " comes to the end of its function, which has no further instruction.\n"
            )
        }
        Complaint::Stuck | Complaint::Nothing => {
            write_thread(thread, out)?;
            write!(out, " can't go on.\n")
        }
        Complaint::Freed { row, by } => {
            write_thread(thread, out)?;
            write!(out, " touches ")?;
            write_object(plain, row, out)?;
            match by {
                None => write!(out, ", which is freed.\n"),
                Some(by) => write!(out, ", which thread {by} deallocates.\n"),
            }
        }
        Complaint::Unheld { row, holding, way } => {
            write_thread(thread, out)?;
            write!(out, "{}", way_text(way))?;
            write_object(plain, row, out)?;
            write_holder(holding, out)
        }
        Complaint::Unreferenced { row } => {
            write_thread(thread, out)?;
            write!(out, " makes a reference to ")?;
            write_object(plain, row, out)?;
            write!(out, ", to which there is none any more.\n")
        }
        Complaint::Closes { row } => {
            write_thread(thread, out)?;
            write!(out, " closes ")?;
            write_object(plain, row, out)?;
            write!(out, ", which is referenced or closed.\n")
        }
        Complaint::Unfit { locked } => write_unfit(module, plain, thread, locked, out),
    }
}

/// Writes that the row's object is lost.
pub fn write_lost<W: Write>(plain: &Plain<'_>, row: u32, out: &mut W) -> io::Result<()> {
    write!(out, "all threads are gone, and ")?;
    write_object(plain, row, out)?;
    write!(
        out,
        " is left, which nobody can use any more: it is leaked."
    )?;
    if let Some((thread, holding)) = plain.holder_of(row) {
        write_leaver(thread, holding, out)?;
    }
    write!(out, "\n")
}

/// Writes that the thread has left a reference, if it has left it in a variable.
fn write_leaver<W: Write>(thread: u8, holding: Holding, out: &mut W) -> io::Result<()> {
    match holding {
        Holding::ByVariable { variable, .. } => {
            let number = variable.number();
            write!(
                out,
                " Thread {thread} has left a reference to it in v{number}."
            )
        }
        Holding::AsCaller | Holding::InFlight => Ok(()),
    }
}

fn way_text(way: Use) -> &'static str {
    match way {
        Use::GivesUp => " gives up a reference to ",
        Use::Stores => " stores a reference to ",
        Use::HandsOn => " hands on a reference to ",
    }
}

/// Writes who doesn't hold the reference.
fn write_holder<W: Write>(holding: Holding, out: &mut W) -> io::Result<()> {
    match holding {
        Holding::ByVariable { variable, .. } => {
            write!(out, " that v{} doesn't own.\n", variable.number())
        }
        Holding::AsCaller => write!(out, " that its caller doesn't hold any more.\n"),
        Holding::InFlight => write!(out, " that it doesn't hold.\n"),
    }
}

/// Writes what the instruction lacks that the thread begins.
fn write_unfit<W: Write>(
    module: &Module,
    plain: &Plain<'_>,
    thread: usize,
    locked: Option<u32>,
    out: &mut W,
) -> io::Result<()> {
    let instr = write_place(module, plain, thread, out)?;
    write_thread(thread, out)?;
    let Some(row) = locked else {
        return write!(out, "{}", without_lock(instr));
    };
    write!(out, "{}", with_lock(instr))?;
    write_object(plain, row, out)?;
    write!(out, ".\n")
}

/// Returns what is wrong about an instruction of a thread that has locked nothing.
fn without_lock(instr: Option<Instr>) -> &'static str {
    match instr {
        Some(Instr::Lock { .. }) => " locks an object that has no lock.\n",
        Some(Instr::Unlock { .. }) => " unlocks an object that it hasn't locked.\n",
        Some(Instr::Call { .. }) => " passes an object of another kind than the parameter's.\n",
        _ => " uses an object that it hasn't locked, or that is of another kind.\n",
    }
}

/// Returns what is wrong about an instruction of a thread that has locked the object that is named next.
fn with_lock(instr: Option<Instr>) -> &'static str {
    match instr {
        Some(Instr::Lock { .. }) => " locks a second object, while it has locked ",
        Some(Instr::Unlock { .. }) => " unlocks another object than the one that it has locked, ",
        Some(Instr::Call { .. }) => " calls a function, while it has locked ",
        Some(Instr::Ret { .. } | Instr::Fail) => " ends its call, and has still locked ",
        None => " ends, and has still locked ",
        _ => " uses an object of another kind, or another one than it has locked, ",
    }
}

/// Writes the instruction at which the thread is, and returns it.
fn write_place<W: Write>(
    module: &Module,
    plain: &Plain<'_>,
    thread: usize,
    out: &mut W,
) -> io::Result<Option<Instr>> {
    let Some((function, at)) = plain.at(thread) else {
        return Ok(None);
    };
    let functions = module.functions.as_slice();
    let Some(function) = functions.get(function) else {
        return Ok(None);
    };
    let Some(instr) = function.code.as_slice().get(at) else {
        return Ok(None);
    };
    write!(out, "At ")?;
    write_bytes(function.name.as_bytes(), out)?;
    write!(out, " @{at}, ")?;
    write_instruction(functions, *instr, out)?;
    write!(out, ": ")?;
    Ok(Some(*instr))
}

fn write_thread<W: Write>(thread: usize, out: &mut W) -> io::Result<()> {
    if thread == 0 {
        write!(out, "main")
    } else {
        write!(out, "thread {thread}")
    }
}

fn write_object<W: Write>(plain: &Plain<'_>, row: u32, out: &mut W) -> io::Result<()> {
    if row == 1 {
        return write!(out, "the root");
    }
    let what = match plain.kind_of(row) {
        Kind::None => return write!(out, "none"),
        Kind::Num => "number",
        Kind::List => "list",
        Kind::File => "file",
        Kind::Sock => "socket",
        Kind::Any => "object",
    };
    write!(out, "the {what} in row {row}")
}
