//! The instructions as values: each is read from its line, and written as it.

use crate::writing::is_written_back;
use brc_lang::{Instr, Module, read};
use std::alloc::Global;
use std::test::*;

/// Lines, and after ` = ` the instruction that each is read as, as its `Debug` prints it. It is one text, since a table
/// of as many pairs takes long to prove.
pub const INSTRUCTIONS: &str = "\
newref v15 v10 = Newref { to: Variable { number: 15 }, from: Variable { number: 10 } }
newref v15 v0 = Newref { to: Variable { number: 15 }, from: Variable { number: 0 } }
newref v1 v0 = Newref { to: Variable { number: 1 }, from: Variable { number: 0 } }
drop v0 = Drop { from: Variable { number: 0 } }
drop v15 = Drop { from: Variable { number: 15 } }
ret v9 = Ret { from: Variable { number: 9 } }
ret v0 = Ret { from: Variable { number: 0 } }
num v1 4294967295 else @5 = Num { to: Variable { number: 1 }, value: 4294967295, otherwise: 5 }
num v15 4294967295 else @4 = Num { to: Variable { number: 15 }, value: 4294967295, otherwise: 4 }
num v0 0 else @255 = Num { to: Variable { number: 0 }, value: 0, otherwise: 255 }
list v0 8 else @5 = List { to: Variable { number: 0 }, cells: 8, otherwise: 5 }
list v15 8 else @5 = List { to: Variable { number: 15 }, cells: 8, otherwise: 5 }
list v0 1 else @255 = List { to: Variable { number: 0 }, cells: 1, otherwise: 255 }
none v15 = NoneObject { to: Variable { number: 15 } }
move v2 v3 = Move { to: Variable { number: 2 }, from: Variable { number: 3 } }
move v0 v15 = Move { to: Variable { number: 0 }, from: Variable { number: 15 } }
as v2 sock else @6 = As { from: Variable { number: 2 }, kind: Sock, otherwise: 6 }
as v15 none else @255 = As { from: Variable { number: 15 }, kind: None, otherwise: 255 }
goto @6 = Goto { target: 6 }
goto @10 = Goto { target: 10 }
fail = Fail
lock v0 = Lock { object: Variable { number: 0 } }
lock v15 = Lock { object: Variable { number: 15 } }
borrow v15 v0 255 else @5 = Borrow { to: Variable { number: 15 }, list: Variable { number: 0 }, index: 255, otherwise: 5 }
borrow v0 v15 255 else @255 = Borrow { to: Variable { number: 0 }, list: Variable { number: 15 }, index: 255, otherwise: 255 }
fetch v1 v10 0 else @5 = Fetch { to: Variable { number: 1 }, list: Variable { number: 10 }, index: 0, otherwise: 5 }
fetch v15 v9 0 else @255 = Fetch { to: Variable { number: 15 }, list: Variable { number: 9 }, index: 0, otherwise: 255 }
set v0 7 v2 else @5 = Set { list: Variable { number: 0 }, index: 7, from: Variable { number: 2 }, otherwise: 5 }
set v15 10 v0 else @5 = Set { list: Variable { number: 15 }, index: 10, from: Variable { number: 0 }, otherwise: 5 }
put v9 200 v15 else @5 = Put { list: Variable { number: 9 }, index: 200, from: Variable { number: 15 }, otherwise: 5 }
put v1 200 v2 else @100 = Put { list: Variable { number: 1 }, index: 200, from: Variable { number: 2 }, otherwise: 100 }
unlock v15 = Unlock { object: Variable { number: 15 } }
unlock v0 = Unlock { object: Variable { number: 0 } }
open v0 0 r else @10 = Open { to: Variable { number: 0 }, path: 0, mode: Mode(1), otherwise: 10 }
open v15 15 w else @2 = Open { to: Variable { number: 15 }, path: 15, mode: Mode(2), otherwise: 2 }
open v1 2 rw else @9 = Open { to: Variable { number: 1 }, path: 2, mode: Mode(3), otherwise: 9 }
open v2 10 wc else @4 = Open { to: Variable { number: 2 }, path: 10, mode: Mode(6), otherwise: 4 }
open v3 9 rwc else @8 = Open { to: Variable { number: 3 }, path: 9, mode: Mode(7), otherwise: 8 }
connect v15 15 else @6 = Connect { to: Variable { number: 15 }, peer: 15, otherwise: 6 }
read v0 v15 4096 else @10 = Read { to: Variable { number: 0 }, file: Variable { number: 15 }, most: 4096, otherwise: 10 }
read v15 v0 1 else @8 = Read { to: Variable { number: 15 }, file: Variable { number: 0 }, most: 1, otherwise: 8 }
write v15 v1 else @9 = Write { file: Variable { number: 15 }, number: Variable { number: 1 }, otherwise: 9 }
again @0 65535 = Again { target: 0, times: 65535 }
again @0 1 = Again { target: 0, times: 1 }
";

/// The text of a function that begins with this line, and has 256 instructions, so that all targets ahead are there.
fn function_with(alloc: Global, line: &[u8]) -> Result<Vec<u8>, Fail> {
    let mut text = Vec::from_slice(alloc, b"module 1\nfunc f\n")?;
    text.extend_from_slice(line)?;
    for _ in 0..255 {
        text.extend_from_slice(b"\nfail")?;
    }
    text.extend_from_slice(b"\nend\n")?;
    Ok(text)
}

fn first_of(module: &Module) -> Option<Instr> {
    module
        .functions
        .as_slice()
        .first()?
        .code
        .as_slice()
        .first()
        .copied()
}

/// The first instruction of a text, or `None` if it isn't a module.
fn first_read(alloc: Global, text: &[u8]) -> Option<Instr> {
    match read(alloc, text) {
        Ok(module) => first_of(&module),
        Err(_) => None,
    }
}

/// Whether the first instruction of a text prints so.
fn is_read_as(alloc: Global, text: &[u8], wanted: &str) -> Result<bool, Fail> {
    match first_read(alloc, text) {
        Some(first) => Ok(format!(in alloc; "{first:?}")?.as_str() == wanted),
        None => Ok(false),
    }
}

/// Whether the line of a row is read as its instruction, and written back.
pub fn is_case(alloc: Global, row: &str) -> Result<bool, Fail> {
    let Some((line, wanted)) = row.split_once(" = ") else {
        return Ok(false);
    };
    let text = function_with(alloc, line.as_bytes())?;
    Ok(is_read_as(alloc, &text, wanted)? && is_written_back(alloc, &text)?)
}
