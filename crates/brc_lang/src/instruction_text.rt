//! From an instruction to its text.

ghost use Rattle.std.specs.Prelude.{[], ◌≡◌, ◌∷◌, ◌++◌, OnOk, OnErr, codes, decimal};
ghost use Rattle.std.specs.List.{flat_map};
ghost use Rattle.std.specs.Io.KnownBytes.{Appends};
ghost use Rattle.brc_lang.specs.Written.{AppendsBeginning};
ghost use Rattle.brc_lang.specs.Grammar.{spaced, variable as variable_text, target as target_text};
ghost use Rattle.brc_lang.specs.Grammar.{instruction as instruction_text, argument_words, name_of};
ghost use Rattle.brc_lang.specs.declared.module.Instr.TheVariants.{Take, Open, As, Again};

use crate::kind::Kind;
use crate::mode::Mode;
use crate::module::{Function, Instr};
use crate::output::{write_bytes, write_number};
use crate::parameter::Argument;
use crate::variable::Variable;
use std::io;
use std::io::Write;

/// Writes the instruction's text below these functions, without a line feed, with the errors of `write_bytes`. A call
/// of a function that isn't among them is written without a name.
pub fn write_instruction<W: Write>(
    above: &[Function],
    instr: Instr,
    writer: &mut W,
) -> io::Result<()>
    ensures whole { OnOk result (Appends (W.contents writer.old) (W.contents writer.new)
        (instruction_text above.now instr)) }
    ensures begun { OnErr result (AppendsBeginning (W.contents writer.old) (W.contents writer.new)
        (instruction_text above.now instr)) }
{
    match instr {
        Instr::Num {
            to,
            value,
            otherwise,
        } => write_birth(b"num ", to, value, otherwise, writer),
        Instr::List {
            to,
            cells,
            otherwise,
        } => write_birth(b"list ", to, u32::from(cells), otherwise, writer),
        Instr::NoneObject { to } => write_operand(b"none ", to, writer),
        Instr::Take { to, list } => write_take(to, list, writer),
        Instr::Newref { to, from } => write_operands(b"newref ", to, from, writer),
        Instr::Move { to, from } => write_operands(b"move ", to, from, writer),
        Instr::Drop { from } => write_operand(b"drop ", from, writer),
        Instr::Lock { object } => write_operand(b"lock ", object, writer),
        Instr::Unlock { object } => write_operand(b"unlock ", object, writer),
        Instr::Borrow {
            to,
            list,
            index,
            otherwise,
        } => write_taking(b"borrow ", to, list, u32::from(index), otherwise, writer),
        Instr::Fetch {
            to,
            list,
            index,
            otherwise,
        } => write_taking(b"fetch ", to, list, u32::from(index), otherwise, writer),
        Instr::Set {
            list,
            index,
            from,
            otherwise,
        } => write_store(b"set ", list, index, from, otherwise, writer),
        Instr::Put {
            list,
            index,
            from,
            otherwise,
        } => write_store(b"put ", list, index, from, otherwise, writer),
        Instr::Open {
            to,
            path,
            mode,
            otherwise,
        } => write_open(to, path, mode, otherwise, writer),
        Instr::Connect {
            to,
            peer,
            otherwise,
        } => write_birth(b"connect ", to, u32::from(peer), otherwise, writer),
        Instr::Read {
            to,
            file,
            most,
            otherwise,
        } => write_taking(b"read ", to, file, u32::from(most), otherwise, writer),
        Instr::Write {
            file,
            number,
            otherwise,
        } => write_pair(b"write ", file, number, otherwise, writer),
        Instr::As {
            from,
            kind,
            otherwise,
        } => write_as(from, kind, otherwise, writer),
        Instr::Call {
            to,
            callee,
            arguments,
            otherwise,
        } => {
            let name = name_of(above, callee);
            write_call(to, name, arguments.as_slice(), otherwise, writer)
        }
        Instr::Goto { target } => write_numeral(b"goto @", u64::from(target), writer),
        Instr::Again { target, times } => write_again(target, times, writer),
        Instr::Ret { from } => write_operand(b"ret ", from, writer),
        Instr::Fail => write_bytes(b"fail", writer),
    }
}

/// Returns the name of the function of the number, which is empty if there is none.
fn name_of(functions: &[Function], number: u8) -> &[u8]
    ensures { result.now ≡ name_of functions.now number }
{
    match functions.get(number as usize) {
        Some(function) => function.name.as_bytes(),
        None => b"",
    }
}

fn write_call<W: Write>(
    to: Variable,
    name: &[u8],
    arguments: &[Argument],
    otherwise: u8,
    writer: &mut W,
) -> io::Result<()>
    ensures whole { OnOk result (Appends (W.contents writer.old) (W.contents writer.new)
        (spaced (codes "call" ∷ variable_text to ∷ name.now ∷ argument_words arguments.now otherwise))) }
    ensures begun { OnErr result (AppendsBeginning (W.contents writer.old) (W.contents writer.new)
        (spaced (codes "call" ∷ variable_text to ∷ name.now ∷ argument_words arguments.now otherwise))) }
{
    write_operand(b"call ", to, writer)?;
    write_bytes(b" ", writer)?;
    write_bytes(name, writer)?;
    write_arguments(arguments, writer)?;
    write_numeral(b" else @", u64::from(otherwise), writer)
}

/// Writes the variable of each argument behind a space.
fn write_arguments<W: Write>(arguments: &[Argument], writer: &mut W) -> io::Result<()>
    ensures whole { OnOk result (Appends (W.contents writer.old) (W.contents writer.new)
        (flat_map (λ a. 32 ∷ variable_text a.from) arguments.now)) }
    ensures begun { OnErr result (AppendsBeginning (W.contents writer.old) (W.contents writer.new)
        (flat_map (λ a. 32 ∷ variable_text a.from) arguments.now)) }
{
    for argument in arguments {
        write_operand(b" ", argument.from, writer)?;
    }
    Ok(())
}

/// Writes the bytes and then the variable, the number, `else` and the target.
fn write_birth<W: Write>(
    before: &[u8],
    to: Variable,
    number: u32,
    otherwise: u8,
    writer: &mut W,
) -> io::Result<()>
    ensures whole { OnOk result (Appends (W.contents writer.old) (W.contents writer.new)
        (before.now ++ spaced (variable_text to ∷ decimal number ∷ codes "else" ∷ target_text otherwise ∷ []))) }
    ensures begun { OnErr result (AppendsBeginning (W.contents writer.old) (W.contents writer.new)
        (before.now ++ spaced (variable_text to ∷ decimal number ∷ codes "else" ∷ target_text otherwise ∷ []))) }
{
    write_operand(before, to, writer)?;
    write_numeral(b" ", u64::from(number), writer)?;
    write_numeral(b" else @", u64::from(otherwise), writer)
}

/// Writes the bytes and then the variable, the object, the number, `else` and the target.
fn write_taking<W: Write>(
    before: &[u8],
    to: Variable,
    object: Variable,
    number: u32,
    otherwise: u8,
    writer: &mut W,
) -> io::Result<()>
    ensures whole { OnOk result (Appends (W.contents writer.old) (W.contents writer.new)
        (before.now ++ spaced (variable_text to ∷ variable_text object ∷ decimal number ∷ codes "else"
        ∷ target_text otherwise ∷ []))) }
    ensures begun { OnErr result (AppendsBeginning (W.contents writer.old) (W.contents writer.new)
        (before.now ++ spaced (variable_text to ∷ variable_text object ∷ decimal number ∷ codes "else"
        ∷ target_text otherwise ∷ []))) }
{
    write_operands(before, to, object, writer)?;
    write_numeral(b" ", u64::from(number), writer)?;
    write_numeral(b" else @", u64::from(otherwise), writer)
}

/// Writes the bytes and then the list, the index, the variable, `else` and the target.
fn write_store<W: Write>(
    before: &[u8],
    list: Variable,
    index: u8,
    from: Variable,
    otherwise: u8,
    writer: &mut W,
) -> io::Result<()>
    ensures whole { OnOk result (Appends (W.contents writer.old) (W.contents writer.new)
        (before.now ++ spaced (variable_text list ∷ decimal index ∷ variable_text from ∷ codes "else"
        ∷ target_text otherwise ∷ []))) }
    ensures begun { OnErr result (AppendsBeginning (W.contents writer.old) (W.contents writer.new)
        (before.now ++ spaced (variable_text list ∷ decimal index ∷ variable_text from ∷ codes "else"
        ∷ target_text otherwise ∷ []))) }
{
    write_operand(before, list, writer)?;
    write_numeral(b" ", u64::from(index), writer)?;
    write_operand(b" ", from, writer)?;
    write_numeral(b" else @", u64::from(otherwise), writer)
}

fn write_open<W: Write>(
    to: Variable,
    path: u8,
    mode: Mode,
    otherwise: u8,
    writer: &mut W,
) -> io::Result<()>
    ensures whole { OnOk result (Appends (W.contents writer.old) (W.contents writer.new)
        (instruction_text [] (Open to path mode otherwise))) }
    ensures begun { OnErr result (AppendsBeginning (W.contents writer.old) (W.contents writer.new)
        (instruction_text [] (Open to path mode otherwise))) }
{
    write_operand(b"open ", to, writer)?;
    write_numeral(b" ", u64::from(path), writer)?;
    write_word(b" ", mode.name(), writer)?;
    write_numeral(b" else @", u64::from(otherwise), writer)
}

/// Writes the bytes and then the two variables, `else` and the target.
fn write_pair<W: Write>(
    before: &[u8],
    first: Variable,
    second: Variable,
    otherwise: u8,
    writer: &mut W,
) -> io::Result<()>
    ensures whole { OnOk result (Appends (W.contents writer.old) (W.contents writer.new)
        (before.now ++ spaced (variable_text first ∷ variable_text second ∷ codes "else"
        ∷ target_text otherwise ∷ []))) }
    ensures begun { OnErr result (AppendsBeginning (W.contents writer.old) (W.contents writer.new)
        (before.now ++ spaced (variable_text first ∷ variable_text second ∷ codes "else"
        ∷ target_text otherwise ∷ []))) }
{
    write_operands(before, first, second, writer)?;
    write_numeral(b" else @", u64::from(otherwise), writer)
}

fn write_as<W: Write>(from: Variable, kind: Kind, otherwise: u8, writer: &mut W) -> io::Result<()>
    ensures whole { OnOk result (Appends (W.contents writer.old) (W.contents writer.new)
        (instruction_text [] (As from kind otherwise))) }
    ensures begun { OnErr result (AppendsBeginning (W.contents writer.old) (W.contents writer.new)
        (instruction_text [] (As from kind otherwise))) }
{
    write_operand(b"as ", from, writer)?;
    write_word(b" ", kind.name(), writer)?;
    write_numeral(b" else @", u64::from(otherwise), writer)
}

fn write_take<W: Write>(to: Variable, list: u8, writer: &mut W) -> io::Result<()>
    ensures whole { OnOk result (Appends (W.contents writer.old) (W.contents writer.new)
        (instruction_text [] (Take to list))) }
    ensures begun { OnErr result (AppendsBeginning (W.contents writer.old) (W.contents writer.new)
        (instruction_text [] (Take to list))) }
{
    write_operand(b"take ", to, writer)?;
    write_numeral(b" ", u64::from(list), writer)
}

fn write_again<W: Write>(target: u8, times: u16, writer: &mut W) -> io::Result<()>
    ensures whole { OnOk result (Appends (W.contents writer.old) (W.contents writer.new)
        (instruction_text [] (Again target times))) }
    ensures begun { OnErr result (AppendsBeginning (W.contents writer.old) (W.contents writer.new)
        (instruction_text [] (Again target times))) }
{
    write_numeral(b"again @", u64::from(target), writer)?;
    write_numeral(b" ", u64::from(times), writer)
}

/// Writes the bytes and then the word.
pub(crate) fn write_word<W: Write>(before: &[u8], word: &str, writer: &mut W) -> io::Result<()>
    ensures whole { OnOk result (Appends (W.contents writer.old) (W.contents writer.new) (before.now ++ word.now)) }
    ensures begun { OnErr result (AppendsBeginning (W.contents writer.old) (W.contents writer.new)
        (before.now ++ word.now)) }
{
    write_bytes(before, writer)?;
    write_bytes(word.as_bytes(), writer)
}

/// Writes the bytes and then the two variables.
fn write_operands<W: Write>(
    before: &[u8],
    to: Variable,
    from: Variable,
    writer: &mut W,
) -> io::Result<()>
    ensures whole { OnOk result (Appends (W.contents writer.old) (W.contents writer.new)
        (before.now ++ spaced (variable_text to ∷ variable_text from ∷ []))) }
    ensures begun { OnErr result (AppendsBeginning (W.contents writer.old) (W.contents writer.new)
        (before.now ++ spaced (variable_text to ∷ variable_text from ∷ []))) }
{
    write_operand(before, to, writer)?;
    write_operand(b" ", from, writer)
}

/// Writes the bytes and then the variable.
fn write_operand<W: Write>(before: &[u8], variable: Variable, writer: &mut W) -> io::Result<()>
    ensures whole { OnOk result (Appends (W.contents writer.old) (W.contents writer.new)
        (before.now ++ variable_text variable)) }
    ensures begun { OnErr result (AppendsBeginning (W.contents writer.old) (W.contents writer.new)
        (before.now ++ variable_text variable)) }
{
    write_bytes(before, writer)?;
    write_numeral(b"v", u64::from(variable.number()), writer)
}

/// Writes the bytes and then the digits of the number.
pub(crate) fn write_numeral<W: Write>(before: &[u8], number: u64, writer: &mut W) -> io::Result<()>
    ensures whole { OnOk result (Appends (W.contents writer.old) (W.contents writer.new)
        (before.now ++ decimal number)) }
    ensures begun { OnErr result (AppendsBeginning (W.contents writer.old) (W.contents writer.new)
        (before.now ++ decimal number)) }
{
    write_bytes(before, writer)?;
    write_number(number, writer)
}
