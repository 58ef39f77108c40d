//! From bytes to a module, line by line.

ghost use Rattle.std.specs.Prelude.{◌≡◌, ℕ, ◌+◌, ◌<◌, ◌≤◌, ◌^◌, length, OnOk, IfOk, IfErr, MatchResult};
ghost use Rattle.brc_lang.specs.declared.fault.FaultCode.{FaultCode};
ghost use Rattle.brc_lang.specs.declared.module.Module.{Module};
ghost use Rattle.std.specs.List.{AllByRecursion};
ghost use Rattle.brc_lang.specs.Grammar.{Spells, depth_of, called_depth, depths, CallFits};
ghost use Rattle.brc_lang.specs.InstructionWords.{words, instruction_in};
ghost use Rattle.brc_lang.specs.Fault.{end_fault_of};
ghost use Rattle.brc_lang.specs.Fault.{next_instruction_fault_of, HasFault, IsFaultOf, ReadsAs, Refuses, IsBeginning};
ghost use Rattle.brc_lang.specs.Progress.{IsLineFault, Appends, Ends, IsFaultInside, ReadsFunction, KnowsDepths};
ghost use Rattle.brc_lang.specs.Progress.{ReadsPart, IsFaultBelow, read_so_far};
ghost use Rattle.brc_lang.specs.Limits.{function_limit, depth_limit};

use crate::above::Above;
use crate::cursor::Cursor;
use crate::fault::{FaultCode, ReadFault};
use crate::heading::{heading, version};
use crate::instruction::instruction;
use crate::lexing::{is_word, split_line};
use crate::module::{Function, Instr, Module};
use crate::name::Name;
use crate::parameter::Parameter;
use crate::sequence::Sequence;
use crate::static_lines::{is_static, read_static};
use crate::targets::targets_fit;
use std::alloc::Global;

const FIRST_LINE_LENGTH: usize = 9;

const MOST_INSTRUCTIONS: usize = 256;

/// Reads the module that the bytes spell.
///
/// Returns the first faulty line from the top and its fault, or `NoMemory` if memory was refused.
pub fn read(alloc: Global, bytes: &[u8]) -> Result<Module, ReadFault>
    // The bytes are the module's one text.
    ensures found { IfOk result (λ m. Spells bytes.now m) }
    // A refusal is `NoMemory`, or names the one fault that the text has.
    ensures fault { IfErr result (λ e. IsFaultOf bytes.now e) }
    // The text of a module is read as that module, unless memory is refused.
    ensures only { (m : Module) → Spells bytes.now m → ReadsAs result m }
    // A text with a fault is refused for it, unless memory is refused.
    ensures refused { (line : ℕ) (code : FaultCode) → HasFault bytes.now line code → Refuses result line code }
{
    read_module(alloc, bytes)
}

fn read_module(alloc: Global, bytes: &[u8]) -> Result<Module, ReadFault>
    ensures { MatchResult result (λ m. Spells bytes.now m) (λ e. IsFaultOf bytes.now e) }
{
    let Some(version) = version(bytes) else {
        return Err(ReadFault {
            line: 1,
            code: FaultCode::FirstLine,
        });
    };
    let mut above = Above {
        version,
        statics: Sequence::new(alloc),
        functions: Sequence::new(alloc),
        depths: [0; 64],
    };
    let mut cursor = Cursor {
        rest: &bytes[FIRST_LINE_LENGTH..],
        line: 2,
    };
    while !cursor.rest.is_empty() {
        cursor = read_part(alloc, &mut above, cursor)?;
    }
    if above.functions.len() == 0 {
        return Err(ReadFault {
            line: cursor.line,
            code: FaultCode::CutOff,
        });
    }
    Ok(Module {
        version,
        statics: above.statics,
        functions: above.functions,
    })
}

/// Reads the next static line or function, appends it, and returns the position below it.
fn read_part<'a>(
    alloc: Global,
    above: &mut Above,
    cursor: Cursor<'a>,
) -> Result<Cursor<'a>, ReadFault>
    requires some { 0 < length cursor.rest.now }
    requires fits { IsBeginning (read_so_far above.old) }
    requires known { KnowsDepths above.old }
    requires lines { cursor.line + length cursor.rest.now < 2 ^ 64 }
    ensures ok { IfOk result (λ after. ReadsPart above.old above.new cursor.entry after) }
    ensures known { IfOk result (λ _. KnowsDepths above.new) }
    ensures err { IfErr result (λ e.
        IsFaultBelow above.old.version above.old.statics above.old.functions cursor.entry e) }
{
    let line = cursor.line;
    let Some((text, rest)) = split_line(cursor.rest) else {
        return Err(ReadFault {
            line,
            code: FaultCode::CutOff,
        });
    };
    let below = Cursor {
        rest,
        line: line + 1,
    };
    if is_static(above, text) {
        return match read_static(alloc, &mut above.statics, text) {
            Ok(()) => Ok(below),
            Err(code) => Err(ReadFault { line, code }),
        };
    }
    match heading(alloc, above, text) {
        Ok((name, parameters)) => read_function(alloc, above, name, parameters, below),
        Err(code) => Err(ReadFault { line, code }),
    }
}

/// Reads a function of this name and these parameters below its first line, appends it, and returns the position below
/// its last line.
fn read_function<'a>(
    alloc: Global,
    above: &mut Above,
    name: Name,
    parameters: Sequence<Parameter>,
    start: Cursor<'a>,
) -> Result<Cursor<'a>, ReadFault>
    requires known { KnowsDepths above.old }
    requires room { length above.old.functions < function_limit }
    requires lines { start.line + length start.rest.now < 2 ^ 64 }
    ensures ok { IfOk result (λ after. ReadsFunction above.old above.new name parameters start.entry after) }
    ensures known { IfOk result (λ _. KnowsDepths above.new) }
    ensures err { IfErr result (λ e.
        IsFaultInside above.old.version above.old.statics above.old.functions start.entry e) }
{
    let (code, after) = read_body(alloc, above, start)?;
    let number = above.functions.len();
    let depth = depth(above, code.as_slice());
    let function = Function {
        name,
        parameters,
        code,
    };
    match above.functions.push(function) {
        Ok(()) => {
            above.depths[number] = depth;
            Ok(after)
        }
        Err(_) => Err(ReadFault {
            line: after.line - 1,
            code: FaultCode::NoMemory,
        }),
    }
}

/// Returns how many calls may be open at once from a function of this code on.
fn depth(above: &Above, code: &[Instr]) -> u8
    requires known { KnowsDepths above.now }
    requires few { length above.now.functions ≤ function_limit }
    requires calls { AllByRecursion (CallFits above.now.version above.now.functions) code.now }
    ensures { result ≡ depth_of (depths above.now.functions) code.now }
{
    let mut depth = 1;
    for instr in code {
        depth = depth.max(called_depth(above, instr) + 1);
    }
    depth
}

/// Returns the depth of the function that the instruction calls, or 0 if it calls none.
fn called_depth(above: &Above, instr: &Instr) -> u8
    requires known { KnowsDepths above.now }
    requires few { length above.now.functions ≤ function_limit }
    requires calls { CallFits above.now.version above.now.functions instr.now }
    ensures value { result ≡ called_depth (depths above.now.functions) instr.now }
    ensures low { result < depth_limit }
{
    match instr {
        Instr::Call { callee, .. } => above.depths[*callee as usize],
        _ => 0,
    }
}

/// Reads the instructions of a function below its first line, and returns the position below its last line.
fn read_body<'a>(
    alloc: Global,
    above: &Above,
    start: Cursor<'a>,
) -> Result<(Sequence<Instr>, Cursor<'a>), ReadFault>
    requires known { KnowsDepths above.now }
    requires few { length above.now.functions ≤ function_limit }
    requires lines { start.line + length start.rest.now < 2 ^ 64 }
    ensures ok { IfOk result (λ read.
        Ends above.now.version above.now.statics above.now.functions start.entry read.0 read.1) }
    ensures err { IfErr result (λ e.
        IsFaultInside above.now.version above.now.statics above.now.functions start.entry e) }
{
    let mut code = Sequence::new(alloc);
    let mut cursor = start;
    while let Some((text, rest)) = split_line(cursor.rest) {
        let line = cursor.line;
        let below = Cursor {
            rest,
            line: line + 1,
        };
        if is_word(text, b"end") {
            if let Some(code) = end_fault(code.as_slice()) {
                return Err(ReadFault { line, code });
            }
            return Ok((code, below));
        }
        if let Err(code) = read_instruction(above, &mut code, text) {
            return Err(ReadFault { line, code });
        }
        cursor = below;
    }
    Err(ReadFault {
        line: cursor.line,
        code: FaultCode::CutOff,
    })
}

/// Returns the fault of the line that ends a function of this code, or `None`.
fn end_fault(code: &[Instr]) -> Option<FaultCode>
    ensures { result ≡ end_fault_of code.now }
{
    if code.is_empty() {
        Some(FaultCode::OverLimit)
    } else if targets_fit(code) {
        None
    } else {
        Some(FaultCode::Target)
    }
}

/// Reads the instruction of a line and appends it to its function.
fn read_instruction(above: &Above, code: &mut Sequence<Instr>, text: &[u8]) -> Result<(), FaultCode>
    requires known { KnowsDepths above.now }
    requires few { length above.now.functions ≤ function_limit }
    ensures ok { OnOk result (Appends above.now.version above.now.statics above.now.functions code.old code.new
        text.now) }
    ensures err { IfErr result (λ fault. IsLineFault (next_instruction_fault_of code.old
        (instruction_in above.now.version above.now.statics above.now.functions (words text.now))) fault) }
{
    let instr = instruction(above, text)?;
    if code.len() >= MOST_INSTRUCTIONS {
        return Err(FaultCode::OverLimit);
    }
    code.push(instr)?;
    Ok(())
}
