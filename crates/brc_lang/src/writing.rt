//! From a module to its text.

ghost use Rattle.std.specs.Prelude.{[], ◌≡◌, ◌∷◌, ◌++◌, OnOk, OnErr, decimal};
ghost use Rattle.std.specs.List.{flat_map};
ghost use Rattle.std.specs.Io.KnownBytes.{Appends};
ghost use Rattle.brc_lang.specs.Written.{AppendsBeginning};
ghost use Rattle.brc_lang.specs.Grammar.{spaced, parameter_words, instruction as instruction_text, line as line_text};
ghost use Rattle.brc_lang.specs.Grammar.{instructions as instructions_text, heading as heading_text};
ghost use Rattle.brc_lang.specs.Grammar.{function as function_text, text as module_text, first_line};
ghost use Rattle.brc_lang.specs.Grammar.{static_line, static_lines};

use crate::instruction_text::{write_instruction, write_numeral, write_word};
use crate::module::{Function, Instr, Module};
use crate::output::write_bytes;
use crate::parameter::Parameter;
use crate::sequence::Sequence;
use crate::version::Version;
use std::io;
use std::io::Write;

/// Writes the module's one text, with the errors of `write_bytes`. It takes no memory.
pub fn write<W: Write>(module: &Module, writer: &mut W) -> io::Result<()>
    ensures whole { OnOk result (Appends (W.contents writer.old) (W.contents writer.new) (module_text «module».now)) }
    ensures begun { OnErr result (AppendsBeginning (W.contents writer.old) (W.contents writer.new)
        (module_text «module».now)) }
{
    write_first_line(module.version, writer)?;
    write_statics(module.statics.as_slice(), writer)?;
    let functions = module.functions.as_slice();
    for (number, function) in functions.iter().enumerate() {
        write_function(&functions[..number], function, writer)?;
    }
    Ok(())
}

fn write_first_line<W: Write>(version: Version, writer: &mut W) -> io::Result<()>
    ensures whole { OnOk result (Appends (W.contents writer.old) (W.contents writer.new) (first_line version)) }
    ensures begun { OnErr result (AppendsBeginning (W.contents writer.old) (W.contents writer.new)
        (first_line version)) }
{
    match version {
        Version::One => write_bytes(b"module 1\n", writer),
        Version::Two => write_bytes(b"module 2\n", writer),
        Version::Three => write_bytes(b"module 3\n", writer),
    }
}

fn write_statics<W: Write>(statics: &[Sequence<u32>], writer: &mut W) -> io::Result<()>
    ensures whole { OnOk result (Appends (W.contents writer.old) (W.contents writer.new) (static_lines statics.now)) }
    ensures begun { OnErr result (AppendsBeginning (W.contents writer.old) (W.contents writer.new)
        (static_lines statics.now)) }
{
    for numbers in statics {
        write_static(numbers.as_slice(), writer)?;
    }
    Ok(())
}

fn write_static<W: Write>(numbers: &[u32], writer: &mut W) -> io::Result<()>
    ensures whole { OnOk result (Appends (W.contents writer.old) (W.contents writer.new) (static_line numbers.now)) }
    ensures begun { OnErr result (AppendsBeginning (W.contents writer.old) (W.contents writer.new)
        (static_line numbers.now)) }
{
    write_bytes(b"static", writer)?;
    write_numbers(numbers, writer)?;
    write_bytes(b"\n", writer)
}

/// Writes each number behind a space.
fn write_numbers<W: Write>(numbers: &[u32], writer: &mut W) -> io::Result<()>
    ensures whole { OnOk result (Appends (W.contents writer.old) (W.contents writer.new)
        (flat_map (λ n. 32 ∷ decimal n) numbers.now)) }
    ensures begun { OnErr result (AppendsBeginning (W.contents writer.old) (W.contents writer.new)
        (flat_map (λ n. 32 ∷ decimal n) numbers.now)) }
{
    for number in numbers {
        write_numeral(b" ", u64::from(*number), writer)?;
    }
    Ok(())
}

/// Writes the function, below these.
fn write_function<W: Write>(
    above: &[Function],
    function: &Function,
    writer: &mut W,
) -> io::Result<()>
    ensures whole { OnOk result (Appends (W.contents writer.old) (W.contents writer.new)
        (function_text above.now function.now)) }
    ensures begun { OnErr result (AppendsBeginning (W.contents writer.old) (W.contents writer.new)
        (function_text above.now function.now)) }
{
    write_heading(
        function.name.as_bytes(),
        function.parameters.as_slice(),
        writer,
    )?;
    write_instructions(above, function.code.as_slice(), writer)?;
    write_bytes(b"end\n", writer)
}

fn write_heading<W: Write>(name: &[u8], parameters: &[Parameter], writer: &mut W) -> io::Result<()>
    ensures whole { OnOk result (Appends (W.contents writer.old) (W.contents writer.new)
        (heading_text name.now parameters.now)) }
    ensures begun { OnErr result (AppendsBeginning (W.contents writer.old) (W.contents writer.new)
        (heading_text name.now parameters.now)) }
{
    write_bytes(b"func ", writer)?;
    write_bytes(name, writer)?;
    write_parameters(parameters, writer)?;
    write_bytes(b"\n", writer)
}

/// Writes each parameter behind a space.
fn write_parameters<W: Write>(parameters: &[Parameter], writer: &mut W) -> io::Result<()>
    ensures whole { OnOk result (Appends (W.contents writer.old) (W.contents writer.new)
        (flat_map (λ p. 32 ∷ spaced (parameter_words (p ∷ []))) parameters.now)) }
    ensures begun { OnErr result (AppendsBeginning (W.contents writer.old) (W.contents writer.new)
        (flat_map (λ p. 32 ∷ spaced (parameter_words (p ∷ []))) parameters.now)) }
{
    for parameter in parameters {
        write_parameter(*parameter, writer)?;
    }
    Ok(())
}

/// Writes the parameter behind a space.
fn write_parameter<W: Write>(parameter: Parameter, writer: &mut W) -> io::Result<()>
    ensures whole { OnOk result (Appends (W.contents writer.old) (W.contents writer.new)
        (32 ∷ spaced (parameter_words (parameter ∷ [])))) }
    ensures begun { OnErr result (AppendsBeginning (W.contents writer.old) (W.contents writer.new)
        (32 ∷ spaced (parameter_words (parameter ∷ [])))) }
{
    write_word(b" ", parameter.passing.name(), writer)?;
    write_word(b" ", parameter.kind.name(), writer)
}

fn write_instructions<W: Write>(
    above: &[Function],
    code: &[Instr],
    writer: &mut W,
) -> io::Result<()>
    ensures whole { OnOk result (Appends (W.contents writer.old) (W.contents writer.new)
        (instructions_text above.now code.now)) }
    ensures begun { OnErr result (AppendsBeginning (W.contents writer.old) (W.contents writer.new)
        (instructions_text above.now code.now)) }
{
    for instr in code {
        write_line(above, *instr, writer)?;
    }
    Ok(())
}

fn write_line<W: Write>(above: &[Function], instr: Instr, writer: &mut W) -> io::Result<()>
    ensures whole { OnOk result (Appends (W.contents writer.old) (W.contents writer.new)
        (line_text (instruction_text above.now instr))) }
    ensures begun { OnErr result (AppendsBeginning (W.contents writer.old) (W.contents writer.new)
        (line_text (instruction_text above.now instr))) }
{
    write_instruction(above, instr, writer)?;
    write_bytes(b"\n", writer)
}
