//! The line about a module that was accepted.

ghost use Rattle.std.specs.Prelude.{◌≡◌, ◌*◌, ◌≤◌, OnOk, OnErr};
ghost use Rattle.std.specs.Io.KnownBytes.{Appends};
ghost use Rattle.brc_lang.specs.Limits.{function_limit, instruction_limit};
ghost use Rattle.brc_lang.specs.Written.{AppendsBeginning};
ghost use Rattle.brc_command.specs.Accepted.{instruction_count, counts_text, accepted_text};

use brc_check::Checked;
use brc_lang::{Function, write_pieces};
use itoa::Buffer;
use std::io;
use std::io::Write;

/// Writes the line about an accepted module, with the errors of `brc_lang::write_bytes`.
pub fn write_accepted<W: Write>(checked: &Checked, writer: &mut W) -> io::Result<()>
    ensures whole { OnOk result (Appends (W.contents writer.old) (W.contents writer.new)
        (accepted_text checked.now.module)) }
    ensures begun { OnErr result (AppendsBeginning (W.contents writer.old) (W.contents writer.new)
        (accepted_text checked.now.module)) }
{
    let functions = checked.module().functions.as_slice();
    let mut count = Buffer::new();
    let mut total = Buffer::new();
    let count = count.format(functions.len() as u64).as_bytes();
    let total = total.format(instruction_count(functions)).as_bytes();
    write_counts(count, total, writer)
}

/// Writes the line with the decimal digits of the two counts.
fn write_counts<'p, W: Write>(
    functions: &'p [u8],
    instructions: &'p [u8],
    writer: &mut W,
) -> io::Result<()>
    ensures whole { OnOk result (Appends (W.contents writer.old) (W.contents writer.new)
        (counts_text functions.now instructions.now)) }
    ensures begun { OnErr result (AppendsBeginning (W.contents writer.old) (W.contents writer.new)
        (counts_text functions.now instructions.now)) }
{
    write_pieces(
        &[
            b"accepted ",
            functions,
            b" functions ",
            instructions,
            b" instructions\n",
        ],
        writer,
    )
}

/// Returns the number of instructions of all functions together.
pub fn instruction_count(functions: &[Function]) -> u64
    requires { instruction_count functions.now ≤ function_limit * instruction_limit }
    ensures { result ≡ instruction_count functions.now }
{
    let mut count = 0;
    for function in functions {
        count += function.code.len() as u64;
    }
    count
}
