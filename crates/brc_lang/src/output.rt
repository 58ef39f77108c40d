ghost use Rattle.std.specs.Prelude.{OnOk, OnErr, decimal};
ghost use Rattle.std.specs.List.{flat_map};
ghost use Rattle.std.specs.Io.KnownBytes.{Appends};
ghost use Rattle.brc_lang.specs.Written.{AppendsBeginning};

use itoa::Buffer;
use std::io;
use std::io::{ErrorKind, Write};

/// Writes the bytes.
///
/// Returns the writer's error, and `WriteZero` if a call takes no byte. An interrupted call is an error too and isn't
/// repeated. After an error a prefix of the bytes has been written.
pub fn write_bytes<W: Write>(bytes: &[u8], writer: &mut W) -> io::Result<()>
    ensures whole { OnOk result (Appends (W.contents writer.old) (W.contents writer.new) bytes.now) }
    ensures begun { OnErr result (AppendsBeginning (W.contents writer.old) (W.contents writer.new) bytes.now) }
{
    let mut rest = bytes;
    while !rest.is_empty() {
        let taken = writer.write(rest)?;
        if taken == 0 {
            return Err(io::Error::from(ErrorKind::WriteZero));
        }
        rest = &rest[taken..];
    }
    Ok(())
}

/// Writes the pieces one after another, with the errors of `write_bytes`.
pub fn write_pieces<W: Write>(pieces: &[&[u8]], writer: &mut W) -> io::Result<()>
    ensures whole { OnOk result (Appends (W.contents writer.old) (W.contents writer.new)
        (flat_map (λ piece. piece.now) pieces.now)) }
    ensures begun { OnErr result (AppendsBeginning (W.contents writer.old) (W.contents writer.new)
        (flat_map (λ piece. piece.now) pieces.now)) }
{
    for piece in pieces {
        write_bytes(piece, writer)?;
    }
    Ok(())
}

/// Writes the number's decimal digits, with the errors of `write_bytes`.
pub fn write_number<W: Write>(number: u64, writer: &mut W) -> io::Result<()>
    ensures whole { OnOk result (Appends (W.contents writer.old) (W.contents writer.new) (decimal number)) }
    ensures begun { OnErr result (AppendsBeginning (W.contents writer.old) (W.contents writer.new) (decimal number)) }
{
    let mut digits = Buffer::new();
    write_bytes(digits.format(number).as_bytes(), writer)
}
