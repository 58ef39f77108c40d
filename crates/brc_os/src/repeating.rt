//! Reads and writes that are made again if a signal interrupts them.
//!
//! A signal may interrupt a call of the system, which then has done nothing, and fails with `Interrupted`. std makes
//! these calls again by itself: open, connect, accept and fsync. It does so in `write_all` too, but not in `read` and
//! `write`, each of which is one call of the system. shutdown isn't interrupted (POSIX), and an interrupted close has
//! closed (Linux, close(2)).

ghost use Rattle.std.specs.Prelude.{◌≡◌, ◌≢◌, ◌<◌, ℕ, List, ◌++◌, length, IfErr, OnOk, OnErr};
ghost use Rattle.std.specs.Io.{ReadsAtMost, WritesAtMost};
ghost use Rattle.std.specs.Io.KnownBytes.{Appends, ReadConsumes, WriteAppends};
ghost use Rattle.std.specs.IoError.{error_kind};

use std::io;
use std::io::{ErrorKind, Read, Write};

/// Reads once, at most as many bytes as there is room for, and returns how many; 0 at the end, or if there is no room.
///
/// If a signal interrupts the read, it is made again: an interruption is never taken for the end.
///
/// # Errors
///
/// The error of the read. `TimedOut` after 2^64 - 1 interruptions.
pub fn read_some<S: Read>(source: &mut S, room: &mut [u8]) -> io::Result<usize>
    ensures bound { ReadsAtMost result room.new }
    ensures bytes { ReadConsumes (S.remaining source.old) (S.remaining source.new) result room.new }
    ensures again { IfErr result (λ error. error_kind error ≢ ErrorKind.Interrupted) }
{
    for _ in 0..u64::MAX {
        match source.read(room) {
            Ok(got) => return Ok(got),
            Err(error) if error.kind() == ErrorKind::Interrupted => {}
            Err(error) => return Err(error),
        }
    }
    Err(io::Error::from(ErrorKind::TimedOut))
}

/// Writes once, and returns how many of the bytes were written, from the first one on.
///
/// If a signal interrupts the write, it is made again.
///
/// # Errors
///
/// The error of the write, which has then written nothing. `TimedOut` after 2^64 - 1 interruptions.
pub fn write_some<T: Write>(target: &mut T, bytes: &[u8]) -> io::Result<usize>
    ensures bound { WritesAtMost result bytes.now }
    ensures bytes { WriteAppends (T.contents target.old) (T.contents target.new) result bytes.now }
    ensures again { IfErr result (λ error. error_kind error ≢ ErrorKind.Interrupted) }
{
    for _ in 0..u64::MAX {
        match target.write(bytes) {
            Ok(count) => return Ok(count),
            Err(error) if error.kind() == ErrorKind::Interrupted => {}
            Err(error) => return Err(error),
        }
    }
    Err(io::Error::from(ErrorKind::TimedOut))
}

/// Writes all bytes, by as many writes as it takes.
///
/// # Errors
///
/// As `write_some`, and `WriteZero` if a write takes no byte. Some of the bytes, from the first one on, have then been
/// written, but not all.
pub fn write_whole<T: Write>(target: &mut T, bytes: &[u8]) -> io::Result<()>
    ensures whole { OnOk result (Appends (T.contents target.old) (T.contents target.new) bytes.now) }
    ensures part { OnErr result ((written : List ℕ) × (rest : List ℕ) × (bytes.now ≡ written ++ rest)
        × (0 < length rest) × Appends (T.contents target.old) (T.contents target.new) written) }
    ensures again { IfErr result (λ error. error_kind error ≢ ErrorKind.Interrupted) }
{
    let mut rest = bytes;
    while !rest.is_empty() {
        let count = write_some(target, rest)?;
        if count == 0 {
            return Err(io::Error::from(ErrorKind::WriteZero));
        }
        rest = &rest[count..];
    }
    Ok(())
}
