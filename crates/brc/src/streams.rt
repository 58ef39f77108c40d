//! Standard output and standard error, as one that reads the first may leave them.

use std::cell::Cell;
use std::io;
use std::io::{ErrorKind, Write};

/// Standard output, which notes whether its reader is gone (EPIPE).
#[derive(Drop)]
pub struct Output<'g, W> {
    writer: W,
    is_gone: &'g Cell<bool>,
}

impl<'g, W: Write> Output<'g, W> {
    pub fn new(writer: W, is_gone: &'g Cell<bool>) -> Output<'g, W> {
        Output { writer, is_gone }
    }
}

impl<W: Write> Write for Output<'_, W> {
    fn write(&mut self, buf: &[u8]) -> io::Result<usize> {
        match self.writer.write(buf) {
            Ok(taken) => Ok(taken),
            Err(error) => {
                if error.kind() == ErrorKind::BrokenPipe {
                    self.is_gone.set(true);
                }
                Err(error)
            }
        }
    }

    fn flush(&mut self) -> io::Result<()> {
        self.writer.flush()
    }
}

/// Standard error, which takes nothing once the reader of standard output is gone: who has read enough isn't told that
/// the rest can't be written.
#[derive(Drop)]
pub struct Errors<'g, W> {
    writer: W,
    is_gone: &'g Cell<bool>,
}

impl<'g, W: Write> Errors<'g, W> {
    pub fn new(writer: W, is_gone: &'g Cell<bool>) -> Errors<'g, W> {
        Errors { writer, is_gone }
    }
}

impl<W: Write> Write for Errors<'_, W> {
    fn write(&mut self, buf: &[u8]) -> io::Result<usize> {
        if self.is_gone.get() {
            return Ok(buf.len());
        }
        match self.writer.write(buf) {
            Ok(taken) => Ok(taken),
            Err(error) => Err(error),
        }
    }

    fn flush(&mut self) -> io::Result<()> {
        self.writer.flush()
    }
}
