use std::alloc::Global;
use std::io;
use std::io::{ErrorKind, Write};

/// The room of an output that takes all that it is given.
pub const ENDLESS: usize = usize::MAX;

/// How many bytes the outputs of a command take.
#[derive(Clone, Copy)]
pub struct Room {
    pub out: usize,
    pub err: usize,
    /// Whether a call is interrupted that finds no room. Otherwise it takes no byte.
    pub interrupts: bool,
}

/// An output that keeps what it takes: all bytes, or as many as it has room for, one a call.
#[derive(Drop)]
pub struct Sink {
    pub taken: Vec<u8>,
    left: usize,
    interrupts: bool,
}

impl Sink {
    /// Returns an output with this room.
    pub fn new(alloc: Global, room: usize, interrupts: bool) -> Sink {
        Sink {
            taken: Vec::new(alloc),
            left: room,
            interrupts,
        }
    }
}

impl Write for Sink {
    fn write(&mut self, buf: &[u8]) -> io::Result<usize> {
        if self.left == ENDLESS {
            self.taken.extend_from_slice(buf)?;
            return Ok(buf.len());
        }
        if self.left == 0 || buf.is_empty() {
            return if self.interrupts {
                Err(io::Error::from(ErrorKind::Interrupted))
            } else {
                Ok(0)
            };
        }
        self.taken.push(buf[0])?;
        self.left -= 1;
        Ok(1)
    }

    fn flush(&mut self) -> io::Result<()> {
        Ok(())
    }
}
