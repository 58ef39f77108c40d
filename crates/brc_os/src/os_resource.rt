ghost use Rattle.std.specs.Prelude.{◌≤◌, IfOk, is_err, length};
ghost use Rattle.brc_lang.specs.Limits.{read_limit};
ghost use Rattle.brc_os.specs.Closing.{IsClosedBy};

use crate::ending::{Connected, Written};
use crate::repeating::{read_some, write_whole};
use brc_host::Fault;
use std::fs::File;
use std::io;
use std::net::TcpStream;

/// The most bytes of one read.
const MOST_BYTES: usize = 4096;

/// An open file, or the connection to a peer.
#[derive(Drop)]
pub enum OsResource<F = File, P = TcpStream> {
    /// A file that was opened for reading only.
    ReadFile(F),
    /// A file that was opened for writing, so its close syncs it.
    WrittenFile(F),
    /// The connection to a peer.
    Peer(P),
}

impl OsResource {
    /// Reads once, at most `most` bytes, and returns how many it has read; 0 at the end.
    pub(crate) fn read(&mut self, most: u16) -> Result<u16, Fault>
        requires { most ≤ read_limit }
        ensures { IfOk result (λ got. got ≤ most) }
    {
        let mut room = [0u8; MOST_BYTES];
        match self.read_into(&mut room[..usize::from(most)]) {
            Ok(got) => Ok(got as u16),
            Err(_) => Err(Fault),
        }
    }

    fn read_into(&mut self, room: &mut [u8]) -> io::Result<usize>
        ensures { IfOk result (λ got. got ≤ length room.old) }
    {
        match self {
            OsResource::ReadFile(file) | OsResource::WrittenFile(file) => read_some(file, room),
            OsResource::Peer(stream) => read_some(stream, room),
        }
    }

    /// Writes all bytes, or fails.
    pub(crate) fn write(&mut self, bytes: &[u8]) -> Result<(), Fault> {
        let written = match self {
            OsResource::ReadFile(file) | OsResource::WrittenFile(file) => write_whole(file, bytes),
            OsResource::Peer(stream) => write_whole(stream, bytes),
        };
        written.or(Err(Fault))
    }
}

impl<F: Written + Drop, P: Connected + Drop> OsResource<F, P> {
    /// Syncs a file that was opened for writing (fsync), so that what the system couldn't store is a fault, or shuts a
    /// connection in both directions (shutdown); then closes it (close), also if that failed.
    pub fn close(self) -> Result<(), Fault>
        ensures { IsClosedBy F.synced P.shut self (is_err result) }
    {
        let ended = match self {
            OsResource::ReadFile(_file) => Ok(()),
            OsResource::WrittenFile(mut file) => file.sync(),
            OsResource::Peer(mut stream) => stream.shut(),
        };
        ended.or(Err(Fault))
    }
}
