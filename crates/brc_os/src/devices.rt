//! The files and the sockets of the system.

use std::fs::{File, OpenOptions};
use std::io;
use std::net::{Net, SocketAddr, TcpStream};
use std::rt::Files;

/// What a host asks the system for. Every runtime with files and sockets gives it.
///
/// Unlike `Files` it names no type that isn't a file or a socket, so that threads may share it.
pub trait Devices {
    /// Opens the file (POSIX open), with the errors of the system.
    fn file(&self, options: &OpenOptions, path: &str) -> io::Result<File>;

    /// Connects to the peer (POSIX socket and connect), with the errors of the system.
    fn peer(&self, address: SocketAddr) -> io::Result<TcpStream>;
}

impl<R: Files<File = File> + Net<Stream = TcpStream>> Devices for R {
    fn file(&self, options: &OpenOptions, path: &str) -> io::Result<File> {
        options.open(self, path)
    }

    fn peer(&self, address: SocketAddr) -> io::Result<TcpStream> {
        self.connect(address)
    }
}
