//! What is asked of a file or a connection before it is closed.

ghost use Rattle.std.specs.Prelude.{Bool, ⊤, is_err};

use std::fs::File;
use std::io;
use std::net::{Shutdown, TcpStream};

/// A file that was opened for writing.
pub trait Written {
    // A sync has failed or not, and has gone from the first state to the last. Of a file that isn't known only a sync
    // promises this.
    ghost synced: { Self → Bool → Self → Type 0 };

    /// Has the system store what was written (POSIX fsync), with the errors of the system.
    fn sync(&mut self) -> io::Result<()>
        ensures { synced self.old (is_err result) self.new };
}

/// A connection to a peer.
pub trait Connected {
    // As `synced`, of a shutdown.
    ghost shut: { Self → Bool → Self → Type 0 };

    /// Shuts the connection in both directions (POSIX shutdown), with the errors of the system.
    fn shut(&mut self) -> io::Result<()>
        ensures { shut self.old (is_err result) self.new };
}

impl Written for File {
    ghost synced = { λ _ _ _. ⊤ };

    fn sync(&mut self) -> io::Result<()> {
        self.sync_all()
    }
}

impl Connected for TcpStream {
    ghost shut = { λ _ _ _. ⊤ };

    fn shut(&mut self) -> io::Result<()> {
        self.shutdown(Shutdown::Both)
    }
}
