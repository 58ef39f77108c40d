ghost use Rattle.std.specs.Prelude.{◌≡◌, ◌≤◌, IfOk, is_err};
ghost use Rattle.std.specs.Result.{result_ok};
ghost use Rattle.brc_lang.specs.Limits.{read_limit};
ghost use Rattle.brc_host.specs.declared.counts.HostCounts.{HostCounts};
ghost use Rattle.brc_host.specs.HostCalls.{HostCall, Open, Connect, Read, Write, Close, after_call};

use brc_lang::Mode;
use thiserror::Error;

/// A call of the host has failed.
#[derive(Clone, Copy, Debug, PartialEq, Eq, Error)]
#[error("host fault")]
pub struct Fault;

/// What a module asks of the system: to open files, to connect to peers, to read, write and close both.
///
/// Any call may fail, whatever the program does, and each failure is counted. A call may wait for a file or a peer. It
/// needs no handle for that, since the system's calls take none: a host that needs the runtime keeps a reference to it.
pub trait Host {
    /// An open file, or the connection to a peer.
    type Res: Send + Drop;

    // What it has counted so far.
    ghost counts: { Self → HostCounts };

    // Asked for this call, it has answered as the call says, and has gone from the first state to the last. Of a host
    // that isn't known only its calls promise this: a caller that can say which calls have led there has made just
    // these.
    ghost answers: { Self → HostCall → Self → Type 0 };

    /// Opens the file with this number, of those that the run was given (POSIX open). It fails if there is none.
    fn open(&mut self, path: u8, mode: Mode) -> Result<Self::Res, Fault>
        ensures counted { counts self.new ≡ after_call (Open path mode (is_err result)) (counts self.old) }
        ensures answers { answers self.old (Open path mode (is_err result)) self.new };

    /// Connects to the peer with this number, of those that the run was given (POSIX connect). It fails if there is
    /// none.
    fn connect(&mut self, peer: u8) -> Result<Self::Res, Fault>
        ensures counted { counts self.new ≡ after_call (Connect peer (is_err result)) (counts self.old) }
        ensures answers { answers self.old (Connect peer (is_err result)) self.new };

    /// Reads at most `most` bytes and returns how many it has read; 0 at the end of a file, or if the peer has shut its
    /// side (POSIX read).
    fn read(&mut self, from: &mut Self::Res, most: u16) -> Result<u16, Fault>
        requires { most ≤ read_limit }
        ensures at_most { IfOk result (λ got. got ≤ most) }
        ensures counted { counts self.new ≡ after_call (Read most (result_ok result)) (counts self.old) }
        ensures answers { answers self.old (Read most (result_ok result)) self.new };

    /// Writes all bytes. After a fault nothing is known of how many went out.
    fn write(&mut self, to: &mut Self::Res, bytes: &[u8]) -> Result<(), Fault>
        ensures counted { counts self.new ≡ after_call (Write bytes.now (is_err result)) (counts self.old) }
        ensures answers { answers self.old (Write bytes.now (is_err result)) self.new };

    /// Closes the file or the connection. It is closed after a fault too, and can't be closed again (Linux, close(2)).
    fn close(&mut self, resource: Self::Res) -> Result<(), Fault>
        ensures counted { counts self.new ≡ after_call (Close (is_err result)) (counts self.old) }
        ensures answers { answers self.old (Close (is_err result)) self.new };

    /// Returns the number of calls that have failed.
    fn failures(&self) -> u64
        ensures { result ≡ (counts self.now).failures };

    /// Returns the number of files and connections that it has opened.
    fn opened(&self) -> u64
        ensures { result ≡ (counts self.now).opened };

    /// Returns the number of calls of `close`, those that failed too.
    fn closed(&self) -> u64
        ensures { result ≡ (counts self.now).closed };
}
