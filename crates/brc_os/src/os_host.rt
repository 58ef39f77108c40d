ghost use Rattle.std.specs.Prelude.{◌≡◌, ◌≤◌, true, length, map, is_err};
ghost use Rattle.std.specs.String.{string_bytes};
ghost use Rattle.brc_os.specs.HostStates.{AnswersForSystem, new_host};

use crate::devices::Devices;
use crate::os_resource::OsResource;
use bitflags::Flags;
use brc_host::{Fault, Host, HostCounts};
use brc_lang::Mode;
use std::fs::OpenOptions;
use std::marker::Model;
use std::net::SocketAddr;

/// The files and the peers that a run was given, by their numbers from 0.
///
/// A call fails if the system's call fails. So does one that opens a path or connects to a peer whose number wasn't
/// given, or connects to a peer that isn't an IP address and a port, as `127.0.0.1:8080` or `[::1]:8080`: no name is
/// looked up.
///
/// No contract can say what files and peers hold, nor whether the system fails. The contracts say which files and peers
/// the host was given, that a number of none of them fails, and how the calls are counted.
#[derive(Drop)]
pub struct OsHost<'r, R> {
    rt: &'r R,
    paths: &'r [String],
    peers: &'r [String],
    counts: HostCounts,
}

// A contract sees all but the system.
impl<'r, R> Model for OsHost<'r, R> {
    ghost use Rattle.std.specs.Prelude.{map};
    ghost use Rattle.std.specs.String.{string_bytes};
    ghost use Rattle.brc_os.specs.HostStates.{HostState};

    ghost Value = { HostState };

    ghost view = { λ host. record {
      paths = map string_bytes host.paths.now;
      peers = map string_bytes host.peers.now;
      counts = host.counts;
    } };
}

impl<'r, R: Devices> OsHost<'r, R> {
    /// Returns a host over the system behind `rt`, which reaches just these files and these peers.
    pub fn new(rt: &'r R, paths: &'r [String], peers: &'r [String]) -> OsHost<'r, R>
        ensures { result ≡ new_host (map string_bytes paths.now) (map string_bytes peers.now) }
    {
        OsHost {
            rt,
            paths,
            peers,
            counts: HostCounts::new(),
        }
    }

    // Opens the file as the mode says (POSIX open). It has no O_TRUNC, so a file that is there keeps its bytes.
    fn open_file(&self, path: u8, mode: Mode) -> Result<OsResource, Fault>
        ensures beyond { length self.now.paths ≤ path → is_err result ≡ true }
    {
        let Some(path) = self.paths.get(usize::from(path)) else {
            return Err(Fault);
        };
        let is_written = mode.contains(Mode::WRITE);
        let mut options = OpenOptions::new();
        options.read(mode.contains(Mode::READ));
        options.write(is_written);
        options.create(mode.contains(Mode::CREATE));
        match self.rt.file(&options, path.as_str()) {
            Ok(file) if is_written => Ok(OsResource::WrittenFile(file)),
            Ok(file) => Ok(OsResource::ReadFile(file)),
            Err(_) => Err(Fault),
        }
    }

    // Connects to the peer (POSIX socket and connect).
    fn connect_peer(&self, peer: u8) -> Result<OsResource, Fault>
        ensures beyond { length self.now.peers ≤ peer → is_err result ≡ true }
    {
        let Some(peer) = self.peers.get(usize::from(peer)) else {
            return Err(Fault);
        };
        let Ok(address) = peer.as_str().parse::<SocketAddr>() else {
            return Err(Fault);
        };
        match self.rt.peer(address) {
            Ok(stream) => Ok(OsResource::Peer(stream)),
            Err(_) => Err(Fault),
        }
    }
}

impl<R: Devices> Host for OsHost<'_, R> {
    type Res = OsResource;

    ghost counts = { λ host. host.counts };

    ghost answers = { AnswersForSystem };

    fn open(&mut self, path: u8, mode: Mode) -> Result<OsResource, Fault> {
        let file = self.open_file(path, mode);
        self.counts.count_opening(&file);
        file
    }

    fn connect(&mut self, peer: u8) -> Result<OsResource, Fault> {
        let connection = self.connect_peer(peer);
        self.counts.count_opening(&connection);
        connection
    }

    fn read(&mut self, from: &mut OsResource, most: u16) -> Result<u16, Fault> {
        let got = from.read(most);
        self.counts.count_use(&got);
        got
    }

    fn write(&mut self, to: &mut OsResource, bytes: &[u8]) -> Result<(), Fault> {
        let written = to.write(bytes);
        self.counts.count_use(&written);
        written
    }

    fn close(&mut self, resource: OsResource) -> Result<(), Fault> {
        let closed = resource.close();
        self.counts.count_close(&closed);
        closed
    }

    fn failures(&self) -> u64 {
        self.counts.failures
    }

    fn opened(&self) -> u64 {
        self.counts.opened
    }

    fn closed(&self) -> u64 {
        self.counts.closed
    }
}
