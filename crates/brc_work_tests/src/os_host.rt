//! The system's host, over files of a temporary folder and peers on loopback.

use crate::fake_host::{Counts, counts_of};
use bitflags::Flags;
use brc_host::{Fault, Host};
use brc_lang::Mode;
use brc_os::OsHost;
use std::alloc::Global;
use std::io::{Read, Write};
use std::net::{Shutdown, SocketAddr, TcpListener};
use std::test::Fail;
use std::{env, fs, io, process, thread};

/// What a write, a read and the close have answered, or the fault of the open.
type Written = Result<(Result<(), Fault>, Result<u16, Fault>, Result<(), Fault>), Fault>;

/// A file that is only written can't be read.
const WRITTEN: Written = Ok((Ok(()), Err(Fault), Ok(())));

/// What five reads, a write and the close have answered, or the fault of the open.
type ReadOn = Result<
    (
        [Result<u16, Fault>; 5],
        Result<(), Fault>,
        Result<(), Fault>,
    ),
    Fault,
>;

/// A read of a file of 5000 bytes goes on where the last one ended. A file that is only read can't be written.
const READ_ON: ReadOn = Ok(([Ok(0), Ok(1), Ok(4096), Ok(903), Ok(0)], Err(Fault), Ok(())));

/// Uses a file of the folder that isn't there yet. Returns whether each use went as it has to, and what was counted.
fn file_used(rt: &HostRuntime, folder: &str) -> Option<([bool; 6], Counts)> {
    let paths = [format!(in rt.alloc(); "{folder}/file").ok()?];
    let file = paths[0].as_str();
    let mut host = OsHost::new(rt, &paths, &[]);
    let uses = uses(rt, &mut host, file);
    Some((uses, counts_of(&host)))
}

/// A mode that makes the file makes it empty; no mode empties one that is there; a write changes its own bytes alone;
/// and a file that was made anew is written and read.
fn uses<H: Host>(rt: &HostRuntime, host: &mut H, file: &str) -> [bool; 6] {
    let made = made_empty(rt, host, file);
    let alike = left_alone(rt, host, file);
    let changed = written(host, Mode::WRITE, b"17\n");
    let has_changed = has(rt, file, b"17\ndef");
    let is_removed = fs::remove_file(rt, file).is_ok();
    let made_anew = written(host, Mode::WRITE.union(Mode::CREATE), &[7; 5000]);
    let got = read_on(host);
    [
        made == 2,
        alike == 5,
        changed == WRITTEN,
        has_changed && is_removed,
        made_anew == WRITTEN,
        got == READ_ON,
    ]
}

/// The modes of the language: r, w, rw, wc and rwc.
fn modes() -> [Mode; 5] {
    let read_write = Mode::READ.union(Mode::WRITE);
    [
        Mode::READ,
        Mode::WRITE,
        read_write,
        Mode::WRITE.union(Mode::CREATE),
        read_write.union(Mode::CREATE),
    ]
}

/// Returns whether the file has just these bytes.
fn has(rt: &HostRuntime, file: &str, bytes: &[u8]) -> bool {
    match fs::read(rt, file) {
        Ok(read) => read.as_slice() == bytes,
        Err(_) => false,
    }
}

/// Opens the file and closes it. Returns whether it could.
fn is_opened<H: Host>(host: &mut H, mode: Mode) -> bool {
    match host.open(0, mode) {
        Ok(file) => host.close(file).is_ok(),
        Err(_) => false,
    }
}

/// Opens the absent file in each of the modes that make one. Returns how many have made it empty.
fn made_empty<H: Host>(rt: &HostRuntime, host: &mut H, file: &str) -> u64 {
    let mut made: u64 = 0;
    for mode in &modes()[3..] {
        if is_opened(host, *mode) && has(rt, file, b"") && fs::remove_file(rt, file).is_ok() {
            made = made.saturating_add(1);
        }
    }
    made
}

/// Opens a file of six bytes in each mode. Returns how many have left it as it was.
fn left_alone<H: Host>(rt: &HostRuntime, host: &mut H, file: &str) -> u64 {
    let mut alike: u64 = 0;
    if fs::write(rt, file, "abcdef").is_err() {
        return alike;
    }
    for mode in &modes() {
        if is_opened(host, *mode) && has(rt, file, b"abcdef") {
            alike = alike.saturating_add(1);
        }
    }
    alike
}

/// Opens the file, writes the bytes, reads, and closes it.
fn written<H: Host>(host: &mut H, mode: Mode, bytes: &[u8]) -> Written {
    let mut file = host.open(0, mode)?;
    let written = host.write(&mut file, bytes);
    let read = host.read(&mut file, 1);
    Ok((written, read, host.close(file)))
}

/// Opens the file, reads it to its end, writes, and closes it.
fn read_on<H: Host>(host: &mut H) -> ReadOn {
    let mut file = host.open(0, Mode::READ)?;
    let got = [
        host.read(&mut file, 0),
        host.read(&mut file, 1),
        host.read(&mut file, 4096),
        host.read(&mut file, 4096),
        host.read(&mut file, 4096),
    ];
    let written = host.write(&mut file, b"17\n");
    Ok((got, written, host.close(file)))
}

/// Which calls of a connection have failed that the peer resets: two writes and the close.
const RESET: [bool; 3] = [false, true, true];

/// What two reads, a write and the close have answered, or the fault of the connection.
type Talked = Result<
    (
        [Result<u16, Fault>; 2],
        Result<(), Fault>,
        Result<(), Fault>,
    ),
    Fault,
>;

/// The peer sends one byte and shuts its side.
const TALKED: Talked = Ok(([Ok(1), Ok(0)], Ok(()), Ok(())));

/// Files are made, written and read; a peer resets a connection, and another talks.
#[test]
fn files_and_peers_are_used(rt: HostRuntime) -> Result<(), Fail> {
    let name = format!(in rt.alloc(); "brc-host-{}", process::id(rt.process()))?;
    let folder = env::temp_dir(&rt)?.join(rt.alloc(), name.as_str())?;
    fs::create_dir(&rt, folder.as_path())?;
    let folder = folder.into_string();
    let used = file_used(&rt, folder.as_str());
    fs::remove_dir_all(&rt, folder.as_str())?;
    let listener = TcpListener::bind(&rt, "127.0.0.1:0")?;
    let peer = listener.local_addr()?;
    let reset = peers_used(&rt, peer, &listener);
    let alloc = rt.alloc();
    let Ok(server) = thread::spawn(&rt, move || serve(alloc, &listener)) else {
        return Err(Fail::new("no thread"));
    };
    let talked = peer_talked(&rt, peer);
    let is_received = server.join(&rt)?;
    assert_eq!(rt; used, Some(([true; 6], [3, 10, 10])));
    assert_eq!(rt; reset, Some(([true, true], RESET, [4, 1, 1])));
    assert_eq!(rt; (talked, is_received), (Some((TALKED, [0, 1, 1])), true));
    Ok(())
}

/// Connects to a peer that listens by its name, which would be found, and to an address where nobody listens; and then to the
/// first by its address, which resets the connection. Returns whether each of the first two has failed, which calls of
/// the third have, and what was counted.
fn peers_used(
    rt: &HostRuntime,
    peer: SocketAddr,
    listener: &TcpListener,
) -> Option<([bool; 2], [bool; 3], Counts)> {
    let silent = TcpListener::bind(rt, "127.0.0.1:0")
        .ok()?
        .local_addr()
        .ok()?;
    let peers = [
        format!(in rt.alloc(); "{peer}").ok()?,
        format!(in rt.alloc(); "localhost:{}", peer.port()).ok()?,
        format!(in rt.alloc(); "{silent}").ok()?,
    ];
    let mut host = OsHost::new(rt, &[], &peers);
    let missed = [is_missed(&mut host, 1), is_missed(&mut host, 2)];
    let reset = reset(&mut host, listener);
    Some((missed, reset, counts_of(&host)))
}

fn is_missed<H: Host>(host: &mut H, peer: u8) -> bool {
    host.connect(peer).is_err()
}

/// Writes twice to the peer and closes the connection, which the peer closes between the writes. It hasn't read what
/// was sent, so the connection is reset (RFC 1122, 4.2.2.13). Returns which of the three calls have failed.
fn reset<H: Host>(host: &mut H, listener: &TcpListener) -> [bool; 3] {
    match host.connect(0) {
        Ok(mut stream) => {
            let first = host.write(&mut stream, b"17\n").is_err();
            let is_closed = listener.accept().is_ok();
            let second = host.write(&mut stream, b"17\n").is_err();
            [first, is_closed && second, host.close(stream).is_err()]
        }
        Err(_) => [true; 3],
    }
}

/// Sends one byte and no more. Returns whether what comes until the other side is shut is what it has to be.
fn serve(alloc: Global, listener: &TcpListener) -> io::Result<bool> {
    let (mut stream, _) = listener.accept()?;
    stream.write_all(b"h")?;
    stream.shutdown(Shutdown::Write)?;
    let mut received = Vec::new(alloc);
    stream.read_to_end(&mut received)?;
    Ok(received.as_slice() == b"17\n".as_slice())
}

/// Talks to the peer. Returns what the calls have answered, and what was counted.
fn peer_talked(rt: &HostRuntime, peer: SocketAddr) -> Option<(Talked, Counts)> {
    let peers = [format!(in rt.alloc(); "{peer}").ok()?];
    let mut host = OsHost::new(rt, &[], &peers);
    let talked = talk(&mut host);
    Some((talked, counts_of(&host)))
}

/// Reads from the peer until it has shut its side, writes, and closes the connection.
fn talk<H: Host>(host: &mut H) -> Talked {
    let mut stream = host.connect(0)?;
    let got = [host.read(&mut stream, 4096), host.read(&mut stream, 4096)];
    let written = host.write(&mut stream, b"17\n");
    Ok((got, written, host.close(stream)))
}
