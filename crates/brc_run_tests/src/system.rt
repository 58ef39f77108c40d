//! Runs over the files and the peers of the system.

use crate::runs::{COPY, Counts, Open, report_of};
use brc_run::System;
use std::alloc::{AllocGlobal, Global};
use std::io::Read;
use std::net::{Shutdown, SocketAddr, TcpListener};
use std::rt::Files;
use std::test::Fail;
use std::{env, fs, io, process, thread};

/// Opens a file for writing, makes it where it is absent, and closes it.
const MAKE: &[u8] = b"module 1\nfunc f\nopen v1 0 wc else @2\ndrop v1\nfail\nend\n";

/// How many instructions a worker begins at most that copies, and how many objects it makes. The second instruction
/// connects, and the seventh writes.
const BOUNDS: &[(u64, u64)] = &[
    (0, 1),
    (1, 2),
    (2, 3),
    (3, 3),
    (4, 4),
    (5, 4),
    (6, 4),
    (7, 4),
    (8, 4),
    (9, 4),
    (10, 4),
    (11, 4),
    (12, 4),
    (13, 4),
    (14, 4),
    (15, 4),
    (16, 4),
    (17, 4),
    (18, 4),
    (19, 4),
    (20, 4),
    (u64::MAX, 4),
];

/// How many of the bounds are reached behind the connection, and how many behind the write.
const CONNECTIONS: u64 = 20;

const COPIES: u64 = 15;

/// Lets one worker call the last function of the text's module once, with at most `steps` instructions. Returns the
/// report's numbers.
fn report_on<R: AllocGlobal + System>(
    rt: &R,
    text: &[u8],
    steps: u64,
    paths: &[&str],
    peers: &[&str],
) -> Option<Counts> {
    report_of(rt, rt.alloc(), text, (1, 8, 1, steps), paths, peers, &Open)
}

/// Makes a folder for the test.
fn make_folder(rt: &HostRuntime) -> Result<String, Fail> {
    let name = format!(in rt.alloc(); "brc-run-{}", process::id(rt.process()))?;
    let folder = env::temp_dir(rt)?.join(rt.alloc(), name.as_str())?;
    fs::create_dir(rt, folder.as_path())?;
    Ok(folder.into_string())
}

/// Returns what the peer is sent until the other side is shut.
fn received(alloc: Global, listener: &TcpListener) -> io::Result<Vec<u8>> {
    let (mut stream, _) = listener.accept()?;
    let mut bytes = Vec::new(alloc);
    stream.read_to_end(&mut bytes)?;
    stream.shutdown(Shutdown::Both)?;
    Ok(bytes)
}

/// Returns how many of the first connections are sent `4` and a line feed. The others are sent nothing. The last
/// connection is closed at once.
fn copies(alloc: Global, listener: &TcpListener) -> io::Result<u64> {
    let mut copies: u64 = 0;
    for _ in 0..CONNECTIONS {
        match received(alloc, listener)?.as_slice() {
            b"" => {}
            b"4\n" => copies = copies.saturating_add(1),
            _ => return Err(io::Error::from(io::ErrorKind::InvalidData)),
        }
    }
    drop(listener.accept()?);
    Ok(copies)
}

#[test]
fn a_copy_is_stopped_at_each_bound(rt: HostRuntime) -> Result<(), Fail> {
    let folder = make_folder(&rt)?;
    let listener = TcpListener::bind(&rt, "127.0.0.1:0")?;
    let address = listener.local_addr()?;
    let alloc = rt.alloc();
    let Ok(peer) = thread::spawn(&rt, move || copies(alloc, &listener)) else {
        return Err(Fail::new("no thread"));
    };
    let ran = runs_in(&rt, folder.as_str(), address);
    let copies = peer.join(&rt)?;
    fs::remove_dir_all(&rt, folder.as_str())?;
    assert_eq!(rt; (ran, copies), (Some((true, None, true)), COPIES));
    Ok(())
}

/// Makes a file in the folder, copies from it at each bound, and copies once more to a peer that closes at once.
/// Returns whether the file was made empty, the bound whose report isn't the wanted one, and whether all was closed at
/// the end.
fn runs_in<R: AllocGlobal + System + Files>(
    rt: &R,
    folder: &str,
    address: SocketAddr,
) -> Option<(bool, Option<u64>, bool)> {
    let file = format!(in rt.alloc(); "{folder}/file").ok()?;
    let peer = format!(in rt.alloc(); "{address}").ok()?;
    let is_made = is_made_empty(rt, file.as_str());
    fs::write(rt, file.as_str(), "0123456789").ok()?;
    let missed = missed_bound(rt, file.as_str(), peer.as_str());
    let is_closed = closes_all(rt, file.as_str(), peer.as_str());
    Some((is_made, missed, is_closed))
}

/// Lets a run open the absent file. Returns whether it has made it empty.
fn is_made_empty<R: AllocGlobal + System + Files>(rt: &R, file: &str) -> bool {
    let made = report_on(rt, MAKE, u64::MAX, &[file], &[]);
    match fs::read(rt, file) {
        Ok(bytes) => bytes.is_empty() && made == Some([1, 0, 2, 2, 0, 0, 0]),
        Err(_) => false,
    }
}

/// Stops a copy at each bound. Returns the first bound whose report isn't the wanted one.
fn missed_bound<R: AllocGlobal + System>(rt: &R, file: &str, peer: &str) -> Option<u64> {
    for (steps, created) in BOUNDS {
        let counts = report_on(rt, COPY, *steps, &[file], &[peer]);
        if counts != Some([1, 0, *created, *created, 0, 0, 0]) {
            return Some(*steps);
        }
    }
    None
}

/// Copies to a peer that closes at once. Returns whether, whatever faults are counted, everything that was made is
/// closed.
fn closes_all<R: AllocGlobal + System>(rt: &R, file: &str, peer: &str) -> bool {
    let counts = report_on(rt, COPY, u64::MAX, &[file], &[peer]);
    let [_, _, _, _, _, host_faults, close_faults] = counts.unwrap_or([0; 7]);
    counts == Some([1, 0, 4, 4, 0, host_faults, close_faults])
}
