//! Reads and writes that a signal interrupts, over a source and a target that answer by a plan.

use brc_os::{read_some, write_whole};
use std::alloc::Global;
use std::io;
use std::io::{ErrorKind, Read, Write};

/// How a call of the system ends: the most bytes that it moves, or its error.
type Answer = Result<usize, ErrorKind>;

const INTERRUPTED: Answer = Err(ErrorKind::Interrupted);

const BROKEN: Answer = Err(ErrorKind::BrokenPipe);

/// The most bytes of one read.
const ROOM: usize = 8;

/// Returns how the plan's call with this number ends.
fn planned(plan: &[Answer], call: usize) -> io::Result<usize> {
    match plan.get(call) {
        Some(Ok(most)) => Ok(*most),
        Some(Err(kind)) => Err(io::Error::from(*kind)),
        None => Err(io::Error::other("the plan has no such call")),
    }
}

/// A source that gives these bytes.
#[derive(Drop)]
struct Source<'a> {
    plan: &'a [Answer],
    calls: usize,
    bytes: &'a [u8],
}

impl Read for Source<'_> {
    fn read(&mut self, buf: &mut [u8]) -> io::Result<usize> {
        let call = self.calls;
        self.calls = call.saturating_add(1);
        let most = planned(self.plan, call)?.min(buf.len());
        self.bytes.read(&mut buf[..most])
    }
}

/// A target that keeps what it is given.
#[derive(Drop)]
struct Target<'a> {
    plan: &'a [Answer],
    calls: usize,
    bytes: Vec<u8>,
}

impl Write for Target<'_> {
    fn write(&mut self, buf: &[u8]) -> io::Result<usize> {
        let call = self.calls;
        self.calls = call.saturating_add(1);
        let count = planned(self.plan, call)?.min(buf.len());
        self.bytes.extend_from_slice(&buf[..count])?;
        Ok(count)
    }

    fn flush(&mut self) -> io::Result<()> {
        Ok(())
    }
}

/// Reads of a source of `abcdef`: its name, its plan, and what the reads answer.
type Reads<'a> = (&'a str, &'a [Answer], &'a [Result<&'a [u8], ErrorKind>]);

const READS: &[Reads] = &[
    (
        "interrupted twice, then a part, the rest and the end",
        &[
            INTERRUPTED,
            INTERRUPTED,
            Ok(2),
            INTERRUPTED,
            Ok(ROOM),
            INTERRUPTED,
            Ok(ROOM),
        ],
        &[Ok(b"ab"), Ok(b"cdef"), Ok(b"")],
    ),
    (
        "a fault after an interruption",
        &[Ok(2), INTERRUPTED, BROKEN, Ok(ROOM)],
        &[Ok(b"ab"), Err(ErrorKind::BrokenPipe), Ok(b"cdef")],
    ),
];

/// Returns whether the reads answer as they have to.
fn reads_as(plan: &[Answer], answers: &[Result<&[u8], ErrorKind>]) -> bool {
    let mut source = Source {
        plan,
        calls: 0,
        bytes: b"abcdef",
    };
    for want in answers {
        if !is_read(&mut source, *want) {
            return false;
        }
    }
    source.calls == plan.len()
}

fn is_read(source: &mut Source<'_>, want: Result<&[u8], ErrorKind>) -> bool {
    let mut room = [0u8; ROOM];
    match read_some(source, &mut room) {
        Ok(got) => want == Ok(&room[..got]),
        Err(error) => want == Err(error.kind()),
    }
}

/// A write of `abcdef`: its name, its plan, what it answers, and what was written.
type Written<'a> = (&'a str, &'a [Answer], Result<(), ErrorKind>, &'a [u8]);

const WRITES: &[Written] = &[
    (
        "interrupted twice, then a part and the rest",
        &[INTERRUPTED, INTERRUPTED, Ok(2), INTERRUPTED, Ok(ROOM)],
        Ok(()),
        b"abcdef",
    ),
    (
        "a fault after an interruption",
        &[Ok(2), INTERRUPTED, BROKEN],
        Err(ErrorKind::BrokenPipe),
        b"ab",
    ),
    (
        "a write that takes no byte",
        &[Ok(2), Ok(0)],
        Err(ErrorKind::WriteZero),
        b"ab",
    ),
];

/// Returns whether the write answers as it has to, and has written these bytes.
fn writes_as(alloc: Global, plan: &[Answer], want: Result<(), ErrorKind>, written: &[u8]) -> bool {
    let mut target = Target {
        plan,
        calls: 0,
        bytes: Vec::new(alloc),
    };
    let answer = write_whole(&mut target, b"abcdef");
    let is_answered = answer.map_err(|error| error.kind()) == want;
    is_answered && target.bytes.as_slice() == written && target.calls == plan.len()
}

#[test]
fn an_interrupted_call_is_made_again(rt: HostRuntime) {
    for (name, plan, answers) in READS {
        assert!(rt; reads_as(plan, answers), "{name}");
    }
    for (name, plan, want, written) in WRITES {
        assert!(rt; writes_as(rt.alloc(), plan, *want, written), "{name}");
    }
}
