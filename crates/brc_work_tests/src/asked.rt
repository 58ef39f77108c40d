//! What a worker asks of its host, and when: within its calls, and what the instructions say.

ghost use Rattle.std.specs.Prelude.{◌≡◌, ◌<◌, [], length};
ghost use Rattle.brc_model.specs.Threads.{function_at};
ghost use Rattle.brc_work.specs.Fits.{IsHeapOf};
ghost use Rattle.brc_work_tests.specs.Ready.{HoldsRoot};
ghost use Rattle.brc_host.specs.FakeHost.{AnswersByPlan};

use crate::calls::{makes_calls, opened, worker_hand};
use crate::hearing::{Hearing, ORDERS, WORKER, heard_after};
use crate::runs::MOST_ROWS;
use bitflags::Flags;
use brc_check::Checked;
use brc_fixtures::{accepted, last_function};
use brc_heap::{Hand, Heap};
use brc_host::{FakeHost, FakeResource, Fault, Host};
use brc_lang::Mode;
use std::alloc::Global;
use std::sync::Wait;
use std::test::*;

/// What a host should be asked for: the path and the mode of a file, a peer, how many bytes to read, and the bytes to
/// write.
#[derive(Drop)]
struct Asked<'a> {
    path: u8,
    mode: Mode,
    peer: u8,
    most: u16,
    bytes: &'a [u8],
}

/// How many calls of `open`, `connect`, `read` and `write` asked for what they should, within a call of the worker,
/// and how many others there were.
#[derive(Drop)]
struct Notes {
    right: u64,
    others: u64,
}

impl Notes {
    /// Notes a call of the host, after a gate has heard so much.
    fn note(&mut self, right: bool, heard: Option<u64>) {
        let within = match heard {
            Some(heard) => heard % 2 == 1,
            None => false,
        };
        if right && within {
            self.right = self.right.saturating_add(1);
        } else {
            self.others = self.others.saturating_add(1);
        }
    }
}

/// A host in which no call fails, and which notes whether it is asked for what it should be.
#[derive(Drop)]
struct NotingHost<'a> {
    fake: FakeHost<'a>,
    gate: &'a Hearing,
    asked: &'a Asked<'a>,
    notes: Notes,
}

impl Host for NotingHost<'_> {
    type Res = FakeResource;

    ghost counts = { λ host. host.fake.counts };

    ghost answers = { λ before call after. AnswersByPlan before.fake call after.fake };

    fn open(&mut self, path: u8, mode: Mode) -> Result<FakeResource, Fault> {
        let right = path == self.asked.path && mode == self.asked.mode;
        self.notes.note(right, self.gate.heard());
        self.fake.open(path, mode)
    }

    fn connect(&mut self, peer: u8) -> Result<FakeResource, Fault> {
        self.notes.note(peer == self.asked.peer, self.gate.heard());
        self.fake.connect(peer)
    }

    fn read(&mut self, from: &mut FakeResource, most: u16) -> Result<u16, Fault> {
        self.notes.note(most == self.asked.most, self.gate.heard());
        self.fake.read(from, most)
    }

    fn write(&mut self, to: &mut FakeResource, bytes: &[u8]) -> Result<(), Fault> {
        self.notes
            .note(*bytes == *self.asked.bytes, self.gate.heard());
        self.fake.write(to, bytes)
    }

    fn close(&mut self, resource: FakeResource) -> Result<(), Fault> {
        self.fake.close(resource)
    }

    fn failures(&self) -> u64 {
        self.fake.failures()
    }

    fn opened(&self) -> u64 {
        self.fake.opened()
    }

    fn closed(&self) -> u64 {
        self.fake.closed()
    }
}

/// Lets a worker call the last function of the text's module twice. Returns how many calls of the host asked for what
/// they should, and how many others there were.
fn noted<R: Wait>(
    rt: &R,
    alloc: Global,
    text: &[u8],
    asked: &Asked<'_>,
) -> Result<(u64, u64), Fail> {
    let checked = accepted(alloc, text)?;
    noted_of(rt, alloc, &checked, asked)
}

/// Does what `noted` does, of a module that is accepted.
fn noted_of<R: Wait>(
    rt: &R,
    alloc: Global,
    checked: &Checked,
    asked: &Asked<'_>,
) -> Result<(u64, u64), Fail> {
    let function = last_function(checked)?;
    let (heap, mut main) = opened(alloc, checked, 1, MOST_ROWS)?;
    let mut hand = worker_hand(&heap, &mut main, WORKER)?;
    Ok(notes_of(rt, &heap, checked, function, &mut hand, asked))
}

/// Lets the worker make its calls. Returns what `noted` does.
fn notes_of<R: Wait>(
    rt: &R,
    heap: &Heap<FakeResource>,
    checked: &Checked,
    function: usize,
    hand: &mut Hand<FakeResource>,
    asked: &Asked<'_>,
) -> (u64, u64)
    requires function { function < length checked.now.module.functions }
    requires parameters { (function_at checked.now.module.functions function).parameters ≡ [] }
    requires heap { IsHeapOf checked.now.module heap.now }
    requires holds { HoldsRoot heap.now hand.old }
{
    let gate = Hearing::new();
    let mut host = NotingHost {
        fake: FakeHost::new(&[]),
        gate: &gate,
        asked,
        notes: Notes {
            right: 0,
            others: 0,
        },
    };
    makes_calls(
        rt,
        heap,
        checked,
        function,
        2,
        u64::MAX,
        hand,
        &mut host,
        &gate,
    );
    (host.notes.right, host.notes.others)
}

/// Reads from a file, and writes to a peer how many bytes that were. A `FakeHost` reads as many as it is asked for.
const READ_AND_TELL: &[u8] =
    b"module 1\nfunc f\nopen v1 3 rwc else @13\nconnect v2 5 else @12\nlock v1\nread v3 v1 4096 else @10\n\
    unlock v1\nlock v2\nwrite v2 v3 else @7\nunlock v2\ndrop v3\ngoto @11\nunlock v1\ndrop v2\ndrop v1\nfail\nend\n";

/// Writes the number 0 to a file.
const WRITE_LEAST: &[u8] =
    b"module 1\nfunc f\nopen v1 15 w else @7\nnum v2 0 else @6\nlock v1\nwrite v1 v2 else @4\n\
    unlock v1\ndrop v2\ndrop v1\nfail\nend\n";

/// Writes the greatest number to a file.
const WRITE_MOST: &[u8] =
    b"module 1\nfunc f\nopen v1 15 w else @7\nnum v2 4294967295 else @6\nlock v1\nwrite v1 v2 else @4\n\
    unlock v1\ndrop v2\ndrop v1\nfail\nend\n";

/// The host is asked to read from a file, and to write to a peer.
fn told() -> Asked<'static> {
    Asked {
        path: 3,
        mode: Mode::READ.union(Mode::WRITE).union(Mode::CREATE),
        peer: 5,
        most: 4096,
        bytes: b"4096\n",
    }
}

/// The host is asked to write these bytes to a file.
fn written(bytes: &[u8]) -> Asked<'_> {
    Asked {
        path: 15,
        mode: Mode::WRITE,
        peer: 0,
        most: 0,
        bytes,
    }
}

/// Modules that write a number to a file, and what they write.
const WRITES: &[(&[u8], &[u8])] = &[(WRITE_LEAST, b"0\n"), (WRITE_MOST, b"4294967295\n")];

/// The gate by which the host knows that it is within a call notes, for its part, what is out of order.
#[test]
fn the_host_is_asked_for_what_the_instructions_say(rt: HostRuntime) -> Result<(), Fail> {
    let alloc = rt.alloc();
    assert_eq!(rt; noted(&rt, alloc, READ_AND_TELL, &told())?, (8, 0));
    for (text, bytes) in WRITES {
        assert_eq!(rt;
            noted(&rt, alloc, text, &written(bytes))?,
            (4, 0),
            "{bytes:?}"
        );
    }
    for (name, calls, heard) in ORDERS {
        assert_eq!(rt; heard_after(calls), *heard, "{name}");
    }
    Ok(())
}
