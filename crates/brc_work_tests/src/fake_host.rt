//! Calls that fail by plan, and what the host counts of them.

use bitflags::Flags;
use brc_host::{FakeHost, Fault, Host};
use brc_lang::Mode;

/// What a read, a write and the close have answered, or the fault of the open.
type Answers = Result<(Result<u16, Fault>, Result<(), Fault>, Result<(), Fault>), Fault>;

/// How many calls have failed, how many files and peers were opened, and how many closed.
pub type Counts = [u64; 3];

/// A plan over the calls 0 open, 1 read of 5 bytes, 2 write and 3 close, the answers, and what was counted. After a
/// failed open no call follows.
type Case = (&'static [u64], Answers, Counts);

const CASES: &[Case] = &[
    (&[], Ok((Ok(5), Ok(()), Ok(()))), [0, 1, 1]),
    (&[4, 5], Ok((Ok(5), Ok(()), Ok(()))), [0, 1, 1]),
    (&[0], Err(Fault), [1, 0, 0]),
    (&[1], Ok((Err(Fault), Ok(()), Ok(()))), [1, 1, 1]),
    (&[2], Ok((Ok(5), Err(Fault), Ok(()))), [1, 1, 1]),
    (&[3], Ok((Ok(5), Ok(()), Err(Fault))), [1, 1, 1]),
    (&[0, 1], Err(Fault), [1, 0, 0]),
    (&[0, 2], Err(Fault), [1, 0, 0]),
    (&[0, 3], Err(Fault), [1, 0, 0]),
    (&[1, 2], Ok((Err(Fault), Err(Fault), Ok(()))), [2, 1, 1]),
    (&[1, 3], Ok((Err(Fault), Ok(()), Err(Fault))), [2, 1, 1]),
    (&[3, 2], Ok((Ok(5), Err(Fault), Err(Fault))), [2, 1, 1]),
];

// Numbers go on after a call that failed, and a connection counts as a file does.
#[test]
fn calls_fail_by_plan(rt: HostRuntime) {
    for (plan, answers, counts) in CASES {
        assert_eq!(rt; used(plan), (*answers, *counts), "plan {plan:?}");
    }
    assert_eq!(rt; connected(&[0, 2]), ([true, false, true], [2, 1, 1]));
}

/// Uses a file over a host of this plan.
fn used(plan: &[u64]) -> (Answers, Counts) {
    let mut host = FakeHost::new(plan);
    let answers = use_file(&mut host);
    (answers, counts_of(&host))
}

/// Opens a file, reads 5 bytes, writes 3, and closes it.
fn use_file<H: Host>(host: &mut H) -> Answers {
    let mut file = host.open(0, Mode::READ.union(Mode::WRITE))?;
    let read = host.read(&mut file, 5);
    let written = host.write(&mut file, b"17\n");
    Ok((read, written, host.close(file)))
}

/// Connects over a host of this plan, connects again, and closes what it has last. Returns which of these calls have
/// failed.
fn connected(plan: &[u64]) -> ([bool; 3], Counts) {
    let mut host = FakeHost::new(plan);
    let failed = connect_twice(&mut host);
    (failed, counts_of(&host))
}

fn connect_twice<H: Host>(host: &mut H) -> [bool; 3] {
    let first = host.connect(0).is_err();
    match host.connect(15) {
        Ok(peer) => [first, false, host.close(peer).is_err()],
        Err(_) => [first, true, true],
    }
}

pub fn counts_of<H: Host>(host: &H) -> Counts {
    [host.failures(), host.opened(), host.closed()]
}
