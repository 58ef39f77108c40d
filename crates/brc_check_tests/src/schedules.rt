//! Schedules as values.

use brc_lang::write_number;
use brc_model::Choice;
use brc_schedule::{PlannedCall, Steps, read_schedule};
use std::alloc::Global;
use std::test::*;

/// The calls of a schedule: each a function's name, and how often it is made.
type Calls<'a> = &'a [(&'a [u8], u32)];

fn are_calls(found: &[PlannedCall], wanted: Calls<'_>) -> bool {
    found.len() == wanted.len()
        && found.iter().zip(wanted).all(|(call, wanted)| call.name.as_bytes() == wanted.0
            && call.times == wanted.1)
}

fn are_steps(found: &[Steps], wanted: &[(u8, Choice, u32)]) -> bool {
    found.len() == wanted.len()
        && found.iter().zip(wanted).all(|(steps, wanted)| (steps.thread, steps.choice, steps.times)
            == *wanted)
}

/// Whether the text is read as a schedule of these workers and rows, calls and steps.
fn is_read_as(
    alloc: Global,
    text: &[u8],
    sizes: (u8, u16),
    calls: Calls<'_>,
    steps: &[(u8, Choice, u32)],
) -> bool {
    match read_schedule(alloc, text) {
        Ok(schedule) => {
            (schedule.workers, schedule.rows) == sizes
                && are_calls(schedule.calls.as_slice(), calls)
                && are_steps(schedule.steps.as_slice(), steps)
        }
        Err(_) => false,
    }
}

/// The most workers and rows, and two lines below the calls that are repeated `times` times.
fn largest(alloc: Global, times: usize) -> Result<Vec<u8>, Fail> {
    let mut text = Vec::from_slice(alloc, b"schedule 1\nworkers 32\nrows 1024\n")?;
    for worker in 1..=32 {
        text.extend_from_slice(b"call ")?;
        write_number(worker, &mut text)?;
        text.extend_from_slice(b" f 1000000\n")?;
    }
    for _ in 0..times {
        text.extend_from_slice(b"step 32 fault 1000000\nclaim 32 33809\n")?;
    }
    Ok(text)
}

/// The numbers of calls and of lines of steps in a text.
fn lengths(alloc: Global, text: &[u8]) -> Option<(usize, usize)> {
    let schedule = read_schedule(alloc, text).ok()?;
    Some((schedule.calls.len(), schedule.steps.len()))
}

const ONE: &[u8] = b"schedule 1\nworkers 1\nrows 1024\ncall 1 a23456789_bcdefg 1000000\n";

const TWO: &[u8] = b"schedule 1\nworkers 2\nrows 4\ncall 1 f 1\ncall 2 f 1\n\
    step 0 fault 1000000\nstep 2 ok 1\nclaim 0 33809\nstep 1 ok 3\nclaim 2 0\nstop 2\nstop 0\n";

const STEPS_OF_TWO: &[(u8, Choice, u32)] = &[
    (0, Choice::Fault, 1_000_000),
    (2, Choice::Ok, 1),
    (0, Choice::Claim(33_809), 1),
    (1, Choice::Ok, 3),
    (2, Choice::Claim(0), 1),
    (2, Choice::Stop, 1),
    (0, Choice::Stop, 1),
];

const CALL: Calls<'static> = &[(b"a23456789_bcdefg", 1_000_000)];

const CALLS: Calls<'static> = &[(b"f", 1), (b"f", 1)];

/// Whether schedules of one and of two workers are read, and how many calls and lines of steps the largest one has.
pub fn read_schedules(alloc: Global) -> Result<([bool; 2], Option<(usize, usize)>), Fail> {
    let are_read = [
        is_read_as(alloc, ONE, (1, 1024), CALL, &[]),
        is_read_as(alloc, TWO, (2, 4), CALLS, STEPS_OF_TWO),
    ];
    let text = largest(alloc, 10_000)?;
    Ok((are_read, lengths(alloc, &text)))
}
