//! The plain machine and the step world over the same schedules.

use crate::accepted_examples::ACCEPTED;
use crate::shelf::{replayed, stepped};
use brc_lang::{Module, read, write_bytes};
use brc_run::System;
use rand::RngExt;
use rand_core::SeedableRng;
use rand_xoshiro::Xoshiro256PlusPlus;
use std::alloc::{AllocGlobal, Global};
use std::io;
use std::io::Write;

/// How many schedules are tried.
const SCHEDULES: u64 = 1000;

/// Writes a schedule of the module with two workers, which call its functions that have no parameters.
fn write_schedule<W: Write>(
    module: &Module,
    random: &mut Xoshiro256PlusPlus,
    out: &mut W,
) -> io::Result<()> {
    let rows = random.random_range(1..5u32);
    write!(out, "schedule 1\nworkers 2\nrows {rows}\n")?;
    let functions = module.functions.as_slice();
    for worker in 1..3u64 {
        let from = random.random_range(0..functions.len().max(1));
        let mut name: &[u8] = b"";
        for at in 0..functions.len() {
            if functions[at].parameters.len() == 0 && (at <= from || name.is_empty()) {
                name = functions[at].name.as_bytes();
            }
        }
        write!(out, "call {worker} ")?;
        write_bytes(name, out)?;
        let times = random.random_range(1..4u32);
        write!(out, " {times}\n")?;
    }
    for _ in 0..20 {
        let thread = random.random_range(0..3u32);
        let times = random.random_range(1..13u32);
        match random.random_range(0..8u32) {
            0 => {
                let row = random.random_range(2..10u32);
                write!(out, "claim {thread} {row}\n")?;
            }
            1 | 2 => write!(out, "step {thread} fault {times}\n")?,
            _ => write!(out, "step {thread} ok {times}\n")?,
        }
    }
    write!(
        out,
        "step 1 ok 500\nstep 2 ok 500\nstep 1 ok 500\nstep 0 ok 500\n"
    )
}

// On an accepted module each step has the same line, and the report is the same at the end.
#[test]
fn machine_and_world_agree(rt: HostRuntime) {
    let mut random = Xoshiro256PlusPlus::seed_from_u64(1);
    for number in 0..SCHEDULES {
        let (name, text) = ACCEPTED[number as usize % ACCEPTED.len()];
        assert!(rt; agree_once(&rt, text, &mut random), "{name} {number}");
    }
}

/// Returns whether the machine and the world agree on a schedule.
fn agree_once<R: System + AllocGlobal>(
    rt: &R,
    text: &[u8],
    random: &mut Xoshiro256PlusPlus,
) -> bool {
    match schedule_of(rt.alloc(), text, random) {
        Some(schedule) => agree(rt, text, schedule.as_slice()),
        None => false,
    }
}

fn agree<R: System + AllocGlobal>(rt: &R, text: &[u8], schedule: &[u8]) -> bool {
    let one = stepped(rt, text, schedule);
    let other = replayed(rt, text, schedule);
    one.status == 0 && other.status == 0 && one.out.as_slice() == other.out.as_slice()
}

/// Returns a schedule of the text's module.
fn schedule_of(alloc: Global, text: &[u8], random: &mut Xoshiro256PlusPlus) -> Option<Vec<u8>> {
    match read(alloc, text) {
        Ok(module) => schedule_for(alloc, &module, random),
        Err(_) => None,
    }
}

fn schedule_for(
    alloc: Global,
    module: &Module,
    random: &mut Xoshiro256PlusPlus,
) -> Option<Vec<u8>> {
    let mut schedule = Vec::new(alloc);
    match write_schedule(module, random, &mut schedule) {
        Ok(()) => Some(schedule),
        Err(_) => None,
    }
}
