//! The same modules, step by step in many orders and on real threads, where the order can't change what is born and
//! closed.

use crate::runs::{Counts, Open, Run, SWAP, THREE_OPEN, after, counts_of, report_of};
use brc_check::Checked;
use brc_fixtures::{accepted, last_function};
use brc_world::{Call, Choice, World};
use std::alloc::Global;

/// How many seeds each module is stepped with.
const SEEDS: u64 = 40;

/// How many rounds of steps a schedule has at most, and how many steps a round has.
const MOST_ROUNDS: u32 = 1000;

const STEPS: u32 = 1000;

/// The workers, their rows and their calls.
const THREADS: u8 = 3;

const ROWS: u16 = 8;

const TIMES: u32 = 5;

/// `g` makes three numbers, and `f` calls it twice: each open call has turns of its own.
const OWN_TURNS: &[u8] = b"module 2\nfunc g\nnum v1 1 else @3\ndrop v1\nagain @0 2\nfail\nend\n\
    func f\ncall v1 g else @2\ndrop v1\nagain @0 1\nfail\nend\n";

/// A module, and the report of its runs. Calls that call each other use all eight rows of each worker.
const CASES: [(&[u8], Counts); 3] = [
    (SWAP, [3, 0, 16, 16, 0, 0, 0]),
    (THREE_OPEN, [3, 0, 25, 25, 0, 0, 0]),
    (OWN_TURNS, [3, 0, 25, 25, 0, 0, 0]),
];

#[test]
fn steps_in_any_order_and_threads_agree(rt: HostRuntime) {
    let run: Run = (THREADS, ROWS, TIMES, u64::MAX);
    for (text, want) in CASES {
        let counts = report_of(&rt, rt.alloc(), text, run, &[], &[], &Open);
        assert_eq!(rt; counts, Some(want), "{text:?}");
        for seed in 0..SEEDS {
            assert_eq!(rt;
                stepped(rt.alloc(), text, seed),
                Some(want),
                "{text:?}, seed {seed}"
            );
        }
    }
}

/// Steps the workers of the text's module in the order of the seed, until every thread is gone. Returns the report's
/// numbers.
fn stepped(alloc: Global, text: &[u8], seed: u64) -> Option<Counts> {
    let checked = accepted(alloc, text).ok()?;
    stepped_from(alloc, &checked, seed)
}

fn stepped_from(alloc: Global, checked: &Checked, seed: u64) -> Option<Counts> {
    let call = Call {
        function: last_function(checked).ok()?,
        times: TIMES,
    };
    match World::new(alloc, checked, usize::from(THREADS), ROWS, &[call; 3]) {
        Ok(mut world) => stepped_to_the_end(&mut world, seed),
        Err(_) => None,
    }
}

fn stepped_to_the_end(world: &mut World<'_>, seed: u64) -> Option<Counts> {
    let mut number = seed;
    for _ in 0..MOST_ROUNDS {
        number = steps(world, number)?;
        if are_gone(world) {
            return tallied(world);
        }
    }
    None
}

fn tallied(world: &World<'_>) -> Option<Counts> {
    match world.tally() {
        Ok(tally) => Some(counts_of(&tally)),
        Err(_) => None,
    }
}

/// Makes a round of steps, each of a thread that the numbers choose. Returns the number to go on with, or `None` if
/// memory is refused.
fn steps(world: &mut World<'_>, number: u64) -> Option<u64> {
    let mut number = number;
    for _ in 0..STEPS {
        number = after(number);
        let thread = (number >> 33) as usize % (usize::from(THREADS) + 1);
        if thread < world.threads() && world.step(thread, Choice::Ok).is_err() {
            return None;
        }
    }
    Some(number)
}

/// Returns whether every thread is gone.
fn are_gone(world: &World<'_>) -> bool {
    for thread in 0..world.threads() {
        if !world.is_gone(thread) {
            return false;
        }
    }
    true
}
