//! Ten soaks, each with a seed of its own.

use crate::soak::soak;
use std::test::*;

/// The seeds are the numbers from 1 to this one.
const SEEDS: u64 = 10;

#[test]
fn each_soak_ends_as_its_workers_have_noted(rt: HostRuntime) -> Result<(), Fail> {
    for seed in 1..SEEDS + 1 {
        let soaked = soak(&rt, rt.alloc(), seed)?.ok_or("a thread couldn't leave")?;
        assert_eq!(rt; soaked.found, soaked.noted, "seed {seed}");
        assert_eq!(rt;
            [soaked.wrong, soaked.faults, soaked.left],
            [0, 0, 9],
            "seed {seed}"
        );
        assert!(rt; soaked.least > 0, "seed {seed}");
    }
    Ok(())
}
