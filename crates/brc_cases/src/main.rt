//! Runs the cases of the files that it is given: each command line through `act`, over files and streams in memory. It
//! prints a line for each case that differs, and last how many hold.
#![tactic(auto)]

mod carrying;
mod running;
mod shelf;
mod sink;
mod stopping;
mod window;

use anyhow::{Result, bail};
use brc_case_format::{Case, Texts, read_cases};
use brc_run::System;
use running::{Counts, try_case};
use std::rt::{Env, Files};
use std::{env, fs};

fn main(rt: HostRuntime) -> Result<()> {
    let mut counts = Counts {
        holding: 0,
        differing: 0,
    };
    try_files(&rt, &mut counts)?;
    println!(&rt; "{} cases hold", counts.holding)?;
    if counts.differing > 0 {
        bail!("{} cases differ", counts.differing);
    }
    Ok(())
}

/// Runs the cases of the files that the program is given.
fn try_files<R: System + Files + Env + Print + AllocGlobal>(
    rt: &R,
    counts: &mut Counts,
) -> Result<()> {
    let paths: Vec<String> = env::args(rt)?.collect(rt.alloc())?;
    let mut texts = Texts::new(rt.alloc());
    for path in paths.iter().skip(1) {
        try_file(rt, path.as_str(), &mut texts, counts)?;
    }
    Ok(())
}

fn try_file<R: System + Files + Print + AllocGlobal>(
    rt: &R,
    path: &str,
    texts: &mut Texts,
    counts: &mut Counts,
) -> Result<()> {
    let cases = cases_of(rt, path, texts)?;
    try_cases(rt, path, cases.as_slice(), counts)
}

/// Reads the cases of a file.
fn cases_of<R: Files + AllocGlobal>(rt: &R, path: &str, texts: &mut Texts) -> Result<Vec<Case>> {
    let source = fs::read_to_string(rt, path)?;
    match read_cases(rt.alloc(), texts, source.as_str()) {
        Ok(cases) => Ok(cases),
        Err(fault) => bail!("{path}:{fault}"),
    }
}

fn try_cases<R: System + Print + AllocGlobal>(
    rt: &R,
    path: &str,
    cases: &[Case],
    counts: &mut Counts,
) -> Result<()> {
    for case in cases {
        try_case(rt, path, case, counts)?;
    }
    Ok(())
}
