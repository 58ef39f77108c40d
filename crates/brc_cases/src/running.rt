use crate::carrying::{Ran, carry_out};
use crate::shelf::Shelf;
use crate::sink::{ENDLESS, Room};
use crate::stopping::stopped_difference;
use anyhow::Result;
use brc_case_format::{Case, Stream};
use brc_run::System;
use std::alloc::{AllocError, Global};

/// How many cases hold, and how many don't.
#[derive(Clone, Copy)]
pub struct Counts {
    pub holding: u64,
    pub differing: u64,
}

/// Runs the case, or those of its rows, and prints how each one differs that does.
pub fn try_case<R: System + Print + AllocGlobal>(
    rt: &R,
    path: &str,
    case: &Case,
    counts: &mut Counts,
) -> Result<()> {
    if case.rows.is_empty() {
        return try_one(rt, path, case, counts);
    }
    for row in &case.rows {
        let made = case.of_row(rt.alloc(), row)?;
        try_one(rt, path, &made, counts)?;
    }
    Ok(())
}

fn try_one<R: System + Print + AllocGlobal>(
    rt: &R,
    path: &str,
    case: &Case,
    counts: &mut Counts,
) -> Result<()> {
    let difference = difference_of(rt, case)?;
    if difference.is_empty() {
        counts.holding = counts.holding.saturating_add(1);
        return Ok(());
    }
    counts.differing = counts.differing.saturating_add(1);
    let line = case.line;
    let name = case.name.as_str();
    println!(rt; "{path}:{line}: {name}: {difference}")?;
    Ok(())
}

/// Runs the case, and returns how it differs, or an empty text.
fn difference_of<R: System + AllocGlobal>(rt: &R, case: &Case) -> Result<String, AllocError> {
    let alloc = rt.alloc();
    let room = Room {
        out: ENDLESS,
        err: ENDLESS,
        interrupts: false,
    };
    let mut shelf = Shelf::new(alloc, case);
    let ran = carry_out(rt, case, &mut shelf, &room)?;
    let said = told(alloc, case, &ran, &shelf)?;
    if said.is_empty() && case.stops() {
        return stopped_difference(rt, case, &ran);
    }
    Ok(said)
}

/// Returns how a command's status and what it wrote differ from the case.
fn told(alloc: Global, case: &Case, ran: &Ran, shelf: &Shelf<'_>) -> Result<String, AllocError> {
    let mut said = String::new(alloc);
    let status = ran.status;
    if case.status != Some(status) {
        said.push_str(format!(in alloc; "status {status}")?.as_str())?;
    }
    let out = ran.out.as_slice();
    let err = ran.err.as_slice();
    let mut all = Vec::from_slice(alloc, out)?;
    all.extend_from_slice(err)?;
    tell(&mut said, case, Stream::Out, "", "standard output", out)?;
    tell(&mut said, case, Stream::Err, "", "standard error", err)?;
    tell(&mut said, case, Stream::All, "", "all", all.as_slice())?;
    tell_saved(&mut said, case, shelf)?;
    Ok(said)
}

/// Appends what was saved, if the case has something else.
fn tell_saved(said: &mut String, case: &Case, shelf: &Shelf<'_>) -> Result<(), AllocError> {
    for wanted in &case.wanted {
        if wanted.stream == Stream::Saved {
            let name = wanted.name.as_str();
            tell(said, case, Stream::Saved, name, name, shelf.saved(name))?;
        }
    }
    Ok(())
}

/// Appends what a command wrote on the stream, if the case has something else.
fn tell(
    said: &mut String,
    case: &Case,
    stream: Stream,
    name: &str,
    what: &str,
    found: &[u8],
) -> Result<(), AllocError> {
    if case.is_met(stream, name, found) {
        return Ok(());
    }
    if !said.is_empty() {
        said.push_str(", ")?;
    }
    said.push_str(what)?;
    said.push_str(" has\n")?;
    match str::from_utf8(found) {
        Ok(text) => said.push_str(text),
        Err(_) => said.push_str("bytes that are no text"),
    }
}
