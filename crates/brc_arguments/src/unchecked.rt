//! The options about runs of modules that the checker may refuse.

use crate::request::Request;
use brc_command::{Bounds, MOST_ROWS, MOST_SECONDS, MOST_STATES, MOST_WORKERS, Unchecked};
use clap::{Arg, ArgAction, ArgMatches, Command, value_parser};
use std::alloc::{AllocError, Global};

/// Gives the command the option that looks for a run, and those that bound the search.
pub fn with_schedule<'a>(alloc: Global, command: Command<'a>) -> Result<Command<'a>, AllocError> {
    command
        .arg(
            Arg::new(alloc, "schedule")
                .long("schedule")
                .action(ArgAction::SetTrue)
                .conflicts_with("code")?
                .conflicts_with("schedule-file")?
                .conflicts_with("function")?
                .conflicts_with("format")?
                .help(
                    "Looks for a run of a refused module that goes wrong, and writes its schedule",
                ),
        )?
        .arg(bound_argument(
            alloc,
            "workers",
            i64::from(MOST_WORKERS),
            "2",
            "The most workers of the run, 1 to 32",
        )?)?
        .arg(bound_argument(
            alloc,
            "rows",
            i64::from(MOST_ROWS),
            "4",
            "How many rows each worker has, 1 to 1024",
        )?)?
        .arg(bound_argument(
            alloc,
            "states",
            i64::from(MOST_STATES),
            "200000",
            "How many states are visited at most, 1 to 10000000",
        )?)?
        .arg(
            Arg::new(alloc, "seconds")
                .long("seconds")
                .value_name("N")
                .value_parser(value_parser!(u32).range(1..=i64::from(MOST_SECONDS)))
                .requires_arg("schedule")?
                .help(
                    "After how many seconds the search ends, 1 to 1000000; never, if it is left out",
                ),
        )
}

/// A bound of the search for a run.
fn bound_argument<'a>(
    alloc: Global,
    name: &'a str,
    most: i64,
    usual: &'a str,
    help: &'a str,
) -> Result<Arg<'a>, AllocError> {
    Ok(
        Arg::new(alloc, name)
            .long(name)
            .value_name("N")
            .value_parser(value_parser!(u32).range(1..=most))
            .default_value(usual)
            .requires_arg("schedule")?
            .help(help),
    )
}

/// Returns the request to step a schedule over a module that isn't checked.
pub fn unchecked_step_of<'m>(step: &'m ArgMatches<'_>) -> Option<Request<'m>> {
    Some(Request::Unchecked(Unchecked::Step {
        file: step.get_str("FILE")?,
        schedule: step.get_str("SCHEDULE")?,
        trace: step.get_flag("trace"),
        picture: step.get_str("svg"),
    }))
}

/// Returns the request to look for a run that goes wrong.
pub fn wrong_run_of<'m>(explain: &'m ArgMatches<'_>) -> Option<Request<'m>> {
    let workers: u32 = explain.get_one("workers")?;
    let rows: u32 = explain.get_one("rows")?;
    let states: u32 = explain.get_one("states")?;
    let seconds = explain.try_get_one("seconds").ok()?;
    // The parser checks the ranges, but its contract doesn't promise them for the values of a subcommand.
    if workers == 0
        || workers > u32::from(MOST_WORKERS)
        || rows == 0
        || rows > u32::from(MOST_ROWS)
    {
        return None;
    }
    Some(Request::Unchecked(Unchecked::Explain {
        file: explain.get_str("FILE")?,
        bounds: Bounds {
            workers: workers as u8,
            rows: rows as u16,
            states,
            seconds,
        },
    }))
}
