ghost use Rattle.std.specs.Prelude.{◌≡◌, ◌↔◌, IfSome, IsTrue, map};
ghost use Rattle.brc_arguments.specs.Options.{AsksForJson, AsksToCheck, AsksToRun, AsksToStep, IsRunOf, words_of};

use crate::c_files::{c_command, c_of};
use crate::color::{ColorChoice, color_argument, color_in};
use crate::not_asked::NotAsked;
use crate::request::Request;
use crate::unchecked::{unchecked_step_of, with_schedule, wrong_run_of};
use brc_command::{
    Asked, Format, MOST_NAMES, MOST_ROWS, MOST_STEPS, MOST_TIMES, MOST_WORKERS, NO_BOUND, Run,
    STANDARD_INPUT, VERSION,
};
use brc_lang::number;
use brc_pages::{Topic, topic_named};
use clap::error::ErrorKind;
use clap::{Arg, ArgAction, ArgMatches, Command, value_parser};
use std::alloc::{AllocError, Global};
use std::convert::AsStr;

const UNKNOWN_CODE: &str = "no such code: C1 to C12 and L1 to L10 can be explained";

const SIGNED: &str = "invalid value for a number: a sign or a leading zero";

const OVER_INPUT: &str =
    "invalid value for --svg: a picture takes the place of no file that is read, nor of -";

/// The formats of a check.
const FORMATS: &[&str] = &["text", JSON];

const JSON: &str = "json";

/// A command line that was read.
#[derive(Drop)]
pub enum Line<'a> {
    /// It asks for the version.
    Version,
    /// It is one of the commands.
    Command(ArgMatches<'a>),
}

impl<'a> Line<'a> {
    /// Returns the request, or `None` if there is none: `parse` returns no such line.
    pub fn asked(&self) -> Option<Request<'_>> {
        match self {
            Line::Version => Some(Request::One(Asked::Version)),
            Line::Command(matches) => asked_in(matches),
        }
    }

    /// Returns when the texts of the command have colours.
    pub fn color(&self) -> ColorChoice {
        match self {
            Line::Version => ColorChoice::Never,
            Line::Command(matches) => match matches.subcommand() {
                Some((_, command)) => color_in(command),
                None => ColorChoice::Never,
            },
        }
    }
}

/// Reads the words of a command line, of which the first is the program's own name.
///
/// Returns clap's error for a wrong command line and for a call for help, and `TooMany` for more than 16 paths or
/// peers.
pub fn parse<'a, S: AsStr>(alloc: Global, words: &'a [S]) -> Result<Line<'a>, NotAsked> {
    let mut command = program(alloc)?;
    let matches = match command.try_get_matches_from_mut(words) {
        Ok(matches) => matches,
        Err(error) if error.kind() == ErrorKind::DisplayVersion => return Ok(Line::Version),
        Err(error) => return Err(NotAsked::Usage(error)),
    };
    if let Some(wrong) = wrong_value(&matches) {
        let error = command.error(ErrorKind::ValueValidation, wrong)?;
        return Err(NotAsked::Usage(error));
    }
    if has_too_many_names(&matches) {
        return Err(NotAsked::TooMany);
    }
    Ok(Line::Command(matches))
}

fn program<'a>(alloc: Global) -> Result<Command<'a>, AllocError> {
    Command::new(alloc, "brc")
        .about("Checks and runs native extension modules")
        .version(VERSION)
        .after_help("Example: brc check module.brc")
        .subcommand_required(true)
        .subcommand(check_command(alloc)?)?
        .subcommand(run_command(alloc)?)?
        .subcommand(step_command(alloc)?)?
        .subcommand(explain_command(alloc)?)?
        .subcommand(c_command(alloc)?)
}

fn check_command<'a>(alloc: Global) -> Result<Command<'a>, AllocError> {
    Command::new(alloc, "check")
        .about("Checks modules and counts what each has")
        .after_help("Example: brc check module.brc\n         brc check --format json a.brc b.brc")
        .arg(
            Arg::new(alloc, "FILE")
                .required(true)
                .num_args(1..)
                .help("The modules' files; - is standard input"),
        )?
        .arg(
            Arg::new(alloc, "all")
                .long("all")
                .action(ArgAction::SetTrue)
                .help("Writes a line for each function that is refused, not only for the first"),
        )?
        .arg(format_argument(alloc))?
        .arg(color_argument(alloc))
}

fn run_command<'a>(alloc: Global) -> Result<Command<'a>, AllocError> {
    Command::new(alloc, "run")
        .about("Checks a module and runs one of its functions")
        .after_help("Example: brc run module.brc --call f --threads 4 --times 1000")
        .arg(file_argument(alloc))?
        .arg(
            Arg::new(alloc, "call")
                .long("call")
                .value_name("F")
                .required(true)
                .help("The function to call, which has no parameters"),
        )?
        .arg(
            Arg::new(alloc, "threads")
                .long("threads")
                .value_name("N")
                .value_parser(value_parser!(u32).range(1..=i64::from(MOST_WORKERS)))
                .default_value("1")
                .help("How many threads call it, 1 to 32"),
        )?
        .arg(
            Arg::new(alloc, "rows")
                .long("rows")
                .value_name("N")
                .value_parser(value_parser!(u16).range(1..=i64::from(MOST_ROWS)))
                .default_value("1024")
                .help("How many rows each thread has, 1 to 1024"),
        )?
        .arg(
            Arg::new(alloc, "times")
                .long("times")
                .value_name("N")
                .value_parser(value_parser!(u32).range(1..=i64::from(MOST_TIMES)))
                .default_value("1")
                .help("How often each thread calls it, 1 to 1000000"),
        )?
        .arg(
            Arg::new(alloc, "steps")
                .long("steps")
                .value_name("N")
                .value_parser(value_parser!(u64).range(0..=i64::from(MOST_STEPS)))
                .help("How many instructions each worker begins at most, 0 to 1000000000"),
        )?
        .arg(
            Arg::new(alloc, "path")
                .long("path")
                .value_name("P")
                .action(ArgAction::Append)
                .help("A file that the module may open, up to 16 of them, numbered from 0"),
        )?
        .arg(
            Arg::new(alloc, "peer")
                .long("peer")
                .value_name("A")
                .action(ArgAction::Append)
                .help(
                    "A peer, as 127.0.0.1:8080, up to 16 of them, numbered from 0; a name is a host fault",
                ),
        )?
        .arg(
            Arg::new(alloc, "counts")
                .long("counts")
                .action(ArgAction::SetTrue)
                .help(
                    "Also writes how often objects were queued, merged and claimed, and exchanges lost",
                ),
        )?
        .arg(color_argument(alloc))
}

fn step_command<'a>(alloc: Global) -> Result<Command<'a>, AllocError> {
    Command::new(alloc, "step")
        .about("Checks a module and takes the steps of a schedule over it")
        .after_help(
            "Example: brc step module.brc steps.schedule\n         brc step --unchecked module.brc wrong.schedule",
        )
        .arg(file_argument(alloc))?
        .arg(
            Arg::new(alloc, "SCHEDULE")
                .required(true)
                .help("The schedule's file, or - for standard input"),
        )?
        .arg(
            Arg::new(alloc, "trace")
                .long("trace")
                .action(ArgAction::SetTrue)
                .help("Writes a line for each step before the report"),
        )?
        .arg(
            Arg::new(alloc, "unchecked")
                .long("unchecked")
                .action(ArgAction::SetTrue)
                .help(
                    "Takes the steps also if the module is refused, up to the first that is wrong",
                ),
        )?
        .arg(
            Arg::new(alloc, "svg")
                .long("svg")
                .value_name("SVG")
                .requires_arg("trace")?
                .help("Also saves a picture of the run in this file"),
        )?
        .arg(color_argument(alloc))
}

fn explain_command<'a>(alloc: Global) -> Result<Command<'a>, AllocError> {
    let command = Command::new(alloc, "explain")
        .about("Explains what the checker says of a module, a code, or a schedule's text")
        .after_help(
            "Example: brc explain module.brc --function f\n         brc explain module.brc --schedule\n         \
             brc explain --schedule-file steps.schedule\n         brc explain --code C5",
        )
        .arg(
            Arg::new(alloc, "FILE")
                .required_unless_present("code")?
                .required_unless_present("schedule-file")?
                .help("The module's file, or - for standard input"),
        )?
        .arg(
            Arg::new(alloc, "function")
                .long("function")
                .value_name("F")
                .help("The one function to explain; all, if it is left out"),
        )?
        .arg(
            Arg::new(alloc, "code")
                .long("code")
                .value_name("CODE")
                .conflicts_with("FILE")?
                .conflicts_with("function")?
                .conflicts_with("format")?
                .help("A code to explain: C1 to C12, or L1 to L10"),
        )?
        .arg(schedule_file_argument(alloc)?)?
        .arg(format_argument(alloc))?
        .arg(color_argument(alloc))?;
    with_schedule(alloc, command)
}

fn schedule_file_argument<'a>(alloc: Global) -> Result<Arg<'a>, AllocError> {
    Ok(
        Arg::new(alloc, "schedule-file")
            .long("schedule-file")
            .value_name("SCHEDULE")
            .conflicts_with("FILE")?
            .conflicts_with("function")?
            .conflicts_with("code")?
            .conflicts_with("format")?
            .help("A schedule's file to explain, or - for standard input"),
    )
}

fn format_argument<'a>(alloc: Global) -> Arg<'a> {
    Arg::new(alloc, "format")
        .long("format")
        .value_name("FORMAT")
        .value_parser(FORMATS)
        .default_value("text")
        .help("What is written: text for people, or a JSON object for each file")
}

fn file_argument<'a>(alloc: Global) -> Arg<'a> {
    Arg::new(alloc, "FILE")
        .required(true)
        .help("The module's file, or - for standard input")
}

fn asked_in<'m>(matches: &'m ArgMatches<'_>) -> Option<Request<'m>> {
    if let Some(check) = matches.subcommand_matches("check") {
        return check_of(check);
    }
    if let Some(explain) = matches.subcommand_matches("explain") {
        return explanation_in(explain);
    }
    if let Some(c) = matches.subcommand_matches("c") {
        return Some(c_of(c));
    }
    match matches.subcommand_matches("step") {
        Some(step) if step.get_flag("unchecked") => unchecked_step_of(step),
        Some(step) => Some(Request::One(step_of(step)?)),
        None => run_in(matches.subcommand_matches("run")?),
    }
}

fn check_of<'m>(check: &'m ArgMatches<'_>) -> Option<Request<'m>>
    ensures { IfSome result (λ request. AsksToCheck check.now request) }
{
    let files = names_in(check, "FILE");
    if is_json(check) {
        return Some(Request::Files(files, Format::Json { function: None }));
    }
    if check.get_flag("all") {
        return Some(Request::Files(files, Format::All));
    }
    if files.len() == 1 {
        let file = check.get_str("FILE")?;
        return Some(Request::One(Asked::Check { file }));
    }
    Some(Request::Files(files, Format::Text))
}

fn is_json(matches: &ArgMatches) -> bool
    ensures { IsTrue result ↔ AsksForJson matches.now }
{
    matches.get_str("format") == Some(JSON)
}

fn step_of<'m>(step: &'m ArgMatches<'_>) -> Option<Asked<'m>>
    ensures { IfSome result (λ asked. AsksToStep step.now asked) }
{
    let file = step.get_str("FILE")?;
    let schedule = step.get_str("SCHEDULE")?;
    if let Some(picture) = step.get_str("svg") {
        return Some(Asked::Draw {
            file,
            schedule,
            picture,
        });
    }
    let trace = step.get_flag("trace");
    Some(Asked::Step {
        file,
        schedule,
        trace,
    })
}

fn explanation_in<'m>(explain: &'m ArgMatches<'_>) -> Option<Request<'m>> {
    if let Some(code) = explain.get_str("code") {
        let topic = topic_of(code)?;
        return Some(Request::One(Asked::Page { topic }));
    }
    if let Some(file) = explain.get_str("schedule-file") {
        return Some(Request::One(Asked::ExplainSchedule { file }));
    }
    if explain.get_flag("schedule") {
        return wrong_run_of(explain);
    }
    let function = explain.get_str("function");
    if is_json(explain) {
        let files = names_in(explain, "FILE");
        return Some(Request::Files(files, Format::Json { function }));
    }
    let file = explain.get_str("FILE")?;
    Some(Request::One(Asked::Explain { file, function }))
}

/// Returns what is wrong with a value that clap takes, if one is wrong.
fn wrong_value(matches: &ArgMatches) -> Option<&'static str> {
    if !has_plain_numbers(matches) {
        Some(SIGNED)
    } else if !has_known_code(matches) {
        Some(UNKNOWN_CODE)
    } else if draws_over_input(matches) {
        Some(OVER_INPUT)
    } else {
        None
    }
}

/// Returns whether the picture has the name of standard input or of a file that is read.
fn draws_over_input(matches: &ArgMatches) -> bool {
    let Some(step) = matches.subcommand_matches("step") else {
        return false;
    };
    let picture = step.get_str("svg");
    picture.is_some()
        && (picture == Some(STANDARD_INPUT)
            || picture == step.get_str("FILE")
            || picture == step.get_str("SCHEDULE"))
}

/// Returns the topic of a code, whose letter may be a small one.
fn topic_of(code: &str) -> Option<Topic> {
    match code.as_bytes() {
        [letter, digit] => topic_named(&[letter.to_ascii_uppercase(), *digit]),
        [letter, first, second] => topic_named(&[letter.to_ascii_uppercase(), *first, *second]),
        _ => None,
    }
}

fn has_known_code(matches: &ArgMatches) -> bool {
    let Some(explain) = matches.subcommand_matches("explain") else {
        return true;
    };
    match explain.get_str("code") {
        Some(code) => topic_of(code).is_some(),
        None => true,
    }
}

// Numbers have the same form as in texts; clap also takes signs and leading zeros.
fn has_plain_numbers(matches: &ArgMatches) -> bool {
    if let Some(explain) = matches.subcommand_matches("explain") {
        return is_plain(explain, "workers")
            && is_plain(explain, "rows")
            && is_plain(explain, "states")
            && is_plain(explain, "seconds");
    }
    match matches.subcommand_matches("run") {
        Some(run) => {
            is_plain(run, "threads")
                && is_plain(run, "rows")
                && is_plain(run, "times")
                && is_plain(run, "steps")
        }
        None => true,
    }
}

fn is_plain(matches: &ArgMatches, name: &str) -> bool {
    match matches.get_str(name) {
        Some(text) => number(u32::MAX, text.as_bytes()).is_ok(),
        None => true,
    }
}

fn has_too_many_names(matches: &ArgMatches) -> bool {
    match matches.subcommand_matches("run") {
        Some(run) => {
            names_in(run, "path").len() > MOST_NAMES || names_in(run, "peer").len() > MOST_NAMES
        }
        None => false,
    }
}

/// Returns all values of the argument, in the order of the command line.
fn names_in<'m>(matches: &'m ArgMatches<'_>, argument: &str) -> &'m [&'m str]
    ensures { map (λ name. name.now) result.now ≡ words_of matches.now argument.now }
{
    matches.get_strs(argument).unwrap_or(&[])
}

fn run_in<'m>(run: &'m ArgMatches<'_>) -> Option<Request<'m>>
    ensures { IfSome result (λ request. AsksToRun run.now request) }
{
    let asked = run_of(run)?;
    if run.get_flag("counts") {
        return Some(Request::Counted(asked));
    }
    Some(Request::One(Asked::Run(asked)))
}

fn run_of<'m>(run: &'m ArgMatches<'_>) -> Option<Run<'m>>
    ensures { IfSome result (λ asked. IsRunOf run.now asked) }
{
    let threads = run.get_one("threads")?;
    let rows = run.get_one("rows")?;
    let times = run.get_one("times")?;
    let steps = run.try_get_one("steps").ok()?.unwrap_or(NO_BOUND);
    // The parser checks the ranges, but its contract doesn't promise them for the values of a subcommand.
    if threads == 0 || threads > u32::from(MOST_WORKERS) || times == 0 || times > MOST_TIMES {
        return None;
    }
    if rows == 0 || rows > MOST_ROWS {
        return None;
    }
    let paths = names_in(run, "path");
    let peers = names_in(run, "peer");
    if paths.len() > MOST_NAMES || peers.len() > MOST_NAMES {
        return None;
    }
    Some(Run {
        file: run.get_str("FILE")?,
        function: run.get_str("call")?,
        threads,
        rows,
        times,
        steps,
        paths,
        peers,
    })
}
