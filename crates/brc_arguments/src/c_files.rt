//! The command over C files, and its options.

use crate::color::color_argument;
use crate::request::Request;
use brc_c_program::{Asked, AskedFormat, AskedRules};
use brc_command::VERSION;
use clap::{Arg, ArgAction, ArgMatches, Command};
use std::alloc::{AllocError, Global};

/// The rules that can be asked for.
const RULES: &[&str] = &["both", GIL, FREE_THREADED];

const GIL: &str = "gil";

const FREE_THREADED: &str = "free-threaded";

/// The formats that can be asked for.
const FORMATS: &[&str] = &["text", JSON, SARIF];

const JSON: &str = "json";

const SARIF: &str = "sarif";

pub fn c_command<'a>(alloc: Global) -> Result<Command<'a>, AllocError> {
    let command = Command::new(alloc, "c")
        .about("Judges the C functions of extension modules")
        .after_help(
            "Example: brc c words.c\n         brc c --rules gil -I include -D HAVE_X=1 a.c b.c",
        )
        .arg(
            Arg::new(alloc, "FILE")
                .required(true)
                .num_args(1..)
                .help("The C files; - is standard input"),
        )?
        .arg(
            Arg::new(alloc, "function")
                .long("function")
                .value_name("F")
                .help("The one function to judge; all, if it is left out"),
        )?;
    with_switches(alloc, with_reading(alloc, command)?)
}

/// Gives the command the options that say how a file is read.
fn with_reading<'a>(alloc: Global, command: Command<'a>) -> Result<Command<'a>, AllocError> {
    command
        .arg(
            Arg::new(alloc, "rules")
                .long("rules")
                .value_name("RULES")
                .value_parser(RULES)
                .default_value("both")
                .help("The rules of a Python with a global lock, of one without, or both"),
        )?
        .arg(
            Arg::new(alloc, "folder")
                .short('I')
                .value_name("FOLDER")
                .action(ArgAction::Append)
                .help("Where headers in quotes are looked for that aren't beside the file"),
        )?
        .arg(
            Arg::new(alloc, "macro")
                .short('D')
                .value_name("NAME[=VALUE]")
                .action(ArgAction::Append)
                .help("A macro that is defined before each file"),
        )?
        .arg(
            Arg::new(alloc, "api")
                .long("api")
                .value_name("FILE")
                .action(ArgAction::Append)
                .help("A table of functions, whose rows come before those of the C API's own one"),
        )
}

/// Gives the command the options that say what is shown, and what counts.
fn with_switches<'a>(alloc: Global, command: Command<'a>) -> Result<Command<'a>, AllocError> {
    command
        .arg(switch(
            alloc,
            "possible",
            "Also shows findings in which something is assumed, and what is assumed",
        ))?
        .arg(switch(alloc, "deny-warnings", "Warnings count as errors do"))?
        .arg(switch(
            alloc,
            "deny-assumed",
            "Functions that are right by assumptions only count as errors do",
        ))?
        .arg(switch(
            alloc,
            "allow-not-read",
            "Functions that aren't read count for nothing",
        ))?
        .arg(switch(
            alloc,
            "module",
            "Also shows the modules that are written for the functions",
        )
        .conflicts_with("format")?)?
        .arg(
            Arg::new(alloc, "format")
                .long("format")
                .value_name("FORMAT")
                .value_parser(FORMATS)
                .default_value("text")
                .help("What is written: text for people, JSON objects, or a SARIF document"),
        )?
        .arg(color_argument(alloc))
}

fn switch<'a>(alloc: Global, name: &'a str, help: &'a str) -> Arg<'a> {
    Arg::new(alloc, name)
        .long(name)
        .action(ArgAction::SetTrue)
        .help(help)
}

/// Returns the request to judge C files.
pub fn c_of<'m>(c: &'m ArgMatches<'_>) -> Request<'m> {
    Request::C(Asked {
        files: c.get_strs("FILE").unwrap_or(&[]),
        function: c.get_str("function"),
        rules: rules_of(c),
        format: format_of(c),
        version: VERSION,
        folders: c.get_strs("folder").unwrap_or(&[]),
        macros: c.get_strs("macro").unwrap_or(&[]),
        tables: c.get_strs("api").unwrap_or(&[]),
        shows_possible: c.get_flag("possible"),
        denies_warnings: c.get_flag("deny-warnings"),
        denies_assumed: c.get_flag("deny-assumed"),
        allows_not_read: c.get_flag("allow-not-read"),
        shows_modules: c.get_flag("module"),
    })
}

fn format_of(c: &ArgMatches) -> AskedFormat {
    match c.get_str("format") {
        Some(JSON) => AskedFormat::Json,
        Some(SARIF) => AskedFormat::Sarif,
        _ => AskedFormat::Text,
    }
}

fn rules_of(c: &ArgMatches) -> AskedRules {
    match c.get_str("rules") {
        Some(GIL) => AskedRules::GlobalLock,
        Some(FREE_THREADED) => AskedRules::FreeThreaded,
        _ => AskedRules::Both,
    }
}
