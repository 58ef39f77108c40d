//! The option that says whether texts have colours.

use clap::{Arg, ArgMatches};
use std::alloc::Global;

/// The values of the option.
const CHOICES: &[&str] = &[AUTO, ALWAYS, NEVER];

const AUTO: &str = "auto";

const ALWAYS: &str = "always";

const NEVER: &str = "never";

/// When texts have colours.
#[derive(Clone, Copy)]
pub enum ColorChoice {
    /// If standard output shows them.
    Auto,
    Always,
    Never,
}

impl ColorChoice {
    /// Returns whether texts have colours, where `shown` says whether standard output shows them.
    pub fn colors(self, shown: bool) -> bool {
        match self {
            ColorChoice::Auto => shown,
            ColorChoice::Always => true,
            ColorChoice::Never => false,
        }
    }
}

/// Returns the option, which each command has.
pub(crate) fn color_argument<'a>(alloc: Global) -> Arg<'a> {
    Arg::new(alloc, "color")
        .long("color")
        .value_name("WHEN")
        .value_parser(CHOICES)
        .default_value(AUTO)
        .help("Whether the text has colours; auto: on a terminal, unless NO_COLOR is set")
}

/// Returns what the words behind a command's name choose.
pub(crate) fn color_in(matches: &ArgMatches<'_>) -> ColorChoice {
    match matches.get_str("color") {
        Some(ALWAYS) => ColorChoice::Always,
        Some(NEVER) => ColorChoice::Never,
        _ => ColorChoice::Auto,
    }
}
