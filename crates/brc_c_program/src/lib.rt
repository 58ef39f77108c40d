//! The C functions of a command's files: each file read by the rules that are asked for, each function judged, and what
//! is found of it in lines.
#![tactic(auto)]

mod asked;
mod comment_words;
mod counts;
mod files;
mod inferring;
mod judging;
mod judging_files;
mod libraries;
mod missing;
mod modules;
mod pairs;
mod report;
mod seen;
mod sources;
mod suppressions;
mod tables;
mod unit;
mod writing;

pub use asked::{Asked, AskedFormat, AskedRules};
pub use counts::Status;
pub use files::Files;
pub use judging_files::{FILES_LIMIT, Judgement, judge_files};
