//! Tests of the commands and of the command line that a case of `brc_cases` can't show: files in pieces, long lines,
//! screens, and the functions over texts; and files of cases that can't be read.
#![tactic(auto)]

#[cfg(test)]
mod acting;
#[cfg(test)]
mod case_files;
#[cfg(test)]
mod left_file;
#[cfg(test)]
mod long_lines;
#[cfg(test)]
mod pieces;
#[cfg(test)]
mod screens;
#[cfg(test)]
mod texts;
#[cfg(test)]
mod whole_explanations;
