//! A C file in memory, judged as the command judges it.

use crate::{outlines, parts};
use brc_c_program::{Asked, AskedFormat, AskedRules, Files, Judgement, judge_files};
use std::alloc::{AllocError, Global};
use std::test::Fail;

const FILE: &str = "m.c";

const FILES: &[&str] = &[FILE];

const NONE: &[&str] = &[];

/// The only file that there is.
#[derive(Drop)]
struct OneFile<'t> {
    text: &'t str,
}

impl Files for OneFile<'_> {
    fn read(&mut self, path: &str, bytes: &mut Vec<u8>) -> Result<bool, AllocError> {
        if path != FILE {
            return Ok(false);
        }
        bytes.extend_from_slice(self.text.as_bytes())?;
        Ok(true)
    }
}

/// Judges a file by both sets of rules, and returns the text about it, which shows what is possible, too.
pub fn said_of(alloc: Global, source: &str) -> Result<String, AllocError> {
    let asked = Asked {
        files: FILES,
        function: None,
        rules: AskedRules::Both,
        format: AskedFormat::Text,
        version: "1",
        folders: NONE,
        macros: NONE,
        tables: NONE,
        shows_possible: true,
        denies_warnings: false,
        denies_assumed: false,
        allows_not_read: false,
        shows_modules: false,
    };
    let Judgement {
        text,
        errors: _,
        status: _,
    } = judge_files(alloc, &asked, &mut OneFile { text: source })?;
    Ok(text)
}

/// Long functions are judged as short ones, and outlines are found to be those of a function.
#[test]
fn functions_are_judged(rt: HostRuntime) -> Result<(), Fail> {
    let alloc = rt.alloc();
    for marked in &parts::FUNCTIONS {
        parts::same_wherever_cut(alloc, marked)?;
    }
    for (number, (said, wanted)) in outlines::SAID.iter().enumerate() {
        assert_eq!(rt;
            outlines::is_found(alloc, *said)?,
            *wanted,
            "outline {number}"
        );
    }
    Ok(())
}
