use crate::asked::Asked;
use crate::seen::Seen;
use brc_c_report::{Finding, Level};
use serde_json::{Map, Value, put};
use std::alloc::{AllocError, Global};

/// How many functions and findings there are.
#[derive(Clone, Copy)]
pub(crate) struct Counts {
    functions: u64,
    right: u64,
    /// Those of the right ones that are so by assumptions only.
    assumed: u64,
    at_fault: u64,
    warned: u64,
    not_read: u64,
    errors: u64,
    warnings: u64,
    possible: u64,
    /// The findings that comments take away, of each level.
    suppressed: u64,
    /// Whether a function has an obstacle.
    has_obstacle: bool,
    /// Whether it is one of this program's own.
    is_internal: bool,
}

/// The status of a command for which there is memory.
#[derive(Clone, Copy, PartialEq, Eq)]
pub enum Status {
    /// There is no error.
    NoError,
    /// There is an error, or what counts as one.
    Error,
    /// A file can't be read, or a function isn't read.
    NotRead,
    /// This program contradicts itself.
    Internal,
}

impl Counts {
    pub(crate) const NONE: Counts = Counts {
        functions: 0,
        right: 0,
        assumed: 0,
        at_fault: 0,
        warned: 0,
        not_read: 0,
        errors: 0,
        warnings: 0,
        possible: 0,
        suppressed: 0,
        has_obstacle: false,
        is_internal: false,
    };

    /// Returns how many functions were counted.
    pub(crate) fn functions(&self) -> u64 {
        self.functions
    }

    pub(crate) fn has_functions(&self) -> bool {
        self.functions > 0
    }

    /// Counts a function.
    pub(crate) fn add(&mut self, seen: &Seen) {
        let errors = self.errors;
        let warnings = self.warnings;
        for finding in seen.findings.iter() {
            self.add_finding(finding);
        }
        add_one(&mut self.functions);
        if let Some(obstacle) = &seen.obstacle {
            self.has_obstacle = true;
            self.is_internal = self.is_internal || obstacle.is_internal;
        }
        if self.errors > errors {
            add_one(&mut self.at_fault);
        } else if seen.obstacle.is_some() {
            add_one(&mut self.not_read);
        } else if self.warnings > warnings {
            add_one(&mut self.warned);
        } else {
            add_one(&mut self.right);
            if !seen.assumed.is_empty() {
                add_one(&mut self.assumed);
            }
        }
    }

    fn add_finding(&mut self, finding: &Finding) {
        if finding.suppressed.is_some() {
            return add_one(&mut self.suppressed);
        }
        match finding.level {
            Level::Error => add_one(&mut self.errors),
            Level::Warning(_) => add_one(&mut self.warnings),
            Level::Possible => add_one(&mut self.possible),
        }
    }

    /// Counts a warning about something else than a function.
    pub(crate) fn add_warning(&mut self) {
        add_one(&mut self.warnings);
    }

    /// Returns the status of a command with these counts.
    pub(crate) fn status(&self, asked: &Asked<'_>) -> Status {
        if self.is_internal {
            Status::Internal
        } else if self.has_obstacle && !asked.allows_not_read {
            Status::NotRead
        } else if self.errors > 0
            || asked.denies_warnings && self.warnings > 0
            || asked.denies_assumed && self.assumed > 0
        {
            Status::Error
        } else {
            Status::NoError
        }
    }

    /// Returns the counts as an object.
    pub(crate) fn value(&self, alloc: Global) -> Result<Value, AllocError> {
        let counts = [
            ("assumed", self.assumed),
            ("at_fault", self.at_fault),
            ("errors", self.errors),
            ("functions", self.functions),
            ("not_read", self.not_read),
            ("possible", self.possible),
            ("right", self.right),
            ("suppressed", self.suppressed),
            ("warned", self.warned),
            ("warnings", self.warnings),
        ];
        let mut members = Map::new(alloc);
        for (name, count) in counts {
            put(&mut members, alloc, name, Value::from(count))?;
        }
        Ok(Value::Object(members))
    }

    /// Appends the line of the counts. A part that is 0 is left out, but for the right functions, errors and warnings.
    pub(crate) fn add_line(
        &self,
        text: &mut String,
        shows_possible: bool,
    ) -> Result<(), AllocError> {
        add_count(text, self.functions, "function")?;
        let right = self.right;
        write!(text, ": {right} right")?;
        if self.assumed > 0 {
            let assumed = self.assumed;
            write!(text, " ({assumed} by assumptions)")?;
        }
        add_part(text, self.at_fault, "at fault")?;
        add_part(text, self.warned, "with warnings")?;
        add_part(text, self.not_read, "not read")?;
        text.push_str("; ")?;
        add_count(text, self.errors, "error")?;
        text.push_str(", ")?;
        add_count(text, self.warnings, "warning")?;
        add_part(text, self.possible, "possible")?;
        if self.possible > 0 && !shows_possible {
            text.push_str(" (--possible)")?;
        }
        add_part(text, self.suppressed, "suppressed")?;
        text.push_str("\n")?;
        Ok(())
    }
}

fn add_one(count: &mut u64) {
    *count = count.saturating_add(1);
}

fn add_count(text: &mut String, count: u64, what: &str) -> Result<(), AllocError> {
    if count == 1 {
        write!(text, "{count} {what}")
    } else {
        write!(text, "{count} {what}s")
    }
}

fn add_part(text: &mut String, count: u64, what: &str) -> Result<(), AllocError> {
    if count == 0 {
        return Ok(());
    }
    write!(text, ", {count} {what}")
}
