//! All files of a command: they are one program.

use crate::asked::{Asked, AskedRules};
use crate::counts::{Counts, Status};
use crate::files::Files;
use crate::inferring::own_of;
use crate::pairs::{FreeReading, Pair, Readings, judge_pair};
use crate::report::Report;
use crate::seen::Seen;
use crate::sources::Sources;
use crate::suppressions::{Suppression, suppress, suppressions_in};
use crate::tables::read_tables;
use crate::unit::{Known, Unit, UnitFault, read_unit};
use brc_c_infer::Own;
use brc_c_macros::MacroFault;
use brc_c_store::Rules;
use brc_c_table::Tables;
use brc_c_text::{Symbols, TextFault};
use brc_c_tree::Function;
use std::alloc::{AllocError, Global};

/// The greatest number of files in a command.
pub const FILES_LIMIT: usize = 256;

/// What a command says of its files.
#[derive(Drop)]
pub struct Judgement {
    /// What is found of functions, and last the counts, in the format that is asked for.
    pub text: String,
    /// The lines about files that can't be read, and about headers that are taken as empty.
    pub errors: String,
    pub status: Status,
}

/// What a command has found so far.
#[derive(Drop)]
struct Work<'f, 'a, F: Files> {
    known: Known,
    sources: Sources<'f, 'a, F>,
    /// The comments of the present file that take findings away.
    suppressions: Vec<Suppression>,
    counts: Counts,
    report: Report,
    errors: String,
}

/// Judges the functions of a command's files, unless there are more than `FILES_LIMIT` or a table isn't read.
/// Returns an error only if memory is refused.
pub fn judge_files<F: Files>(
    alloc: Global,
    asked: &Asked<'_>,
    files: &mut F,
) -> Result<Judgement, AllocError> {
    let mut errors = String::new(alloc);
    let tables = read_tables(alloc, asked.tables, files, &mut errors)?;
    if asked.files.len() > FILES_LIMIT {
        let count = asked.files.len();
        write!(
            errors,
            "{count} files: a command takes {FILES_LIMIT} at most\n"
        )?;
    }
    if !errors.is_empty() {
        return Ok(Judgement {
            text: String::new(alloc),
            errors,
            status: Status::NotRead,
        });
    }
    judge_by(alloc, asked, files, tables)
}

/// Judges the functions by the tables.
fn judge_by<F: Files>(
    alloc: Global,
    asked: &Asked<'_>,
    files: &mut F,
    tables: Tables,
) -> Result<Judgement, AllocError> {
    let mut work = Work {
        known: Known {
            alloc,
            symbols: Symbols::new(alloc)?,
            tables,
            own: Own::new(alloc),
        },
        report: Report::new(alloc, files.paint()),
        sources: Sources::new(alloc, files, asked.folders),
        suppressions: Vec::new(alloc),
        counts: Counts::NONE,
        errors: String::new(alloc),
    };
    let readings = work.read_files(asked)?;
    work.infer(readings.as_slice())?;
    for read in readings.iter() {
        work.judge_readings(asked, read)?;
        work.complain(asked, read)?;
    }
    work.end(asked)
}

impl<F: Files> Work<'_, '_, F> {
    fn end(self, asked: &Asked<'_>) -> Result<Judgement, AllocError> {
        let alloc = self.known.alloc;
        let Work {
            known: _,
            sources,
            suppressions: _,
            counts,
            report,
            errors,
        } = self;
        let mut errors = errors;
        if let Some(name) = asked.function {
            if !counts.has_functions() {
                write!(errors, "no function {name}\n")?;
            }
        }
        let counted = counts.status(asked);
        let status = if errors.is_empty() || counted == Status::Internal {
            counted
        } else {
            Status::NotRead
        };
        let text = report.end(alloc, asked, &counts, errors.is_empty())?;
        // What a header would have said may not matter, so a missing one changes no status.
        sources.add_missing(&mut errors)?;
        Ok(Judgement {
            text,
            errors,
            status,
        })
    }

    /// Reads all files, before any function is judged: each file knows the functions of the others.
    fn read_files(&mut self, asked: &Asked<'_>) -> Result<Vec<Readings>, AllocError> {
        let mut readings = Vec::new(self.known.alloc);
        for path in asked.files {
            let file = readings.len();
            if let Some(read) = self.read_file(asked, path, file)? {
                readings.push(read)?;
            }
        }
        Ok(readings)
    }

    /// Finds what the functions of all files do for those that call them.
    fn infer(&mut self, readings: &[Readings]) -> Result<(), AllocError> {
        self.known.own = own_of(&self.known, readings)?;
        Ok(())
    }

    /// Reads a file, or says why it isn't read.
    fn read_file(
        &mut self,
        asked: &Asked<'_>,
        path: &str,
        file: usize,
    ) -> Result<Option<Readings>, AllocError> {
        let number = self.sources.number_of(path)?;
        let Some(bytes) = self.sources.bytes_of(path)? else {
            write!(self.errors, "{path}: unreadable file\n")?;
            return Ok(None);
        };
        let read = self.readings_of(asked, bytes.as_slice(), number, file);
        self.sources.place_missing(bytes.as_slice(), number)?;
        match read {
            Ok(readings) => {
                self.note_comments(bytes.as_slice(), number)?;
                Ok(Some(readings))
            }
            Err(fault) => {
                self.refuse(path, fault)?;
                Ok(None)
            }
        }
    }

    fn readings_of(
        &mut self,
        asked: &Asked<'_>,
        bytes: &[u8],
        number: usize,
        file: usize,
    ) -> Result<Readings, UnitFault> {
        let locked = self.unit(asked, bytes, number, Rules::GlobalLock)?;
        let free = if !asked.asks_for_free_threaded() {
            FreeReading::NotAsked
        } else if !self.known.has_other_text() {
            FreeReading::Same
        } else {
            FreeReading::Own(self.unit(asked, bytes, number, Rules::FreeThreaded)?)
        };
        Ok(Readings {
            number,
            file,
            locked,
            free,
        })
    }

    fn unit(
        &mut self,
        asked: &Asked<'_>,
        bytes: &[u8],
        number: usize,
        rules: Rules,
    ) -> Result<Unit, UnitFault> {
        read_unit(
            &mut self.known,
            &mut self.sources,
            bytes,
            number,
            rules,
            asked.macros,
        )
    }

    /// Notes the comments of a file that take findings away.
    fn note_comments(&mut self, bytes: &[u8], number: usize) -> Result<(), AllocError> {
        for suppression in suppressions_in(self.known.alloc, bytes, number)? {
            self.suppressions.push(suppression)?;
        }
        Ok(())
    }

    /// Says why a file isn't read.
    fn refuse(&mut self, path: &str, fault: UnitFault) -> Result<(), AllocError> {
        match fault {
            UnitFault::NoMemory
            | UnitFault::Text(TextFault::NoMemory)
            | UnitFault::Macro(MacroFault::NoMemory) => Err(AllocError),
            UnitFault::Text(fault) => write!(self.errors, "{path}: {fault}\n"),
            UnitFault::Macro(fault) => write!(self.errors, "{path}: {fault}\n"),
        }
    }

    /// Says what is wrong with the comments of a file that take findings away. Of those that take nothing away it can
    /// be said only if all functions are judged, by both sets of rules.
    fn complain(&mut self, asked: &Asked<'_>, readings: &Readings) -> Result<(), AllocError> {
        if asked.function.is_some() {
            return Ok(());
        }
        let counts = asked.rules == AskedRules::Both;
        for suppression in self.suppressions.iter_mut() {
            if suppression.place.source != readings.number {
                continue;
            }
            suppression.excuse(readings.locked.lost.as_slice());
            if let FreeReading::Own(free) = &readings.free {
                suppression.excuse(free.lost.as_slice());
            }
            if let Some(words) = suppression.complaint(counts) {
                self.counts.add_warning();
                let alloc = self.known.alloc;
                let place = suppression.place;
                let sources = self.sources.names();
                self.report
                    .add_complaint(alloc, asked, sources, place, words)?;
            }
        }
        Ok(())
    }

    /// Judges the functions of a file, in their order.
    fn judge_readings(&mut self, asked: &Asked<'_>, readings: &Readings) -> Result<(), AllocError> {
        let mut line = 0;
        for function in readings.locked.tree.functions.iter() {
            if function.place.source == readings.number {
                self.judge_free_alone(asked, readings, line, function.place.line)?;
                line = function.place.line;
                let pair = Pair {
                    locked: Some(function),
                    free: readings.partner(function),
                };
                self.judge_function(asked, readings, function, pair)?;
            }
        }
        self.judge_free_alone(asked, readings, line, u32::MAX)
    }

    /// Judges the functions from one line up to another that only the free-threaded rules read.
    fn judge_free_alone(
        &mut self,
        asked: &Asked<'_>,
        readings: &Readings,
        first: u32,
        end: u32,
    ) -> Result<(), AllocError> {
        let FreeReading::Own(free) = &readings.free else {
            return Ok(());
        };
        for function in free.tree.functions.iter() {
            let is_here = function.place.source == readings.number
                && function.place.line >= first
                && function.place.line < end;
            if is_here && readings.locked.partner(function).is_none() {
                let pair = Pair {
                    locked: None,
                    free: Some(function),
                };
                self.judge_function(asked, readings, function, pair)?;
            }
        }
        Ok(())
    }

    /// Judges a function, if it is asked for.
    fn judge_function(
        &mut self,
        asked: &Asked<'_>,
        readings: &Readings,
        function: &Function,
        pair: Pair<'_>,
    ) -> Result<(), AllocError> {
        let bytes = self.known.symbols.text(function.name);
        if !is_asked(asked, bytes) {
            return Ok(());
        }
        let alloc = self.known.alloc;
        let name = String::from_utf8_lossy(alloc, bytes)?;
        let mut seen = Seen::new(alloc, asked.shows_modules);
        judge_pair(&self.known, asked, readings, pair, &mut seen)?;
        suppress(alloc, self.suppressions.as_mut_slice(), function, &mut seen)?;
        self.counts.add(&seen);
        self.sources.judged(self.counts.functions());
        let sources = self.sources.names();
        let name = name.as_str();
        self.report
            .add_seen(alloc, asked, sources, name, function.place, &seen)
    }
}

fn is_asked(asked: &Asked<'_>, name: &[u8]) -> bool {
    match asked.function {
        Some(wanted) => wanted.as_bytes() == name,
        None => true,
    }
}
