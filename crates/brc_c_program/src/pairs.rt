//! A file as it is read by each set of rules that is asked for, and its functions.

use crate::asked::Asked;
use crate::judging::{Judging, judge, judge_by_both};
use crate::seen::Seen;
use crate::unit::{Known, Unit};
use brc_c_store::Rules;
use brc_c_tree::Function;
use std::alloc::AllocError;

/// What the free-threaded rules read of a file.
#[derive(Drop)]
pub(crate) enum FreeReading {
    NotAsked,
    /// The same as the rules of a global lock: no source asks for `Py_GIL_DISABLED`.
    Same,
    Own(Unit),
}

/// A file by the rules of a global lock and, if they are asked for, by the free-threaded rules. What is at fault by the
/// latter only is a warning, so the former are always needed.
#[derive(Drop)]
pub(crate) struct Readings {
    /// The number of the file among the sources.
    pub(crate) number: usize,
    /// Its number among the files that are read.
    pub(crate) file: usize,
    pub(crate) locked: Unit,
    pub(crate) free: FreeReading,
}

impl Readings {
    /// Returns the function of the same name at the same place as the free-threaded rules read it, if they read another
    /// text.
    pub(crate) fn partner(&self, function: &Function) -> Option<&Function> {
        match &self.free {
            FreeReading::Own(unit) => unit.partner(function),
            FreeReading::NotAsked | FreeReading::Same => None,
        }
    }
}

/// A function of a file, in the reading where it is.
#[derive(Clone, Copy)]
pub(crate) struct Pair<'u> {
    pub(crate) locked: Option<&'u Function>,
    /// None if both sets of rules read the same text.
    pub(crate) free: Option<&'u Function>,
}

/// Judges a function by the rules that are asked for.
pub(crate) fn judge_pair(
    known: &Known,
    asked: &Asked<'_>,
    readings: &Readings,
    pair: Pair<'_>,
    seen: &mut Seen,
) -> Result<(), AllocError> {
    let locked = Judging {
        known,
        unit: &readings.locked,
        file: readings.file,
        rules: Rules::GlobalLock,
        counts: asked.asks_for_global_lock(),
    };
    let free = Judging {
        rules: Rules::FreeThreaded,
        counts: true,
        ..locked
    };
    match &readings.free {
        FreeReading::NotAsked => judge_if_there(&locked, pair.locked, seen)?,
        FreeReading::Same => judge_both_if_there(&locked, &free, pair.locked, seen)?,
        FreeReading::Own(unit) => {
            judge_if_there(&locked, pair.locked, seen)?;
            let own = Judging { unit, ..free };
            judge_if_there(&own, pair.free, seen)?;
        }
    }
    if !asked.asks_for_global_lock() {
        seen.findings.retain(|finding| finding.by_free_threaded);
    }
    Ok(())
}

fn judge_both_if_there(
    locked: &Judging<'_>,
    free: &Judging<'_>,
    function: Option<&Function>,
    seen: &mut Seen,
) -> Result<(), AllocError> {
    match function {
        Some(function) => judge_by_both(locked, free, function, seen),
        None => Ok(()),
    }
}

fn judge_if_there(
    judging: &Judging<'_>,
    function: Option<&Function>,
    seen: &mut Seen,
) -> Result<(), AllocError> {
    match function {
        Some(function) => judge(judging, function, seen),
        None => Ok(()),
    }
}
