//! Which function a name means.

use brc_c_flow::{OwnFunctions, OwnRow};
use brc_c_text::Symbol;
use std::alloc::Global;
use std::collections::{HashMap, HashSet};

/// The numbers of the functions of a program by their names.
#[derive(Drop)]
pub(crate) struct Names {
    /// Those of each file and its headers.
    pub(crate) here: Vec<HashMap<Symbol, usize>>,
    /// Those that other files know.
    pub(crate) elsewhere: HashMap<Symbol, usize>,
    /// The numbers of functions that macros take from tables: other files call them by name.
    pub(crate) through_tables: HashSet<usize>,
    /// None: those of a file that isn't there.
    nowhere: HashMap<Symbol, usize>,
}

impl Names {
    pub(crate) fn new(alloc: Global) -> Names {
        Names {
            here: Vec::new(alloc),
            elsewhere: HashMap::new(alloc),
            through_tables: HashSet::new(alloc),
            nowhere: HashMap::new(alloc),
        }
    }

    /// Returns the functions that a file knows, with what is known of them.
    pub(crate) fn in_file<'a>(
        &'a self,
        file: usize,
        rows: &'a [Option<OwnRow>],
    ) -> OwnFunctions<'a> {
        OwnFunctions {
            here: match self.here.get(file) {
                Some(here) => here,
                None => &self.nowhere,
            },
            elsewhere: &self.elsewhere,
            rows,
        }
    }
}
