ghost use Rattle.std.specs.Prelude.{◌≡◌, length, is_some, slice_set, if◌then◌else◌};
ghost use Rattle.brc_check.specs.Tables.{entries_of, kept_at, states_of, with_state};

use crate::kept_entry::KeptEntry;
use crate::point_states::{number_of, state_at};
use brc_lang::{Module, Sequence};
use brc_model::State;
use std::marker::Model;

/// The states of the variables at the points of each function.
///
/// A table keeps an entry for the first point of each function and for each target of an `else`, a `goto` or an
/// `again`: these are the points where paths meet. Any other point has one way to it, so its state follows from that of
/// the point before. A caller may read and change a table; the checker never trusts one.
#[derive(Debug, Drop)]
pub struct Table {
    lists: Vec<Sequence<KeptEntry>>,
}

impl Model for Table {
    ghost use Rattle.std.specs.Prelude.{List};
    ghost use Rattle.brc_check.specs.declared.kept_entry.KeptEntry.{KeptEntry};

    ghost Value = { List (List KeptEntry) };

    ghost view = { λ t. t.lists.items };
}

impl Table {
    pub(crate) fn new(lists: Vec<Sequence<KeptEntry>>) -> Table
        ensures { result ≡ lists.items }
    {
        Table { lists }
    }

    /// Returns the lists of kept entries, one for each function.
    pub(crate) fn lists(&self) -> &[Sequence<KeptEntry>]
        ensures { result.now ≡ self.now }
    {
        self.lists.as_slice()
    }

    /// Returns the number of points that the table keeps of a function: 1, and 1 for each distinct target other than
    /// the first point.
    pub fn kept(&self, function: usize) -> usize
        ensures { result ≡ length (entries_of self.now function) }
    {
        if function >= self.lists.len() {
            return 0;
        }
        self.lists[function].len()
    }

    /// Returns the state of a point of a function of the module, or `None` if no path reaches the point, or there is no
    /// such point. Functions and points count from 0.
    ///
    /// A point that isn't kept has the state that the success exits lead to from the nearest kept point before it, and
    /// none if they lead elsewhere, end the call or report a code. It takes no memory.
    pub fn at(&self, module: &Module, function: usize, at: usize) -> Option<State>
        ensures { result ≡ states_of «module».now self.now function at }
    {
        let functions = module.functions.as_slice();
        let lists = self.lists();
        if function >= functions.len() {
            return None;
        }
        if function >= lists.len() {
            return None;
        }
        let code = functions[function].code.as_slice();
        state_at(code, lists[function].as_slice(), at)
    }

    /// Overwrites the entry of a kept point. Returns `false` and changes nothing if the point isn't kept.
    pub fn change(&mut self, function: usize, at: usize, entry: Option<State>) -> bool
        ensures answer { result ≡ is_some (kept_at (entries_of self.old function) at) }
        ensures changed { self.new ≡ (if result then slice_set self.old function
            (with_state (entries_of self.old function) at entry) else self.old) }
    {
        if function >= self.lists.len() {
            return false;
        }
        let Some(number) = number_of(self.lists[function].as_slice(), at) else {
            return false;
        };
        self.lists[function].set(number, KeptEntry { at, state: entry });
        true
    }
}
