//! The last steps of a run.

use crate::life::Lives;
use brc_trace::Entry;
use std::alloc::{AllocError, Global};

/// The most steps that a picture shows.
pub const MOST_STEPS: usize = 400;

/// The last steps of a run, and what they began with.
#[derive(Drop)]
pub struct Recent {
    /// The last entries. The oldest one is at `oldest`, and those before that place are the youngest.
    entries: Vec<Entry>,
    oldest: usize,
    /// The states of objects before the first of these entries.
    pub before: Lives,
    /// How many entries came before.
    pub gone: u64,
}

impl Recent {
    pub fn new(alloc: Global) -> Recent {
        Recent {
            entries: Vec::new(alloc),
            oldest: 0,
            before: Lives::new(alloc),
            gone: 0,
        }
    }

    /// Adds an entry, in place of the oldest one if there are as many as a picture shows.
    pub fn add(&mut self, entry: Entry) -> Result<(), AllocError> {
        if self.entries.len() < MOST_STEPS {
            self.entries.push(entry)?;
            return Ok(());
        }
        let oldest = self.oldest;
        if let Some(last) = self.entries.as_slice().get(oldest) {
            self.before.note(last)?;
        }
        if let Some(place) = self.entries.get_mut(oldest) {
            *place = entry;
        }
        let next = oldest.saturating_add(1);
        self.oldest = if next < MOST_STEPS { next } else { 0 };
        self.gone = self.gone.saturating_add(1);
        Ok(())
    }

    /// Returns the entries in their order.
    pub fn in_order(&self, alloc: Global) -> Result<Vec<Entry>, AllocError> {
        let mut ordered = Vec::new(alloc);
        for (at, entry) in self.entries.iter().enumerate() {
            if at >= self.oldest {
                ordered.push(*entry)?;
            }
        }
        for (at, entry) in self.entries.iter().enumerate() {
            if at < self.oldest {
                ordered.push(*entry)?;
            }
        }
        Ok(ordered)
    }
}
