//! Returns of a function that are marked.

use brc_c_flow::RowFlow;
use std::alloc::{AllocError, Global};

/// Some of the returns of a function, by their numbers.
#[derive(Drop)]
pub(crate) struct Sites {
    marked: Vec<bool>,
}

impl Sites {
    /// Returns none of the returns.
    pub(crate) fn new(alloc: Global, flow: &RowFlow) -> Result<Sites, AllocError> {
        let mut marked = Vec::new(alloc);
        for _ in flow.returns.iter() {
            marked.push(false)?;
        }
        Ok(Sites { marked })
    }

    pub(crate) fn mark(&mut self, site: usize) {
        if let Some(found) = self.marked.get_mut(site) {
            *found = true;
        }
    }

    /// Returns how many are marked that aren't among the others.
    pub(crate) fn count_beside(&self, others: &Sites) -> usize {
        self.marked
            .iter()
            .zip(others.marked.iter())
            .filter(|(marked, other)| **marked && !**other)
            .count()
    }

    pub(crate) fn count(&self) -> usize {
        self.marked.iter().filter(|marked| **marked).count()
    }
}
