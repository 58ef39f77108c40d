//! What a run has counted.

use brc_report::Tally;
use brc_table::Contention;

/// What a run has counted: what its report says, and how often its threads have met at the counts of objects.
#[derive(Drop)]
pub struct Counted {
    /// What the report says.
    pub tally: Tally,
    /// What all workers and main have counted of their meetings. Contracts say nothing of it.
    pub contention: Contention,
}
