//! What the rule of a table knows of it from the start.

use brc_lang::Sequence;
use brc_model::Layout;
use std::marker::Model;
use std::snapshot::Snapshot;

/// The size of a table, and the lines of its immortal lists. The lines take no memory: only contracts see them.
#[derive(Drop)]
pub struct Plan {
    pub(crate) layout: Layout,
    pub(crate) lines: Snapshot<Sequence<Sequence<u32>>>,
}

impl Model for Plan {
    ghost use Rattle.brc_table.specs.Plan.{Plan as TablePlan};

    ghost Value = { TablePlan };

    ghost view = { λ p. record { layout = p.layout; lines = p.lines.value } };
}
