//! The deallocation of an object, from its last decrement to its close.

ghost use Rattle.std.specs.Prelude.{ℕ, ◌≤◌, ◌<◌, ◌≡◌, ◌∷◌, []};
ghost use Rattle.brc_model.specs.declared.duty.Duty.TheVariants as duties;
ghost use Rattle.brc_model.specs.Duties.{cells_from};
ghost use Rattle.brc_model.specs.Limits.{worker_limit, cell_limit};
ghost use Rattle.brc_effect.specs.Effects.{IsEffect};

use super::{Doer, Effect, Next};
use crate::kinds::{cells_of, has_resource};
use brc_model::Duty;
use brc_word::next_of_dying;
use brc_word::values::EMPTY;

impl Doer {
    /// The object is the new head of the thread's dying chain: its gate links it to the old one. So the deallocation of
    /// nested objects needs no recursion. Rule `Chained`.
    #[inline(always)]
    pub(super) fn die(self, row: u32) -> Effect
        requires { row < self.rows }
        ensures { (found : ℕ) → IsEffect self (duties.Die row) found result }
    {
        Effect {
            head: row + 1,
            ..self.then(Next::Nothing)
        }
    }

    /// Loads the gate of the chain's head, which names the next object of the chain, and takes the head off the chain
    /// (`settle_keeps_head`). Rule `ChainRead`.
    #[inline(always)]
    pub(super) fn settle(self, found: u64) -> Effect
        ensures { IsEffect self duties.Settle found result }
    {
        let row = self.head.saturating_sub(1);
        Effect {
            head: next_of_dying(found),
            ..self.then(Next::Two(Duty::SettleKind { row }, Duty::Settle))
        }
    }

    /// Loads the kind word, which decides what the object gives back: a file or a socket its resource, and a list the
    /// references in its cells, from the first cell on (`first_cell_skipped`). Rules `DyingResource` and `DyingCells`.
    #[inline(always)]
    pub(super) fn settle_kind(self, row: u32, found: u64) -> Effect
        ensures { IsEffect self (duties.SettleKind row) found result }
    {
        if has_resource(found) {
            self.then(Next::One(Duty::TakeField { row }))
        } else {
            self.then(Next::One(cell_or_end(row, 0, cells_of(found))))
        }
    }

    /// Swaps the reference out of the cell (`cell_keeps_its_reference`), and releases it before the thread empties the
    /// next cell. Rule `CellEmptied`.
    #[inline(always)]
    pub(super) fn settle_cell(self, row: u32, cell: u32, cells: u32, found: u64) -> Effect
        requires cell { cell < cell_limit }
        requires row { found ≤ self.rows }
        ensures { IsEffect self (duties.SettleCell row cell cells) found result }
    {
        let then = cell_or_end(row, cell + 1, cells);
        if found == EMPTY {
            return self.then(Next::One(then));
        }
        let row = (found - 1) as u32;
        self.then(Next::Release { row, then })
    }

    /// Takes the resource out of its field, so that no other thread finds it there while the host closes it. The host's
    /// close comes next (`resource_left_open`). Rule `FieldEmptied`.
    #[inline(always)]
    pub(super) fn take_field(self, row: u32) -> Effect
        ensures { (found : ℕ) → IsEffect self (duties.TakeField row) found result }
    {
        self.then(Next::One(Duty::CloseResource { row }))
    }

    /// Lets the host close the resource, and counts that (`close_uncounted`). The resource is closed from then on, even
    /// if the host reports a fault, so the thread goes on to close the object. Rule `ResourceClosed`.
    #[inline(always)]
    pub(super) fn close_resource(self, row: u32) -> Effect
        ensures { (found : ℕ) → IsEffect self (duties.CloseResource row) found result }
    {
        self.then(Next::One(Duty::SettleEnd { row }))
    }
}

/// Returns the duty to empty the dying list's cell, or the duty to close the list if it has no such cell
/// (`last_cell_skipped`).
#[inline(always)]
fn cell_or_end(row: u32, cell: u32, cells: u32) -> Duty
    ensures { cells_from row cell cells ≡ result ∷ [] }
{
    if cell < cells {
        Duty::SettleCell { row, cell, cells }
    } else {
        Duty::SettleEnd { row }
    }
}
