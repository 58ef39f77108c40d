//! Swaps of cells: a list takes a reference over from the thread that has locked it.

ghost use Rattle.std.specs.Prelude.{ℕ, ◌≤◌};
ghost use Rattle.brc_model.specs.declared.duty.Duty.TheVariants as duties;
ghost use Rattle.brc_model.specs.declared.duty.Holding.{Holding};
ghost use Rattle.brc_effect.specs.Effects.{IsEffect};

use super::{Doer, Effect, Next};
use brc_model::{Duty, Holding};
use brc_word::values::EMPTY;

impl Doer {
    /// Swaps the thread's reference to the item for what the cell holds. (C API manual, `PyList_SetItem`: the list
    /// steals the reference to the item, and discards the one that it had in this place.) The cell names the item from
    /// then on (`another_item_stored`). What it held is released next (`old_item_kept`), and not before: while the cell
    /// named the old item, that item had to live. Rule `ItemStored`.
    #[inline(always)]
    pub(super) fn cell_swap(self, found: u64) -> Effect
        requires row { found ≤ self.rows }
        ensures { (row cell item : ℕ) (holding : Holding)
            → IsEffect self (duties.CellSwap row cell item holding) found result }
    {
        if found == EMPTY {
            return self.then(Next::Nothing);
        }
        let old = Duty::ReleaseLoad {
            row: (found - 1) as u32,
            holding: Holding::InFlight,
        };
        self.then(Next::One(old))
    }
}
