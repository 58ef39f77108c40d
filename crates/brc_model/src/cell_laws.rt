//! Laws of the counting machine about the cells of lists: what they name, and what running threads may do with a cell
//! in one step.

ghost use Rattle.brc_model.specs.CellLaws.{CellsAreSwapped, ItemsAreThere};

/// States that the invariant holds after a ready thread swaps a cell of the list that it has locked. It puts a
/// reference of its own in, or none, and what the cell held is its own from then on.
pub fn cells_are_swapped()
    ensures { CellsAreSwapped }
{}

/// States that what a cell names has a row.
pub fn items_are_there()
    ensures { ItemsAreThere }
{}
