//! The layout of a module's heaps and worlds: which rows its static lines have.

ghost use Rattle.std.specs.Prelude.{◌≡◌, ◌≤◌};
ghost use Rattle.brc_model.specs.FirstRows.{HasLines, value_count};
ghost use Rattle.brc_model.specs.Limits.{number_limit};
ghost use Rattle.brc_model.specs.StepMachine.{layout_of};

use brc_lang::{Module, Sequence};
use brc_model::Layout;

/// Returns the layout of a heap or a world of the module, with this number of workers and of rows for each of them.
pub fn layout_of(module: &Module, workers: u8, rows: u16) -> Layout
    requires { HasLines «module».now.statics (layout_of «module».now workers rows) }
    ensures { result ≡ layout_of «module».now workers rows }
{
    let statics = module.statics.as_slice();
    let immortal_lists = statics.len() as u8;
    let numbers = value_count(statics) as u16;
    Layout {
        workers,
        rows,
        cells: module.version.most_cells(),
        immortal_lists,
        numbers,
    }
}

/// Returns the number of all values of the static lines.
fn value_count(statics: &[Sequence<u32>]) -> usize
    requires { value_count statics.now ≤ number_limit }
    ensures { result ≡ value_count statics.now }
{
    let mut count = 0;
    for line in statics {
        count += line.len();
    }
    count
}
