//! The rows of each thread's block, by the layout, and the cells of their lists.

ghost use Rattle.std.specs.Prelude.{◌≡◌, ◌+◌, ◌<◌, ◌^◌};
ghost use Rattle.brc_model.specs.Layout.{rear_rows, worker_rows, row_count, block_of, block_size, row_at, index_of};
ghost use Rattle.brc_model.specs.Layout.{first_immortal_list, first_number, is_immortal_row};

use brc_model::Layout;

/// None's row.
pub const NONE_ROW: u32 = 0;

/// The root's row.
pub const ROOT: u32 = 1;

/// Main's rows in front of the workers': none's and the root's.
pub const FRONT_ROWS: u32 = 2;

/// The cells of the root.
pub const ROOT_CELLS: u32 = 8;

/// Returns the number of rows of all workers.
#[inline(always)]
pub(crate) fn worker_rows(layout: Layout) -> u32
    ensures { result ≡ worker_rows layout }
{
    u32::from(layout.workers) * u32::from(layout.rows)
}

/// Returns the number of main's rows behind the workers': the immortal lists', and the numbers' in their cells.
#[inline(always)]
fn rear_rows(layout: Layout) -> u32
    ensures { result ≡ rear_rows layout }
{
    u32::from(layout.immortal_lists) + u32::from(layout.numbers)
}

/// Returns the number of all rows.
pub fn row_count(layout: Layout) -> usize
    ensures { result ≡ row_count layout }
{
    (FRONT_ROWS + worker_rows(layout) + rear_rows(layout)) as usize
}

/// Returns the thread whose block has the row.
pub fn block_of(layout: Layout, row: u32) -> u32
    requires { 0 < layout.rows }
    ensures { result ≡ block_of layout row }
{
    if FRONT_ROWS <= row && row < FRONT_ROWS + worker_rows(layout) {
        (row - FRONT_ROWS) / u32::from(layout.rows) + 1
    } else {
        0
    }
}

/// Returns the first row of an immortal list.
pub fn first_immortal_list(layout: Layout) -> u32
    ensures { result ≡ first_immortal_list layout }
{
    FRONT_ROWS + worker_rows(layout)
}

/// Returns the row of the immortal list with this number.
#[inline(always)]
pub fn immortal_list(layout: Layout, number: u8) -> u32
    ensures { result ≡ first_immortal_list layout + number }
{
    first_immortal_list(layout) + u32::from(number)
}

/// Returns the first row of a number in a cell of an immortal list.
pub fn first_number(layout: Layout) -> u32
    ensures { result ≡ first_number layout }
{
    first_immortal_list(layout) + u32::from(layout.immortal_lists)
}

/// Returns whether the row is an immortal object's: none's, or an immortal list's.
pub fn is_immortal_row(layout: Layout, row: u32) -> bool
    ensures { result ≡ is_immortal_row layout row }
{
    row == NONE_ROW || (first_immortal_list(layout) <= row && row < first_number(layout))
}

/// Returns the number of rows of the thread's block.
pub fn block_size(layout: Layout, number: u8) -> u32
    ensures { result ≡ block_size layout number }
{
    match number {
        0 => FRONT_ROWS + rear_rows(layout),
        _ => u32::from(layout.rows),
    }
}

/// Returns the row with the index in the thread's block.
pub fn row_at(layout: Layout, number: u8, index: u32) -> u32
    requires { index < 2 ^ 31 }
    ensures { result ≡ row_at layout number index }
{
    match number {
        0 if index < FRONT_ROWS => index,
        0 => worker_rows(layout) + index,
        _ => FRONT_ROWS + u32::from(number - 1) * u32::from(layout.rows) + index,
    }
}

/// Returns the index of the row in the thread's block.
pub fn index_of(layout: Layout, number: u8, row: u32) -> u32
    ensures { result ≡ index_of layout number row }
{
    match number {
        0 if row < FRONT_ROWS => row,
        0 => row.saturating_sub(worker_rows(layout)),
        _ => row.saturating_sub(FRONT_ROWS + u32::from(number - 1) * u32::from(layout.rows)),
    }
}
