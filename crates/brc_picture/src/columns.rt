//! The columns of the bars. Bars that have no line in common may have one column.

use crate::bar::Bar;

/// The most columns of bars.
pub const MOST_COLUMNS: u32 = 24;

/// The lines between two bars of a column: the lower one's head.
const BETWEEN: u32 = 2;

/// Gives each bar the first column where there is room for it: first those that begin with the picture. Returns how
/// many columns there are.
pub fn place_bars(bars: &mut [Bar]) -> u32 {
    let begin_with_it = place_those(bars, true, 0);
    place_those(bars, false, begin_with_it)
}

/// Places the bars that begin with the picture, or the others.
fn place_those(bars: &mut [Bar], begin_with_it: bool, columns: u32) -> u32 {
    let mut columns = columns;
    for at in 0..bars.len() {
        let lines = match bars.get(at) {
            Some(bar) if (bar.first == 0) == begin_with_it => Some((bar.first, bar.end)),
            _ => None,
        };
        if let Some((first, end)) = lines {
            let column = free_column(bars, first, end);
            columns = columns.max(columns_with(column));
            if let Some(bar) = bars.get_mut(at) {
                bar.column = column;
            }
        }
    }
    columns
}

/// Returns how many columns there are if this is the last one.
fn columns_with(column: Option<u32>) -> u32 {
    match column {
        Some(column) => column.saturating_add(1),
        None => 0,
    }
}

/// Returns the first column in which these lines are free.
fn free_column(bars: &[Bar], first: u32, end: u32) -> Option<u32> {
    for column in 0..MOST_COLUMNS {
        if is_free(bars, column, first, end) {
            return Some(column);
        }
    }
    None
}

fn is_free(bars: &[Bar], column: u32, first: u32, end: u32) -> bool {
    for bar in bars {
        if is_beside(bar, column, first, end) {
            return false;
        }
    }
    true
}

/// Whether the bar is in the column, and too near to these lines.
fn is_beside(bar: &Bar, column: u32, first: u32, end: u32) -> bool {
    bar.column == Some(column)
        && bar.first < end.saturating_add(BETWEEN)
        && first < bar.end.saturating_add(BETWEEN)
}
