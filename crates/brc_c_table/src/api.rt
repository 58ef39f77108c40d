//! The rows of `api.txt`. `docs/api_table.py --write` writes this file and its parts.

mod part_1;
mod part_2;
mod part_3;
mod part_4;

/// The rows, in parts.
pub const PARTS: [&str; 4] = [part_1::ROWS, part_2::ROWS, part_3::ROWS, part_4::ROWS];
