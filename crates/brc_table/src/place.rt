//! Where each word of the table is.

ghost use Rattle.std.specs.Prelude.{◌≡◌, ◌+◌, ◌*◌, ◌<◌};
ghost use Rattle.brc_table.specs.Places.{tile_lines, marks_front, mark_room, in_tile, cell_place, place};

use crate::size::tile_count;
use brc_model::{Address, Layout};
use std::marker::Model;

/// The words of a cache line of 64 bytes.
pub(crate) const LINE: usize = 8;

/// The words in front of the mark words: five lines of thread words.
const MARKS_FRONT: usize = 40;

/// The words kept for the mark words of a block: three lines. A block has at most 17 mark words.
const MARK_ROOM: usize = 24;

/// The most threads: main and 32 workers.
const THREADS: usize = 33;

/// The words in front of the tiles.
pub(crate) const FRONT: usize = MARKS_FRONT + MARK_ROOM * THREADS;

/// The line of a tile's local words.
pub(crate) const LOCAL: usize = 0;

/// The line of a tile's shared words.
pub(crate) const SHARED: usize = 1;

/// The line of a tile's gates.
pub(crate) const GATE: usize = 2;

/// The line of a tile's kind words.
pub(crate) const KIND: usize = 3;

/// The lines of a tile.
const TILE_LINES: usize = 4;

/// The words of a tile, which has the words of eight rows, but for their cells.
pub(crate) const TILE: usize = LINE * TILE_LINES;

/// Returns the place of a row's word. The words of a row are in different cache lines, so that the owner, which writes
/// the local word, and another thread, which writes the shared word, don't write to one line.
#[inline(always)]
pub(crate) fn in_line(line: usize, row: u32) -> usize
    requires { line < tile_lines }
    ensures { result ≡ in_tile line row }
{
    let row = row as usize;
    FRONT + TILE * (row / LINE) + LINE * line + row % LINE
}

/// Returns the place of a mark word of the thread's block. The mark words of a block have cache lines of their own, so
/// that two threads that look through their queues share no line.
#[inline(always)]
fn in_marks(thread: u32, word: u32) -> usize
    ensures { result ≡ marks_front + mark_room * thread + word }
{
    MARKS_FRONT + MARK_ROOM * thread as usize + word as usize
}

/// A layout, and where its cells are: after the tiles, as many for each row as a list may have.
#[derive(Clone, Copy)]
pub(crate) struct Cells {
    layout: Layout,
    /// The place of the first one.
    front: usize,
}

impl Model for Cells {
    ghost use Rattle.std.specs.Prelude.{◌≡◌};
    ghost use Rattle.std.proofs.Common.{sym};
    ghost use Rattle.brc_model.specs.declared.layout.Layout.{Layout};
    ghost use Rattle.brc_table.specs.Places.{cells_front};

    ghost Value = { Layout };

    ghost view = { λ c. c.layout };

    ghost invariant = { λ c. c.front ≡ cells_front c.layout };

    ghost inverse = { λ layout. record { layout = layout; front = cells_front layout } };

    ghost inverse_ok = { λ c is i. record c { front = sym is i } };
}

impl Cells {
    /// Returns where the cells of the layout are.
    pub(crate) fn of(layout: Layout) -> Cells
        ensures { result ≡ layout }
    {
        Cells {
            layout,
            front: FRONT + TILE * tile_count(layout),
        }
    }

    /// Returns the place of a cell.
    #[inline(always)]
    pub(crate) fn place(self, row: u32, cell: u32) -> usize
        ensures { result ≡ cell_place self row cell }
    {
        self.front + usize::from(self.layout.cells) * row as usize + cell as usize
    }

    /// Returns the place of the word at the address. A field and a resource have no word.
    #[inline(always)]
    pub(crate) fn place_at(self, address: Address) -> usize
        ensures { result ≡ place self address }
    {
        match address {
            Address::Local { row } => in_line(LOCAL, row),
            Address::Shared { row } => in_line(SHARED, row),
            Address::Gate { row } => in_line(GATE, row),
            Address::KindOf { row } => in_line(KIND, row),
            Address::Marks { thread, word } => in_marks(thread, word),
            Address::Cell { row, cell } => self.place(row, cell),
            Address::ThreadWord { thread } => thread as usize,
            Address::Field { .. } | Address::Resource { .. } => 0,
        }
    }
}
