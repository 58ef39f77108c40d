//! The first words of a table.

ghost use Rattle.std.specs.Prelude.{◌≡◌, ℕ, ◌+◌, ◌<◌, ◌≤◌, IfOk, length};
ghost use Rattle.brc_model.specs.declared.address.Address.{Address};
ghost use Rattle.brc_model.specs.Counting.{IsPlainLayout};
ghost use Rattle.brc_model.specs.FirstRows.{HasLines};
ghost use Rattle.brc_model.specs.Layout.{row_count};
ghost use Rattle.brc_effect.specs.FirstLists.{with_list, with_number};
ghost use Rattle.brc_table.specs.Opening.{blank_line, blank_word, first_word, ArePlain, AreFirst, AreWordsOf};
ghost use Rattle.brc_model.specs.Machine.{written};
ghost use Rattle.brc_table.specs.Places.{word_count, FewFirstRows, HasWord};

use crate::place::{Cells, FRONT, GATE, KIND, LINE, LOCAL, SHARED, TILE, in_line};
use crate::size::{tile_count, word_count};
use brc_effect::rows::{NONE_ROW, ROOT, ROOT_CELLS, first_number, immortal_list, row_count};
use brc_lang::Sequence;
use brc_model::{Address, Layout};
use brc_word::values::{EMPTY, FREE, LIST, NONE, NUM, RUNNING};
use brc_word::{kind_word, local_word};
use std::alloc::{AllocError, Global};

/// Main's number.
const MAIN: u8 = 0;

/// The place of main's thread word.
const MAIN_PLACE: usize = 0;

/// The shared word of count 0 and state default.
const FRESH: u64 = 1 << 42;

/// The local count of an immortal object.
const IMMORTAL: u32 = u32::MAX;

/// Returns the first value of the words in a line of a tile, of rows that aren't born.
fn blank_line(line: usize) -> u64
    ensures { result ≡ blank_line line }
{
    match line {
        SHARED => FRESH,
        GATE => FREE,
        _ => 0,
    }
}

/// Returns the first value of a word of a thread, or of a row that isn't born, unless it is a cell.
fn blank_word(index: usize) -> u64
    ensures { result ≡ blank_word index }
{
    if index >= FRONT {
        blank_line((index - FRONT) % TILE / LINE)
    } else if index == MAIN_PLACE {
        RUNNING
    } else {
        0
    }
}

/// Returns the first value of a word that is no cell. None is immortal. The root is a list of eight cells, and main,
/// which owns it, holds the only reference to it.
fn first_word(index: usize) -> u64
    ensures { result ≡ first_word index }
{
    if index == in_line(LOCAL, NONE_ROW) {
        local_word(Some(MAIN), IMMORTAL)
    } else if index == in_line(LOCAL, ROOT) {
        local_word(Some(MAIN), 1)
    } else if index == in_line(KIND, NONE_ROW) {
        kind_word(NONE, 0)
    } else if index == in_line(KIND, ROOT) {
        kind_word(LIST, ROOT_CELLS)
    } else {
        blank_word(index)
    }
}

/// Returns the words of a table before any step, or `AllocError` if memory is refused. Each line is an immortal list,
/// as long as the line, whose cells name new numbers with the line's values.
pub(crate) fn first_words(
    alloc: Global,
    layout: Layout,
    lines: &[Sequence<u32>],
) -> Result<Vec<u64>, AllocError>
    requires plain { IsPlainLayout layout }
    requires lines { HasLines lines.now layout }
    ensures { IfOk result (λ words. AreFirst lines.now layout words.items) }
{
    let mut words = plain_words(alloc, layout)?;
    let cells = Cells::of(layout);
    let mut list = immortal_list(layout, 0);
    let mut number = first_number(layout);
    for line in lines {
        let values = line.as_slice();
        put_list(&mut words, cells, list, number, values);
        list += 1;
        number += values.len() as u32;
    }
    Ok(words)
}

/// Makes the row an immortal list as long as the line, whose cells name numbers with the line's values. The first of
/// these has the row `first`, and each other the next one.
fn put_list(words: &mut Vec<u64>, cells: Cells, list: u32, first: u32, line: &[u32])
    requires plain { IsPlainLayout cells }
    requires few { FewFirstRows cells }
    requires long { length words.old.items ≡ word_count cells }
    requires list { list < row_count cells }
    requires numbers { first + length line.now ≤ row_count cells }
    requires cells { length line.now ≤ cells.cells }
    ensures long { length words.new.items ≡ word_count cells }
    ensures words { (memory : Address → ℕ) → AreWordsOf cells words.old.items memory
        → AreWordsOf cells words.new.items (with_list memory list first line.now) }
{
    let immortal = local_word(Some(MAIN), IMMORTAL);
    put(words, cells, Address::Local { row: list }, immortal);
    let kind = kind_word(LIST, line.len() as u32);
    put(words, cells, Address::KindOf { row: list }, kind);
    let mut cell = 0u32;
    for value in line {
        put_number(words, cells, list, cell, first + cell, *value);
        cell += 1;
    }
}

/// Makes the row a number of this value, which main owns and the list's cell names.
fn put_number(words: &mut Vec<u64>, cells: Cells, list: u32, cell: u32, row: u32, value: u32)
    requires plain { IsPlainLayout cells }
    requires few { FewFirstRows cells }
    requires long { length words.old.items ≡ word_count cells }
    requires list { list < row_count cells }
    requires number { row < row_count cells }
    requires cell { cell < cells.cells }
    ensures long { length words.new.items ≡ word_count cells }
    ensures words { (memory : Address → ℕ) → AreWordsOf cells words.old.items memory
        → AreWordsOf cells words.new.items (with_number memory list cell row value) }
{
    put(
        words,
        cells,
        Address::Local { row },
        local_word(Some(MAIN), 1),
    );
    put(words, cells, Address::KindOf { row }, kind_word(NUM, value));
    let item = u64::from(row) + 1;
    put(words, cells, Address::Cell { row: list, cell }, item);
}

/// Stores the word at the address.
fn put(words: &mut Vec<u64>, cells: Cells, address: Address, word: u64)
    requires plain { IsPlainLayout cells }
    requires few { FewFirstRows cells }
    requires long { length words.old.items ≡ word_count cells }
    requires there { HasWord cells address }
    ensures long { length words.new.items ≡ word_count cells }
    ensures words { (memory : Address → ℕ) → AreWordsOf cells words.old.items memory
        → AreWordsOf cells words.new.items (written memory address word) }
{
    words[cells.place_at(address)] = word;
}

/// Returns the words of a table before any step, but for those of immortal lists and of their numbers, or `AllocError`
/// if memory is refused.
///
/// No row of the second tile is born, and each later tile has the same words.
fn plain_words(alloc: Global, layout: Layout) -> Result<Vec<u64>, AllocError>
    ensures { IfOk result (λ words. ArePlain layout words.items) }
{
    let mut words = Vec::with_capacity(alloc, word_count(layout))?;
    let tiles = tile_count(layout);
    let computed = if tiles < 2 { tiles } else { 2 };
    for index in 0..FRONT + TILE * computed {
        words.push(first_word(index))?;
    }
    for _tile in 2..tiles {
        words.extend_from_within(FRONT + TILE..FRONT + 2 * TILE)?;
    }
    let cells = vec![in alloc; EMPTY; usize::from(layout.cells) * row_count(layout)]?;
    words.extend_from_slice(cells.as_slice())?;
    Ok(words)
}
