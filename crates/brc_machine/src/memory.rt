//! The words that threads share.

ghost use Rattle.std.specs.Prelude.{◌≡◌, ◌+◌, ◌*◌, ◌<◌, ◌≤◌, true, length, slice_index_or, IfOk};
ghost use Rattle.brc_model.specs.FirstRows.{HasLines};
ghost use Rattle.brc_model.specs.Limits.{worker_limit, total_limit};
ghost use Rattle.brc_model.specs.Machine.{written};
ghost use Rattle.brc_model.specs.StepMachine.{first_memory};
ghost use Rattle.brc_effect.specs.FirstLists.{with_number, with_list};
ghost use Rattle.brc_machine.specs.FirstWords.{plain_words};
ghost use Rattle.brc_machine.specs.Storage.{word_in, HasWord, IsStored};
ghost use Rattle.brc_model.specs.Layout.{row_count};

use crate::no_memory::NoMemory;
use brc_effect::rows::{ROOT_CELLS, first_number, immortal_list, row_count};
use brc_lang::Sequence;
use brc_model::{Address, Layout};
use brc_word::values::{FREE, LIST, NONE, NUM, RUNNING};
use brc_word::{Phase, Shared, kind_word, local_word, pack};
use std::alloc::Global;
use std::marker::Model;

/// The words of a machine, one column for each sort of word: each row has the same number of cells and one word of each
/// other sort, and each thread has one word of its own and the mark words of its rows.
#[derive(Debug, Drop)]
pub struct Memory {
    local: Vec<u64>,
    shared: Vec<u64>,
    gate: Vec<u64>,
    kind: Vec<u64>,
    mark: Vec<u64>,
    cell: Vec<u64>,
    field: Vec<u64>,
    resource: Vec<u64>,
    thread: Vec<u64>,
    /// The number of cells of each row.
    width: u8,
}

impl Model for Memory {
    ghost use Rattle.brc_machine.specs.Storage.{Columns, AreColumns};

    ghost Value = { Columns };

    ghost view = { λ m. (record {
      local = m.local.items;
      shared = m.shared.items;
      gate = m.gate.items;
      kind = m.kind.items;
      mark = m.mark.items;
      cell = m.cell.items;
      field = m.field.items;
      resource = m.resource.items;
      thread = m.thread.items;
      width = m.width;
    }) };

    ghost invariant = { λ m. AreColumns (record {
      local = m.local.items;
      shared = m.shared.items;
      gate = m.gate.items;
      kind = m.kind.items;
      mark = m.mark.items;
      cell = m.cell.items;
      field = m.field.items;
      resource = m.resource.items;
      thread = m.thread.items;
      width = m.width;
    }) };
}

/// The number of mark words of each thread: no block has more rows than they have marks.
const MARK_ROOM: usize = 17;

/// The shared word of count 0 and state default.
const FRESH: u64 = 1 << 42;

/// The local count of an immortal object.
const IMMORTAL: u32 = u32::MAX;

impl Memory {
    /// Returns the number of rows.
    pub fn rows(&self) -> usize
        ensures { result ≡ length self.now.local }
    {
        self.local.len()
    }

    /// Returns the word at the address.
    #[inline(always)]
    pub fn load(&self, address: Address) -> u64
        requires { HasWord self.now address }
        ensures { result ≡ word_in self.now address }
    {
        match address {
            Address::Local { row } => self.local[row as usize],
            Address::Shared { row } => self.shared[row as usize],
            Address::Gate { row } => self.gate[row as usize],
            Address::KindOf { row } => self.kind[row as usize],
            Address::Marks { thread, word } => self.mark[MARK_ROOM * thread as usize
                + word as usize],
            Address::Cell { row, cell } => self.cell[usize::from(self.width) * row as usize
                + cell as usize],
            Address::Field { row } => self.field[row as usize],
            Address::Resource { row } => self.resource[row as usize],
            Address::ThreadWord { thread } => self.thread[thread as usize],
        }
    }

    /// Stores the word at the address.
    #[inline(always)]
    pub fn store(&mut self, address: Address, word: u64)
        requires { HasWord self.old address }
        ensures { IsStored self.old address word self.new }
    {
        match address {
            Address::Local { row } => self.local[row as usize] = word,
            Address::Shared { row } => self.shared[row as usize] = word,
            Address::Gate { row } => self.gate[row as usize] = word,
            Address::KindOf { row } => self.kind[row as usize] = word,
            Address::Marks {
                thread,
                word: number,
            } => self.mark[MARK_ROOM * thread as usize + number as usize] = word,
            Address::Cell { row, cell } => self.cell[usize::from(self.width) * row as usize
                + cell as usize] = word,
            Address::Field { row } => self.field[row as usize] = word,
            Address::Resource { row } => self.resource[row as usize] = word,
            Address::ThreadWord { thread } => self.thread[thread as usize] = word,
        }
    }

    /// Returns the word at the address, or the one that such a word has at first if there is none.
    pub fn read(&self, address: Address) -> u64
        ensures { result ≡ word_in self.now address }
    {
        match address {
            Address::Local { row } => word_or(self.local.as_slice(), row as usize, 0),
            Address::Shared { row } => word_or(self.shared.as_slice(), row as usize, FRESH),
            Address::Gate { row } => word_or(self.gate.as_slice(), row as usize, FREE),
            Address::KindOf { row } => word_or(self.kind.as_slice(), row as usize, 0),
            Address::Marks { thread, word } => {
                if word as usize >= MARK_ROOM {
                    return 0;
                }
                word_or(
                    self.mark.as_slice(),
                    MARK_ROOM * thread as usize + word as usize,
                    0,
                )
            }
            Address::Cell { row, cell } => {
                if cell >= u32::from(self.width) {
                    return 0;
                }
                word_or(
                    self.cell.as_slice(),
                    usize::from(self.width) * row as usize + cell as usize,
                    0,
                )
            }
            Address::Field { row } => word_or(self.field.as_slice(), row as usize, 0),
            Address::Resource { row } => word_or(self.resource.as_slice(), row as usize, 0),
            Address::ThreadWord { thread } => word_or(self.thread.as_slice(), thread as usize, 0),
        }
    }

    /// Returns whether there is a word at the address.
    fn has(&self, address: Address) -> bool
        ensures { result ≡ true → HasWord self.now address }
    {
        match address {
            Address::Marks { thread, word } => {
                (thread as usize) < self.thread.len() && (word as usize) < MARK_ROOM
            }
            Address::Cell { row, cell } => {
                (row as usize) < self.local.len() && cell < u32::from(self.width)
            }
            Address::ThreadWord { thread } => (thread as usize) < self.thread.len(),
            Address::Local { row }
            | Address::Shared { row }
            | Address::Gate { row }
            | Address::KindOf { row }
            | Address::Field { row }
            | Address::Resource { row } => (row as usize) < self.local.len(),
        }
    }

    /// Stores the word, if there is one at the address. Returns whether there is.
    pub fn put(&mut self, address: Address, word: u64) -> bool
        ensures { result ≡ true → word_in self.new ≡ written (word_in self.old) address word }
    {
        let there = self.has(address);
        if there {
            self.store(address, word);
        }
        there
    }

    /// Returns the words, one column after another.
    pub fn columns(&self) -> [&[u64]; 9] {
        [
            self.local.as_slice(),
            self.shared.as_slice(),
            self.gate.as_slice(),
            self.kind.as_slice(),
            self.mark.as_slice(),
            self.cell.as_slice(),
            self.field.as_slice(),
            self.resource.as_slice(),
            self.thread.as_slice(),
        ]
    }

    /// Returns a copy, or `NoMemory` if memory is refused.
    pub fn copy(&self, alloc: Global) -> Result<Memory, NoMemory>
        ensures { IfOk result (λ copy. copy ≡ self.now) }
    {
        Ok(Memory {
            local: Vec::from_slice(alloc, self.local.as_slice())?,
            shared: Vec::from_slice(alloc, self.shared.as_slice())?,
            gate: Vec::from_slice(alloc, self.gate.as_slice())?,
            kind: Vec::from_slice(alloc, self.kind.as_slice())?,
            mark: Vec::from_slice(alloc, self.mark.as_slice())?,
            cell: Vec::from_slice(alloc, self.cell.as_slice())?,
            field: Vec::from_slice(alloc, self.field.as_slice())?,
            resource: Vec::from_slice(alloc, self.resource.as_slice())?,
            thread: Vec::from_slice(alloc, self.thread.as_slice())?,
            width: self.width,
        })
    }

    /// Makes the row an immortal list as long as the line, whose cells name numbers with the line's values. The first
    /// of these has the row `first`, and each other the next one.
    fn put_list(&mut self, list: u32, first: u32, line: &[u32])
        requires list { list < length self.old.local }
        requires numbers { first + length line.now ≤ length self.old.local }
        requires cells { length line.now ≤ self.old.width }
        requires small { length self.old.local ≤ total_limit }
        ensures words { word_in self.new ≡ with_list (word_in self.old) list first line.now }
        ensures rows { length self.new.local ≡ length self.old.local }
        ensures threads { length self.new.thread ≡ length self.old.thread }
        ensures width { self.new.width ≡ self.old.width }
    {
        self.store(Address::Local { row: list }, local_word(Some(0), IMMORTAL));
        self.store(
            Address::KindOf { row: list },
            kind_word(LIST, line.len() as u32),
        );
        let mut cell = 0u32;
        for value in line {
            self.put_number(list, cell, first + cell, *value);
            cell += 1;
        }
    }

    /// Makes the row a number of this value, which main owns and the list's cell names.
    fn put_number(&mut self, list: u32, cell: u32, row: u32, value: u32)
        requires list { list < length self.old.local }
        requires number { row < length self.old.local }
        requires cell { cell < self.old.width }
        requires small { length self.old.local ≤ total_limit }
        ensures words { word_in self.new ≡ with_number (word_in self.old) list cell row value }
        ensures rows { length self.new.local ≡ length self.old.local }
        ensures threads { length self.new.thread ≡ length self.old.thread }
        ensures width { self.new.width ≡ self.old.width }
    {
        self.store(Address::Local { row }, local_word(Some(0), 1));
        self.store(Address::KindOf { row }, kind_word(NUM, value));
        self.store(Address::Cell { row: list, cell }, u64::from(row) + 1);
    }
}

/// Returns the word at the index, or `otherwise` if there is none.
fn word_or(words: &[u64], at: usize, otherwise: u64) -> u64
    ensures { result ≡ slice_index_or words.now at otherwise }
{
    match words.get(at) {
        Some(word) => *word,
        None => otherwise,
    }
}

/// Returns the words before any step, with these static lines, or `NoMemory` if memory is refused. None and the static
/// lines' lists are immortal. The root is a list of eight cells; main owns it, and its local count is one for main and
/// one for each worker. Each cell of a static line's list names a number of its own, which main owns.
pub fn first_memory(
    alloc: Global,
    layout: Layout,
    statics: &[Sequence<u32>],
) -> Result<Memory, NoMemory>
    requires few { layout.workers ≤ worker_limit }
    requires lines { HasLines statics.now layout }
    requires small { row_count layout ≤ total_limit }
    ensures words { IfOk result (λ memory. word_in memory ≡ first_memory statics.now layout) }
    ensures rows { IfOk result (λ memory. length memory.local ≡ row_count layout) }
    ensures threads { IfOk result (λ memory. length memory.thread ≡ 1 + layout.workers) }
    ensures width { IfOk result (λ memory. memory.width ≡ layout.cells) }
{
    let mut memory = rooted_memory(alloc, layout)?;
    let mut list = immortal_list(layout, 0);
    let mut number = first_number(layout);
    for line in statics {
        let values = line.as_slice();
        memory.put_list(list, number, values);
        list += 1;
        number += values.len() as u32;
    }
    Ok(memory)
}

/// Returns the words before any step, but for those of static lines' lists and of their numbers, or `NoMemory` if
/// memory is refused.
fn rooted_memory(alloc: Global, layout: Layout) -> Result<Memory, NoMemory>
    requires { layout.workers ≤ worker_limit }
    ensures words { IfOk result (λ memory. word_in memory ≡ plain_words layout.workers) }
    ensures rows { IfOk result (λ memory. length memory.local ≡ row_count layout) }
    ensures threads { IfOk result (λ memory. length memory.thread ≡ 1 + layout.workers) }
    ensures width { IfOk result (λ memory. memory.width ≡ layout.cells) }
{
    let workers = usize::from(layout.workers);
    let n = row_count(layout);
    let fresh = pack(Shared {
        count: 0,
        phase: Phase::Default,
    });
    let mut local = vec![in alloc; 0u64; n]?;
    local[0] = local_word(Some(0), IMMORTAL);
    local[1] = local_word(Some(0), 1 + workers as u32);
    let mut kind = vec![in alloc; 0u64; n]?;
    kind[0] = kind_word(NONE, 0);
    kind[1] = kind_word(LIST, ROOT_CELLS);
    Ok(Memory {
        local,
        shared: vec![in alloc; fresh; n]?,
        gate: vec![in alloc; FREE; n]?,
        kind,
        mark: vec![in alloc; 0u64; MARK_ROOM * (1 + workers)]?,
        cell: vec![in alloc; 0u64; usize::from(layout.cells) * n]?,
        field: vec![in alloc; 0u64; n]?,
        resource: vec![in alloc; 0u64; n]?,
        thread: vec![in alloc; RUNNING; 1 + workers]?,
        width: layout.cells,
    })
}
