//! What workers note of their calls.

use crate::ledger::ROWS;

/// The most cells of a list.
pub const CELLS: usize = 8;

/// How many cells all rows have.
pub const ALL_CELLS: usize = 528;

/// The notes of one worker, or of several together.
#[derive(Drop)]
pub struct Log {
    /// How often an object was born in each row.
    pub born: [u32; ROWS],
    /// Whether the object that was born in the row is a file.
    pub is_file: [bool; ROWS],
    /// For each cell of each row, how much the swaps have added to its word, which is 0 if the cell is empty, or the
    /// row of its item plus 1. Over all workers this is the cell's last word.
    pub words: [i64; ALL_CELLS],
    /// How many threads have left.
    pub left: u64,
    /// How many files the hosts have opened, and how many they have closed.
    pub opened: u64,
    pub closes: u64,
    /// How many calls were made, by their kinds.
    pub made: Made,
    /// How many closes have failed.
    pub failed_closes: u64,
    /// How many reads weren't what the swap after them found.
    pub wrong_reads: u64,
}

/// How many calls were made, and how many of them did what they are for.
#[derive(Clone, Copy)]
pub struct Made {
    pub births: u64,
    pub retains: u64,
    pub releases: u64,
    /// Locks, and tries to lock what another hand had locked.
    pub locks: u64,
    pub busy: u64,
    /// Swaps that put an object in, that emptied the cell, and among both those that found an object.
    pub put: u64,
    pub emptied: u64,
    pub found: u64,
    /// Looks through the hand's own queue, and objects that releases have put into others' queues.
    pub scans: u64,
    pub posts: u64,
}

impl Made {
    /// Returns the least of these numbers.
    pub fn least(&self) -> u64 {
        self.births
            .min(self.retains)
            .min(self.releases)
            .min(self.locks)
            .min(self.busy)
            .min(self.put)
            .min(self.emptied)
            .min(self.found)
            .min(self.scans)
            .min(self.posts)
    }

    /// Adds what others have made.
    fn add(&mut self, other: &Made) {
        self.births = self.births.saturating_add(other.births);
        self.retains = self.retains.saturating_add(other.retains);
        self.releases = self.releases.saturating_add(other.releases);
        self.locks = self.locks.saturating_add(other.locks);
        self.busy = self.busy.saturating_add(other.busy);
        self.put = self.put.saturating_add(other.put);
        self.emptied = self.emptied.saturating_add(other.emptied);
        self.found = self.found.saturating_add(other.found);
        self.scans = self.scans.saturating_add(other.scans);
        self.posts = self.posts.saturating_add(other.posts);
    }
}

/// Counts one more.
pub fn one_more(count: &mut u64) {
    *count = count.saturating_add(1);
}

/// Returns the word of a cell with this item.
fn word_of(item: Option<u32>) -> i64 {
    match item {
        None => 0,
        Some(row) => i64::from(row) + 1,
    }
}

impl Log {
    /// Returns the notes of a worker that has done nothing.
    pub fn new() -> Log {
        Log {
            born: [0; ROWS],
            is_file: [false; ROWS],
            words: [0; ALL_CELLS],
            left: 0,
            opened: 0,
            closes: 0,
            made: Made {
                births: 0,
                retains: 0,
                releases: 0,
                locks: 0,
                busy: 0,
                put: 0,
                emptied: 0,
                found: 0,
                scans: 0,
                posts: 0,
            },
            failed_closes: 0,
            wrong_reads: 0,
        }
    }

    /// Notes a birth.
    pub fn birth(&mut self, row: u32, is_file: bool) {
        one_more(&mut self.made.births);
        let place = row as usize;
        if place < ROWS {
            self.born[place] = self.born[place].saturating_add(1);
            self.is_file[place] = is_file;
        }
    }

    /// Notes a swap of a cell: what it put in, what the hand had read there before, and what the swap found.
    pub fn swap(
        &mut self,
        list: u32,
        cell: u32,
        item: Option<u32>,
        read: Option<u32>,
        found: Option<u32>,
    ) {
        if read != found {
            one_more(&mut self.wrong_reads);
        }
        if item.is_some() {
            one_more(&mut self.made.put);
        } else {
            one_more(&mut self.made.emptied);
        }
        if found.is_some() {
            one_more(&mut self.made.found);
        }
        let (list, cell) = (list as usize, cell as usize);
        if list < ROWS && cell < CELLS {
            let change = word_of(item).wrapping_sub(word_of(found));
            let place = list * CELLS + cell;
            self.words[place] = self.words[place].wrapping_add(change);
        }
    }

    /// Adds another worker's notes.
    pub fn add(&mut self, other: &Log) {
        for row in 0..ROWS {
            self.born[row] = self.born[row].saturating_add(other.born[row]);
            self.is_file[row] = self.is_file[row] || other.is_file[row];
        }
        for place in 0..ALL_CELLS {
            self.words[place] = self.words[place].wrapping_add(other.words[place]);
        }
        self.left = self.left.saturating_add(other.left);
        self.opened = self.opened.saturating_add(other.opened);
        self.closes = self.closes.saturating_add(other.closes);
        self.failed_closes = self.failed_closes.saturating_add(other.failed_closes);
        self.wrong_reads = self.wrong_reads.saturating_add(other.wrong_reads);
        self.made.add(&other.made);
    }
}
