//! What a worker holds.

ghost use Rattle.std.specs.Prelude.{◌≡◌, ◌<◌, ◌≤◌, ◌+◌, ◌-◌, ◌^◌, ◌↔◌, ℕ, true, replicate, slice_set, slice_index_or};
ghost use Rattle.brc_soak_tests.specs.Ledgers.{counted, IsWhole};

use std::marker::Model;

/// How many rows the heap has: that of no object, the root's, and eight of each of eight workers.
pub const ROWS: usize = 66;

/// How many references a worker's hand holds: to each row's object, and in all.
#[derive(Drop)]
pub struct Ledger {
    counts: [u32; ROWS],
    total: u32,
}

impl Model for Ledger {
    ghost use Rattle.brc_soak_tests.specs.Ledgers.{LedgerState};

    ghost Value = { LedgerState };

    ghost view = { λ ledger. record { counts = ledger.counts; total = ledger.total } };
}

impl Ledger {
    /// Returns the ledger of a hand that holds nothing.
    pub fn new() -> Ledger
        ensures counts { result.counts ≡ replicate 66 0 }
        ensures total { result.total ≡ 0 }
    {
        Ledger {
            counts: [0; ROWS],
            total: 0,
        }
    }

    /// Returns how many references to the row's object there are.
    pub fn count(&self, row: u32) -> u32
        ensures { result ≡ counted self.now row }
    {
        match self.counts.get(row as usize) {
            Some(&count) => count,
            None => 0,
        }
    }

    /// Returns how many references there are in all.
    pub fn total(&self) -> u32
        ensures { result ≡ self.now.total }
    {
        self.total
    }

    /// Returns whether one reference more couldn't be counted.
    pub fn is_full(&self) -> bool
        ensures { result ≡ true ↔ 2 ^ 32 ≤ self.now.total + 1 }
    {
        self.total == u32::MAX
    }

    /// Counts one reference more.
    pub fn more(&mut self, row: u32)
        requires few { self.old.total + 1 < 2 ^ 32 }
        requires whole { IsWhole self.old }
        ensures counts { self.new.counts ≡ slice_set self.old.counts row (counted self.old row + 1) }
        ensures total { self.new.total ≡ self.old.total + 1 }
    {
        self.total += 1;
        let place = row as usize;
        if place < ROWS {
            self.counts[place] += 1;
        }
    }

    /// Counts one reference less.
    pub fn less(&mut self, row: u32)
        requires some { 1 ≤ counted self.old row }
        requires whole { IsWhole self.old }
        ensures counts { self.new.counts ≡ slice_set self.old.counts row (counted self.old row - 1) }
        ensures total { self.new.total ≡ self.old.total - 1 }
    {
        self.total -= 1;
        let place = row as usize;
        if place < ROWS {
            self.counts[place] -= 1;
        }
    }

    /// Returns the first row from this one on, and then from the first one, to whose object there is a reference; or 0
    /// if there is none.
    pub fn held_from(&self, row: u32) -> u32 {
        for step in 0..ROWS {
            let place = (row as usize + step) % ROWS;
            if self.counts[place] > 0 {
                return place as u32;
            }
        }
        0
    }
}
