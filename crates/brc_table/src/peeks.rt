//! The step by which a hand looks what a thread's word says.

ghost use Rattle.std.specs.Prelude.{◌≡◌, ◌≤◌, ◌⊎◌, ℕ};
ghost use Rattle.brc_table.specs.Hands.{IsOf, KeepsButView};
ghost use Rattle.brc_table.specs.Peeks.{peeked, NeverStarted};
ghost use Rattle.brc_table.specs.Views.{IsJoined};
ghost use Rattle.brc_table.specs.Ending.{SeesEnd};

use crate::hand::Hand;
use crate::split::Worker;
use crate::view::View;
use crate::words::Words;
use atomic_table::Play;
use brc_model::{accounts_are_there, chains_are_there};
use std::marker::{Brand, PhantomData};

/// A look at the word of the thread that the type names.
pub(crate) struct Peeked<W> {
    marker: PhantomData<W>,
}

impl<S, W: Worker> Play<S, View> for Peeked<W> {
    ghost use Rattle.brc_table.specs.Peeks.{Peeks};

    ghost then = { λ s me found after. Peeks W.number me found after };
}

impl<T: Drop> Words<T> {
    /// Loads the word of a thread, main's or a worker's: 0 if it isn't started, 1 if it runs, 2 if it is leaving, 3 if
    /// it is gone. The hand needs no duty for it, and may be that of a thread that is gone.
    pub fn thread_peek(&self, hand: &mut Hand<T>, thread: u8) -> u64
        requires table { IsOf self.now hand.old }
        requires known { thread ≤ hand.old.view.layout.workers }
        ensures kept { KeepsButView hand.old hand.new }
        ensures view { hand.new.view ≡ peeked hand.old.view thread result }
        ensures says { result ≤ 3 }
        ensures unstarted { hand.old.view.thread ≡ 0 → result ≡ 0 → NeverStarted hand.old.view thread }
        ensures joined { IsJoined thread hand.old.view → result ≡ 3 }
        ensures keeps { (t : ℕ) → SeesEnd hand.old.view t → SeesEnd hand.new.view t }
        ensures sees { hand.old.view.thread ≡ 0 → (result ≡ 0) ⊎ (result ≡ 3) → SeesEnd hand.new.view thread }
    {
        self.peek::<Brand>(hand, thread)
    }

    /// Does the same for the thread that the type names.
    fn peek<W: Worker>(&self, hand: &mut Hand<T>, thread: u8) -> u64
        requires number { thread ≡ W.number }
        requires table { IsOf self.now hand.old }
        requires known { thread ≤ hand.old.view.layout.workers }
        ensures kept { KeepsButView hand.old hand.new }
        ensures view { hand.new.view ≡ peeked hand.old.view thread result }
        ensures says { result ≤ 3 }
        ensures unstarted { hand.old.view.thread ≡ 0 → result ≡ 0 → NeverStarted hand.old.view thread }
        ensures joined { IsJoined thread hand.old.view → result ≡ 3 }
    {
        accounts_are_there();
        chains_are_there();
        self.layout_is_plain();
        let place = thread as usize;
        self.table.shared.load::<Peeked<W>>(&mut hand.seat, place)
    }
}
