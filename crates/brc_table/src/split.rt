//! Main starts the workers, and gives out their hands.

ghost use Rattle.std.specs.Prelude.{◌≡◌, ℕ, true, []};
ghost use Rattle.brc_table.specs.KnownWords.{has_started};
ghost use Rattle.brc_table.specs.Views.{giving, worker_view};
ghost use Rattle.brc_table.specs.Hands.{IsOf, CarriesNothing, KeepsButView};
ghost use Rattle.brc_table.specs.Giving.{MayGive, MayStart, starting};

use crate::carried::take_spare;
use crate::contention::Contention;
use crate::hand::Hand;
use crate::view::View;
use crate::words::Words;
use atomic_table::{Play, Split};
use brc_model::{accounts_are_there, chains_are_there, references_are_handed_over};
use brc_word::values::RUNNING;
use std::cell::Cell;
use std::marker::{Brand, PhantomData};

/// The worker whose hand main gives out.
pub(crate) trait Worker {
    ghost number: { ℕ };
}

impl Worker for Brand {
    ghost number = { 0 };
}

/// How main's view is cut in two: a reference to the root goes to the worker.
pub(crate) struct GivesOut<W> {
    marker: PhantomData<W>,
}

impl<W: Worker> Split<View> for GivesOut<W> {
    ghost left = { λ v. giving v W.number };

    ghost right = { λ v. worker_view v.layout W.number };
}

/// A store by which main starts the worker.
pub(crate) struct Started<W> {
    marker: PhantomData<W>,
}

impl<S, W: Worker> Play<S, View> for Started<W> {
    ghost use Rattle.brc_table.specs.Giving.{StoresRunning};

    ghost then = { λ s me stored after. StoresRunning W.number me after };
}

impl<T: Drop> Words<T> {
    /// Starts a worker whose hand main hasn't given out: stores that its thread runs.
    pub fn thread_start(&self, main: &mut Hand<T>, thread: u8)
        requires table { IsOf self.now main.old }
        requires may_start { MayStart main.old.view thread }
        ensures kept { KeepsButView main.old main.new }
        ensures view { main.new.view ≡ starting main.old.view thread }
        ensures started { has_started thread main.new.view ≡ true }
    {
        self.start::<Brand>(main, thread);
    }

    /// Does the same for the worker that the type names.
    fn start<W: Worker>(&self, main: &mut Hand<T>, thread: u8)
        requires number { thread ≡ W.number }
        requires table { IsOf self.now main.old }
        requires may_start { MayStart main.old.view thread }
        ensures kept { KeepsButView main.old main.new }
        ensures view { main.new.view ≡ starting main.old.view thread }
    {
        accounts_are_there();
        chains_are_there();
        self.layout_is_plain();
        let place = thread as usize;
        self.table
            .shared
            .store::<Started<W>>(&mut main.seat, place, RUNNING);
    }

    /// Returns the hand of a worker, which holds one of main's references to the root.
    pub fn split(&self, main: &mut Hand<T>, thread: u8) -> Hand<T>
        requires table { IsOf self.now main.old }
        requires may_give { MayGive main.old.view thread }
        ensures main { IsOf self.now main.new }
        ensures worker { IsOf self.now result }
        ensures main_view { main.new.view ≡ giving main.old.view thread }
        ensures worker_view { result.view ≡ worker_view self.now.layout thread }
        ensures kept { KeepsButView main.old main.new }
        ensures none { CarriesNothing result }
        ensures no_field { result.fields ≡ [] }
    {
        self.give_out::<Brand>(main, thread)
    }

    /// Does the same for the worker that the type names, since a table's split is given by a type.
    fn give_out<W: Worker>(&self, main: &mut Hand<T>, thread: u8) -> Hand<T>
        requires number { thread ≡ W.number }
        requires table { IsOf self.now main.old }
        requires may_give { MayGive main.old.view thread }
        ensures main { IsOf self.now main.new }
        ensures worker { IsOf self.now result }
        ensures main_view { main.new.view ≡ giving main.old.view thread }
        ensures worker_view { result.view ≡ worker_view self.now.layout thread }
        ensures kept { KeepsButView main.old main.new }
        ensures none { CarriesNothing result }
        ensures no_field { result.fields ≡ [] }
    {
        references_are_handed_over();
        self.layout_is_plain();
        let seat = self.table.shared.split_seat::<GivesOut<W>>(&mut main.seat);
        let spare = take_spare(&mut main.spares, thread);
        Hand {
            seat,
            thread,
            running: true,
            head: 0,
            used: 0,
            spares: Vec::new(*main.spares.allocator()),
            carried: spare.carried,
            contention: Cell::new(Contention::NONE),
        }
    }
}
