//! The heap of all objects, and the hands that it gives out.

ghost use Rattle.std.specs.Prelude.{◌≡◌, ◌<◌, ◌≤◌, ◌⊎◌, ◌↔◌, true, false, List, [], ◌∷◌, length, IfOk, IsErr, OnOk, OnErr, ℕ};
ghost use Rattle.brc_model.specs.Limits.{worker_limit, row_limit};
ghost use Rattle.brc_model.specs.Layout.{root_row};
ghost use Rattle.brc_model.specs.FirstRows.{HasLines};
ghost use Rattle.brc_model.specs.Machine.{has_room};
ghost use Rattle.brc_model.specs.StepMachine.{layout_of};
ghost use Rattle.brc_table.specs.Giving.{starting};
ghost use Rattle.brc_table.specs.Hands.{IsOf, IsRunning, HasNoWork, most_references, CarriesNothing, plan_of};
ghost use Rattle.brc_table.specs.Homes.{HoldsFirstWords};
ghost use Rattle.brc_table.specs.Views.{holds, is_given, main_view, worker_view, giving};
ghost use Rattle.brc_heap.specs.Calls.{retained, IsTaken, HasGiven};

use crate::error::{NoMemory, Taken};
use brc_effect::layout_of;
pub use brc_effect::rows::ROOT;
use brc_lang::Module;
use brc_table::{Hand, Words};
use std::alloc::Global;
use std::marker::Model;

/// All objects of one program, with their counts. `T` is the resource of a file or a socket.
///
/// Threads share the heap by reference, and change it by their hands.
#[derive(Drop)]
pub struct Heap<T: Drop> {
    pub(crate) words: Words<T>,
}

impl<T: Drop> Model for Heap<T> {
    ghost use Rattle.brc_table.specs.Hands.{TableState};

    ghost Value = { TableState };

    ghost view = { λ h. h.words };
}

impl<T: Drop> Heap<T> {
    /// Returns a heap of the module for 1 to 32 workers with 1 to 1024 rows each, and main's hand, which holds the only
    /// reference to the root. The module's static lists are filled before any thread shares the heap: they are
    /// immortal, and main owns the numbers in their cells. `first` says which words the heap has at first: the root's
    /// cells are empty, and those of each static list name the numbers of its line, in order.
    ///
    /// # Errors
    ///
    /// H1 if memory is refused.
    pub fn new(
        alloc: Global,
        workers: u8,
        rows: u16,
        module: &Module,
    ) -> Result<(Heap<T>, Hand<T>), NoMemory>
        requires workers { (0 < workers) × (workers ≤ worker_limit) }
        requires rows { (0 < rows) × (rows ≤ row_limit) }
        requires statics { HasLines «module».now.statics (layout_of «module».now workers rows) }
        ensures layout { IfOk result (λ made. made.0.layout ≡ layout_of «module».now workers rows) }
        ensures lines { IfOk result (λ made. made.0.lines ≡ «module».now.statics) }
        ensures table { IfOk result (λ made. IsOf made.0 made.1) }
        ensures view { IfOk result (λ made. made.1.view ≡ main_view (layout_of «module».now workers rows)) }
        ensures none { IfOk result (λ made. CarriesNothing made.1) }
        ensures first { IfOk result (λ made. HoldsFirstWords T (plan_of made.0) made.1.view) }
    {
        let layout = layout_of(module, workers, rows);
        match Words::new(alloc, layout, &module.statics) {
            Ok((words, main)) => Ok((Heap { words }, main)),
            Err(_) => Err(NoMemory),
        }
    }

    /// Returns the words of the objects.
    pub fn words(&self) -> &Words<T>
        ensures { result.now ≡ self.now }
    {
        &self.words
    }

    /// Returns whether a row of the hand's block is unused, so that the hand can give birth to an object.
    pub fn room(&self, hand: &Hand<T>) -> bool
        requires table { IsOf self.now hand.now }
        ensures { result ≡ has_room hand.now.view.layout hand.now.view.thread hand.now.view.actor.used }
    {
        hand.used() < self.words.block_size(hand.thread())
    }

    /// Starts the thread, and gives out its hand, with a reference to the root that main's hand retains for it.
    ///
    /// # Errors
    ///
    /// H2 if the thread's hand was given out before, or if the heap has no worker of this number.
    pub fn hand_out(&self, main: &mut Hand<T>, thread: u8) -> Result<Hand<T>, Taken>
        requires table { IsOf self.now main.old }
        requires main { main.old.view.thread ≡ 0 }
        requires running { IsRunning main.old.view }
        requires held { 1 ≤ holds main.old.view root_row }
        requires idle { HasNoWork main.old.view root_row }
        requires few { length main.old.view.references < most_references }
        ensures taken { IsErr result ↔ IsTaken self.now.layout main.old.view thread }
        ensures err { OnErr result (main.new ≡ main.old) }
        ensures worker { IfOk result (λ hand. hand.view ≡ worker_view self.now.layout thread) }
        ensures table { IfOk result (λ hand. IsOf self.now hand × IsOf self.now main.new) }
        ensures main { OnOk result ((word : ℕ) × (found : ℕ)
            × (main.new.view ≡ giving (starting (retained main.old.view root_row word found) thread) thread)) }
        ensures left { OnOk result (HasGiven thread main.old.view main.new.view) }
        ensures carried { main.new.carried ≡ main.old.carried }
        ensures fields { main.new.fields ≡ main.old.fields }
        ensures none { IfOk result CarriesNothing }
        ensures no_field { IfOk result (λ hand. hand.fields ≡ []) }
    {
        self.words.layout_is_plain();
        if thread == 0 || thread > self.words.workers() || main.has_given(thread) {
            return Err(Taken);
        }
        self.retain(main, ROOT);
        self.words.thread_start(main, thread);
        Ok(self.words.split(main, thread))
    }
}
