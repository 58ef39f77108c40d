//! The right of one thread to act on a table.

ghost use Rattle.std.specs.Prelude.{◌≡◌, ◌<◌};
ghost use Rattle.brc_model.specs.Machine.{is_running};
ghost use Rattle.brc_table.specs.Uses.{field_rows};
ghost use Rattle.brc_table.specs.Views.{RowsAreThere, is_given};

use crate::carried::{Carried, Spare, is_spent};
use crate::contention::Contention;
use crate::view::View;
use atomic_table::Seat;
use std::cell::Cell;
use std::marker::Model;

/// The right of one thread to act on a table. A hand can go to another thread, and there is never more than one of a
/// thread.
///
/// Contracts see its table, and its view: the thread's number and status, the references that the hand holds, its
/// duties, its dying chain, its used rows and its trace. Running code keeps of these only what steps need.
#[derive(Drop)]
pub struct Hand<T> {
    pub(crate) seat: Seat<Option<T>, View>,
    pub(crate) thread: u8,
    pub(crate) running: bool,
    pub(crate) head: u32,
    pub(crate) used: u32,
    // Of main's hand, by worker: the memory that the worker's hand needs, until main gives that hand out.
    pub(crate) spares: Vec<Option<Spare>>,
    // Of each begun merge of a row of the thread's own block, the local count that was swapped out, by the row's
    // index in its block.
    pub(crate) carried: Carried,
    // Counted off the owner's fast path, and never read by a step. A contract sees nothing of it.
    pub(crate) contention: Cell<Contention>,
}

impl<T> Model for Hand<T> {
    ghost use Rattle.std.specs.Prelude.{◌≡◌, length};
    ghost use Rattle.brc_model.specs.Limits.{block_limit};
    ghost use Rattle.brc_model.specs.Machine.{is_running};
    ghost use Rattle.brc_table.specs.Hands.{HandState};
    ghost use Rattle.brc_table.specs.Homes.{rows_of, held_in};
    ghost use Rattle.brc_table.specs.Views.{RowsAreThere, HasSpares, IsGivenBy};

    ghost Value = { HandState };

    ghost view = { λ h. record {
      table = h.seat.table_id;
      view = h.seat.me.0;
      carried = h.carried.value;
      fields = held_in h.seat.me.1;
    } };

    ghost invariant = { λ h. (rows_of h.seat.me.1 ≡ h.seat.me.0.taken)
        × (h.thread ≡ h.seat.me.0.thread)
        × (h.running ≡ is_running h.seat.me.0.actor.status)
        × (h.head ≡ h.seat.me.0.actor.head)
        × (h.used ≡ h.seat.me.0.actor.used)
        × RowsAreThere h.seat.me.0
        × HasSpares h.spares.items h.seat.me.0
        × IsGivenBy h.spares.items h.seat.me.0
        × (length h.carried.value ≡ block_limit) };
}

impl<T> Hand<T> {
    /// Returns the number of the hand's thread: 0 for main, else the worker's, from 1.
    pub fn thread(&self) -> u8
        ensures { result ≡ self.now.view.thread }
    {
        self.thread
    }

    /// Returns whether the hand's thread runs, and so counts locally the objects that it owns.
    pub fn is_running(&self) -> bool
        ensures { result ≡ is_running self.now.view.actor.status }
    {
        self.running
    }

    /// Returns how many rows of the thread's block are used.
    pub fn used(&self) -> u32
        ensures { result ≡ self.now.view.actor.used }
    {
        self.used
    }

    /// Returns the head of the hand's dying chain: 0 if the chain is empty, else the first object's row plus 1.
    pub fn head(&self) -> u32
        ensures { result ≡ self.now.view.actor.head }
    {
        self.head
    }

    /// Returns whether this hand, main's, has given out the thread's hand.
    pub fn has_given(&self, thread: u8) -> bool
        ensures { result ≡ is_given thread self.now.view }
    {
        is_spent(self.spares.as_slice(), thread)
    }

    /// Returns how often the hand's thread has met others, and with main's hand those whose hands it has joined.
    pub fn contention(&self) -> Contention {
        self.contention.get()
    }

    /// Counts that the hand's thread has met another one.
    #[inline]
    pub fn count(&self, meeting: Contention) {
        self.contention.set(self.contention.get().plus(meeting));
    }

    /// States that the hand has taken the fields that its view lists.
    pub fn fields_are_taken(&self)
        ensures { field_rows self.now.fields ≡ self.now.view.taken }
    {
        let _opened = self.thread;
    }

    /// States that the objects to which the hand holds references, and those of its duties, have rows, and that the
    /// hand doesn't deallocate the object that it has locked.
    pub fn rows_are_there(&self)
        ensures { RowsAreThere self.now.view }
    {
        let _opened = self.thread;
    }
}
