//! The exit of a thread.

ghost use Rattle.std.specs.Prelude.{◌≡◌, ◌≢◌, ◌<◌, ◌+◌, ◌*◌, ◌^◌, None, List, [], ◌∷◌};
ghost use Rattle.brc_host.specs.HostCounts.{raised};
ghost use Rattle.brc_host.specs.HostCalls.{HostCall, HasAnswered, close_faults};
ghost use Rattle.brc_model.specs.declared.actor.Status.TheVariants.{Gone};
ghost use Rattle.brc_model.specs.declared.duty.Duty.TheVariants.{Finish};
ghost use Rattle.brc_model.specs.Layout.{root_row};
ghost use Rattle.brc_table.specs.Hands.{IsOf, KeepsButView};
ghost use Rattle.brc_table.specs.Calls.{IsFree};
ghost use Rattle.brc_free.specs.Works.{HasWorked};
ghost use Rattle.brc_word.specs.Words.{marks_of_word, lowest_mark, unmarked_word};
ghost use Rattle.brc_model.specs.Knowledge.{AreUsedMarks};
ghost use Rattle.brc_queue.specs.Scans.{ScansNext, HasLeft, scans_from, takes_from};

use crate::queue::Queue;
use crate::words::words_used;
use brc_free::Finaliser;
use brc_heap::{Hand, ROOT};
use brc_host::Host;
use brc_model::Duty;
use brc_word::values::SET;
use brc_word::{MARKS_OF_WORD, first_marks, lowest_mark, without_mark};
use std::sync::Wait;

impl<'h, T: Drop> Queue<'h, T> {
    /// Leaves (PEP 703, Biased Reference Counting: an exiting thread merges the objects in its queue). The hand's
    /// thread gives up its reference to the root and finalises what dies; says that it is leaving, so that whoever
    /// queues an object for it from then on looks after it; by rising number, loads each mark word of its used rows;
    /// takes, one by one and by rising row, the marks that it has found there, merges each object whose mark was still
    /// set, gives up the reference that was handed over with it, and finalises what dies; and says that it is gone.
    /// Returns how many closes have failed, up to the greatest number.
    ///
    /// The hand has nothing to do, its dying chain is empty, and it holds a reference to the root and no other.
    pub fn leave<R: Wait, H: Host<Res = T>>(&self, rt: &R, hand: &mut Hand<T>, host: &mut H) -> u64
        requires table { IsOf self.now hand.old }
        requires free { IsFree hand.old.view }
        requires settled { hand.old.view.actor.head ≡ 0 }
        requires unlocked { hand.old.view.actor.locked ≡ None }
        requires root { hand.old.view.references ≡ root_row ∷ [] }
        ensures table { IsOf self.now hand.new }
        ensures carried { hand.new.carried ≡ hand.old.carried }
        ensures fields { hand.new.fields ≡ hand.old.fields }
        ensures gone { hand.new.view.actor.status ≡ Gone }
        ensures idle { (hand.new.view.actor.agenda ≡ []) × (hand.new.view.actor.aside ≡ [])
            × (hand.new.view.actor.head ≡ 0) }
        ensures holds_none { hand.new.view.references ≡ [] }
        ensures thread { hand.new.view.thread ≡ hand.old.view.thread }
        ensures used { hand.new.view.actor.used ≡ hand.old.view.actor.used }
        ensures work { (closes : List HostCall) × HasLeft closes hand.old.view hand.new.view
            × (result ≡ raised (close_faults closes) 0)
            × HasAnswered H.answers H.counts host.old closes host.new }
    {
        let finaliser = Finaliser::new(self.heap, self);
        finaliser.release(rt, hand, ROOT);
        let failed = finaliser.settle(rt, hand, host);
        self.heap.words().thread_leave(hand);
        let more = self.scan(rt, hand, host);
        // `SaysGone`: the thread takes no further step.
        self.heap.words().step(hand, Duty::Finish);
        failed.saturating_add(more)
    }

    /// Does the next duties: scans the marks of all used rows of the hand's block. Returns how many closes have failed,
    /// up to the greatest number.
    fn scan<R: Wait, H: Host<Res = T>>(&self, rt: &R, hand: &mut Hand<T>, host: &mut H) -> u64
        requires table { IsOf self.now hand.old }
        requires alive { hand.old.view.actor.status ≢ Gone }
        requires settled { hand.old.view.actor.head ≡ 0 }
        requires duty { ScansNext hand.old.view }
        ensures kept { KeepsButView hand.old hand.new }
        ensures settled { hand.new.view.actor.head ≡ 0 }
        ensures work { (closes : List HostCall) × HasWorked hand.old.view closes (Finish ∷ []) hand.new.view
            × (result ≡ raised (close_faults closes) 0)
            × HasAnswered H.answers H.counts host.old closes host.new }
    {
        let mut failed: u64 = 0;
        for word in 0..words_used(hand.used()) {
            failed = failed.saturating_add(self.scan_word(rt, hand, host, word));
        }
        failed
    }

    /// Does the next duties: loads the hand's mark word, and takes the marks of used rows that it has found there.
    /// Returns how many closes have failed, up to the greatest number.
    fn scan_word<R: Wait, H: Host<Res = T>>(
        &self,
        rt: &R,
        hand: &mut Hand<T>,
        host: &mut H,
        word: u32,
    ) -> u64
        requires table { IsOf self.now hand.old }
        requires alive { hand.old.view.actor.status ≢ Gone }
        requires settled { hand.old.view.actor.head ≡ 0 }
        requires used { marks_of_word * word < hand.old.view.actor.used }
        requires duty { hand.old.view.actor.agenda ≡ scans_from hand.old.view.actor.used word }
        ensures kept { KeepsButView hand.old hand.new }
        ensures settled { hand.new.view.actor.head ≡ 0 }
        ensures work { (closes : List HostCall)
            × HasWorked hand.old.view closes (scans_from hand.old.view.actor.used (word + 1)) hand.new.view
            × (result ≡ raised (close_faults closes) 0)
            × HasAnswered H.answers H.counts host.old closes host.new }
    {
        let rows = hand.used() - MARKS_OF_WORD * word;
        // `MarksRead`: one load looks at the marks of 64 rows. It takes none, since only the thread that takes a mark
        // that is still set may merge the object (`loaded_mark_merged`).
        let found = self.heap.words().step(hand, Duty::Scan { word, rows });
        let mut marks = first_marks(found, rows);
        let mut failed: u64 = 0;
        while marks > 0 {
            failed = failed.saturating_add(self.take_found(rt, hand, host, word, marks));
            marks = without_mark(marks, lowest_mark(marks));
        }
        failed
    }

    /// Does the next duties: takes the lowest of the marks found in the hand's mark word, and does what follows.
    /// Returns how many closes have failed, up to the greatest number.
    fn take_found<R: Wait, H: Host<Res = T>>(
        &self,
        rt: &R,
        hand: &mut Hand<T>,
        host: &mut H,
        word: u32,
        marks: u64,
    ) -> u64
        requires table { IsOf self.now hand.old }
        requires alive { hand.old.view.actor.status ≢ Gone }
        requires settled { hand.old.view.actor.head ≡ 0 }
        requires some { 0 < marks }
        requires used { AreUsedMarks hand.old.view.actor.used word marks }
        requires few { hand.old.view.actor.used < 2 ^ 32 }
        requires duty { hand.old.view.actor.agenda ≡ takes_from hand.old.view.actor.used word marks }
        ensures kept { KeepsButView hand.old hand.new }
        ensures settled { hand.new.view.actor.head ≡ 0 }
        ensures work { (closes : List HostCall)
            × HasWorked hand.old.view closes
            (takes_from hand.old.view.actor.used word (unmarked_word marks (lowest_mark marks))) hand.new.view
            × (result ≡ raised (close_faults closes) 0)
            × HasAnswered H.answers H.counts host.old closes host.new }
    {
        let words = self.heap.words();
        let row = words.own_row(hand, MARKS_OF_WORD * word + lowest_mark(marks));
        // `FoundMarkTaken`, `FoundMarkGone`: an and, because the thread that set the mark may take it back meanwhile.
        let found = words.step(hand, Duty::TakeFound { word, marks });
        if words.mark(row, found) != SET {
            return 0;
        }
        Finaliser::new(self.heap, self).merge_scanned(rt, hand, host, row)
    }
}
