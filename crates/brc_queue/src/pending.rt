//! Looking through a hand's own queue.

ghost use Rattle.std.specs.Prelude.{◌≡◌, ◌<◌, ◌*◌, List};
ghost use Rattle.brc_host.specs.HostCounts.{raised};
ghost use Rattle.brc_host.specs.HostCalls.{HostCall, HasAnswered, close_faults};
ghost use Rattle.brc_model.specs.Layout.{row_at, row_count, block_of};
ghost use Rattle.brc_table.specs.Hands.{IsOf, KeepsButView};
ghost use Rattle.brc_table.specs.Calls.{IsFree};
ghost use Rattle.brc_heap.specs.Steps.{Keeps};
ghost use Rattle.brc_word.specs.Words.{marks_of_word};
ghost use Rattle.brc_queue.specs.Scans.{Claims, LooksAt, HasScanned, words_used};

use crate::queue::Queue;
use crate::words::words_used;
use brc_free::Finaliser;
use brc_heap::{Hand, Heap};
use brc_host::Host;
use brc_word::values::SET;
use brc_word::{MARKS_OF_WORD, first_marks, lowest_mark, without_mark};
use std::sync::Wait;

impl<'h, T: Drop> Queue<'h, T> {
    /// Looks through the hand's own queue (PEP 703, Biased Reference Counting: a thread merges the objects that others
    /// have queued for it). By rising number, loads each mark word of the hand's used rows; takes, one by one and by
    /// rising row, the marks that it has found there; merges each object whose mark was still set, gives up the
    /// reference that was handed over with it, and finalises what dies. Returns how many closes have failed, up to the
    /// greatest number.
    ///
    /// The hand has nothing to do, and its dying chain is empty.
    pub fn merge_pending<R: Wait, H: Host<Res = T>>(
        &self,
        rt: &R,
        hand: &mut Hand<T>,
        host: &mut H,
    ) -> u64
        requires table { IsOf self.now hand.old }
        requires free { IsFree hand.old.view }
        requires settled { hand.old.view.actor.head ≡ 0 }
        ensures table { IsOf self.now hand.new }
        ensures carried { hand.new.carried ≡ hand.old.carried }
        ensures fields { hand.new.fields ≡ hand.old.fields }
        ensures free { IsFree hand.new.view }
        ensures settled { hand.new.view.actor.head ≡ 0 }
        ensures keeps { Keeps hand.old.view hand.new.view }
        ensures work { (closes : List HostCall)
            × HasScanned hand.old.view (words_used hand.old.view.actor.used) closes hand.new.view
            × (result ≡ raised (close_faults closes) 0)
            × HasAnswered H.answers H.counts host.old closes host.new }
    {
        let mut failed: u64 = 0;
        let heap = self.heap;
        let first = self.first_row(hand);
        for word in 0..words_used(hand.used()) {
            failed = failed.saturating_add(self.claim_word(heap, rt, hand, host, word, first));
        }
        failed
    }

    /// Returns the first row of the hand's block, if the hand has used it.
    fn first_row(&self, hand: &Hand<T>) -> u32
        requires table { IsOf self.now hand.now }
        ensures { 0 < hand.now.view.actor.used → result ≡ row_at hand.now.view.layout hand.now.view.thread 0 }
    {
        if hand.used() == 0 {
            return 0;
        }
        self.heap.words().own_row(hand, 0)
    }

    /// Loads the hand's mark word, and claims the marks of used rows that it has found there. `first` is the first row
    /// of the hand's block. Returns how many closes have failed, up to the greatest number.
    #[inline(always)]
    fn claim_word<R: Wait, H: Host<Res = T>>(
        &self,
        heap: &'h Heap<T>,
        rt: &R,
        hand: &mut Hand<T>,
        host: &mut H,
        word: u32,
        first: u32,
    ) -> u64
        requires same { heap.now ≡ self.now }
        requires table { IsOf self.now hand.old }
        requires free { IsFree hand.old.view }
        requires settled { hand.old.view.actor.head ≡ 0 }
        requires used { marks_of_word * word < hand.old.view.actor.used }
        requires first { first ≡ row_at hand.old.view.layout hand.old.view.thread 0 }
        ensures kept { KeepsButView hand.old hand.new }
        ensures free { IsFree hand.new.view }
        ensures settled { hand.new.view.actor.head ≡ 0 }
        ensures keeps { Keeps hand.old.view hand.new.view }
        ensures work { (closes : List HostCall) × LooksAt word closes hand.old.view hand.new.view
            × (result ≡ raised (close_faults closes) 0)
            × HasAnswered H.answers H.counts host.old closes host.new }
    {
        hand.rows_are_there();
        let rows = hand.used() - MARKS_OF_WORD * word;
        // `MarksLooked`: one load looks at the marks of 64 rows, of which mostly none is set.
        let found = heap.words().marks_load(hand, word);
        let mut marks = first_marks(found, rows);
        let mut failed: u64 = 0;
        while marks > 0 {
            let index = MARKS_OF_WORD * word + lowest_mark(marks);
            failed = failed.saturating_add(self.claim(heap, rt, hand, host, index, first));
            marks = without_mark(marks, lowest_mark(marks));
        }
        failed
    }

    /// Returns the row with the index in the hand's block, whose first row is `first`.
    #[inline(always)]
    fn row_of_block(heap: &Heap<T>, hand: &Hand<T>, index: u32, first: u32) -> u32
        requires table { IsOf heap.now hand.now }
        requires used { index < hand.now.view.actor.used }
        requires first { first ≡ row_at hand.now.view.layout hand.now.view.thread 0 }
        ensures row { result ≡ row_at hand.now.view.layout hand.now.view.thread index }
        ensures there { result < row_count hand.now.view.layout }
        ensures own { block_of hand.now.view.layout result ≡ hand.now.view.thread }
    {
        let row = heap.words().own_row(hand, index);
        // The rows of main's block don't follow one another: the workers' are between them.
        if hand.thread() == 0 {
            return row;
        }
        // The table's answer takes loads, which wait for the step before. The sum doesn't.
        first + index
    }

    /// Takes the mark of the row with the index in the hand's block, and does what follows. `first` is the first row of
    /// the block. Returns how many closes have failed, up to the greatest number.
    #[inline(always)]
    fn claim<R: Wait, H: Host<Res = T>>(
        &self,
        heap: &'h Heap<T>,
        rt: &R,
        hand: &mut Hand<T>,
        host: &mut H,
        index: u32,
        first: u32,
    ) -> u64
        requires same { heap.now ≡ self.now }
        requires table { IsOf self.now hand.old }
        requires free { IsFree hand.old.view }
        requires settled { hand.old.view.actor.head ≡ 0 }
        requires used { index < hand.old.view.actor.used }
        requires first { first ≡ row_at hand.old.view.layout hand.old.view.thread 0 }
        ensures kept { KeepsButView hand.old hand.new }
        ensures keeps { Keeps hand.old.view hand.new.view }
        ensures work { (closes : List HostCall)
            × Claims (row_at hand.old.view.layout hand.old.view.thread index) closes hand.old.view hand.new.view
            × (result ≡ raised (close_faults closes) 0)
            × HasAnswered H.answers H.counts host.old closes host.new }
    {
        let row = Self::row_of_block(heap, hand, index, first);
        let words = heap.words();
        // `MarkClaimed`, `NothingToClaim`: an and, because only the thread that finds the mark set may merge the
        // object.
        let found = words.mark_claim(hand, row);
        if words.mark(row, found) != SET {
            return 0;
        }
        Finaliser::new(heap, self).merge_claimed(rt, hand, host, row)
    }
}
