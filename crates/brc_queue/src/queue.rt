//! Putting an object into its owner's queue, and looking after it.

ghost use Rattle.std.specs.Prelude.{◌≡◌, List, [], ◌∷◌, ◌++◌, ℕ};
ghost use Rattle.brc_model.specs.declared.duty.Duty.{Duty};
ghost use Rattle.brc_model.specs.declared.duty.Duty.TheVariants.{SetMark, Look};
ghost use Rattle.brc_table.specs.Turns.{MayGoOn, turned_to};
ghost use Rattle.brc_table.specs.Views.{view_after, work_about};
ghost use Rattle.brc_table.specs.Hands.{IsOf, KeepsButView};
ghost use Rattle.brc_table.specs.Calls.{CanAct};
ghost use Rattle.brc_heap.specs.Calls.{Leaves};
ghost use Rattle.brc_heap.specs.Marks.{look_answer, look_left, looked_after, mark_found};
ghost use Rattle.brc_heap.specs.Steps.{HasStepped};
ghost use Rattle.brc_heap.specs.Tries.{MarksNext, LooksNext};
ghost use Rattle.brc_queue.specs.Calls.{marked, looked};

use brc_effect::outcomes::{runs, taken};
use brc_heap::{Hand, Heap, Looked, Work};
use brc_model::Duty;
use crossbeam_utils::Backoff;
use std::marker::Model;

/// The queues of a heap's threads. `T` is the resource of a file or a socket.
#[derive(Drop)]
pub struct Queue<'h, T: Drop> {
    pub(crate) heap: &'h Heap<T>,
    // How the thread waits between two tries. A contract sees nothing of it.
    pub(crate) backoff: Backoff,
}

impl<'h, T: Drop> Model for Queue<'h, T> {
    ghost use Rattle.brc_table.specs.Hands.{TableState};

    ghost Value = { TableState };

    ghost view = { λ queue. queue.heap.now };
}

impl<'h, T: Drop> Queue<'h, T> {
    /// Returns the queues of the heap's threads.
    pub fn new(heap: &'h Heap<T>) -> Queue<'h, T>
        ensures { result ≡ heap.now }
    {
        Queue {
            heap,
            backoff: Backoff::new(),
        }
    }

    /// Sets the mark of an object, as a release answered `Queued`. The object is then in its owner's queue, with the
    /// reference that the hand has handed over. The hand has to look after it, by `look`.
    pub fn mark(&self, hand: &mut Hand<T>, row: u32)
        requires table { IsOf self.now hand.old }
        requires acts { CanAct hand.old.view }
        requires duty { work_about row hand.old.view ≡ SetMark row ∷ [] }
        ensures table { IsOf self.now hand.new }
        ensures carried { hand.new.carried ≡ hand.old.carried }
        ensures fields { hand.new.fields ≡ hand.old.fields }
        ensures events { (found : ℕ) × (hand.new.view ≡ marked hand.old.view row found) }
        ensures left { Leaves row (Look row ∷ []) hand.old.view hand.new.view }
        ensures references { hand.new.view.references ≡ hand.old.view.references }
    {
        self.set_mark(hand, row, Work::Aside);
    }

    /// Sets the mark of an object: the work of `mark`, which may come next, with other duties behind it.
    #[inline(always)]
    pub(crate) fn set_mark(&self, hand: &mut Hand<T>, row: u32, work: Work)
        requires table { IsOf self.now hand.old }
        requires may { MayGoOn work hand.old.view }
        requires duty { MarksNext row (turned_to work hand.old.view row).actor.agenda }
        ensures kept { KeepsButView hand.old hand.new }
        ensures events { (found : ℕ) × (hand.new.view ≡ view_after (turned_to work hand.old.view row) found) }
        ensures left { (rest : List Duty) → (turned_to work hand.old.view row).actor.agenda ≡ SetMark row ∷ rest
            → HasStepped (turned_to work hand.old.view row) (Look row ∷ rest) hand.new.view }
    {
        let words = self.heap.words();
        // `Marked` (PEP 703, Biased Reference Counting: the object is added to its owner's queue): the mark is set
        // before the look, because an owner that leaves in between may have scanned the mark by then
        // (`post_without_look`). An or, because other marks of the word are set and taken at the same time
        // (`mark_overwrites_the_word`).
        words.go_on(hand, work, Duty::SetMark { row });
    }

    /// Looks after an object whose mark the hand has set. An owner that runs will find the mark. If the owner is
    /// leaving or gone, its exit may have scanned the mark before it was set: the hand then takes the mark back, and
    /// merges the object if the mark was still set.
    pub fn look(&self, hand: &mut Hand<T>, row: u32) -> Looked
        requires table { IsOf self.now hand.old }
        requires acts { CanAct hand.old.view }
        requires duty { work_about row hand.old.view ≡ Look row ∷ [] }
        ensures table { IsOf self.now hand.new }
        ensures carried { hand.new.carried ≡ hand.old.carried }
        ensures fields { hand.new.fields ≡ hand.old.fields }
        ensures events { (said : ℕ) × (found : ℕ)
            × (result ≡ look_answer said (mark_found hand.old.view row found))
            × (hand.new.view ≡ looked hand.old.view row said found) }
        ensures left { Leaves row (look_left row result) hand.old.view hand.new.view }
        ensures references { hand.new.view.references ≡ hand.old.view.references }
    {
        self.check_owner(hand, row, Work::Aside)
    }

    /// Looks after an object: the work of `look`, which may come next, with other duties behind it.
    #[inline(always)]
    pub(crate) fn check_owner(&self, hand: &mut Hand<T>, row: u32, work: Work) -> Looked
        requires table { IsOf self.now hand.old }
        requires may { MayGoOn work hand.old.view }
        requires duty { LooksNext row (turned_to work hand.old.view row).actor.agenda }
        ensures kept { KeepsButView hand.old hand.new }
        ensures events { (said : ℕ) × (found : ℕ)
            × (result ≡ look_answer said (mark_found hand.old.view row found))
            × (hand.new.view ≡ looked_after (turned_to work hand.old.view row) said found) }
        ensures left { (rest : List Duty) → (turned_to work hand.old.view row).actor.agenda ≡ Look row ∷ rest
            → HasStepped (turned_to work hand.old.view row) (look_left row result ++ rest) hand.new.view }
    {
        let words = self.heap.words();
        // `OwnerRuns`, `OwnerExits` (PEP 703, Biased Reference Counting: an exiting thread merges the objects in its
        // queue): an owner says that it leaves, and only then scans its marks.
        let said = words.go_on(hand, work, Duty::Look { row });
        if runs(said) {
            return Looked::Left;
        }
        // `MarkTakenBack`, `MarkGone`: an and, because the owner's exit may take the mark at the same time, and only
        // one may merge the object (`post_clears_the_word`).
        let found = words.step(hand, Duty::TakeMark { row });
        taken(words.mark(row, found))
    }

    /// Puts an object into its owner's queue and looks after it: `mark`, and then `look`.
    pub fn post(&self, hand: &mut Hand<T>, row: u32) -> Looked
        requires table { IsOf self.now hand.old }
        requires acts { CanAct hand.old.view }
        requires duty { work_about row hand.old.view ≡ SetMark row ∷ [] }
        ensures table { IsOf self.now hand.new }
        ensures carried { hand.new.carried ≡ hand.old.carried }
        ensures fields { hand.new.fields ≡ hand.old.fields }
        ensures events { (before : ℕ) × (said : ℕ) × (found : ℕ)
            × (result ≡ look_answer said (mark_found hand.old.view row found))
            × (hand.new.view ≡ looked (marked hand.old.view row before) row said found) }
        ensures left { Leaves row (look_left row result) hand.old.view hand.new.view }
        ensures references { hand.new.view.references ≡ hand.old.view.references }
    {
        self.mark(hand, row);
        self.look(hand, row)
    }
}
