//! Releasing a reference, by the owner or by another thread.

ghost use Rattle.std.specs.Prelude.{◌≡◌, ◌≢◌, ◌≤◌, ◌+◌, true, List, [], ◌∷◌, ◌++◌, ℕ};
ghost use Rattle.brc_model.specs.declared.duty.Duty.{Duty};
ghost use Rattle.brc_model.specs.declared.duty.Holding.{Holding};
ghost use Rattle.brc_model.specs.Machine.{is_running};
ghost use Rattle.brc_model.specs.declared.actor.Status.TheVariants.{Gone};
ghost use Rattle.brc_model.specs.declared.duty.Reason.{Reason};
ghost use Rattle.brc_model.specs.declared.duty.Duty.TheVariants.{ReleaseLoad, DecideAtZero, SharedLoad};
ghost use Rattle.brc_word.specs.Words.{owner_part, local_part};
ghost use Rattle.brc_model.specs.Layout.{block_of};
ghost use Rattle.brc_model.specs.Within.{OwnerFits};
ghost use Rattle.brc_table.specs.declared.view.View.{View};
ghost use Rattle.brc_table.specs.Views.{view_after, resumed, releasing, without_reference, work_about};
ghost use Rattle.brc_table.specs.Turns.{MayGoOn, turned_to};
ghost use Rattle.brc_table.specs.Hands.{IsOf, IsRunning, HoldsOne, KeepsLock, HasNoWork, KeepsButView};
ghost use Rattle.brc_table.specs.Calls.{CanAct};
ghost use Rattle.brc_heap.specs.Steps.{HasStepped, ended};
ghost use Rattle.brc_heap.specs.Tries.{LoadedLocal, DecidesNext, GivesUpNext, lowered, zero_dies, shared_dies};
ghost use Rattle.brc_effect.specs.Outcomes.{zero_answer, shared_answer};
ghost use Rattle.brc_heap.specs.Calls.{local_answer, released_locally, local_left, decided, zero_left, released_shared, shared_left, Leaves};

use crate::heap::Heap;
use brc_effect::outcomes::{
    LocalRelease, SharedRelease, ZeroStep, local_release, shared_release, zero_step,
};
use brc_model::{Duty, Reason};
use brc_table::{Hand, Work};

impl<T: Drop> Heap<T> {
    /// Gives up a reference to an object (`Py_DECREF`), in the local word if the hand's thread owns the object.
    ///
    /// The hand keeps a reference to the object that it has locked. `Zero` and `Share` leave a duty with the hand: to
    /// decide by `zero_step`, or to go on by `try_release_shared`.
    #[inline(always)]
    pub fn release_local(&self, hand: &mut Hand<T>, row: u32) -> LocalRelease
        requires table { IsOf self.now hand.old }
        requires running { IsRunning hand.old.view }
        requires held { HoldsOne hand.old.view row }
        requires keeps { KeepsLock hand.old.view row }
        requires idle { HasNoWork hand.old.view row }
        ensures table { IsOf self.now hand.new }
        ensures carried { hand.new.carried ≡ hand.old.carried }
        ensures fields { hand.new.fields ≡ hand.old.fields }
        ensures events { (word : ℕ) × OwnerFits hand.old.view.layout row word
            × (result ≡ local_answer hand.old.view word)
            × (hand.new.view ≡ released_locally hand.old.view row word) }
        ensures own { result ≡ LocalRelease.Share → block_of hand.old.view.layout row ≡ hand.old.view.thread
            → (word : ℕ) × (owner_part word ≡ 0) × (hand.new.view ≡ released_locally hand.old.view row word) }
        ensures left { Leaves row (local_left row result) hand.old.view hand.new.view }
        ensures references { hand.new.view.references
            ≡ without_reference hand.old.view.layout row hand.old.view.references }
    {
        // `ReleasesImmortal`, `OwnerReleases`, `OtherReleases` (PEP 703, Biased Reference Counting: `Py_DECREF`): who
        // owns the object decides.
        let word = self.words().release_load(hand, row);
        self.lower(hand, row, word)
    }

    /// Does what follows the load of the local word in a release, with other duties after it: a running owner stores
    /// the lowered count.
    #[inline(always)]
    pub fn lower(&self, hand: &mut Hand<T>, row: u32, word: u64) -> LocalRelease
        requires table { IsOf self.now hand.old }
        requires alive { hand.old.view.actor.status ≢ Gone }
        requires duty { (v : View) × LoadedLocal row word v hand.old.view }
        requires counted { is_running hand.old.view.actor.status ≡ true → owner_part word ≡ hand.old.view.thread + 1
            → 1 ≤ local_part word }
        ensures kept { KeepsButView hand.old hand.new }
        ensures answer { result ≡ local_answer hand.old.view word }
        ensures view { hand.new.view ≡ lowered hand.old.view word }
        ensures left { (v : View) (holding : Holding) (rest : List Duty) → v.actor.agenda
            ≡ ReleaseLoad row holding ∷ rest
            → hand.old.view ≡ view_after v word → HasStepped v (local_left row result ++ rest) hand.new.view }
    {
        let release = local_release(word, hand.thread(), hand.is_running());
        match release {
            LocalRelease::Kept | LocalRelease::Zero => {
                // `LocalLowered`, `LocalReachesZero` (PEP 703, Biased Reference Counting: the owner changes the local
                // count without atomic operations): a plain store, because only the running owner writes the word.
                self.words().step(hand, Duty::ReleaseStore { row, word });
            }
            LocalRelease::Skip | LocalRelease::Share => {}
        }
        release
    }

    /// Decides what becomes of an object whose last local reference is gone, as `release_local` answered `Zero`.
    ///
    /// Only the whole shared word says it: an object whose count is 0 and whose state isn't default may be queued.
    pub fn zero_step(&self, hand: &mut Hand<T>, row: u32) -> ZeroStep
        requires table { IsOf self.now hand.old }
        requires acts { CanAct hand.old.view }
        requires duty { work_about row hand.old.view ≡ DecideAtZero row ∷ [] }
        ensures table { IsOf self.now hand.new }
        ensures carried { hand.new.carried ≡ hand.old.carried }
        ensures fields { hand.new.fields ≡ hand.old.fields }
        ensures events { (word : ℕ) × (result ≡ zero_answer word)
            × (hand.new.view ≡ decided hand.old.view row word) }
        ensures left { Leaves row (zero_left row result) hand.old.view hand.new.view }
        ensures references { hand.new.view.references ≡ hand.old.view.references }
    {
        self.decide(hand, row, Work::Aside)
    }

    /// Decides what becomes of an object whose last local reference is gone: the work of `zero_step`, which may come
    /// next, with other duties after it.
    #[inline(always)]
    pub fn decide(&self, hand: &mut Hand<T>, row: u32, work: Work) -> ZeroStep
        requires table { IsOf self.now hand.old }
        requires may { MayGoOn work hand.old.view }
        requires duty { DecidesNext row (turned_to work hand.old.view row).actor.agenda }
        ensures kept { KeepsButView hand.old hand.new }
        ensures events { (word : ℕ) × (result ≡ zero_answer word)
            × (hand.new.view ≡ ended (zero_dies result) (view_after (turned_to work hand.old.view row) word)) }
        ensures left { (rest : List Duty) → (turned_to work hand.old.view row).actor.agenda ≡ DecideAtZero row ∷ rest
            → HasStepped (turned_to work hand.old.view row) (zero_left row result ++ rest) hand.new.view }
    {
        // `NothingShared`, `WasShared` (PEP 703, Biased Reference Counting: the owner frees the object, or merges the
        // counts): the whole word decides, since an object at count 0 may be queued (`count_alone_decides`).
        let word = self.words().go_on(hand, work, Duty::DecideAtZero { row });
        let step = zero_step(word);
        match step {
            ZeroStep::Dying => self.chain(hand, row),
            ZeroStep::Merge => {}
        }
        step
    }

    /// Tries once to give up a reference in the shared word, as `release_local` answered `Share`, or this call `Again`.
    ///
    /// A reference to an object at count 0 in the default state is handed to the owner's queue: `Queued` leaves the
    /// duty to set the object's mark with the hand.
    pub fn try_release_shared(&self, hand: &mut Hand<T>, row: u32) -> SharedRelease
        requires table { IsOf self.now hand.old }
        requires acts { CanAct hand.old.view }
        requires duty { (r : Reason) × (work_about row hand.old.view ≡ SharedLoad row r ∷ []) }
        ensures table { IsOf self.now hand.new }
        ensures carried { hand.new.carried ≡ hand.old.carried }
        ensures fields { hand.new.fields ≡ hand.old.fields }
        ensures events { (word : ℕ) × (found : ℕ) × (result ≡ shared_answer word found)
            × (hand.new.view ≡ released_shared hand.old.view row word found) }
        ensures left { (r : Reason) → work_about row hand.old.view ≡ SharedLoad row r ∷ []
            → Leaves row (shared_left row r result) hand.old.view hand.new.view }
        ensures references { hand.new.view.references ≡ hand.old.view.references }
    {
        self.release_shared(hand, row, Work::Aside)
    }

    /// Tries once to give up a reference in the shared word: the work of `try_release_shared`, which may come next,
    /// with other duties after it.
    #[inline(always)]
    pub fn release_shared(&self, hand: &mut Hand<T>, row: u32, work: Work) -> SharedRelease
        requires table { IsOf self.now hand.old }
        requires may { MayGoOn work hand.old.view }
        requires duty { GivesUpNext row (turned_to work hand.old.view row).actor.agenda }
        ensures kept { KeepsButView hand.old hand.new }
        ensures events { (word : ℕ) × (found : ℕ) × (result ≡ shared_answer word found)
            × (hand.new.view
            ≡ ended (shared_dies result) (resumed (turned_to work hand.old.view row) (word ∷ found ∷ []))) }
        ensures left { (r : Reason) (rest : List Duty)
            → (turned_to work hand.old.view row).actor.agenda ≡ SharedLoad row r ∷ rest
            → HasStepped (turned_to work hand.old.view row) (shared_left row r result ++ rest) hand.new.view }
    {
        let words = self.words();
        let reason = Reason::Own;
        // `SharedRead`: count and state together decide the new word.
        let word = words.go_on(hand, work, Duty::SharedLoad { row, reason });
        // `Queues`, `Decrements`, `DecrementsToZero`, `ExchangeLost` (PEP 703, Biased Reference Counting: a decrement
        // by a thread that isn't the owner): a compare-exchange, because a plain store would undo another thread's
        // count (`lost_exchange_forgotten`). At (0, default) the count keeps the reference (`release_below_zero`).
        let found = words.step(hand, Duty::SharedExchange { row, reason, word });
        let release = shared_release(word, found);
        match release {
            SharedRelease::Dying => self.chain(hand, row),
            _ => {}
        }
        release
    }
}
