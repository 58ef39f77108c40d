//! Merging an object's two counts, so that nobody owns it any more.

ghost use Rattle.std.specs.Prelude.{◌≡◌, ◌≢◌, ◌%◌, List, [], ◌∷◌, ◌++◌, ℕ, None, slice_set};
ghost use Rattle.brc_model.specs.declared.duty.Duty.{Duty};
ghost use Rattle.brc_model.specs.declared.duty.Reason.{Reason};
ghost use Rattle.brc_model.specs.declared.duty.Reason.TheVariants.{Own};
ghost use Rattle.brc_model.specs.declared.duty.Duty.TheVariants.{MergeSwap, MergeLoad};
ghost use Rattle.brc_table.specs.Turns.{MayGoOn, turned_to};
ghost use Rattle.brc_table.specs.Views.{view_after, resumed, turned, work_about};
ghost use Rattle.brc_table.specs.Hands.{IsOf, carried_of, carried_place, KeepsButView};
ghost use Rattle.brc_table.specs.Calls.{CanAct};
ghost use Rattle.brc_heap.specs.Steps.{HasStepped, ended};
ghost use Rattle.brc_heap.specs.Tries.{MergesNext, CarriesNext, merge_dies, carries_of, swap_left, still_carried};
ghost use Rattle.brc_effect.specs.Outcomes.{merge_answer};
ghost use Rattle.brc_heap.specs.Calls.{MergeIsFirst, MergeIsBegun, Merges, merge_begun, merge_tried, first_answer, merge_left, Leaves};

use crate::heap::Heap;
use brc_effect::outcomes::{MergeStep, merge_step};
use brc_model::{Duty, Reason};
use brc_table::{Hand, Work};
use brc_word::local_count;

/// Returns what a hand still carries that has tried to add the count.
fn still_carried(step: MergeStep, carried: u32) -> Option<u32>
    ensures { result ≡ still_carried step carried }
{
    match step {
        MergeStep::Again => Some(carried),
        MergeStep::Kept | MergeStep::Dying => None,
    }
}

impl<T: Drop> Heap<T> {
    /// Tries once to merge an object, as `zero_step` answered `Merge`, or this call `Again`; or because the hand has
    /// claimed the object's mark. A merge for a claimed mark leaves the duty to give the handed reference up, by
    /// `try_release_shared`, and the object never dies by it.
    ///
    /// The first turn swaps the local word for nobody's. After `Again` the hand remembers the local count that it
    /// carries from the row, and the next turn goes on with it. What it carries from other rows stays.
    pub fn merge_step(&self, hand: &mut Hand<T>, row: u32) -> MergeStep
        requires table { IsOf self.now hand.old }
        requires acts { CanAct hand.old.view }
        requires duty { (r : Reason) × Merges r hand.old row }
        ensures table { IsOf self.now hand.new }
        ensures fields { hand.new.fields ≡ hand.old.fields }
        ensures first { (r : Reason) → MergeIsFirst r hand.old row → (local : ℕ) × (word : ℕ) × (found : ℕ)
            × (hand.new.view ≡ merge_begun hand.old.view row local word found)
            × (result ≡ first_answer local word found) }
        ensures later { (r : Reason) (carried : ℕ) → MergeIsBegun r hand.old row carried → (word : ℕ) × (found : ℕ)
            × (hand.new.view ≡ merge_tried (turned hand.old.view row) word found)
            × (result ≡ merge_answer carried word found) }
        ensures again { (r : Reason) → Merges r hand.old row → result ≡ MergeStep.Again
            → (carried : ℕ) × MergeIsBegun r hand.new row carried }
        ensures done { result ≢ MergeStep.Again → carried_of hand.new row ≡ None }
        ensures others { hand.new.carried
            ≡ slice_set hand.old.carried (carried_place hand.old.view.layout row) (carried_of hand.new row) }
        ensures left { (r : Reason) → Merges r hand.old row
            → (carried : ℕ) × Leaves row (merge_left row carried r result) hand.old.view hand.new.view }
        ensures references { hand.new.view.references ≡ hand.old.view.references }
    {
        hand.rows_are_there();
        match self.words().carried(hand, row) {
            Some(carried) => self.merge_carried(hand, row, carried),
            None => self.merge_first(hand, row),
        }
    }

    /// Takes the first turn: swaps the local word for nobody's, and tries once to add its count to the shared one.
    fn merge_first(&self, hand: &mut Hand<T>, row: u32) -> MergeStep
        requires table { IsOf self.now hand.old }
        requires acts { CanAct hand.old.view }
        requires duty { (r : Reason) × MergeIsFirst r hand.old row }
        ensures table { IsOf self.now hand.new }
        ensures fields { hand.new.fields ≡ hand.old.fields }
        ensures first { (local : ℕ) × (word : ℕ) × (found : ℕ)
            × (hand.new.view ≡ merge_begun hand.old.view row local word found)
            × (result ≡ first_answer local word found) }
        ensures again { (r : Reason) → MergeIsFirst r hand.old row → result ≡ MergeStep.Again
            → (carried : ℕ) × MergeIsBegun r hand.new row carried }
        ensures done { result ≢ MergeStep.Again → carried_of hand.new row ≡ None }
        ensures others { hand.new.carried
            ≡ slice_set hand.old.carried (carried_place hand.old.view.layout row) (carried_of hand.new row) }
        ensures left { (r : Reason) → MergeIsFirst r hand.old row
            → (carried : ℕ) × Leaves row (merge_left row carried r result) hand.old.view hand.new.view }
        ensures references { hand.new.view.references ≡ hand.old.view.references }
    {
        match self.take_local(hand, row, Work::Aside) {
            Some(carried) => self.merge_carried(hand, row, carried),
            None => MergeStep::Kept,
        }
    }

    /// Tries once to add the carried local count to the shared count, and to make the state merged.
    fn merge_carried(&self, hand: &mut Hand<T>, row: u32, carried: u32) -> MergeStep
        requires table { IsOf self.now hand.old }
        requires acts { CanAct hand.old.view }
        requires duty { (r : Reason) × (work_about row hand.old.view ≡ MergeLoad row carried r ∷ []) }
        ensures table { IsOf self.now hand.new }
        ensures fields { hand.new.fields ≡ hand.old.fields }
        ensures events { (word : ℕ) × (found : ℕ)
            × (hand.new.view ≡ merge_tried (turned hand.old.view row) word found)
            × (result ≡ merge_answer carried word found) }
        ensures again { (r : Reason) → work_about row hand.old.view ≡ MergeLoad row carried r ∷ []
            → result ≡ MergeStep.Again → MergeIsBegun r hand.new row carried }
        ensures done { result ≢ MergeStep.Again → carried_of hand.new row ≡ None }
        ensures others { hand.new.carried
            ≡ slice_set hand.old.carried (carried_place hand.old.view.layout row) (carried_of hand.new row) }
        ensures left { (r : Reason) → work_about row hand.old.view ≡ MergeLoad row carried r ∷ []
            → Leaves row (merge_left row carried r result) hand.old.view hand.new.view }
        ensures references { hand.new.view.references ≡ hand.old.view.references }
    {
        hand.rows_are_there();
        let step = self.merge(hand, row, carried, Work::Aside);
        self.words()
            .remember(hand, row, still_carried(step, carried));
        step
    }

    /// Begins a merge, which may come next, with other duties after it: swaps the local word for nobody's. Returns the
    /// local count, or `None` if nobody owned the object any more: it is merged already.
    #[inline(always)]
    pub fn take_local(&self, hand: &mut Hand<T>, row: u32, work: Work) -> Option<u32>
        requires table { IsOf self.now hand.old }
        requires may { MayGoOn work hand.old.view }
        requires duty { MergesNext row (turned_to work hand.old.view row).actor.agenda }
        ensures kept { KeepsButView hand.old hand.new }
        ensures events { (local : ℕ) × (result ≡ carries_of local)
            × (hand.new.view ≡ view_after (turned_to work hand.old.view row) local) }
        ensures left { (r : Reason) (rest : List Duty)
            → (turned_to work hand.old.view row).actor.agenda ≡ MergeSwap row r ∷ rest
            → HasStepped (turned_to work hand.old.view row) (swap_left row r result ++ rest) hand.new.view }
    {
        // `LocalTakenOut`, `NobodysCount` (PEP 703, Biased Reference Counting: a merge): a swap, because two threads
        // may want to merge the object, and only one may add the local count (`merge_swap_keeps_local`).
        let local = self.words().go_on(
            hand,
            work,
            Duty::MergeSwap {
                row,
                reason: Reason::Own,
            },
        );
        if local == 0 {
            return None;
        }
        Some(local_count(local))
    }

    /// Tries once to add the carried local count to the shared count, and to make the state merged. This may come next,
    /// with other duties after it.
    #[inline(always)]
    pub fn merge(&self, hand: &mut Hand<T>, row: u32, carried: u32, work: Work) -> MergeStep
        requires table { IsOf self.now hand.old }
        requires may { MayGoOn work hand.old.view }
        requires duty { CarriesNext row carried (turned_to work hand.old.view row).actor.agenda }
        ensures kept { KeepsButView hand.old hand.new }
        ensures events { (word : ℕ) × (found : ℕ) × (result ≡ merge_answer carried word found)
            × (hand.new.view
            ≡ ended (merge_dies result) (resumed (turned_to work hand.old.view row) (word ∷ found ∷ []))) }
        ensures left { (r : Reason) (rest : List Duty)
            → (turned_to work hand.old.view row).actor.agenda ≡ MergeLoad row carried r ∷ rest
            → HasStepped (turned_to work hand.old.view row) (merge_left row carried r result ++ rest) hand.new.view }
        ensures own { (r : Reason) (rest : List Duty)
            → (turned_to work hand.old.view row).actor.agenda ≡ MergeLoad row carried r ∷ rest
            → result ≡ MergeStep.Dying → r ≡ Own }
    {
        let words = self.words();
        let reason = Reason::Own;
        // `MergeRead`: the new word depends on the count that is there.
        let word = words.go_on(
            hand,
            work,
            Duty::MergeLoad {
                row,
                carried,
                reason,
            },
        );
        // `Merges`, `MergesToZero`, `MergesForHanded`, `MergeLost` (PEP 703, Biased Reference Counting: the owner's
        // count is added to the shared one): a compare-exchange, because other threads count there meanwhile.
        let found = words.step(
            hand,
            Duty::MergeExchange {
                row,
                carried,
                word,
                reason,
            },
        );
        let step = merge_step(word, carried, found);
        match step {
            MergeStep::Dying => self.chain(hand, row),
            _ => {}
        }
        step
    }
}
