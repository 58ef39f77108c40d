//! One step of a hand, of any duty whose word is in the table. What the duty does to its word is said by
//! `brc_effect::access_of`. The duty has to come next in the hand's view.

ghost use Rattle.std.specs.Prelude.{◌≡◌, ◌≢◌, ◌<◌, ℕ, Option, [], ◌∷◌};
ghost use Rattle.atomic_table.specs.Table.{State, Allows};
ghost use Rattle.brc_model.specs.declared.actor.Status.TheVariants.{Gone};
ghost use Rattle.brc_model.specs.Duties.{address_of};
ghost use Rattle.brc_table.specs.Places.{HasWord};
ghost use Rattle.brc_model.specs.FieldLaws.{use_of};
ghost use Rattle.brc_model.specs.Stores.{Overwrites};
ghost use Rattle.brc_table.specs.declared.view.View.{View};
ghost use Rattle.brc_table.specs.Views.{view_after};
ghost use Rattle.brc_table.specs.Homes.{TableStands};
ghost use Rattle.brc_table.specs.Plays.{SuitsFirst, FirstFindsOwner, FindsKnown, overwritten};
ghost use Rattle.brc_table.specs.Uses.{first_due, held_after};
ghost use Rattle.brc_table.specs.Turns.{MayGoOn, turned_to};
ghost use Rattle.brc_table.specs.DutySteps.{DueField, OverwritesFirst, StepsBy, DutyDone, said};
ghost use Rattle.brc_effect.specs.Accesses.{IfStored, left_by};
ghost use Rattle.brc_effect.specs.Effects.{IsIndexed};
ghost use Rattle.brc_table.specs.Accesses.{HasAccess, HasCell, HasChain, HasUsedRow, IsNext, row_of};
ghost use Rattle.brc_table.specs.Begins.{Becomes};
ghost use Rattle.brc_table.specs.Hands.{IsOf, plan_of};

use crate::after::{head_after, runs_after, said_by, used_after};
use crate::hand::Hand;
use crate::model_laws::model_laws;
use crate::rule::{Begins, Stepped, SteppedStored};
use crate::view::View;
use crate::words::Words;
use crate::work::Work;
use atomic_table::Seat;
use brc_effect::{Access, access_of, address_of};
use brc_model::{Duty, work_is_put_aside, work_is_taken_back};
use std::marker::Brand;

impl<T: Drop> Words<T> {
    /// Does the next duty, and returns the word found. A store returns the word that it overwrites, which the hand
    /// knows. The word found of a thread that isn't started yet is 1, as if it ran.
    #[inline(always)]
    pub fn step(&self, hand: &mut Hand<T>, duty: Duty) -> u64
        requires table { IsOf self.now hand.old }
        requires alive { hand.old.view.actor.status ≢ Gone }
        requires known { HasAccess duty }
        requires cell { HasCell hand.old.view.layout duty }
        requires chain { HasChain duty hand.old.view.actor.head }
        requires row { HasUsedRow duty hand.old.view.actor.used }
        requires next { IsNext duty hand.old.view.actor.agenda }
        requires due { DueField (use_of duty 0) hand.old.fields hand.old.view }
        ensures table { hand.new.table ≡ hand.old.table }
        ensures carried { hand.new.carried ≡ hand.old.carried }
        ensures fields { hand.new.fields
            ≡ held_after hand.old.fields (use_of duty 0) (first_due (duty ∷ []) result) }
        ensures view { hand.new.view ≡ view_after hand.old.view result }
        ensures overwrites { Overwrites hand.old.view.thread duty result }
        ensures suits { SuitsFirst hand.old.view hand.old.view.actor.agenda result }
        ensures owner { FirstFindsOwner hand.old.view hand.old.view.actor.agenda result }
        ensures finds { FindsKnown hand.old.view hand.old.view.actor.agenda result }
    {
        self.layout_is_plain();
        hand.rows_are_there();
        self.step_from::<Brand>(hand, &duty)
    }

    /// Goes on with the hand's work about the duty's row: turns to it, if it is aside, and does the duty, with which it
    /// goes on. Returns what `step` does.
    #[inline(always)]
    pub fn go_on(&self, hand: &mut Hand<T>, work: Work, duty: Duty) -> u64
        requires table { IsOf self.now hand.old }
        requires may { MayGoOn work hand.old.view }
        requires known { HasAccess duty }
        requires cell { HasCell hand.old.view.layout duty }
        requires chain { HasChain duty hand.old.view.actor.head }
        requires row { HasUsedRow duty hand.old.view.actor.used }
        requires next { IsNext duty (turned_to work hand.old.view (row_of duty)).actor.agenda }
        requires due { DueField (use_of duty 0) hand.old.fields (turned_to work hand.old.view (row_of duty)) }
        ensures table { hand.new.table ≡ hand.old.table }
        ensures carried { hand.new.carried ≡ hand.old.carried }
        ensures fields { hand.new.fields
            ≡ held_after hand.old.fields (use_of duty 0) (first_due (duty ∷ []) result) }
        ensures view { hand.new.view ≡ view_after (turned_to work hand.old.view (row_of duty)) result }
        ensures overwrites { Overwrites hand.old.view.thread duty result }
        ensures suits { SuitsFirst (turned_to work hand.old.view (row_of duty))
            (turned_to work hand.old.view (row_of duty)).actor.agenda result }
        ensures owner { FirstFindsOwner (turned_to work hand.old.view (row_of duty))
            (turned_to work hand.old.view (row_of duty)).actor.agenda result }
        ensures finds { FindsKnown (turned_to work hand.old.view (row_of duty))
            (turned_to work hand.old.view (row_of duty)).actor.agenda result }
    {
        work_is_put_aside();
        work_is_taken_back();
        self.layout_is_plain();
        hand.rows_are_there();
        self.step_of::<Brand>(hand, work, &duty)
    }

    /// Does what `step_from` does, where what `B` begins with depends on which work it is. The code doesn't: a hand's
    /// agenda isn't in memory.
    #[inline(always)]
    fn step_of<B: Begins>(&self, hand: &mut Hand<T>, _work: Work, duty: &Duty) -> u64
        requires table { IsOf self.now hand.old }
        requires begins { Becomes (plan_of self.now) hand.old.view (B.begins hand.old.view) }
        requires lines { B.lines ≡ self.now.lines }
        requires alive { (B.begins hand.old.view).actor.status ≢ Gone }
        requires known { HasAccess duty.now }
        requires there { HasWord self.now.layout
            (address_of self.now.layout hand.old.view.thread hand.old.view.actor.head duty.now) }
        requires chain { HasChain duty.now hand.old.view.actor.head }
        requires indexed { IsIndexed duty.now }
        requires next { IsNext duty.now (B.begins hand.old.view).actor.agenda }
        requires due { DueField (use_of duty.now 0) hand.old.fields (B.begins hand.old.view) }
        ensures { DutyDone self.now.lines (B.begins hand.old.view) duty.now result hand.old hand.new }
    {
        self.step_from::<B>(hand, duty)
    }

    /// Becomes what `B` begins with, and does the duty, which then comes next.
    #[inline(always)]
    pub(crate) fn step_from<B: Begins>(&self, hand: &mut Hand<T>, duty: &Duty) -> u64
        requires table { IsOf self.now hand.old }
        requires begins { Becomes (plan_of self.now) hand.old.view (B.begins hand.old.view) }
        requires lines { B.lines ≡ self.now.lines }
        requires alive { (B.begins hand.old.view).actor.status ≢ Gone }
        requires known { HasAccess duty.now }
        requires there { HasWord self.now.layout
            (address_of self.now.layout hand.old.view.thread hand.old.view.actor.head duty.now) }
        requires chain { HasChain duty.now hand.old.view.actor.head }
        requires indexed { IsIndexed duty.now }
        requires next { IsNext duty.now (B.begins hand.old.view).actor.agenda }
        requires due { DueField (use_of duty.now 0) hand.old.fields (B.begins hand.old.view) }
        ensures { DutyDone self.now.lines (B.begins hand.old.view) duty.now result hand.old hand.new }
    {
        model_laws();
        self.layout_is_plain();
        self.words_are_there();
        hand.rows_are_there();
        let address = address_of(self.blocks, hand.thread, hand.head, *duty);
        let index = self.cells.place_at(address);
        let access = access_of(self.blocks, *duty, hand.thread, hand.head);
        let word = self.operate::<B>(&mut hand.seat, index, access);
        let found = said_by(*duty, word);
        // Computed after the operation: a value from before it would be written back at each step.
        let head = head_after(*duty, hand.head, found);
        let used = used_after(*duty, hand.used);
        let running = runs_after(*duty, hand.running);
        hand.head = head;
        hand.used = used;
        hand.running = running;
        found
    }

    /// Makes the operation on the word at the place.
    #[inline(always)]
    fn operate<B: Begins>(
        &self,
        seat: &mut Seat<Option<T>, View>,
        index: usize,
        access: Access,
    ) -> u64
        requires table { seat.old.table_id ≡ self.now.table }
        requires there { index < self.now.table.words }
        requires allowed { Allows
            (λ (s : State (Option T) View). TableStands (plan_of self.now) s.words s.homes s.views)
            self.now.table.slots seat.old.id seat.old.me index (left_by access) (StepsBy B.lines B.begins seat.old.me) }
        requires before { IfStored access (λ before. before ≡ overwritten (B.begins seat.old.me.0)) }
        requires says { IfStored access (λ before. said (B.begins seat.old.me.0) (B.begins seat.old.me.0).actor.agenda
            before
            ≡ before) }
        requires knows { IfStored access (λ before. (found : ℕ)
            → OverwritesFirst (B.begins seat.old.me.0).thread (B.begins seat.old.me.0).actor.agenda found
            → found ≡ before) }
        ensures table { seat.new.table_id ≡ seat.old.table_id }
        ensures step { StepsBy B.lines B.begins seat.old.me result seat.new.me }
    {
        match access {
            Access::Load => self.table.shared.load::<Stepped<B>>(seat, index),
            Access::Store { word, before } => {
                self.table
                    .shared
                    .store::<SteppedStored<B>>(seat, index, word);
                before
            }
            Access::Add { more } => self.table.shared.fetch_add::<Stepped<B>>(seat, index, more),
            Access::Swap { word } => self.table.shared.swap::<Stepped<B>>(seat, index, word),
            Access::Exchange { old, new } => self
                .table
                .shared
                .compare_exchange::<Stepped<B>>(seat, index, old, new),
            Access::Or { bits } => self.table.shared.fetch_or::<Stepped<B>>(seat, index, bits),
            Access::And { bits } => self.table.shared.fetch_and::<Stepped<B>>(seat, index, bits),
        }
    }
}
