//! Finalising the objects of a hand's dying chain.

ghost use Rattle.std.specs.Prelude.{◌≡◌, ◌≢◌, ◌<◌, true, false, is_err, List, [], ◌∷◌, ◌++◌};
ghost use Rattle.brc_host.specs.HostCounts.{raised};
ghost use Rattle.brc_host.specs.HostCalls.{HostCall, Close, HasAnswered, close_faults};
ghost use Rattle.brc_model.specs.declared.actor.Status.TheVariants.{Gone};
ghost use Rattle.brc_model.specs.declared.duty.Duty.{Duty};
ghost use Rattle.brc_model.specs.declared.duty.Duty.TheVariants.{Settle, SettleEnd};
ghost use Rattle.brc_model.specs.Duties.{has_resource, cells_of, cells_from};
ghost use Rattle.brc_table.specs.Hands.{IsOf, KeepsButView};
ghost use Rattle.brc_table.specs.Uses.{FirstField, behind_field};
ghost use Rattle.brc_free.specs.Works.{HasWorked, ComesToSettle, to_settle, EmptiesNext, CellNext, TakesNext, ClaimedNext, behind, cells_left, claimed_left};

use crate::merging::merge;
use crate::waiting::Waits;
use brc_effect::kinds::{cells_of, has_resource};
use brc_heap::{Hand, Heap, Marker};
use brc_host::{Fault, Host};
use brc_list::Lists;
use brc_model::Duty;
use brc_table::Contention;
use brc_word::kind_number;
use brc_word::values::LIST;
use std::marker::Model;
use std::sync::Wait;

/// Returns how many faults a close has answered: one, or none.
fn faults_of(closed: &Result<(), Fault>) -> u64
    ensures { result ≡ close_faults (Close (is_err closed.now) ∷ []) }
{
    if closed.is_err() { 1 } else { 0 }
}

/// Returns whether an object with this kind word gives nothing back when it dies, neither cells nor a resource.
#[inline(always)]
fn is_plain(word: u64) -> bool
    ensures resource { result ≡ true → has_resource word ≡ false }
    ensures cells { result ≡ true → cells_of word ≡ 0 }
{
    kind_number(word) < LIST
}

/// What finalises the dying objects of a heap. It puts objects that other threads own into the queues that it was
/// given.
#[derive(Drop)]
pub struct Finaliser<'h, T: Drop, Q: Marker<T> + Waits> {
    pub(crate) heap: &'h Heap<T>,
    pub(crate) queue: &'h Q,
}

impl<'h, T: Drop, Q: Marker<T> + Waits> Model for Finaliser<'h, T, Q> {
    ghost use Rattle.std.specs.Prelude.{◌≡◌};
    ghost use Rattle.brc_table.specs.Hands.{TableState};

    ghost Value = { TableState };

    ghost view = { λ f. f.heap.now };

    ghost invariant = { λ f. Q.heap f.queue.now ≡ f.heap.now };
}

impl<'h, T: Drop, Q: Marker<T> + Waits> Finaliser<'h, T, Q> {
    /// Returns what finalises the dying objects of the heap, with the queues of the heap's threads.
    pub fn new(heap: &'h Heap<T>, queue: &'h Q) -> Finaliser<'h, T, Q>
        requires { Q.heap queue.now ≡ heap.now }
        ensures { result ≡ heap.now }
    {
        Finaliser { heap, queue }
    }

    /// Finalises the objects of the hand's dying chain, and those that die by that, until the chain is empty. The
    /// references in a list's cells are given up, and the resource of a file or a socket is closed. Returns how many
    /// closes have failed, up to the greatest number.
    ///
    /// The hand has nothing else to do, or this is the next part of its exit, or of looking through its queue.
    #[inline(always)]
    pub fn settle<R: Wait, H: Host<Res = T>>(&self, rt: &R, hand: &mut Hand<T>, host: &mut H) -> u64
        requires table { IsOf self.now hand.old }
        requires duty { (rest : List Duty) × ComesToSettle hand.old.view rest }
        ensures table { IsOf self.now hand.new }
        ensures carried { hand.new.carried ≡ hand.old.carried }
        ensures fields { hand.new.fields ≡ hand.old.fields }
        ensures chain { hand.new.view.actor.head ≡ 0 }
        ensures work { (rest : List Duty) → ComesToSettle hand.old.view rest → (closes : List HostCall)
            × HasWorked (to_settle rest hand.old.view) closes rest hand.new.view
            × (result ≡ raised (close_faults closes) 0)
            × HasAnswered H.answers H.counts host.old closes host.new }
    {
        if hand.head() == 0 {
            return 0;
        }
        let failed = self.finalise_first(rt, hand, host);
        if hand.head() == 0 {
            return failed;
        }
        failed.saturating_add(Self::settle_chain(self.heap, self.queue, rt, hand, host))
    }

    /// Does what `settle` does, object by object. Mostly one object dies, and the chain is empty behind it: the code of
    /// that has no loop.
    #[inline(never)]
    fn settle_chain<R: Wait, H: Host<Res = T>>(
        heap: &'h Heap<T>,
        queue: &'h Q,
        rt: &R,
        hand: &mut Hand<T>,
        host: &mut H,
    ) -> u64
        requires same { Q.heap queue.now ≡ heap.now }
        requires table { IsOf heap.now hand.old }
        requires duty { (rest : List Duty) × ComesToSettle hand.old.view rest }
        ensures table { IsOf heap.now hand.new }
        ensures carried { hand.new.carried ≡ hand.old.carried }
        ensures fields { hand.new.fields ≡ hand.old.fields }
        ensures chain { hand.new.view.actor.head ≡ 0 }
        ensures work { (rest : List Duty) → ComesToSettle hand.old.view rest → (closes : List HostCall)
            × HasWorked (to_settle rest hand.old.view) closes rest hand.new.view
            × (result ≡ raised (close_faults closes) 0)
            × HasAnswered H.answers H.counts host.old closes host.new }
    {
        let finaliser = Finaliser::new(heap, queue);
        let mut failed: u64 = 0;
        for _ in rt.forever() {
            if hand.head() == 0 {
                return failed;
            }
            failed = failed.saturating_add(finaliser.finalise_first(rt, hand, host));
        }
        unreachable!()
    }

    /// Does the next duties: merges an object whose mark the hand has taken, gives up the reference that was handed
    /// over with it, and settles. Returns how many closes have failed, up to the greatest number.
    #[inline(always)]
    pub fn merge_claimed<R: Wait, H: Host<Res = T>>(
        &self,
        rt: &R,
        hand: &mut Hand<T>,
        host: &mut H,
        row: u32,
    ) -> u64
        requires table { IsOf self.now hand.old }
        requires alive { hand.old.view.actor.status ≢ Gone }
        requires duty { ClaimedNext row hand.old.view.actor.agenda }
        ensures table { IsOf self.now hand.new }
        ensures carried { hand.new.carried ≡ hand.old.carried }
        ensures fields { hand.new.fields ≡ hand.old.fields }
        ensures chain { hand.new.view.actor.head ≡ 0 }
        ensures work { (closes : List HostCall)
            × HasWorked hand.old.view closes (claimed_left hand.old.view.actor.agenda) hand.new.view
            × (result ≡ raised (close_faults closes) 0)
            × HasAnswered H.answers H.counts host.old closes host.new }
    {
        hand.count(Contention::CLAIMED);
        merge(self.queue, rt, self.heap, hand, row);
        self.give_up(rt, hand, row);
        self.settle(rt, hand, host)
    }

    /// Finalises the first object of the hand's dying chain. Returns how many closes have failed.
    #[inline(always)]
    fn finalise_first<R: Wait, H: Host<Res = T>>(
        &self,
        rt: &R,
        hand: &mut Hand<T>,
        host: &mut H,
    ) -> u64
        requires table { IsOf self.now hand.old }
        requires chain { 0 < hand.old.view.actor.head }
        requires duty { (rest : List Duty) × ComesToSettle hand.old.view rest }
        ensures kept { KeepsButView hand.old hand.new }
        ensures work { (rest : List Duty) → ComesToSettle hand.old.view rest → (closes : List HostCall)
            × HasWorked (to_settle rest hand.old.view) closes (Settle ∷ rest) hand.new.view
            × (result ≡ close_faults closes)
            × HasAnswered H.answers H.counts host.old closes host.new }
    {
        hand.rows_are_there();
        let words = self.heap.words();
        let row = hand.head() - 1;
        words.gate_load(hand);
        // `DyingResource`, `DyingCells`: the kind says what the object gives back.
        let kind = words.step(hand, Duty::SettleKind { row });
        // Most objects are numbers: one comparison finds them.
        if is_plain(kind) {
            words.gate_close(hand, row);
            return 0;
        }
        if has_resource(kind) {
            return Self::close_resource(self.heap, hand, host, row);
        }
        Self::close_cells(self.heap, self.queue, rt, hand, row, cells_of(kind));
        0
    }

    /// Does the next duties, behind which others may come: closes the resource of a dying file or socket, and then the
    /// object. Returns how many closes have failed.
    #[inline(never)]
    fn close_resource<H: Host<Res = T>>(
        heap: &'h Heap<T>,
        hand: &mut Hand<T>,
        host: &mut H,
        row: u32,
    ) -> u64
        requires table { IsOf heap.now hand.old }
        requires alive { hand.old.view.actor.status ≢ Gone }
        requires duty { TakesNext row hand.old.view.actor.agenda }
        requires field { FirstField hand.old.fields row 1 }
        ensures table { hand.new.table ≡ hand.old.table }
        ensures carried { hand.new.carried ≡ hand.old.carried }
        ensures fields { hand.new.fields ≡ behind_field hand.old.fields }
        ensures work { (closes : List HostCall) × HasWorked hand.old.view closes (behind hand.old.view.actor.agenda)
            hand.new.view
            × (result ≡ close_faults closes) × HasAnswered H.answers H.counts host.old closes host.new }
    {
        hand.rows_are_there();
        let words = heap.words();
        let resource = Lists::new(heap).lend(hand, row);
        let closed = host.close(resource);
        words.gate_close(hand, row);
        faults_of(&closed)
    }

    /// Does the next duties, behind which others may come: empties the cells of a dying list, gives up the references
    /// that were there, and closes the list.
    #[inline(never)]
    fn close_cells<R: Wait>(
        heap: &'h Heap<T>,
        queue: &'h Q,
        rt: &R,
        hand: &mut Hand<T>,
        row: u32,
        cells: u32,
    )
        requires same { Q.heap queue.now ≡ heap.now }
        requires table { IsOf heap.now hand.old }
        requires alive { hand.old.view.actor.status ≢ Gone }
        requires duty { EmptiesNext row cells hand.old.view.actor.agenda }
        requires field { FirstField hand.old.fields row 0 }
        ensures table { hand.new.table ≡ hand.old.table }
        ensures carried { hand.new.carried ≡ hand.old.carried }
        ensures fields { hand.new.fields ≡ behind_field hand.old.fields }
        ensures work { (rest : List Duty) → hand.old.view.actor.agenda ≡ cells_from row 0 cells ++ rest
            → HasWorked hand.old.view [] rest hand.new.view }
    {
        hand.rows_are_there();
        Self::empty_cells(heap, queue, rt, hand, row, cells);
        heap.words().gate_close(hand, row);
    }

    /// Does the next duties, behind which others may come: empties the cells of a dying list, and gives up the
    /// references that were there.
    fn empty_cells<R: Wait>(
        heap: &'h Heap<T>,
        queue: &'h Q,
        rt: &R,
        hand: &mut Hand<T>,
        row: u32,
        cells: u32,
    )
        requires same { Q.heap queue.now ≡ heap.now }
        requires table { IsOf heap.now hand.old }
        requires alive { hand.old.view.actor.status ≢ Gone }
        requires duty { EmptiesNext row cells hand.old.view.actor.agenda }
        ensures kept { KeepsButView hand.old hand.new }
        ensures work { (rest : List Duty) → hand.old.view.actor.agenda ≡ cells_from row 0 cells ++ rest
            → HasWorked hand.old.view [] (SettleEnd row ∷ rest) hand.new.view }
    {
        let finaliser = Finaliser::new(heap, queue);
        for cell in 0..cells {
            finaliser.empty_cell(rt, hand, row, cell, cells);
        }
    }

    /// Does the next duties, behind which others may come: empties a cell of a dying list, and gives up the reference
    /// that was there.
    fn empty_cell<R: Wait>(&self, rt: &R, hand: &mut Hand<T>, row: u32, cell: u32, cells: u32)
        requires table { IsOf self.now hand.old }
        requires alive { hand.old.view.actor.status ≢ Gone }
        requires duty { CellNext row cell hand.old.view.actor.agenda }
        ensures kept { KeepsButView hand.old hand.new }
        ensures work { HasWorked hand.old.view [] (cells_left hand.old.view.actor.agenda) hand.new.view }
    {
        hand.rows_are_there();
        let words = self.heap.words();
        words.layout_is_plain();
        words.lines_are_there();
        // `CellEmptied`: a swap, so that no reference is left in the cell.
        let item = words.step(hand, Duty::SettleCell { row, cell, cells });
        if item == 0 {
            return;
        }
        self.release_item(rt, hand, (item - 1) as u32);
    }
}
