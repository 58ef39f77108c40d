//! The calls of a hand on the lists of a heap.

ghost use Rattle.std.specs.Prelude.{◌≡◌, ◌<◌, ◌==◌, if◌then◌else◌, ℕ, true, None, Some, ◌∷◌, length};
ghost use Rattle.brc_word.specs.Words.{free_word};
ghost use Rattle.brc_model.specs.Duties.{cells_of, resources_of};
ghost use Rattle.brc_table.specs.Views.{view_after, asking, locking, unlocking};
ghost use Rattle.brc_table.specs.Plays.{overwritten};
ghost use Rattle.brc_table.specs.KnownWords.{knows_kind, KnowsCell};
ghost use Rattle.brc_table.specs.Swaps.{MayPut};
ghost use Rattle.brc_table.specs.Uses.{FirstField, behind_field};
ghost use Rattle.brc_table.specs.Hands.{most_references, IsOf, IsRunning, HoldsOne, Borrows, MayRead, MayLoad, MayChange, HasNoWork, HasNoRetain};
ghost use Rattle.brc_list.specs.Calls.{KeepsWork, KeepsBesides, KeepsButField, SeesItem, SwapsItem, HasField, row_in, word_of};

use brc_heap::{Hand, Heap};
use brc_word::values::{FREE, LIST};
use brc_word::{kind_argument, kind_number};
use std::marker::Model;

/// The lists of a heap. `T` is the resource of a file or a socket.
#[derive(Drop)]
pub struct Lists<'h, T: Drop> {
    heap: &'h Heap<T>,
}

impl<'h, T: Drop> Model for Lists<'h, T> {
    ghost use Rattle.brc_table.specs.Hands.{TableState};

    ghost Value = { TableState };

    ghost view = { λ lists. lists.heap.now };
}

impl<'h, T: Drop> Lists<'h, T> {
    /// Returns the lists of the heap.
    pub fn new(heap: &'h Heap<T>) -> Lists<'h, T>
        ensures { result ≡ heap.now }
    {
        Lists { heap }
    }

    /// Tries once to lock a list to which the hand holds a reference, as it has locked none. Returns whether the hand
    /// has locked it: not if another thread has locked it just now. The hand then has the list's field too. If it has
    /// seen the object's kind, it knows whether the field has a resource.
    pub fn try_lock(&self, hand: &mut Hand<T>, row: u32) -> bool
        requires table { IsOf self.now hand.old }
        requires running { IsRunning hand.old.view }
        requires held { HoldsOne hand.old.view row }
        requires idle { HasNoWork hand.old.view row }
        requires unlocked { hand.old.view.actor.locked ≡ None }
        ensures table { IsOf self.now hand.new }
        ensures carried { hand.new.carried ≡ hand.old.carried }
        ensures fields { hand.new.fields
            ≡ (if result then (row, hand.new.view.in_field) ∷ hand.old.fields else hand.old.fields) }
        ensures kind { (word : ℕ) → result ≡ true → 0 < word
            → knows_kind row word hand.old.view ≡ true → hand.new.view.in_field ≡ resources_of word }
        ensures events { (found : ℕ) × (hand.new.view ≡ view_after (locking hand.old.view row hand.new.view.in_field)
            found)
            × (result ≡ (found == free_word)) }
        ensures locked { hand.new.view.actor.locked ≡ (if result then Some row else None) }
        ensures keeps { KeepsButField hand.old.view hand.new.view }
    {
        self.heap.words().gate_lock(hand, row) == FREE
    }

    /// Unlocks the list that the hand has locked. The hand retains nothing meanwhile, and has put back a resource that
    /// it lent: the field has what it had when the hand locked the list.
    pub fn unlock(&self, hand: &mut Hand<T>, row: u32)
        requires table { IsOf self.now hand.old }
        requires running { IsRunning hand.old.view }
        requires held { HoldsOne hand.old.view row }
        requires idle { HasNoWork hand.old.view row }
        requires locked { hand.old.view.actor.locked ≡ Some row }
        requires retains { HasNoRetain hand.old.view }
        requires returned { FirstField hand.old.fields row hand.old.view.in_field }
        ensures table { IsOf self.now hand.new }
        ensures carried { hand.new.carried ≡ hand.old.carried }
        ensures fields { hand.new.fields ≡ behind_field hand.old.fields }
        ensures events { hand.new.view
            ≡ view_after (unlocking hand.old.view row) (overwritten (unlocking hand.old.view row)) }
        ensures unlocked { hand.new.view.actor.locked ≡ None }
        ensures keeps { KeepsWork hand.old.view hand.new.view }
    {
        self.heap.words().gate_unlock(hand, row);
    }

    /// Returns how many cells an object has that the hand may use, or is to finalise: a list has those of its birth,
    /// and any other object none. The hand needs no lock for it. Afterwards it may ask for each of the cells.
    pub fn size(&self, hand: &mut Hand<T>, row: u32) -> u32
        requires table { IsOf self.now hand.old }
        requires running { IsRunning hand.old.view }
        requires usable { MayRead hand.old.view row }
        requires idle { HasNoWork hand.old.view row }
        ensures table { IsOf self.now hand.new }
        ensures carried { hand.new.carried ≡ hand.old.carried }
        ensures fields { hand.new.fields ≡ hand.old.fields }
        ensures events { (word : ℕ) × (hand.new.view ≡ view_after (asking hand.old.view row) word)
            × (result ≡ cells_of word) × ((before : ℕ) → 0 < before → knows_kind row before hand.old.view ≡ true
            → word ≡ before) }
        ensures cells { (i : ℕ) → i < result → KnowsCell hand.new.view row i }
        ensures locked { hand.new.view.actor.locked ≡ hand.old.view.actor.locked }
        ensures keeps { KeepsWork hand.old.view hand.new.view }
    {
        let word = self.heap.words().kind_load(hand, row);
        if kind_number(word) == LIST {
            kind_argument(word)
        } else {
            0
        }
    }

    /// Returns what is in a cell of the list that the hand has locked, or is to finalise as the first of its dying
    /// chain: the row of an object, or `None` if the cell is empty. The list keeps its reference to the object. From a
    /// list that it has locked the hand borrows the object (`PyList_GetItem`): until it unlocks the list or takes the
    /// object out of the cell, it may ask for the object's kind, or retain it.
    pub fn item(&self, hand: &mut Hand<T>, row: u32, cell: u32) -> Option<u32>
        requires table { IsOf self.now hand.old }
        requires running { IsRunning hand.old.view }
        requires idle { HasNoWork hand.old.view row }
        requires loads { MayLoad hand.old.view row }
        requires knows { KnowsCell hand.old.view row cell }
        ensures table { IsOf self.now hand.new }
        ensures carried { hand.new.carried ≡ hand.old.carried }
        ensures fields { hand.new.fields ≡ hand.old.fields }
        ensures sees { (word : ℕ) × SeesItem row cell word hand.old.view hand.new.view × (result ≡ row_in word) }
        ensures borrows { (x : ℕ) → result ≡ Some x → hand.old.view.actor.locked ≡ Some row → Borrows hand.new.view x }
        ensures locked { hand.new.view.actor.locked ≡ hand.old.view.actor.locked }
        ensures keeps { KeepsWork hand.old.view hand.new.view }
    {
        let words = self.heap.words();
        words.layout_is_plain();
        words.lines_are_there();
        let word = words.cell_load(hand, row, cell);
        if word == 0 {
            None
        } else {
            Some((word - 1) as u32)
        }
    }

    /// Puts an object into a cell of the list that the hand has locked, or is to finalise as the first of its dying
    /// chain, or empties the cell with `None`. The hand's reference to the new item goes into the cell
    /// (`PyList_SetItem` steals it). Returns what was there: the reference to it is the hand's from then on.
    pub fn swap_item(
        &self,
        hand: &mut Hand<T>,
        row: u32,
        cell: u32,
        item: Option<u32>,
    ) -> Option<u32>
        requires table { IsOf self.now hand.old }
        requires running { IsRunning hand.old.view }
        requires changes { MayChange hand.old.view row }
        requires knows { KnowsCell hand.old.view row cell }
        requires retains { HasNoRetain hand.old.view }
        requires puts { MayPut hand.old.view (word_of item) }
        requires few { length hand.old.view.references < most_references }
        ensures table { IsOf self.now hand.new }
        ensures carried { hand.new.carried ≡ hand.old.carried }
        ensures fields { hand.new.fields ≡ hand.old.fields }
        ensures swaps { (found : ℕ) × SwapsItem row cell (word_of item) found hand.old.view hand.new.view
            × (result ≡ row_in found) }
        ensures locked { hand.new.view.actor.locked ≡ hand.old.view.actor.locked }
        ensures keeps { KeepsBesides hand.old.view hand.new.view }
    {
        let words = self.heap.words();
        words.layout_is_plain();
        words.lines_are_there();
        let new = match item {
            None => 0,
            Some(other) => other as u64 + 1,
        };
        let old = words.cell_swap(hand, row, cell, new);
        if old == 0 {
            None
        } else {
            Some((old - 1) as u32)
        }
    }

    /// Takes the resource of the file or socket that the hand has locked, or finalises just now, out of its field, for
    /// a call of the host. While the resource is lent the hand can't unlock the object; from a dying object it is taken
    /// to be closed.
    pub fn lend(&self, hand: &mut Hand<T>, row: u32) -> T
        requires table { IsOf self.now hand.old }
        requires field { HasField hand.old.view row }
        requires there { FirstField hand.old.fields row 1 }
        ensures table { IsOf self.now hand.new }
        ensures carried { hand.new.carried ≡ hand.old.carried }
        ensures view { hand.new.view ≡ hand.old.view }
        ensures fields { hand.new.fields ≡ (row, 0) ∷ behind_field hand.old.fields }
    {
        self.heap.words().field_take(hand, row)
    }

    /// Puts the lent resource of the file or socket that the hand has locked, or finalises just now, back into its
    /// field.
    pub fn give_back(&self, hand: &mut Hand<T>, row: u32, resource: T)
        requires table { IsOf self.now hand.old }
        requires field { HasField hand.old.view row }
        requires lent { FirstField hand.old.fields row 0 }
        requires whole { hand.old.view.actor.locked ≡ Some row → hand.old.view.in_field ≡ 1 }
        ensures table { IsOf self.now hand.new }
        ensures carried { hand.new.carried ≡ hand.old.carried }
        ensures view { hand.new.view ≡ hand.old.view }
        ensures fields { hand.new.fields ≡ (row, 1) ∷ behind_field hand.old.fields }
    {
        self.heap.words().field_put(hand, row, resource);
    }
}
