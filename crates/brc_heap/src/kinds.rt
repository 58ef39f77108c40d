//! What an object is (Python/C API manual, Common Object Structures: `Py_TYPE`, and Integer Objects: `PyLong_AsLong`).

ghost use Rattle.std.specs.Prelude.{◌≡◌, ◌<◌, [], ℕ, true};
ghost use Rattle.brc_word.specs.Words.{argument_part};
ghost use Rattle.brc_model.specs.Kinds.{kind_of_word};
ghost use Rattle.brc_table.specs.Views.{view_after, asking};
ghost use Rattle.brc_table.specs.KnownWords.{knows_kind};
ghost use Rattle.brc_table.specs.Hands.{IsOf, IsRunning, MayRead, HasNoWork};
ghost use Rattle.brc_heap.specs.Calls.{Leaves, SeesKind};

use crate::heap::Heap;
use brc_effect::kinds::kind_of_word;
use brc_lang::Kind;
use brc_table::Hand;
use brc_word::kind_argument;

impl<T: Drop> Heap<T> {
    /// Returns the kind of an object to which the hand holds a reference, which it borrows from the list that it has
    /// locked, or which it is to finalise as the first of its dying chain. The kind word that it loads is the one that
    /// the object's birth stored, or had at the start, and the one that the hand has seen before. If the hand has
    /// locked the object, the word says whether the object's field has a resource.
    pub fn kind_of(&self, hand: &mut Hand<T>, row: u32) -> Kind
        requires table { IsOf self.now hand.old }
        requires running { IsRunning hand.old.view }
        requires usable { MayRead hand.old.view row }
        requires idle { HasNoWork hand.old.view row }
        ensures table { IsOf self.now hand.new }
        ensures carried { hand.new.carried ≡ hand.old.carried }
        ensures fields { hand.new.fields ≡ hand.old.fields }
        ensures sees { (word : ℕ) × SeesKind self.now row word hand.old.view hand.new.view
            × (result ≡ kind_of_word word) }
        ensures left { Leaves row [] hand.old.view hand.new.view }
        ensures references { hand.new.view.references ≡ hand.old.view.references }
        ensures head { hand.new.view.actor.head ≡ hand.old.view.actor.head }
    {
        kind_of_word(self.words().kind_load(hand, row))
    }

    /// Returns the argument of an object to which the hand holds a reference, which it borrows from the list that it
    /// has locked, or which it is to finalise as the first of its dying chain: the value of a number, how many cells a
    /// list has, else 0.
    pub fn arg_of(&self, hand: &mut Hand<T>, row: u32) -> u32
        requires table { IsOf self.now hand.old }
        requires running { IsRunning hand.old.view }
        requires usable { MayRead hand.old.view row }
        requires idle { HasNoWork hand.old.view row }
        ensures table { IsOf self.now hand.new }
        ensures carried { hand.new.carried ≡ hand.old.carried }
        ensures fields { hand.new.fields ≡ hand.old.fields }
        ensures sees { (word : ℕ) × SeesKind self.now row word hand.old.view hand.new.view
            × (result ≡ argument_part word) }
        ensures left { Leaves row [] hand.old.view hand.new.view }
        ensures references { hand.new.view.references ≡ hand.old.view.references }
        ensures head { hand.new.view.actor.head ≡ hand.old.view.actor.head }
    {
        kind_argument(self.words().kind_load(hand, row))
    }
}
