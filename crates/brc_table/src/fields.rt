//! What a hand does with the field that it took last: it puts a resource in, or takes it out. No other hand reaches the
//! field meanwhile, so these are plain reads and writes, and no step of the hand.

ghost use Rattle.std.specs.Prelude.{◌≡◌, ◌∷◌};
ghost use Rattle.brc_table.specs.Hands.{IsOf};
ghost use Rattle.brc_table.specs.Uses.{FirstField, behind_field};

use crate::hand::Hand;
use crate::words::Words;

impl<T: Drop> Words<T> {
    /// Puts a resource into the field that the hand took last, which is the row's and empty.
    pub fn field_put(&self, hand: &mut Hand<T>, row: u32, resource: T)
        requires table { IsOf self.now hand.old }
        requires field { FirstField hand.old.fields row 0 }
        ensures table { hand.new.table ≡ hand.old.table }
        ensures carried { hand.new.carried ≡ hand.old.carried }
        ensures view { hand.new.view ≡ hand.old.view }
        ensures fields { hand.new.fields ≡ (row, 1) ∷ behind_field hand.old.fields }
    {
        let place = row as usize;
        let empty = self
            .table
            .shared
            .exchange(&mut hand.seat, place, Some(resource));
        drop(empty);
    }

    /// Takes the resource out of the field that the hand took last, which is the row's.
    pub fn field_take(&self, hand: &mut Hand<T>, row: u32) -> T
        requires table { IsOf self.now hand.old }
        requires field { FirstField hand.old.fields row 1 }
        ensures table { hand.new.table ≡ hand.old.table }
        ensures carried { hand.new.carried ≡ hand.old.carried }
        ensures view { hand.new.view ≡ hand.old.view }
        ensures fields { hand.new.fields ≡ (row, 0) ∷ behind_field hand.old.fields }
    {
        let place = row as usize;
        match self.table.shared.exchange(&mut hand.seat, place, None) {
            Some(resource) => resource,
            None => unreachable!(),
        }
    }
}
