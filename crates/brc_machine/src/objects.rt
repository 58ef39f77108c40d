//! The objects that a duty's word names or makes.

ghost use Rattle.std.specs.Prelude.{◌≡◌, ◌≤◌, ◌^◌};
ghost use Rattle.brc_machine.specs.Items.{item_in};
ghost use Rattle.brc_machine.specs.Sights.{kind_born};
ghost use Rattle.brc_machine.specs.Storage.{word_in};

use crate::memory::Memory;
use brc_effect::kinds::kind_of_word;
use brc_lang::Kind;
use brc_model::{Address, Duty};
use brc_word::values::EMPTY;

/// Returns the kind of the object that the duty makes, by its kind word, or `None` if the duty is no birth's last one.
pub fn kind_born(memory: &Memory, duty: &Duty) -> Option<Kind>
    ensures { result ≡ kind_born (word_in memory.now) duty.now }
{
    match *duty {
        Duty::BirthLocal { row, .. } => { Some(kind_of_word(memory.read(Address::KindOf { row }))) }
        _ => None,
    }
}

/// Returns the row that a cell's word names, or `None` if the cell is empty.
pub fn item_in(word: u64) -> Option<u32>
    requires { word ≤ 2 ^ 32 }
    ensures { result ≡ item_in word }
{
    if word == EMPTY {
        return None;
    }
    Some((word - 1) as u32)
}
