//! Births of objects.

ghost use Rattle.std.specs.Prelude.{◌≡◌, ◌<◌, ◌≤◌, true, ℕ};
ghost use Rattle.brc_word.specs.Words.{kind_part};
ghost use Rattle.brc_model.specs.Duties.{cells_of, resources_of};
ghost use Rattle.brc_model.specs.Kinds.{kind_number, kind_of_word, is_counted_kind};
ghost use Rattle.brc_model.specs.Layout.{IsCounted};
ghost use Rattle.brc_model.specs.Machine.{has_room};
ghost use Rattle.brc_table.specs.Homes.{resources};
ghost use Rattle.brc_table.specs.Views.{next_row};
ghost use Rattle.brc_table.specs.KnownWords.{knows_kind};
ghost use Rattle.brc_table.specs.Hands.{IsOf, IsRunning, KeepsButView};
ghost use Rattle.brc_heap.specs.Calls.{kind_word, IsBornWith, born, HasBorn};

use crate::heap::Heap;
use brc_effect::kinds::kind_number;
use brc_lang::Kind;
use brc_table::Hand;
use brc_word::kind_word;

impl<T: Drop> Heap<T> {
    /// Gives birth to an object: a number of value `arg`, a list of `arg` empty cells (at most as many as the layout
    /// allows), or a file or a socket with its resource (`arg` is 0). Returns its row, the next of the hand's block.
    /// The hand holds its only reference, which is local.
    pub fn birth(&self, hand: &mut Hand<T>, kind: Kind, arg: u32, resource: Option<T>) -> u32
        requires table { IsOf self.now hand.old }
        requires running { IsRunning hand.old.view }
        requires room { has_room hand.old.view.layout hand.old.view.thread hand.old.view.actor.used ≡ true }
        requires kind { IsBornWith hand.old.view.layout.cells kind arg }
        requires resource { resources resource ≡ resources_of (kind_word kind arg) }
        ensures row { result ≡ next_row hand.old.view }
        ensures counted { IsCounted hand.old.view.layout result }
        ensures known { kind_part (kind_word kind arg) ≡ kind_number kind }
        ensures table { IsOf self.now hand.new }
        ensures carried { hand.new.carried ≡ hand.old.carried }
        ensures fields { hand.new.fields ≡ hand.old.fields }
        ensures events { hand.new.view ≡ born hand.old.view (kind_word kind arg) }
        ensures born { HasBorn hand.old.view hand.new.view }
        ensures seen { knows_kind result (kind_word kind arg) hand.new.view ≡ true }
    {
        hand.rows_are_there();
        let word = kind_word(kind_number(kind), arg);
        self.birth_steps(hand, word, resource)
    }

    /// Makes the steps of `birth`.
    fn birth_steps(&self, hand: &mut Hand<T>, word: u64, resource: Option<T>) -> u32
        requires table { IsOf self.now hand.old }
        requires running { IsRunning hand.old.view }
        requires room { has_room hand.old.view.layout hand.old.view.thread hand.old.view.actor.used ≡ true }
        requires kind { is_counted_kind (kind_of_word word) ≡ true }
        requires cells { cells_of word ≤ hand.old.view.layout.cells }
        requires some { 0 < word }
        requires resource { resources resource ≡ resources_of word }
        ensures row { result ≡ next_row hand.old.view }
        ensures kept { KeepsButView hand.old hand.new }
        ensures view { hand.new.view ≡ born hand.old.view word }
    {
        hand.rows_are_there();
        let words = self.words();
        let row = words.kind_store(hand, word);
        if let Some(resource) = resource {
            words.field_put(hand, row, resource);
        }
        words.first_local_store(hand, row);
        row
    }
}
