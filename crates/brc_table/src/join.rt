//! A hand joins another one, whose thread is gone.

ghost use Rattle.std.specs.Prelude.{◌≡◌, []};
ghost use Rattle.brc_model.specs.declared.actor.Status.TheVariants.{Gone};
ghost use Rattle.brc_table.specs.declared.view.View.{View};
ghost use Rattle.brc_table.specs.Hands.{IsOf, KeepsButView};
ghost use Rattle.brc_table.specs.Joining.{joining};

use crate::hand::Hand;
use crate::view::View;
use crate::words::Words;
use atomic_table::Join;
use std::marker::{Brand, PhantomData};

/// The hand that is joined.
pub(crate) trait Ended {
    ghost view: { View };
}

impl Ended for Brand {
    ghost use Rattle.brc_model.specs.Limits.{root_cells};
    ghost use Rattle.brc_table.specs.Views.{main_view};

    ghost view = { main_view (record { workers = 1; rows = 1; cells = root_cells; immortal_lists = 0; numbers = 0 }) };
}

/// How a hand joins another one: of this the table keeps the view, and no hand has it any more.
pub(crate) struct Joins<E> {
    marker: PhantomData<E>,
}

impl<E: Ended> Join<View> for Joins<E> {
    ghost both = { λ v gone. joining v gone };

    ghost spent = { E.view };
}

impl<T: Drop> Words<T> {
    /// Joins a hand whose thread is gone, and which has taken no field: the other hand keeps what is known of that
    /// thread, and counts what that thread has counted. No word changes.
    pub fn join(&self, hand: &mut Hand<T>, gone: Hand<T>)
        requires table { IsOf self.now hand.old }
        requires other_table { IsOf self.now gone }
        requires gone { gone.view.actor.status ≡ Gone }
        requires no_field { gone.fields ≡ [] }
        ensures kept { KeepsButView hand.old hand.new }
        ensures view { hand.new.view ≡ joining hand.old.view gone.view }
    {
        self.take_in::<Brand>(hand, gone);
    }

    /// Does the same with the hand that the type names.
    fn take_in<E: Ended>(&self, hand: &mut Hand<T>, gone: Hand<T>)
        requires view { gone.view ≡ E.view }
        requires table { IsOf self.now hand.old }
        requires other_table { IsOf self.now gone }
        requires gone { gone.view.actor.status ≡ Gone }
        requires no_field { gone.fields ≡ [] }
        ensures kept { KeepsButView hand.old hand.new }
        ensures view { hand.new.view ≡ joining hand.old.view gone.view }
    {
        let Hand {
            seat,
            thread: _,
            running: _,
            head: _,
            used: _,
            spares,
            carried,
            contention,
        } = gone;
        drop(spares);
        drop(carried);
        hand.count(contention.get());
        self.table
            .shared
            .join_seat::<Joins<E>>(&mut hand.seat, seat);
    }
}
