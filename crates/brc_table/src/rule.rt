//! The table's rule, and what each step makes of the hand that takes it.

ghost use Rattle.std.specs.Prelude.{ℕ, List, []};
ghost use Rattle.brc_table.specs.declared.view.View.{View};

use crate::plan::Plan;
use crate::view::View;
use atomic_table::{Play, TableRule};
use std::marker::{Brand, PhantomData};

/// The rule of biased reference counting: words and views are those of a counting machine with the invariant, and a
/// row's field is with the one hand that uses it, or at home with the resource of the row's object.
pub struct Counting;

impl<T> TableRule<Option<T>, View, Plan> for Counting {
    ghost use Rattle.brc_table.specs.Homes.{TableStands};
    ghost use Rattle.brc_table.specs.Views.{main_view};

    ghost holds = { λ plan s. TableStands plan s.words s.homes s.views };

    ghost first = { λ plan. main_view plan.layout };
}

/// What the hand begins with, before it does its first duty, and the lines of the table's immortal lists.
pub(crate) trait Begins {
    ghost begins: { View → View };

    ghost lines: { List (List ℕ) };
}

impl Begins for Brand {
    ghost begins = { λ v. v };

    ghost lines = { [] };
}

/// Which cell a swap is of, and which word it stores.
pub(crate) trait Swap {
    ghost list: { ℕ };

    ghost cell: { ℕ };

    ghost item: { ℕ };
}

impl Swap for Brand {
    ghost list = { 0 };

    ghost cell = { 0 };

    ghost item = { 0 };
}

/// A swap of a cell.
pub(crate) struct Swapped<B> {
    marker: PhantomData<B>,
}

impl<S, B: Swap> Play<S, View> for Swapped<B> {
    ghost use Rattle.brc_table.specs.Swaps.{Swaps};

    ghost then = { λ s me found after. Swaps B.list B.cell B.item me found after };
}

/// A step of any duty.
pub(crate) struct Stepped<B> {
    marker: PhantomData<B>,
}

impl<T, B: Begins> Play<Option<T>, View> for Stepped<B> {
    ghost use Rattle.brc_table.specs.DutySteps.{StepsBy};

    ghost then = { λ s me found after. StepsBy B.lines B.begins me found after };
}

/// A step of any duty that is a store.
pub(crate) struct SteppedStored<B> {
    marker: PhantomData<B>,
}

impl<T, B: Begins> Play<Option<T>, View> for SteppedStored<B> {
    ghost use Rattle.brc_table.specs.DutySteps.{StepsStored};

    ghost then = { λ s me stored after. StepsStored B.lines B.begins me after };
}

/// Which row a hand tries to lock.
pub(crate) trait OfRow {
    ghost target: { ℕ };
}

impl OfRow for Brand {
    ghost target = { 0 };
}

/// A try to lock a row.
pub(crate) struct Locked<R> {
    marker: PhantomData<R>,
}

impl<T, R: OfRow> Play<Option<T>, View> for Locked<R> {
    ghost use Rattle.brc_table.specs.Uses.{Locks};

    ghost then = { λ s me found after. Locks R.target me found after };
}
