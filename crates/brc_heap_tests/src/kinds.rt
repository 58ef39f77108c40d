//! What a hand finds out about objects: main of none, and a worker of the root, of none and of what it gives birth to.

ghost use Rattle.std.specs.Prelude.{◌≡◌};
ghost use Rattle.brc_table.specs.Hands.{IsOf, IsRunning, HoldsOne, HasNoWork};
ghost use Rattle.brc_table.specs.Views.{worker_view};
ghost use Rattle.brc_fixtures.specs.Modules.{plain_layout};
ghost use Rattle.brc_fixtures.specs.Resting.{IsAlone};

use crate::calls::{NONE, ROOT};
use brc_heap::{Hand, Heap, LocalRelease};
use brc_lang::Kind;
use brc_list::Lists;
use std::process::Abort;
use std::test::*;

/// Asks for the kind of an object, and for its argument.
fn asked(heap: &Heap<u32>, hand: &mut Hand<u32>, row: u32) -> (Kind, u32)
    requires table { IsOf heap.now hand.old }
    requires running { IsRunning hand.old.view }
    requires held { HoldsOne hand.old.view row }
    requires idle { HasNoWork hand.old.view row }
{
    let kind = heap.kind_of(hand, row);
    (kind, heap.arg_of(hand, row))
}

/// Asserts that a number and a list are what they were born as.
pub fn kinds_are_those_of_births<R: Abort>(
    rt: &R,
    heap: &Heap<u32>,
    one: &mut Hand<u32>,
    other: &mut Hand<u32>,
)
    requires layout { heap.now.layout ≡ plain_layout 2 1 }
    requires one_view { one.old.view ≡ worker_view heap.now.layout 1 }
    requires one { IsAlone heap.now one.old }
    requires other_view { other.old.view ≡ worker_view heap.now.layout 2 }
    requires other { IsAlone heap.now other.old }
{
    let number = heap.birth(one, Kind::Num, 7, None);
    assert_eq!(rt; asked(heap, one, number), (Kind::Num, 7));
    let list = heap.birth(other, Kind::List, 3, None);
    assert_eq!(rt; asked(heap, other, list), (Kind::List, 3));
}

/// Asserts what none and the root are.
pub fn none_and_the_root<R: Abort>(
    rt: &R,
    heap: &Heap<u32>,
    main: &mut Hand<u32>,
    one: &mut Hand<u32>,
    other: &mut Hand<u32>,
)
    requires layout { heap.now.layout ≡ plain_layout 2 1 }
    requires main { IsAlone heap.now main.old }
    requires one { IsAlone heap.now one.old }
    requires other { IsAlone heap.now other.old }
{
    assert_eq!(rt; Lists::new(heap).size(one, NONE), 0);
    assert_eq!(rt; asked(heap, one, NONE), (Kind::None, 0));
    assert_eq!(rt; asked(heap, other, ROOT), (Kind::List, 8));
    heap.retain(main, NONE);
    assert_eq!(rt; heap.release_local(main, NONE), LocalRelease::Skip);
}
