//! Files under real threads: the resource of a file is in its field, and a hand that has locked the file lends it.

ghost use Rattle.std.specs.Prelude.{◌≡◌};
ghost use Rattle.brc_table.specs.Views.{worker_view};
ghost use Rattle.brc_fixtures.specs.Modules.{plain_layout};
ghost use Rattle.brc_fixtures.specs.Resting.{IsAlone};

use brc_heap::{Hand, Heap};
use brc_lang::Kind;
use brc_list::Lists;
use std::process::Abort;
use std::test::*;

/// The resource of the file.
const OPENED: u32 = 40;

/// Another resource, which is given back in its place.
const LATER: u32 = 41;

/// Asserts that a file has the resource that was given back.
pub fn files_have_what_was_given_back<R: Abort>(rt: &R, heap: &Heap<u32>, hand: &mut Hand<u32>)
    requires layout { heap.now.layout ≡ plain_layout 1 1 }
    requires view { hand.old.view ≡ worker_view heap.now.layout 1 }
    requires alone { IsAlone heap.now hand.old }
{
    let row = heap.birth(hand, Kind::File, 0, Some(OPENED));
    let lists = Lists::new(heap);
    let locked = lists.try_lock(hand, row);
    assert!(rt; locked);
    let first = lists.lend(hand, row);
    lists.give_back(hand, row, LATER);
    let second = lists.lend(hand, row);
    lists.give_back(hand, row, second);
    lists.unlock(hand, row);
    assert_eq!(rt; [first, second], [OPENED, LATER]);
}
