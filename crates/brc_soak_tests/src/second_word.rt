//! A mark in the second mark word of its owner's block: that of a worker's 65th object, which main gives up.

ghost use Rattle.std.specs.Prelude.{◌≡◌, None, [], ◌∷◌, IfSome, OnSome};
ghost use Rattle.brc_model.specs.Layout.{root_row, IsCounted};
ghost use Rattle.brc_fixtures.specs.Resting.{IsAlone, IsAtRest};

use brc_fixtures::{born, gives_up, hand_of, leaves, locks, looks_through, opened, puts, unlocks};
use brc_heap::{Hand, Heap, ROOT};
use brc_host::{FakeHost, FakeResource, Host};
use brc_lang::{Kind, Mode};
use brc_list::Lists;
use std::alloc::Global;
use std::sync::Wait;
use std::test::*;

/// The rows of the worker's block.
const ROWS: u16 = 65;

/// How many rows have their marks in the first mark word of the block.
const FIRST_WORD: u32 = 64;

/// The row of the worker's last object, the only one whose mark is in the second mark word.
const LAST: u32 = 66;

/// The value of the numbers.
const VALUE: u32 = 7;

/// Uses the rows of the first mark word: gives birth to a number in each, which dies at once. Returns `None` if the
/// block has no room for the numbers, or a close has failed.
#[tactic(auto, using(brc_fixtures::proofs::Resting::holds_first, brc_fixtures::proofs::Resting::without_first))]
fn fills_first_word<R: Wait>(
    rt: &R,
    heap: &Heap<FakeResource>,
    hand: &mut Hand<FakeResource>,
    host: &mut FakeHost<'_>,
) -> Option<()>
    requires resting { IsAtRest heap.now hand.old None }
    requires references { hand.old.view.references ≡ root_row ∷ [] }
    ensures resting { OnSome result (IsAtRest heap.now hand.new None) }
    ensures references { OnSome result (hand.new.view.references ≡ root_row ∷ []) }
{
    for _ in 0..FIRST_WORD {
        let row = born(heap, hand, Kind::Num, VALUE)?;
        if gives_up(rt, heap, hand, host, row) != 0 {
            return None;
        }
    }
    Some(())
}

/// Gives birth to a file of this host. Returns its row, or `None` if the block has no room for it.
#[tactic(auto, using(brc_fixtures::proofs::Resting::rests_after_birth, brc_fixtures::proofs::Resting::some_counted))]
fn file_born(
    heap: &Heap<FakeResource>,
    hand: &mut Hand<FakeResource>,
    host: &mut FakeHost<'_>,
) -> Option<u32>
    requires resting { IsAtRest heap.now hand.old None }
    ensures resting { OnSome result (IsAtRest heap.now hand.new None) }
    ensures counted { IfSome result (λ row. IsCounted heap.now.layout row) }
    ensures references { IfSome result (λ row. hand.new.view.references ≡ row ∷ hand.old.view.references) }
{
    heap.words().layout_is_plain();
    if !heap.room(hand) {
        return None;
    }
    let Ok(resource) = host.open(0, Mode::READ) else {
        return None;
    };
    let row = heap.birth(hand, Kind::File, 0, Some(resource));
    if row == 0 {
        return None;
    }
    Some(row)
}

/// Puts a new file into the root. Returns its row, or `None` if the file isn't there.
#[tactic(auto, using(brc_fixtures::proofs::Resting::holds_first, brc_fixtures::proofs::Resting::holds_second, brc_fixtures::proofs::Resting::keeps_other, brc_fixtures::proofs::Resting::without_first, brc_model::proofs::Basics::Blocks::root_counted))]
fn shares(
    heap: &Heap<FakeResource>,
    hand: &mut Hand<FakeResource>,
    host: &mut FakeHost<'_>,
) -> Option<u32>
    requires resting { IsAtRest heap.now hand.old None }
    requires references { hand.old.view.references ≡ root_row ∷ [] }
    ensures resting { OnSome result (IsAtRest heap.now hand.new None) }
    ensures references { OnSome result (hand.new.view.references ≡ root_row ∷ []) }
{
    let row = file_born(heap, hand, host)?;
    if ROOT == row {
        return None;
    }
    if !locks(heap, hand, ROOT) {
        return None;
    }
    if !puts(heap, hand, ROOT, row) {
        return None;
    }
    unlocks(heap, hand, ROOT);
    Some(row)
}

/// Takes the object out of the root, with the cell's reference. Returns its row, or `None` if the root has none.
#[tactic(auto, using(brc_fixtures::proofs::Resting::holds_first, brc_fixtures::proofs::Resting::holds_second, brc_fixtures::proofs::Resting::some_counted, brc_fixtures::proofs::Resting::lists_one_more, brc_model::proofs::Basics::Blocks::root_counted))]
fn takes(heap: &Heap<FakeResource>, hand: &mut Hand<FakeResource>) -> Option<u32>
    requires resting { IsAtRest heap.now hand.old None }
    requires references { hand.old.view.references ≡ root_row ∷ [] }
    ensures resting { OnSome result (IsAtRest heap.now hand.new None) }
    ensures counted { IfSome result (λ item. IsCounted heap.now.layout item) }
    ensures references { IfSome result (λ item. hand.new.view.references ≡ item ∷ root_row ∷ []) }
{
    heap.words().layout_is_plain();
    if !locks(heap, hand, ROOT) {
        return None;
    }
    let lists = Lists::new(heap);
    if lists.size(hand, ROOT) == 0 {
        return None;
    }
    let item = lists.swap_item(hand, ROOT, 0, None)?;
    if item == 0 {
        return None;
    }
    unlocks(heap, hand, ROOT);
    Some(item)
}

/// Lets the worker share a file whose mark is in the second mark word, and main give the file up, so that it is in the
/// worker's queue. Returns `None` if one of the steps doesn't go so.
#[tactic(auto, using(brc_fixtures::proofs::Resting::holds_first, brc_fixtures::proofs::Resting::without_first))]
fn queues<R: Wait>(
    rt: &R,
    heap: &Heap<FakeResource>,
    main: &mut Hand<FakeResource>,
    hand: &mut Hand<FakeResource>,
    host: &mut FakeHost<'_>,
) -> Option<()>
    requires main { IsAtRest heap.now main.old None }
    requires main_references { main.old.view.references ≡ root_row ∷ [] }
    requires resting { IsAtRest heap.now hand.old None }
    requires references { hand.old.view.references ≡ root_row ∷ [] }
    ensures resting { OnSome result (IsAtRest heap.now hand.new None) }
    ensures references { OnSome result (hand.new.view.references ≡ root_row ∷ []) }
{
    fills_first_word(rt, heap, hand, host)?;
    if shares(heap, hand, host)? != LAST {
        return None;
    }
    let item = takes(heap, main)?;
    if gives_up(rt, heap, main, host, item) != 0 {
        return None;
    }
    Some(())
}

/// Lets the worker merge what is in its queue: when it looks through the queue, or when it leaves. Returns how many
/// files it has closed by then, or `None` if a close has failed.
fn merges<R: Wait>(
    rt: &R,
    heap: &Heap<FakeResource>,
    hand: &mut Hand<FakeResource>,
    host: &mut FakeHost<'_>,
    leaving: bool,
) -> Option<u64>
    requires resting { IsAtRest heap.now hand.old None }
    requires references { hand.old.view.references ≡ root_row ∷ [] }
{
    let failed = if leaving {
        leaves(rt, heap, hand, host)?
    } else {
        looks_through(rt, heap, hand, host)?
    };
    if failed != 0 {
        return None;
    }
    Some(host.closed())
}

/// Returns how many files are closed once the file is in the worker's queue, and once the worker has merged it.
#[tactic(auto, using(brc_fixtures::proofs::Alone::alone_rests))]
fn closed<R: Wait>(
    rt: &R,
    heap: &Heap<FakeResource>,
    main: &mut Hand<FakeResource>,
    hand: &mut Hand<FakeResource>,
    leaving: bool,
) -> Option<[u64; 2]>
    requires main { IsAlone heap.now main.old }
    requires alone { IsAlone heap.now hand.old }
{
    let mut host = FakeHost::new(&[]);
    queues(rt, heap, main, hand, &mut host)?;
    let before = host.closed();
    let after = merges(rt, heap, hand, &mut host, leaving)?;
    Some([before, after])
}

/// Opens a heap whose worker has a second mark word, and returns how many files are closed, as `closed` does.
pub fn closes<R: Wait>(rt: &R, alloc: Global, leaving: bool) -> Result<Option<[u64; 2]>, Fail> {
    let (heap, mut main) = opened(alloc, 1, ROWS)?;
    let mut hand = hand_of(&heap, &mut main, 1)?;
    Ok(closed(rt, &heap, &mut main, &mut hand, leaving))
}
