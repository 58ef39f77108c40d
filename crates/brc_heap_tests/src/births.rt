//! Births, until a hand's block is full, and what becomes of a newborn number that is released.

ghost use Rattle.std.specs.Prelude.{◌≡◌, ◌≢◌, [], ◌∷◌};
ghost use Rattle.brc_model.specs.declared.duty.Duty.TheVariants.{DecideAtZero};
ghost use Rattle.brc_model.specs.Layout.{root_row};
ghost use Rattle.brc_table.specs.Views.{work_about, worker_view};
ghost use Rattle.brc_fixtures.specs.Modules.{plain_layout};
ghost use Rattle.brc_fixtures.specs.Resting.{IsAlone};
ghost use Rattle.brc_heap_tests.specs.Ready.{IsReady};

use crate::calls::retain_and_release;
use brc_fixtures::{hand_of, opened};
use brc_heap::{Hand, Heap, LocalRelease, ZeroStep};
use brc_lang::Kind;
use std::alloc::Global;
use std::process::Abort;
use std::test::*;

/// The value of the numbers that are born.
const VALUE: u32 = 7;

/// The most rows of a worker.
const MOST_ROWS: u16 = 1024;

/// Returns the rows of five births by one of three workers, with room for four.
fn five_births(alloc: Global, thread: u8) -> Result<[Option<u32>; 5], Fail> {
    let (heap, mut main) = opened(alloc, 3, 4)?;
    let mut hand = hand_of(&heap, &mut main, thread)?;
    Ok(born_by(&heap, &mut hand))
}

/// Returns the rows of five births, as far as there is room.
fn born_by(heap: &Heap<u32>, hand: &mut Hand<u32>) -> [Option<u32>; 5]
    requires alone { IsAlone heap.now hand.old }
{
    let mut rows = [None; 5];
    for row in &mut rows {
        if heap.room(hand) {
            *row = Some(heap.birth(hand, Kind::Num, VALUE, None));
        }
    }
    rows
}

/// Returns how many mark words a heap of four workers with these rows has, or `None` if there is no such heap.
fn mark_words(alloc: Global, rows: u16) -> Result<Option<usize>, Fail> {
    if rows == 0 || rows > MOST_ROWS {
        return Ok(None);
    }
    let (heap, _main) = opened::<u32>(alloc, 4, rows)?;
    Ok(Some(heap.words().mark_words()))
}

// Main's block has one mark word, and each worker's block has one for every 64 rows that it begins.
#[test]
fn blocks_have_rows_and_marks(rt: HostRuntime) -> Result<(), Fail> {
    for (thread, first) in [(1, 2), (2, 6), (3, 10)] {
        let rows = five_births(rt.alloc(), thread)?;
        let want = [
            Some(first),
            Some(first + 1),
            Some(first + 2),
            Some(first + 3),
            None,
        ];
        assert_eq!(rt; rows, want, "worker {thread}");
    }
    for (rows, words) in [(64, 5), (65, 9), (130, 13), (1024, 65)] {
        let found = mark_words(rt.alloc(), rows)?;
        assert_eq!(rt; found, Some(words), "{rows} rows");
    }
    Ok(())
}

/// Decides what becomes of an object at zero, at once, or after the root is retained and released meanwhile. Returns
/// `None` if that leaves no reference to the root.
fn decided(heap: &Heap<u32>, hand: &mut Hand<u32>, row: u32, meanwhile: bool) -> Option<ZeroStep>
    requires ready { IsReady heap.now hand.old }
    requires apart { row ≢ root_row }
    requires work { work_about row hand.old.view ≡ DecideAtZero row ∷ [] }
{
    if !meanwhile {
        return Some(heap.zero_step(hand, row));
    }
    match retain_and_release(heap, hand) {
        Some(_) => Some(heap.zero_step(hand, row)),
        None => None,
    }
}

/// Gives birth to a number, and releases it. Returns how its local release ended, and what becomes of it.
fn released(
    heap: &Heap<u32>,
    hand: &mut Hand<u32>,
    meanwhile: bool,
) -> (LocalRelease, Option<ZeroStep>)
    requires layout { heap.now.layout ≡ plain_layout 1 1 }
    requires view { hand.old.view ≡ worker_view heap.now.layout 1 }
    requires alone { IsAlone heap.now hand.old }
{
    let row = heap.birth(hand, Kind::Num, VALUE, None);
    let release = heap.release_local(hand, row);
    match release {
        LocalRelease::Zero => (release, decided(heap, hand, row, meanwhile)),
        _ => (release, None),
    }
}

/// Asserts that a number dies once it is at zero, also if the root is retained and released before.
pub fn numbers_die<R: Abort>(rt: &R, heap: &Heap<u32>, hand: &mut Hand<u32>, meanwhile: bool)
    requires layout { heap.now.layout ≡ plain_layout 1 1 }
    requires view { hand.old.view ≡ worker_view heap.now.layout 1 }
    requires alone { IsAlone heap.now hand.old }
{
    let became = released(heap, hand, meanwhile);
    let want = (LocalRelease::Zero, Some(ZeroStep::Dying));
    assert_eq!(rt; became, want, "the root meanwhile: {meanwhile}");
}
