//! Hands that are given out once each.

ghost use Rattle.std.specs.Prelude.{◌≡◌, true};
ghost use Rattle.brc_table.specs.Hands.{IsOf};
ghost use Rattle.brc_fixtures.specs.Modules.{plain_layout};
ghost use Rattle.brc_fixtures.specs.Resting.{IsAlone};

use crate::calls::{ROOT, retain_and_release};
use brc_fixtures::{hand_of, opened};
use brc_heap::{Hand, Heap, LocalRelease};
use brc_word::{kind_argument, kind_number};
use std::alloc::Global;
use std::process::Abort;
use std::test::*;

/// The number of the kind list.
const LIST: u32 = 3;

/// The cells of the root.
const CELLS: u32 = 8;

/// Asks for the worker's hand. Returns whether it is refused; main's hand is then as before.
fn refuses(heap: &Heap<u32>, main: &mut Hand<u32>, thread: u8) -> bool
    requires alone { IsAlone heap.now main.old }
    requires main { main.old.view.thread ≡ 0 }
    ensures same { result ≡ true → main.new ≡ main.old }
{
    hand_of(heap, main, thread).is_err()
}

/// Asserts that main, worker 1, which has its hand, and worker 3 of two are refused a hand.
fn others_are_refused<R: Abort>(rt: &R, heap: &Heap<u32>, main: &mut Hand<u32>)
    requires alone { IsAlone heap.now main.old }
    requires main { main.old.view.thread ≡ 0 }
    ensures alone { IsAlone heap.now main.new }
    ensures main { main.new.view.thread ≡ 0 }
{
    assert!(rt; refuses(heap, main, 0));
    assert!(rt; refuses(heap, main, 1));
    assert!(rt; refuses(heap, main, 3));
}

/// Asserts that each hand is given out once.
pub fn hands_are_taken<R: Abort>(rt: &R, alloc: Global) -> Result<(), Fail> {
    let (heap, mut main) = opened(alloc, 2, 1)?;
    let _hand = hand_of(&heap, &mut main, 1)?;
    others_are_refused(rt, &heap, &mut main);
    let _other = hand_of(&heap, &mut main, 2)?;
    let kept = retain_and_release(&heap, &mut main);
    assert_eq!(rt; kept, Some(LocalRelease::Kept));
    Ok(())
}

/// Tries to end the heap. Returns whether worker 1 has its hand, or `None` if the heap ends.
fn is_given_one(heap: Heap<u32>, main: Hand<u32>) -> Option<bool>
    requires table { IsOf heap main }
    requires main { main.view.thread ≡ 0 }
{
    match heap.finish(main) {
        Ok(_) => None,
        Err(back) => Some(back.main.has_given(1)),
    }
}

/// Asserts that a heap doesn't end while main runs, after a worker's hand was given out and dropped.
pub fn running_threads_keep_the_heap<R: Abort>(rt: &R, alloc: Global) -> Result<(), Fail> {
    let (heap, mut main) = opened(alloc, 2, 1)?;
    drop(hand_of(&heap, &mut main, 1)?);
    assert_eq!(rt; is_given_one(heap, main), Some(true));
    Ok(())
}

/// Returns the second row of main's block, or `None` if main hasn't used it.
fn second_row(heap: &Heap<u32>, main: &Hand<u32>) -> Option<u32>
    requires table { IsOf heap.now main.now }
{
    if main.used() > 1 {
        Some(heap.words().own_row(main, 1))
    } else {
        None
    }
}

/// Asserts what main finds out before a hand is given out.
fn main_finds<R: Abort>(rt: &R, heap: &Heap<u32>, main: &mut Hand<u32>)
    requires layout { heap.now.layout ≡ plain_layout 2 1 }
    requires alone { IsAlone heap.now main.old }
    requires main { main.old.view.thread ≡ 0 }
    ensures table { IsOf heap.now main.new }
    ensures main { main.new.view.thread ≡ 0 }
{
    let word = heap.words().kind_load(main, ROOT);
    assert_eq!(rt; kind_number(word), LIST);
    assert_eq!(rt; kind_argument(word), CELLS);
    assert_eq!(rt; main.head(), 0);
    assert_eq!(rt; second_row(heap, main), Some(ROOT));
    assert_eq!(rt; heap.words().mark_claim(main, ROOT), 0);
}

/// Asserts what main finds out before a hand is given out, and that the heap doesn't end.
pub fn main_at_first<R: Abort>(rt: &R, alloc: Global) -> Result<(), Fail> {
    let (heap, mut main) = opened(alloc, 2, 1)?;
    main_finds(rt, &heap, &mut main);
    assert_eq!(rt; is_given_one(heap, main), Some(false));
    Ok(())
}

// Under `rt try --test --fail-alloc N` the Nth allocation fails. A heap of 32 workers makes 37: for its first words,
// the list of spares, what each of 33 hands carries, and the words and fields of its table.
#[test]
fn no_memory(rt: HostRuntime) -> Result<(), Fail> {
    match opened::<u32>(rt.alloc(), 32, 1024) {
        Ok((heap, main)) => assert_eq!(rt; heap.words().workers(), 32),
        Err(error) => assert_eq!(rt; format!(in rt.alloc(); "{error}")?.as_str(), "no memory"),
    }
    Ok(())
}
