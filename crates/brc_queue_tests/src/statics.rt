//! Two threads take numbers out of a static list under its lock, and each puts a file of its own in. Both files stay
//! open, each with its own resource.

ghost use Rattle.std.specs.Prelude.{◌≡◌, ◌≢◌, true, None, Some, OnOk, IfOk, IfSome};
ghost use Rattle.brc_model.specs.Layout.{is_immortal_row};
ghost use Rattle.brc_table.specs.Hands.{IsOf};
ghost use Rattle.brc_queue_tests.specs.Embedded.{Holds, holds-prop};
ghost use Rattle.brc_queue_tests.specs.Modules.{static_layout};

use crate::embedded::{leave, release};
use crate::modules::static_module;
use crate::no_files::NoFiles;
use brc_heap::{Final, Hand, Heap, ROOT, Taken};
use brc_lang::Kind;
use brc_list::Lists;
use std::alloc::Global;
use std::sync::Wait;
use std::test::*;
use std::thread;
use std::thread::Threads;

/// The resources of the two files.
const FILES: [u32; 2] = [71, 72];

/// The first static list: two workers with four rows each come before it.
const LIST: u32 = 10;

/// The second static list. The numbers of the lists come after it.
const OTHER: u32 = 11;

/// The rows in all.
const ROWS: u32 = 15;

/// A hand, which a thread takes with it.
#[derive(Drop)]
struct Worker<'a> {
    heap: &'a Heap<u32>,
    hand: Hand<u32>,
    ghost lists: { heap.now.layout ≡ static_layout },
    ghost holds: { Holds heap.now hand None } by { holds-prop heap.now hand None },
    ghost apart: { hand.view.thread ≢ 0 },
}

/// Starts the thread and gives out its hand.
fn starts<'a>(heap: &'a Heap<u32>, main: &mut Hand<u32>, thread: u8) -> Result<Worker<'a>, Taken>
    requires lists { heap.now.layout ≡ static_layout }
    requires thread { thread ≢ 0 }
    requires main { main.old.view.thread ≡ 0 }
    requires holds { Holds heap.now main.old None }
    ensures main { OnOk result (main.new.view.thread ≡ 0) }
    ensures holds { OnOk result (Holds heap.now main.new None) }
{
    let hand = heap.hand_out(main, thread)?;
    Ok(Worker { heap, hand })
}

/// Tries once to put the item into the cell. Returns what was there, or `None` if another thread has locked the list.
#[tactic(auto, using(crate::proofs::StaticLists::holds_list, crate::proofs::StaticLists::may_put_there))]
fn try_swap(
    heap: &Heap<u32>,
    hand: &mut Hand<u32>,
    list: u32,
    cell: u32,
    item: Option<u32>,
) -> Option<Option<u32>>
    requires immortal { is_immortal_row heap.now.layout list ≡ true }
    requires holds { Holds heap.now hand.old item }
    ensures busy { result ≡ None → Holds heap.now hand.new item }
    ensures swapped { IfSome result (λ found. Holds heap.now hand.new found) }
{
    let lists = Lists::new(heap);
    if lists.size(hand, list) <= cell || !lists.try_lock(hand, list) {
        return None;
    }
    let found = lists.swap_item(hand, list, cell, item);
    lists.unlock(hand, list);
    Some(found)
}

/// Puts the item into the cell, and waits while another thread has locked the list. Returns what was there.
fn swap<R: Wait>(
    rt: &R,
    heap: &Heap<u32>,
    hand: &mut Hand<u32>,
    list: u32,
    cell: u32,
    item: Option<u32>,
) -> Option<u32>
    requires immortal { is_immortal_row heap.now.layout list ≡ true }
    requires holds { Holds heap.now hand.old item }
    ensures holds { Holds heap.now hand.new result }
{
    for _ in rt.forever() {
        if let Some(found) = try_swap(heap, hand, list, cell, item) {
            return found;
        }
    }
    unreachable!()
}

/// Gives birth to a file with the resource. Returns its row, or `None` if the hand's block is full.
fn bear(heap: &Heap<u32>, hand: &mut Hand<u32>, resource: u32) -> Option<u32>
    requires holds { Holds heap.now hand.old None }
    ensures holds { Holds heap.now hand.new result }
{
    if heap.room(hand) {
        Some(heap.birth(hand, Kind::File, 0, Some(resource)))
    } else {
        None
    }
}

/// A thread: puts a file of its own in the place of the number in the cell, and gives that up.
fn puts<R: Wait>(rt: &R, worker: Worker<'_>, cell: u32, resource: u32) {
    let Worker { heap, mut hand } = worker;
    let mut host = NoFiles::new();
    let item = bear(heap, &mut hand, resource);
    if let Some(row) = swap(rt, heap, &mut hand, LIST, cell, item) {
        release(rt, heap, &mut hand, &mut host, row);
    }
    leave(rt, heap, &mut hand, &mut host);
}

/// Runs the two threads until both have left.
fn run<R: Threads + Wait + Sync>(rt: &R, one: Worker<'_>, two: Worker<'_>) {
    thread::join(
        rt,
        move || puts(rt, one, 0, FILES[0]),
        move || puts(rt, two, 1, FILES[1]),
    );
}

/// What the ended heap says: how many objects it has but for none, how many of them are immortal, and how many are
/// closed; the items of the first list, those of the second one, which has one cell, and what the fields of the first
/// list's items have.
type Seen = ([u32; 3], [[Option<u32>; 2]; 3]);

/// Returns the resource of the object in the row, if there is one.
fn resource_of(end: &Final<u32>, row: Option<u32>) -> Option<u32> {
    let row = row?;
    if row < end.rows() {
        end.slot(row).copied()
    } else {
        None
    }
}

/// Returns how many objects the ended heap has but for none, how many of them are immortal, and how many are closed.
fn counts(end: &Final<u32>) -> [u32; 3] {
    let mut objects: u32 = 0;
    let mut immortal: u32 = 0;
    let mut closed: u32 = 0;
    for row in ROOT..end.rows() {
        objects = objects.saturating_add(u32::from(end.born(row)));
        immortal = immortal.saturating_add(u32::from(end.is_immortal(row)));
        closed = closed.saturating_add(u32::from(end.closed(row)));
    }
    [objects, immortal, closed]
}

/// Reads what the ended heap says, or returns `None` if it hasn't these rows.
fn read(end: &Final<u32>) -> Option<Seen> {
    if end.rows() != ROWS {
        return None;
    }
    let first = [end.cell(LIST, 0), end.cell(LIST, 1)];
    let second = [end.cell(OTHER, 0), end.cell(OTHER, 64)];
    let fields = [resource_of(end, first[0]), resource_of(end, first[1])];
    Some((counts(end), [first, second, fields]))
}

/// Ends the heap. Returns what it says, or `None` if a thread hasn't left.
fn ended(heap: Heap<u32>, main: Hand<u32>) -> Option<Seen>
    requires table { IsOf heap main }
    requires main { main.view.thread ≡ 0 }
{
    let Ok(end) = heap.finish(main) else {
        return None;
    };
    read(&end)
}

/// Returns a heap with the two static lists for two workers with four rows each, and main's hand.
#[tactic(auto, using(crate::proofs::StaticLists::has_static_lines))]
fn opened(alloc: Global) -> Result<(Heap<u32>, Hand<u32>), Fail>
    ensures lists { IfOk result (λ made. made.0.layout ≡ static_layout) }
    ensures main { IfOk result (λ made. made.1.view.thread ≡ 0) }
    ensures holds { IfOk result (λ made. Holds made.0 made.1 None) }
{
    let with_lists = static_module(alloc)?;
    Ok(Heap::new(alloc, 2, 4, &with_lists)?)
}

/// Lets both threads put their files into the list, and then main leave.
fn both_put<R: Threads + Wait + Sync>(
    rt: &R,
    heap: &Heap<u32>,
    main: &mut Hand<u32>,
) -> Result<(), Fail>
    requires lists { heap.now.layout ≡ static_layout }
    requires main { main.old.view.thread ≡ 0 }
    requires holds { Holds heap.now main.old None }
    ensures table { OnOk result (IsOf heap.now main.new) }
    ensures main { OnOk result (main.new.view.thread ≡ 0) }
{
    let one = starts(heap, main, 1)?;
    let two = starts(heap, main, 2)?;
    run(rt, one, two);
    leave(rt, heap, main, &mut NoFiles::new());
    Ok(())
}

/// Plays this over a heap of its own. Returns what the ended heap says, or `None` if a thread hasn't left.
fn changed<R: Threads + Wait + Sync>(rt: &R, alloc: Global) -> Result<Option<Seen>, Fail> {
    let (heap, mut main) = opened(alloc)?;
    both_put(rt, &heap, &mut main)?;
    Ok(ended(heap, main))
}

#[test]
fn threads_change_a_static_list(rt: HostRuntime) -> Result<(), Fail> {
    // The root, the two lists, their three numbers, and the threads' files. The root and the two numbers that the
    // threads took are closed.
    let want = (
        [8, 2, 3],
        [
            [Some(2), Some(6)],
            [Some(14), None],
            [Some(FILES[0]), Some(FILES[1])],
        ],
    );
    assert_eq!(rt; changed(&rt, rt.alloc())?, Some(want));
    Ok(())
}
