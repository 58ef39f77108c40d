//! Putting the root into main's queue, and looking after it: the poster does, or main when it looks through its queue.

ghost use Rattle.std.specs.Prelude.{◌≡◌, [], ◌∷◌, true};
ghost use Rattle.brc_model.specs.declared.duty.Duty.TheVariants.{SetMark, Look};
ghost use Rattle.brc_model.specs.Layout.{root_row};
ghost use Rattle.brc_table.specs.Views.{work_about};
ghost use Rattle.brc_table.specs.Hands.{IsOf, CarriesNothing};
ghost use Rattle.brc_table.specs.Calls.{CanAct};
ghost use Rattle.brc_fixtures.specs.Resting.{IsAlone};

use crate::calls::{ROOT, retain_and_release};
use brc_heap::{Hand, Heap, LocalRelease, MergeStep, SharedRelease, Work};
use brc_model::{Duty, Reason};
use brc_queue::{Looked, Queue};
use brc_word::{Phase, Shared, local_count, pack};
use std::process::Abort;
use std::test::*;

/// The word of a running thread.
const RUNNING: u64 = 1;

/// The mark of an object that is in its owner's queue.
const QUEUED: u64 = 1;

/// Gives up the root as a worker. Returns whether the reference is to go into main's queue.
fn hands_over(heap: &Heap<u32>, hand: &mut Hand<u32>) -> bool
    requires alone { IsAlone heap.now hand.old }
    ensures table { IsOf heap.now hand.new }
    ensures acts { result ≡ true → CanAct hand.new.view }
    ensures duty { result ≡ true → work_about root_row hand.new.view ≡ SetMark root_row ∷ [] }
    ensures carried { hand.new.carried ≡ hand.old.carried }
{
    match heap.release_local(hand, ROOT) {
        LocalRelease::Share => match heap.try_release_shared(hand, ROOT) {
            SharedRelease::Queued => true,
            _ => false,
        },
        _ => false,
    }
}

/// Sets the mark of the root, which a release has queued. Returns what main's thread word says.
fn marked(heap: &Heap<u32>, hand: &mut Hand<u32>) -> u64
    requires table { IsOf heap.now hand.old }
    requires acts { CanAct hand.old.view }
    requires duty { work_about root_row hand.old.view ≡ SetMark root_row ∷ [] }
{
    let words = heap.words();
    words.go_on(hand, Work::Aside, Duty::SetMark { row: ROOT });
    words.go_on(hand, Work::Aside, Duty::Look { row: ROOT })
}

/// Gives up main's reference to the root, and says that main leaves. Returns whether main has done so.
fn leaves(heap: &Heap<u32>, main: &mut Hand<u32>) -> bool
    requires alone { IsAlone heap.now main.old }
{
    if heap.release_local(main, ROOT) != LocalRelease::Kept {
        return false;
    }
    if main.head() != 0 {
        return false;
    }
    heap.words().thread_leave(main);
    true
}

/// Looks after the root, whose mark the hand has set, and gives the handed reference up if it has to. Returns how that
/// ended.
fn claims(heap: &Heap<u32>, hand: &mut Hand<u32>) -> Option<SharedRelease>
    requires table { IsOf heap.now hand.old }
    requires acts { CanAct hand.old.view }
    requires duty { work_about root_row hand.old.view ≡ Look root_row ∷ [] }
    requires carries { CarriesNothing hand.old }
{
    match Queue::new(heap).look(hand, ROOT) {
        Looked::Left => None,
        Looked::Claimed => match heap.merge_step(hand, ROOT) {
            MergeStep::Kept => Some(heap.try_release_shared(hand, ROOT)),
            _ => None,
        },
    }
}

/// A worker hands the root over, main leaves between the worker's mark and its look, and the worker looks. Returns what
/// becomes of the root.
fn between_mark_and_look(
    heap: &Heap<u32>,
    main: &mut Hand<u32>,
    hand: &mut Hand<u32>,
) -> Option<SharedRelease>
    requires alone { IsAlone heap.now main.old }
    requires worker { IsAlone heap.now hand.old }
    requires carries { CarriesNothing hand.old }
{
    if !hands_over(heap, hand) {
        return None;
    }
    Queue::new(heap).mark(hand, ROOT);
    if leaves(heap, main) {
        claims(heap, hand)
    } else {
        None
    }
}

/// Takes the root out of main's queue, merges it, and gives the handed reference up. Returns the local count that was
/// merged, and the shared words that the merge and the release found; or `None` if the root isn't in the queue, or
/// another thread came between.
fn merges_own(heap: &Heap<u32>, main: &mut Hand<u32>) -> Option<(u32, u64, u64)>
    requires alone { IsAlone heap.now main.old }
    requires main { main.old.view.thread ≡ 0 }
{
    let words = heap.words();
    words.layout_is_plain();
    let found = words.mark_claim(main, ROOT);
    if words.mark(ROOT, found) != QUEUED {
        return None;
    }
    let (row, reason) = (ROOT, Reason::Handed);
    let local = words.step(main, Duty::MergeSwap { row, reason });
    if local == 0 {
        return None;
    }
    let carried = local_count(local);
    let load = Duty::MergeLoad {
        row,
        carried,
        reason,
    };
    let queued = words.step(main, load);
    let exchange = Duty::MergeExchange {
        row,
        carried,
        word: queued,
        reason,
    };
    if words.step(main, exchange) != queued {
        return None;
    }
    let left = words.step(main, Duty::SharedLoad { row, reason });
    let exchange = Duty::SharedExchange {
        row,
        reason,
        word: left,
    };
    if words.step(main, exchange) != left {
        return None;
    }
    Some((carried, queued, left))
}

/// Asserts that main runs when the root is put into its queue.
pub fn main_runs_when_the_root_is_queued<R: Abort>(
    rt: &R,
    heap: &Heap<u32>,
    main: &mut Hand<u32>,
    one: &mut Hand<u32>,
    other: &mut Hand<u32>,
)
    requires main { IsAlone heap.now main.old }
    requires one { IsAlone heap.now one.old }
    requires other { IsAlone heap.now other.old }
{
    let own = retain_and_release(heap, main);
    let shared = retain_and_release(heap, one);
    assert_eq!(rt; own, Some(LocalRelease::Kept));
    assert_eq!(rt; shared, Some(LocalRelease::Share));
    let over = hands_over(heap, other);
    assert!(rt; over);
    assert_eq!(rt; marked(heap, other), RUNNING);
}

/// Asserts what the owner finds when it merges the root, which a worker has put into its queue.
pub fn owners_merge_what_is_in_their_queues<R: Abort>(
    rt: &R,
    heap: &Heap<u32>,
    main: &mut Hand<u32>,
    hand: &mut Hand<u32>,
)
    requires main { IsAlone heap.now main.old }
    requires thread { main.old.view.thread ≡ 0 }
    requires hand { IsAlone heap.now hand.old }
{
    let over = hands_over(heap, hand);
    assert!(rt; over);
    assert_eq!(rt; Queue::new(heap).post(hand, ROOT), Looked::Left);
    let queued = pack(Shared {
        count: 0,
        phase: Phase::Queued,
    });
    let merged = pack(Shared {
        count: 2,
        phase: Phase::Merged,
    });
    assert_eq!(rt; merges_own(heap, main), Some((2, queued, merged)));
}

/// Asserts that the root dies by a worker that merges it for main, which leaves meanwhile.
pub fn posters_merge_for_a_leaving_owner<R: Abort>(
    rt: &R,
    heap: &Heap<u32>,
    main: &mut Hand<u32>,
    hand: &mut Hand<u32>,
)
    requires main { IsAlone heap.now main.old }
    requires hand { IsAlone heap.now hand.old }
    requires carries { CarriesNothing hand.old }
{
    let became = between_mark_and_look(heap, main, hand);
    assert_eq!(rt; became, Some(SharedRelease::Dying));
}
