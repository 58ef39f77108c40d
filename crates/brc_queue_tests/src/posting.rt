//! What becomes of an object that a worker posts to its owner, by what the owner does meanwhile.

ghost use Rattle.std.specs.Prelude.{◌≡◌};
ghost use Rattle.brc_table.specs.Hands.{IsOf};
ghost use Rattle.brc_queue_tests.specs.Sharing.{HoldsRoot};

use crate::borrowed::borrowed;
use crate::held_post::{Owner, Posted, Signals, both_go};
use crate::meeting::{Worker, exchanged};
use crate::sharing::{all_closed, leaves, opened};
use brc_heap::{Hand, Heap, MergeStep, SharedRelease};
use brc_host::{FakeHost, FakeResource};
use brc_queue::Looked;
use std::alloc::Global;
use std::sync::Wait;
use std::test::*;
use std::thread::Threads;

/// What the owner and the poster have found, and whether main has left then.
type Found = (Option<u64>, Option<Posted>, bool);

/// Lets the first worker own an object and the second one post it, and main leave.
fn all_go<R: Threads + Wait + Sync>(
    rt: &R,
    heap: &Heap<FakeResource>,
    main: &mut Hand<FakeResource>,
    one: Hand<FakeResource>,
    two: Hand<FakeResource>,
    between: &Signals,
    owner: Owner,
) -> Found
    requires main { HoldsRoot heap.now main.old }
    requires one { HoldsRoot heap.now one }
    requires two { HoldsRoot heap.now two }
    ensures table { IsOf heap.now main.new }
    ensures thread { main.new.view.thread ≡ main.old.view.thread }
{
    let mut host = FakeHost::new(&[]);
    let one = Worker { heap, hand: one };
    let two = Worker { heap, hand: two };
    let (files, posted) = both_go(rt, one, two, between, owner);
    (files, posted, leaves(rt, heap, main, &mut host))
}

/// Plays this over a heap of its own. Returns what was found, and whether all objects are closed at the end.
fn posted<R: Threads + Wait + Sync>(
    rt: &R,
    alloc: Global,
    owner: Owner,
) -> Result<(Found, Option<bool>), Fail> {
    let between = Signals::new(alloc)?;
    let (heap, mut main, one, two) = opened(alloc)?;
    let found = all_go(rt, &heap, &mut main, one, two, &between, owner);
    Ok((found, all_closed(heap, main)))
}

/// What the owner does, how many files it has closed, and how the post went.
const POSTS: [(&str, Owner, u64, Posted); 4] = [
    ("leaves late", Owner::LeavesLate, 0, (Looked::Left, None)),
    (
        "leaves",
        Owner::Leaves,
        0,
        (
            Looked::Claimed,
            Some((MergeStep::Kept, SharedRelease::Dying)),
        ),
    ),
    (
        "leaves the item",
        Owner::LeavesTheItem,
        0,
        (
            Looked::Claimed,
            Some((MergeStep::Kept, SharedRelease::Kept)),
        ),
    ),
    ("stays", Owner::Stays, 1, (Looked::Left, None)),
];

/// A borrowed item is retained; and two workers, in threads of their own, post to each other.
#[test]
fn what_is_shared_is_closed(rt: HostRuntime) -> Result<(), Fail> {
    let alloc = rt.alloc();
    let found = (borrowed(&rt, alloc)?, exchanged(&rt, alloc)?);
    assert_eq!(rt; found, ((true, Some(true)), (true, Some(true))));
    Ok(())
}

/// Objects that are posted die.
#[test]
fn held_post(rt: HostRuntime) -> Result<(), Fail> {
    for (name, owner, files, want) in POSTS {
        let found = posted(&rt, rt.alloc(), owner)?;
        let wanted = ((Some(files), Some(want), true), Some(true));
        assert_eq!(rt; found, wanted, "the owner {name}");
    }
    Ok(())
}
