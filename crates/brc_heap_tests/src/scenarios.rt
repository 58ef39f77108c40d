//! The calls of one worker and of two, each scenario over a heap of its own.

ghost use Rattle.std.specs.Prelude.{◌≡◌};
ghost use Rattle.brc_table.specs.Hands.{CarriesNothing};
ghost use Rattle.brc_table.specs.Views.{worker_view};
ghost use Rattle.brc_fixtures.specs.Modules.{plain_layout};
ghost use Rattle.brc_fixtures.specs.Resting.{IsAlone};

use crate::births::numbers_die;
use crate::files::files_have_what_was_given_back;
use crate::hands::{hands_are_taken, main_at_first, running_threads_keep_the_heap};
use crate::kinds::{kinds_are_those_of_births, none_and_the_root};
use crate::lists::{borrowed_numbers_have_their_values, locked_lists_have_their_items};
use crate::queue::{
    main_runs_when_the_root_is_queued, owners_merge_what_is_in_their_queues,
    posters_merge_for_a_leaving_owner,
};
use brc_fixtures::{hand_of, opened};
use brc_heap::{Hand, Heap};
use std::alloc::Global;
use std::process::Abort;
use std::test::*;

/// What main and a worker do.
#[derive(Clone, Copy)]
enum OneWorker {
    NumberDies,
    NumberDiesLater,
    FileIsLent,
    NumberIsBorrowed,
    OwnerMerges,
    PosterMerges,
}

/// What main and two workers do.
#[derive(Clone, Copy)]
enum TwoWorkers {
    AreBorn,
    AskForRoot,
    LockLists,
    QueueRoot,
}

/// Plays a scenario of one worker.
fn plays_one<R: Abort>(
    rt: &R,
    heap: &Heap<u32>,
    main: &mut Hand<u32>,
    hand: &mut Hand<u32>,
    scenario: OneWorker,
)
    requires layout { heap.now.layout ≡ plain_layout 1 1 }
    requires main { IsAlone heap.now main.old }
    requires thread { main.old.view.thread ≡ 0 }
    requires view { hand.old.view ≡ worker_view heap.now.layout 1 }
    requires alone { IsAlone heap.now hand.old }
    requires carries { CarriesNothing hand.old }
{
    match scenario {
        OneWorker::NumberDies => numbers_die(rt, heap, hand, false),
        OneWorker::NumberDiesLater => numbers_die(rt, heap, hand, true),
        OneWorker::FileIsLent => files_have_what_was_given_back(rt, heap, hand),
        OneWorker::NumberIsBorrowed => borrowed_numbers_have_their_values(rt, heap, hand),
        OneWorker::OwnerMerges => owners_merge_what_is_in_their_queues(rt, heap, main, hand),
        OneWorker::PosterMerges => posters_merge_for_a_leaving_owner(rt, heap, main, hand),
    }
}

/// Plays a scenario of two workers.
fn plays_two<R: Abort>(
    rt: &R,
    heap: &Heap<u32>,
    main: &mut Hand<u32>,
    one: &mut Hand<u32>,
    other: &mut Hand<u32>,
    scenario: TwoWorkers,
)
    requires layout { heap.now.layout ≡ plain_layout 2 1 }
    requires main { IsAlone heap.now main.old }
    requires one_view { one.old.view ≡ worker_view heap.now.layout 1 }
    requires one { IsAlone heap.now one.old }
    requires other_view { other.old.view ≡ worker_view heap.now.layout 2 }
    requires other { IsAlone heap.now other.old }
{
    match scenario {
        TwoWorkers::AreBorn => kinds_are_those_of_births(rt, heap, one, other),
        TwoWorkers::AskForRoot => none_and_the_root(rt, heap, main, one, other),
        TwoWorkers::LockLists => locked_lists_have_their_items(rt, heap, one, other),
        TwoWorkers::QueueRoot => main_runs_when_the_root_is_queued(rt, heap, main, one, other),
    }
}

/// Plays a scenario over a heap of one worker with one row.
fn with_one<R: Abort>(rt: &R, alloc: Global, scenario: OneWorker) -> Result<(), Fail> {
    let (heap, mut main) = opened(alloc, 1, 1)?;
    let mut hand = hand_of(&heap, &mut main, 1)?;
    plays_one(rt, &heap, &mut main, &mut hand, scenario);
    Ok(())
}

/// Plays a scenario over a heap of two workers with one row each.
fn with_two<R: Abort>(rt: &R, alloc: Global, scenario: TwoWorkers) -> Result<(), Fail> {
    let (heap, mut main) = opened(alloc, 2, 1)?;
    let mut one = hand_of(&heap, &mut main, 1)?;
    let mut other = hand_of(&heap, &mut main, 2)?;
    plays_two(rt, &heap, &mut main, &mut one, &mut other, scenario);
    Ok(())
}

#[test]
fn hands_do_what_their_calls_say(rt: HostRuntime) -> Result<(), Fail> {
    main_at_first(&rt, rt.alloc())?;
    hands_are_taken(&rt, rt.alloc())?;
    running_threads_keep_the_heap(&rt, rt.alloc())?;
    for scenario in [
        OneWorker::NumberDies,
        OneWorker::NumberDiesLater,
        OneWorker::FileIsLent,
        OneWorker::NumberIsBorrowed,
        OneWorker::OwnerMerges,
        OneWorker::PosterMerges,
    ] {
        with_one(&rt, rt.alloc(), scenario)?;
    }
    for scenario in [
        TwoWorkers::AreBorn,
        TwoWorkers::AskForRoot,
        TwoWorkers::LockLists,
        TwoWorkers::QueueRoot,
    ] {
        with_two(&rt, rt.alloc(), scenario)?;
    }
    Ok(())
}
