//! A worker makes objects and leaves, main leaves, and the heap ends.

ghost use Rattle.std.specs.Prelude.{◌≡◌, None, [], ◌∷◌, OnSome};
ghost use Rattle.brc_model.specs.Layout.{root_row};
ghost use Rattle.brc_table.specs.Hands.{IsOf};
ghost use Rattle.brc_fixtures.specs.Resting.{IsAlone, IsAtRest};

use crate::chain::chain_of_lists;
use crate::dying::{Seen, taken_from_dying};
use crate::files::{PLANS, over_plan};
use crate::in_itself::puts_into_itself;
use crate::second_word::closes;
use brc_fixtures::{ended, hand_of, leaves, opened};
use brc_heap::{Final, Hand, Heap};
use brc_host::{FakeHost, FakeResource};
use brc_lang::Kind;
use std::alloc::Global;
use std::sync::Wait;
use std::test::*;

/// What a worker does before it leaves.
#[derive(Clone, Copy)]
enum Scenario {
    Nothing,
    PutsAListIntoItself,
    MakesAChain,
    EmptiesADyingList,
}

/// What the ended heap tells: of the objects of the root and of rows 2 and 3, whether they were born, and whether they
/// are closed; what the first cells of rows 2 and 3 have; how many rows there are, and how many objects are closed.
type Answers = ([[bool; 2]; 3], [Option<u32>; 2], [u32; 2]);

/// Reads what the ended heap tells, or returns `None` if it has no row 3.
fn read(end: &Final<FakeResource>) -> Option<Answers> {
    let rows = end.rows();
    if rows < 4 {
        return None;
    }
    let objects = [
        [end.born(1), end.closed(1)],
        [end.born(2), end.closed(2)],
        [end.born(3), end.closed(3)],
    ];
    let cells = [end.cell(2, 0), end.cell(3, 0)];
    Some((objects, cells, [rows, closed_in(end)]))
}

/// Returns how many objects are closed.
fn closed_in(end: &Final<FakeResource>) -> u32 {
    let mut closed: u32 = 0;
    for row in 1..end.rows() {
        if end.closed(row) {
            closed = closed.saturating_add(1);
        }
    }
    closed
}

/// Plays the scenario. Returns what it has seen of a dying list, if it has emptied one, or `None` if the heap has no
/// room, or a close has failed.
fn plays<R: Wait>(
    rt: &R,
    heap: &Heap<FakeResource>,
    hand: &mut Hand<FakeResource>,
    host: &mut FakeHost<'_>,
    scenario: Scenario,
) -> Option<Option<Seen>>
    requires resting { IsAtRest heap.now hand.old None }
    requires references { hand.old.view.references ≡ root_row ∷ [] }
    ensures resting { OnSome result (IsAtRest heap.now hand.new None) }
    ensures references { OnSome result (hand.new.view.references ≡ root_row ∷ []) }
{
    match scenario {
        Scenario::Nothing => Some(None),
        Scenario::PutsAListIntoItself => match puts_into_itself(rt, heap, hand, host) {
            Some(0) => Some(None),
            _ => None,
        },
        Scenario::MakesAChain => match chain_of_lists(rt, heap, hand, host) {
            Some(0) => Some(None),
            _ => None,
        },
        Scenario::EmptiesADyingList => match taken_from_dying(rt, heap, hand, host) {
            Some(seen) => Some(Some(seen)),
            None => None,
        },
    }
}

/// Tries to end the heap while main runs, and ends it once main has left. Returns what it tells then, or `None` if the
/// first try isn't refused, or the second one is.
fn ends<R: Wait>(
    rt: &R,
    heap: Heap<FakeResource>,
    main: Hand<FakeResource>,
    host: &mut FakeHost<'_>,
) -> Option<Answers>
    requires resting { IsAtRest heap main None }
    requires references { main.view.references ≡ root_row ∷ [] }
    requires main { main.view.thread ≡ 0 }
{
    let Err(back) = heap.finish(main) else {
        return None;
    };
    read(&ended(rt, back.heap, back.main, host)?)
}

/// Lets a worker play the scenario and leave. Returns what it has seen of a dying list, or `None` if the heap has no
/// room, or a close has failed.
#[tactic(auto, using(brc_fixtures::proofs::Alone::alone_rests))]
fn played<R: Wait>(
    rt: &R,
    heap: &Heap<FakeResource>,
    main: &mut Hand<FakeResource>,
    host: &mut FakeHost<'_>,
    scenario: Scenario,
) -> Option<Option<Seen>>
    requires alone { IsAlone heap.now main.old }
    requires main { main.old.view.thread ≡ 0 }
    ensures alone { OnSome result (IsAlone heap.now main.new) }
    ensures main { OnSome result (main.new.view.thread ≡ 0) }
{
    let Ok(mut hand) = hand_of(heap, main, 1) else {
        return None;
    };
    let seen = plays(rt, heap, &mut hand, host, scenario)?;
    match leaves(rt, heap, &mut hand, host) {
        Some(0) => Some(seen),
        _ => None,
    }
}

/// Lets a worker play the scenario and leave, and ends the heap. Returns what the worker has seen of a dying list, and
/// what the ended heap tells.
#[tactic(auto, using(brc_fixtures::proofs::Alone::alone_rests))]
fn ended_after<R: Wait>(
    rt: &R,
    heap: Heap<FakeResource>,
    mut main: Hand<FakeResource>,
    scenario: Scenario,
) -> Option<(Option<Seen>, Answers)>
    requires alone { IsAlone heap main }
    requires main { main.view.thread ≡ 0 }
{
    let mut host = FakeHost::new(&[]);
    let seen = played(rt, &heap, &mut main, &mut host, scenario)?;
    let answers = ends(rt, heap, main, &mut host)?;
    Some((seen, answers))
}

/// Opens a heap, lets a worker play the scenario, and ends the heap.
fn end_after<R: Wait>(
    rt: &R,
    alloc: Global,
    scenario: Scenario,
) -> Result<Option<(Option<Seen>, Answers)>, Fail> {
    let (heap, main) = opened(alloc, 1, 1000)?;
    Ok(ended_after(rt, heap, main, scenario))
}

const UNBORN: [bool; 2] = [false, false];

const LEFT: [bool; 2] = [true, false];

const DEAD: [bool; 2] = [true, true];

/// What a worker sees of a dying list of one cell, with the number of row 2.
const SEEN: Seen = (Some((Kind::List, 1)), [Some(Some(2)), Some(None)], 2);

/// A scenario with its name, what it has seen of a dying list, and what the ended heap tells.
const ENDS: [(&str, Scenario, Option<Seen>, Answers); 4] = [
    (
        "nothing",
        Scenario::Nothing,
        None,
        ([DEAD, UNBORN, UNBORN], [None, None], [1002, 1]),
    ),
    (
        "a list in itself",
        Scenario::PutsAListIntoItself,
        None,
        ([DEAD, LEFT, UNBORN], [Some(2), None], [1002, 1]),
    ),
    (
        "a chain",
        Scenario::MakesAChain,
        None,
        ([DEAD, DEAD, DEAD], [None, None], [1002, 1001]),
    ),
    (
        "a dying list",
        Scenario::EmptiesADyingList,
        Some(SEEN),
        ([DEAD, DEAD, DEAD], [None, None], [1002, 3]),
    ),
];

/// A heap ends with what is left; a file is closed once, whichever calls fail; and the second mark word is looked
/// through.
#[test]
fn what_dies_is_closed(rt: HostRuntime) -> Result<(), Fail> {
    let alloc = rt.alloc();
    for (name, scenario, seen, told) in ENDS {
        assert_eq!(rt;
            end_after(&rt, alloc, scenario)?,
            Some((seen, told)),
            "{name}"
        );
    }
    for (plan, counts) in PLANS {
        assert_eq!(rt; over_plan(&rt, alloc, plan)?, Some(counts), "plan {plan:?}");
    }
    for leaving in [false, true] {
        assert_eq!(rt;
            closes(&rt, alloc, leaving)?,
            Some([0, 1]),
            "leaving: {leaving}"
        );
    }
    Ok(())
}
