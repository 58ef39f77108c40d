ghost use Rattle.brc_check_tests.specs.Callable.{HasCallableEnds};

use crate::steps::{SAID, TAKE_AND_DROP, accepted_text, counted, last_call, said, step};
use brc_check::Checked;
use brc_world::{Call, Choice, Did, NoMemory, World};
use std::alloc::{AllocError, Global};
use std::collections::BTreeSet;
use std::test::*;

/// The most states that a search visits.
const MOST_STATES: usize = 100_000;

/// The number of threads, main and two workers. The moves below it are steps of the thread with the number.
const THREADS: u8 = 3;

/// The number of moves: a step of each thread, and a claim by each thread of the mark of a row of its own.
const MOVES: u8 = 6;

/// A function that locks the root for a moment.
const LOCK_THE_ROOT: &[u8] = b"module 1\nfunc f\nlock v0\nunlock v0\nfail\nend\n";

/// A function that stores a number of its own in the root's first cell and gives up the one that it finds there. Then
/// it locks the root again, and fetches the number that the cell has by now.
const SET_AND_FETCH: &[u8] =
    b"module 1\nfunc f\nnum v1 7 else @9\nlock v0\nset v0 0 v1 else @8\nunlock v0\nlock v0\n\
      fetch v1 v0 0 else @8\nunlock v0\nret v1\nunlock v0\nfail\nend\n";

/// A function that stores a number of its own in the root's first cell, and one that puts none in the number's place.
const SWAP_AND_CLEAR: &[u8] =
    b"module 1\nfunc swap\nnum v1 7 else @7\nlock v0\nset v0 0 v1 else @6\nunlock v0\nnone v1\nret v1\nunlock v0\n\
      fail\nend\nfunc clear\nnone v1\nlock v0\nput v0 0 v1 else @3\nunlock v0\nret v1\nend\n";

/// The same, the other way round: `swap` calls `keep`, which steals the number.
const CLEAR_AND_KEEP: &[u8] =
    b"module 2\nfunc clear\nnone v1\nlock v0\nput v0 0 v1 else @3\nunlock v0\nret v1\nend\n\
      func keep steal num\nlock v0\nset v0 0 v1 else @2\nunlock v0\nfail\nend\n\
      func swap\nnum v1 7 else @3\ncall v2 keep v1 else @3\ndrop v2\nfail\nend\n";

/// Returns a world with two workers of one row each. Worker 1 calls the first function once, and worker 2 the last one.
fn first(alloc: Global, checked: &Checked) -> Result<World<'_>, NoMemory>
    requires { HasCallableEnds checked.now.module }
{
    let one = Call {
        function: 0,
        times: 1,
    };
    World::new(alloc, checked, 2, 1, &[one, last_call(checked)])
}

/// Makes the move. The root is in row 1, and the workers' rows follow.
fn make(world: &mut World<'_>, turn: u8) -> Result<Option<Did>, NoMemory> {
    match turn {
        0..THREADS => step(world, usize::from(turn), Choice::Ok),
        3 => step(world, 0, Choice::Claim(1)),
        4 => step(world, 1, Choice::Claim(2)),
        _ => step(world, 2, Choice::Claim(3)),
    }
}

/// Makes the moves. Returns what the last one did.
fn make_all(world: &mut World<'_>, moves: &[u8]) -> Result<Option<Did>, NoMemory> {
    let mut did = None;
    for turn in moves {
        did = make(world, *turn)?;
    }
    Ok(did)
}

fn moves_to(alloc: Global, paths: &[Vec<u8>], state: usize) -> Result<Option<Vec<u8>>, AllocError> {
    match paths.get(state) {
        Some(moves) => Ok(Some(Vec::from_slice(alloc, moves)?)),
        None => Ok(None),
    }
}

fn one_move_more(alloc: Global, moves: &[u8], turn: u8) -> Result<Vec<u8>, AllocError> {
    let mut more = Vec::from_slice(alloc, moves)?;
    more.push(turn)?;
    Ok(more)
}

/// Returns whether all threads are gone. Fails if what was created is neither closed nor left, or if all threads are
/// gone and the report isn't that of `objects` objects, all closed.
fn is_last(world: &World<'_>, objects: u64) -> Result<bool, Fail> {
    let (numbers, left) = counted(world)?;
    let [_, running, created, closed, alive, _, _] = numbers;
    if closed.checked_add(alive) != Some(created) || alive != left as u64 {
        return Err("what was created is neither closed nor left")?;
    }
    if running > 0 {
        return Ok(false);
    }
    if numbers != [2, 0, objects, objects, 0, 0, 0] {
        return Err("all threads are gone, and an object isn't closed")?;
    }
    Ok(true)
}

/// What a search has found: the number of states that moves lead to; those in which all threads are gone; those that no
/// move changes; and the number of states and threads whose step changes nothing there, though the thread isn't gone.
type Found = [usize; 4];

/// Returns whether no move has led to this state before.
fn is_new(
    alloc: Global,
    world: &World<'_>,
    seen: &mut BTreeSet<String>,
) -> Result<bool, AllocError> {
    Ok(seen.insert(format!(in alloc; "{world:?}")?)?)
}

/// Returns whether all threads of a new state are gone, or `None` if the last move didn't lead to a new one.
fn last_if_new(
    alloc: Global,
    world: &World<'_>,
    did: Option<Did>,
    objects: u64,
    seen: &mut BTreeSet<String>,
) -> Result<Option<bool>, Fail> {
    if did == Some(Did::Moved) && is_new(alloc, world, seen)? {
        Ok(Some(is_last(world, objects)?))
    } else {
        Ok(None)
    }
}

/// Visits the state after the moves, if the last move leads to a new one. Returns what that move did, and of a new
/// state whether all its threads are gone.
fn visit(
    alloc: Global,
    checked: &Checked,
    objects: u64,
    moves: &[u8],
    seen: &mut BTreeSet<String>,
) -> Result<(Option<Did>, Option<bool>), Fail>
    requires { HasCallableEnds checked.now.module }
{
    let mut world = first(alloc, checked)?;
    visit_in(alloc, &mut world, objects, moves, seen)
}

/// Does what `visit` does, in this world.
fn visit_in(
    alloc: Global,
    world: &mut World<'_>,
    objects: u64,
    moves: &[u8],
    seen: &mut BTreeSet<String>,
) -> Result<(Option<Did>, Option<bool>), Fail> {
    let did = make_all(world, moves)?;
    let found = last_if_new(alloc, world, did, objects, seen)?;
    Ok((did, found))
}

/// Visits each state that a move more leads to. Returns in how many new ones all threads are gone, whether no move
/// changes the state, and how many threads wait in it.
fn go_on(
    alloc: Global,
    checked: &Checked,
    objects: u64,
    moves: &[u8],
    seen: &mut BTreeSet<String>,
    paths: &mut Vec<Vec<u8>>,
) -> Result<(usize, bool, usize), Fail>
    requires { HasCallableEnds checked.now.module }
{
    let mut last = 0usize;
    let mut waits = 0usize;
    let mut is_end = true;
    for turn in 0..MOVES {
        let more = one_move_more(alloc, moves, turn)?;
        let (did, found) = visit(alloc, checked, objects, &more, seen)?;
        if let Some(is_last) = found {
            last = last.saturating_add(usize::from(is_last));
            paths.push(more)?;
        }
        waits = waits.saturating_add(usize::from(turn < THREADS && did == Some(Did::Same)));
        is_end = is_end && did != Some(Did::Moved);
    }
    Ok((last, is_end, waits))
}

/// Visits each state that moves lead to.
fn search(alloc: Global, checked: &Checked, objects: u64) -> Result<Found, Fail>
    requires { HasCallableEnds checked.now.module }
{
    let mut seen = BTreeSet::new(alloc);
    let mut paths: Vec<Vec<u8>> = Vec::new(alloc);
    search_on(alloc, checked, objects, &mut seen, &mut paths)
}

/// Does what `search` does, with the states that were seen, and the moves to each.
fn search_on(
    alloc: Global,
    checked: &Checked,
    objects: u64,
    seen: &mut BTreeSet<String>,
    paths: &mut Vec<Vec<u8>>,
) -> Result<Found, Fail>
    requires { HasCallableEnds checked.now.module }
{
    paths.push(Vec::new(alloc))?;
    let mut last = 0usize;
    let mut ends = 0usize;
    let mut waits = 0usize;
    for state in 0..MOST_STATES {
        let Some(moves) = moves_to(alloc, paths, state)? else {
            break;
        };
        let (gone, is_end, waiting) = go_on(alloc, checked, objects, &moves, seen, paths)?;
        last = last.saturating_add(gone);
        ends = ends.saturating_add(usize::from(is_end));
        waits = waits.saturating_add(waiting);
    }
    Ok([paths.len(), last, ends, waits])
}

/// Visits each state that the module's interleavings lead to.
fn found_in(alloc: Global, text: &[u8], objects: u64) -> Result<Found, Fail> {
    let checked = accepted_text(alloc, text)?;
    search(alloc, &checked, objects)
}

/// A name, a module, how many objects its threads create in all, and whether a thread waits in some state.
type Case<'t> = (&'t str, &'t [u8], u64, bool);

const CASES: &[Case] = &[
    // Each worker takes a reference to the root, drops it and fails.
    ("no locks", TAKE_AND_DROP, 1, false),
    // Each worker locks the root. Now and then one waits for the other.
    ("locks", LOCK_THE_ROOT, 1, true),
    // Each worker stores a number in the root and fetches its own or the other's.
    ("items", SET_AND_FETCH, 3, true),
    // One worker stores a number in the root. The other one takes it out, perhaps while the first one leaves.
    ("a race", SWAP_AND_CLEAR, 2, true),
    ("a race and a call", CLEAR_AND_KEEP, 2, true),
];

/// Whether a search has come to its end, and no state without a way on is left, except for those in which all threads
/// are gone; and whether a thread waits in some state.
fn are_ends(found: Found) -> (bool, bool) {
    let [states, last, ends, waits] = found;
    (last > 0 && states < MOST_STATES && ends == last, waits > 0)
}

/// Each interleaving ends. Before that, what steps say that they did.
#[test]
fn every_interleaving_ends(rt: HostRuntime) -> Result<(), Fail> {
    assert_eq!(rt; said(rt.alloc())?, SAID);
    for (name, text, objects, waits) in CASES {
        let found = found_in(rt.alloc(), text, *objects)?;
        println!(rt; "{name}: {found:?} states, last ones, ends and waits")?;
        assert_eq!(rt; are_ends(found), (true, *waits), "{name}");
    }
    Ok(())
}
