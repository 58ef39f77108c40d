//! Files of a host that fails: each file that was opened is closed once, whichever calls fail.

ghost use Rattle.std.specs.Prelude.{◌≡◌, None, Some, ◌∷◌, IfSome, OnSome};
ghost use Rattle.brc_model.specs.Layout.{IsCounted};
ghost use Rattle.brc_fixtures.specs.Resting.{IsAlone, IsAtRest};

use brc_fixtures::{gives_up, hand_of, opened, unlocks};
use brc_heap::{Hand, Heap};
use brc_host::{FakeHost, FakeResource, Host};
use brc_lang::{Kind, Mode};
use brc_list::Lists;
use std::alloc::Global;
use std::sync::Wait;
use std::test::*;

/// The path of the file.
const PATH: u8 = 0;

/// How many bytes are read.
const BYTES: u16 = 5;

/// What a plan leads to: how many calls of the host have failed, how many files it has opened and closed, and how many
/// closes have failed as the chain was settled.
pub type Counts = [u64; 4];

/// Reads from the file that the hand has locked, and writes to it. It reads and writes whichever call fails.
fn uses(heap: &Heap<FakeResource>, hand: &mut Hand<FakeResource>, host: &mut FakeHost<'_>, row: u32)
    requires resting { IsAtRest heap.now hand.old (Some row) }
    requires file { hand.old.view.in_field ≡ 1 }
    ensures resting { IsAtRest heap.now hand.new (Some row) }
    ensures references { hand.new.view.references ≡ hand.old.view.references }
{
    let lists = Lists::new(heap);
    let mut file = lists.lend(hand, row);
    let _got = host.read(&mut file, BYTES);
    let _written = host.write(&mut file, b"17\n");
    lists.give_back(hand, row, file);
}

/// Gives birth to a file with the resource, and locks it. Returns its row, or `None` if the heap has no room for it.
#[tactic(auto, using(brc_fixtures::proofs::Resting::rests_after_birth, brc_fixtures::proofs::Resting::some_counted, brc_fixtures::proofs::Resting::holds_first))]
fn locked_file(
    heap: &Heap<FakeResource>,
    hand: &mut Hand<FakeResource>,
    resource: FakeResource,
) -> Option<u32>
    requires resting { IsAtRest heap.now hand.old None }
    ensures resting { IfSome result (λ row. IsAtRest heap.now hand.new (Some row)) }
    ensures file { OnSome result (hand.new.view.in_field ≡ 1) }
    ensures counted { IfSome result (λ row. IsCounted heap.now.layout row) }
    ensures references { IfSome result (λ row. hand.new.view.references ≡ row ∷ hand.old.view.references) }
{
    heap.words().layout_is_plain();
    if !heap.room(hand) {
        return None;
    }
    let row = heap.birth(hand, Kind::File, 0, Some(resource));
    if row == 0 {
        return None;
    }
    if Lists::new(heap).try_lock(hand, row) {
        Some(row)
    } else {
        None
    }
}

/// Opens a file, uses it, and gives it up. Returns how many closes have failed, or `None` if the heap has no room for
/// the file. If the file can't be opened, there is nothing to close.
#[tactic(auto, using(brc_fixtures::proofs::Resting::holds_first))]
fn use_file<R: Wait>(
    rt: &R,
    heap: &Heap<FakeResource>,
    hand: &mut Hand<FakeResource>,
    host: &mut FakeHost<'_>,
) -> Option<u64>
    requires resting { IsAtRest heap.now hand.old None }
{
    let Ok(resource) = host.open(PATH, Mode::READ | Mode::WRITE) else {
        return Some(0);
    };
    let row = locked_file(heap, hand, resource)?;
    uses(heap, hand, host, row);
    unlocks(heap, hand, row);
    Some(gives_up(rt, heap, hand, host, row))
}

/// Uses a file of a host that fails by the plan. Returns what the plan leads to.
#[tactic(auto, using(brc_fixtures::proofs::Alone::alone_rests))]
fn counted<R: Wait>(
    rt: &R,
    heap: &Heap<FakeResource>,
    hand: &mut Hand<FakeResource>,
    plan: &[u64],
) -> Option<Counts>
    requires alone { IsAlone heap.now hand.old }
{
    let mut host = FakeHost::new(plan);
    let failed_closes = use_file(rt, heap, hand, &mut host)?;
    Some([host.failures(), host.opened(), host.closed(), failed_closes])
}

/// Lets a worker use a file of a host that fails by the plan, which names the calls by number: 0 opens the file, 1
/// reads, 2 writes and 3 closes.
pub fn over_plan<R: Wait>(rt: &R, alloc: Global, plan: &[u64]) -> Result<Option<Counts>, Fail> {
    let (heap, mut main) = opened(alloc, 1, 1)?;
    let mut hand = hand_of(&heap, &mut main, 1)?;
    Ok(counted(rt, &heap, &mut hand, plan))
}

/// Plans, and what each leads to.
pub const PLANS: [(&[u64], Counts); 10] = [
    (&[0], [1, 0, 0, 0]),
    (&[1], [1, 1, 1, 0]),
    (&[2], [1, 1, 1, 0]),
    (&[3], [1, 1, 1, 1]),
    (&[0, 1], [1, 0, 0, 0]),
    (&[0, 2], [1, 0, 0, 0]),
    (&[0, 3], [1, 0, 0, 0]),
    (&[1, 2], [2, 1, 1, 0]),
    (&[1, 3], [2, 1, 1, 1]),
    (&[2, 3], [2, 1, 1, 1]),
];
