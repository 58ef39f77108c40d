//! Heaps of a module without static lists, and their hands.

ghost use Rattle.std.specs.Prelude.{◌≡◌, ◌<◌, ◌≤◌, IfOk, OnOk, OnErr};
ghost use Rattle.brc_model.specs.Limits.{worker_limit, row_limit};
ghost use Rattle.brc_table.specs.Hands.{CarriesNothing};
ghost use Rattle.brc_table.specs.Views.{worker_view};
ghost use Rattle.brc_fixtures.specs.Modules.{plain_layout};
ghost use Rattle.brc_fixtures.specs.Resting.{IsAlone};

use crate::modules::plain_module;
use brc_heap::{Hand, Heap, NoMemory, Taken};
use std::alloc::Global;

/// Returns a heap for this number of workers with this number of rows each, and main's hand.
///
/// # Errors
///
/// H1 if memory is refused.
#[tactic(auto, using(crate::proofs::Alone::main_alone, crate::proofs::PlainModules::has_no_lines, crate::proofs::PlainModules::has_no_lists))]
pub fn opened<T: Drop>(
    alloc: Global,
    workers: u8,
    rows: u16,
) -> Result<(Heap<T>, Hand<T>), NoMemory>
    requires workers { (0 < workers) × (workers ≤ worker_limit) }
    requires rows { (0 < rows) × (rows ≤ row_limit) }
    ensures layout { IfOk result (λ made. made.0.layout ≡ plain_layout workers rows) }
    ensures alone { IfOk result (λ made. IsAlone made.0 made.1) }
    ensures main { IfOk result (λ made. made.1.view.thread ≡ 0) }
{
    let plain = plain_module(alloc);
    Heap::new(alloc, workers, rows, &plain)
}

/// Gives out the worker's hand. Main's hand is as before.
///
/// # Errors
///
/// H2 if the thread's hand was given out before, or if the heap has no worker of this number.
#[tactic(auto, using(crate::proofs::Alone::alone_after_giving, crate::proofs::Alone::worker_alone))]
pub fn hand_of<T: Drop>(heap: &Heap<T>, main: &mut Hand<T>, thread: u8) -> Result<Hand<T>, Taken>
    requires alone { IsAlone heap.now main.old }
    requires main { main.old.view.thread ≡ 0 }
    ensures view { IfOk result (λ hand. hand.view ≡ worker_view heap.now.layout thread) }
    ensures worker { IfOk result (λ hand. IsAlone heap.now hand) }
    ensures none { IfOk result CarriesNothing }
    ensures alone { OnOk result (IsAlone heap.now main.new) }
    ensures main { OnOk result (main.new.view.thread ≡ 0) }
    ensures same { OnErr result (main.new ≡ main.old) }
{
    heap.hand_out(main, thread)
}
