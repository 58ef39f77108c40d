//! Hands that rest between calls.

ghost use Rattle.std.specs.Prelude.{◌≡◌, [], ◌∷◌, IfOk, OnOk};
ghost use Rattle.brc_model.specs.Layout.{root_row};
ghost use Rattle.brc_bench.specs.Swaps.{IsAtRest};

use anyhow::Result;
use brc_heap::{Hand, Heap};
use brc_host::FakeResource;

/// Gives out the worker's hand.
#[tactic(auto, using(crate::proofs::AtRest::rests_after_giving, crate::proofs::FirstSwaps::rests_at_first))]
pub fn worker(
    heap: &Heap<FakeResource>,
    main: &mut Hand<FakeResource>,
    thread: u8,
) -> Result<Hand<FakeResource>>
    requires resting { IsAtRest heap.now main.old }
    requires references { main.old.view.references ≡ root_row ∷ [] }
    requires main { main.old.view.thread ≡ 0 }
    ensures resting { OnOk result (IsAtRest heap.now main.new) }
    ensures references { OnOk result (main.new.view.references ≡ root_row ∷ []) }
    ensures main { OnOk result (main.new.view.thread ≡ 0) }
    ensures worker { IfOk result (λ hand. IsAtRest heap.now hand) }
    ensures holds { IfOk result (λ hand. hand.view.references ≡ root_row ∷ []) }
{
    Ok(heap.hand_out(main, thread)?)
}
