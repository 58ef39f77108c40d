//! A run of a function: its workers in threads of their own, main's leave, and the tally.

ghost use Rattle.brc_model.specs.Threads.{function_at};
ghost use Rattle.std.specs.Prelude.{◌≡◌, ℕ, ◌<◌, [], map, length, vec_len, slice_index_or, IfOk, IfErr, OnOk};
ghost use Rattle.brc_model.specs.declared.actor.Status.TheVariants.{Gone};
ghost use Rattle.brc_table.specs.Hands.{IsOf};
ghost use Rattle.brc_table.specs.Views.{HasJoined};
ghost use Rattle.brc_run.specs.Runs.{CountsMain, MainHasLeft, totals_in};

use crate::counted::Counted;
use crate::ending::{finished, left};
use crate::error::RunFault;
use crate::plan::Plan;
use crate::tally::tally_of;
use brc_check::Checked;
use brc_effect::layout_of;
use brc_heap::{Hand, Heap};
use brc_host::Host;
use brc_work::{Gate, Ran, Totals, fan_out, join_hands};
use std::alloc::{AllocError, Global};
use std::sync::Wait;
use std::thread::Threads;

/// Runs a function of the accepted module: as many workers as the plan says call it, each in a thread of its own and
/// over a host of its own, and main leaves once they are gone. Returns what was counted, alike whether a worker has made
/// its calls or was stopped by the plan's bound.
///
/// The gate hears of each call that begins, and of its end unless the worker stops in it.
///
/// # Errors
///
/// `NoThread` if a worker's thread can't be started, or memory for the workers is refused. Main leaves, and the heap
/// ends, before that is returned. `NoMemory` if memory is refused elsewhere.
#[tactic(auto, using(crate::proofs::Opening::lists_have_rows, crate::proofs::Opening::is_heap_of))]
pub fn run<R: Threads + Wait + Sync, T: Send + Drop, H: Host<Res = T> + Send, G: Gate + Sync>(
    rt: &R,
    alloc: Global,
    checked: &Checked,
    plan: Plan,
    hosts: &mut [H],
    main_host: &mut H,
    gate: &G,
) -> Result<Counted, RunFault>
    requires function { plan.call.function < length checked.now.module.functions }
    requires parameters { (function_at checked.now.module.functions plan.call.function).parameters ≡ [] }
    requires one_each { length hosts.old ≡ plan.threads }
    ensures tally { IfOk result (λ counted. CountsMain H.answers H.counts checked.now.module plan.threads plan.rows
        plan.call plan.steps hosts.old main_host.old main_host.new counted.tally) }
    ensures no_thread { IfErr result (λ fault. fault ≡ RunFault.NoThread
        → MainHasLeft H.answers H.counts checked.now.module plan.threads plan.rows main_host.old main_host.new) }
{
    let (heap, mut main) = Heap::new(alloc, plan.threads, plan.rows, checked.module())?;
    let ran = fan_out(
        rt,
        alloc,
        &heap,
        &mut main,
        checked,
        plan.call.function,
        plan.call.times,
        plan.steps,
        hosts,
        gate,
    );
    // Main leaves in any case: what dies only then has its files closed too.
    let failed = left(rt, &heap, &mut main, main_host);
    let counted = match ran {
        Ok(gone) => joined(alloc, &heap, &mut main, gone),
        Err(refused) => Err(refused.into()),
    };
    let contention = main.contention();
    let end = finished(rt, heap, main);
    let totals = counted?;
    let threads = u32::from(plan.threads);
    let layout = layout_of(checked.module(), plan.threads, plan.rows);
    let tally = tally_of(alloc, &end, layout, threads, totals.as_slice(), failed)?;
    Ok(Counted { tally, contention })
}

/// Joins the hands of workers that are gone. Returns what each worker has counted.
fn joined<T: Drop>(
    alloc: Global,
    heap: &Heap<T>,
    main: &mut Hand<T>,
    gone: Vec<(Hand<T>, Ran)>,
) -> Result<Vec<Totals>, RunFault>
    requires of { IsOf heap.now main.old }
    requires gone { (k : ℕ) (w : _) → k < vec_len gone → let hand = (slice_index_or gone.items k w).0 in
        IsOf heap.now hand × (hand.view.actor.status ≡ Gone) × (hand.fields ≡ []) }
    ensures of { IsOf heap.now main.new }
    ensures main { main.new.view.thread ≡ main.old.view.thread }
    ensures totals { IfOk result (λ totals. totals.items ≡ totals_in gone.items) }
    ensures each { OnOk result ((k : ℕ) (w : _) → k < vec_len gone → let hand = (slice_index_or gone.items k w).0 in
        HasJoined main.new.view (record { thread = hand.view.thread; used = hand.view.actor.used })) }
    ensures fault { IfErr result (λ fault. fault ≡ RunFault.NoMemory) }
{
    let totals = totals_of(alloc, gone.as_slice())?;
    join_hands(heap, main, gone);
    Ok(totals)
}

/// Returns what each worker has counted.
fn totals_of<T: Drop>(alloc: Global, gone: &[(Hand<T>, Ran)]) -> Result<Vec<Totals>, AllocError>
    ensures { IfOk result (λ totals. totals.items ≡ totals_in gone.now) }
{
    let mut totals = Vec::new(alloc);
    for (_, ran) in gone {
        totals.push(ran.totals())?;
    }
    Ok(totals)
}
