//! A run over the files and the peers of the system.

ghost use Rattle.brc_model.specs.Threads.{function_at};
ghost use Rattle.std.specs.Prelude.{◌≡◌, ◌<◌, All, length, map, IfOk, []};
ghost use Rattle.std.specs.String.{string_bytes};
ghost use Rattle.brc_os.specs.HostStates.{AnswersForSystem, new_host};
ghost use Rattle.brc_run.specs.Runs.{IsTallyOfRun, CountsMain};

use crate::counted::Counted;
use crate::error::RunFault;
use crate::plan::Plan;
use crate::running::run;
use brc_check::Checked;
use brc_os::{Devices, OsHost};
use brc_work::Gate;
use std::alloc::{AllocError, Global};
use std::sync::Wait;
use std::thread::Threads;

/// The system that a run is over: its threads, its files and its sockets.
pub trait System: Threads + Wait + Sync + Devices {}

impl<R: Threads + Wait + Sync + Devices> System for R {}

/// Runs a function of the accepted module as `run` does. Each worker, and main, has a host of its own over the system,
/// which reaches just these paths and these peers, by their numbers from 0.
pub fn run_on_system<R: System, G: Gate + Sync>(
    rt: &R,
    alloc: Global,
    checked: &Checked,
    plan: Plan,
    paths: &[&str],
    peers: &[&str],
    gate: &G,
) -> Result<Counted, RunFault>
    requires function { plan.call.function < length checked.now.module.functions }
    requires parameters { (function_at checked.now.module.functions plan.call.function).parameters ≡ [] }
    ensures { IfOk result (λ counted. IsTallyOfRun (map (λ path. path.now) paths.now)
        (map (λ peer. peer.now) peers.now) checked.now.module plan.threads plan.rows plan.call plan.steps
        counted.tally) }
{
    let paths = strings_of(alloc, paths)?;
    let peers = strings_of(alloc, peers)?;
    let mut hosts = hosts_of(rt, alloc, plan.threads, paths.as_slice(), peers.as_slice())?;
    let mut main_host = OsHost::new(rt, paths.as_slice(), peers.as_slice());
    run_alike(
        rt,
        alloc,
        checked,
        plan,
        hosts.as_mut_slice(),
        &mut main_host,
        gate,
    )
}

/// Runs as `run` does, over hosts that reach what main's host reaches, none of which has been called.
fn run_alike<'r, R: System, G: Gate + Sync>(
    rt: &R,
    alloc: Global,
    checked: &Checked,
    plan: Plan,
    hosts: &mut [OsHost<'r, R>],
    main_host: &mut OsHost<'r, R>,
    gate: &G,
) -> Result<Counted, RunFault>
    requires function { plan.call.function < length checked.now.module.functions }
    requires parameters { (function_at checked.now.module.functions plan.call.function).parameters ≡ [] }
    requires one_each { length hosts.old ≡ plan.threads }
    requires alike { All (λ host. host ≡ main_host.old) hosts.old }
    ensures { IfOk result (λ counted. CountsMain AnswersForSystem (λ host. host.counts) checked.now.module plan.threads
        plan.rows plan.call plan.steps hosts.old main_host.old main_host.new counted.tally) }
{
    run(rt, alloc, checked, plan, hosts, main_host, gate)
}

/// Returns copies of the names, in their order.
fn strings_of(alloc: Global, names: &[&str]) -> Result<Vec<String>, AllocError>
    ensures { IfOk result (λ strings. map string_bytes strings.items ≡ map (λ name. name.now) names.now) }
{
    let mut strings = Vec::new(alloc);
    for name in names {
        strings.push(String::from_str(alloc, name)?)?;
    }
    Ok(strings)
}

/// Returns `count` hosts over the system, each of which reaches just these paths and these peers.
fn hosts_of<'r, R: Devices>(
    rt: &'r R,
    alloc: Global,
    count: u8,
    paths: &'r [String],
    peers: &'r [String],
) -> Result<Vec<OsHost<'r, R>>, AllocError>
    ensures one_each { IfOk result (λ hosts. length hosts.items ≡ count) }
    ensures each { IfOk result (λ hosts. All (λ host. host
        ≡ new_host (map string_bytes paths.now) (map string_bytes peers.now)) hosts.items) }
{
    let mut hosts = Vec::new(alloc);
    for _ in 0..count {
        hosts.push(OsHost::new(rt, paths, peers))?;
    }
    Ok(hosts)
}
