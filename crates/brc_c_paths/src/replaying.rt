//! The end of one path.

ghost use Rattle.std.specs.Prelude.{◌≡◌, IfOk, IsTrue, Some};
ghost use Rattle.brc_c_store.specs.Stores.{contents_of};
ghost use Rattle.brc_c_paths.specs.Paths.{arrives, arrives_with, follow, goes, graph_end};
ghost use Rattle.brc_c_paths.specs.Paths.{way_from, way_of_node, choices_of, Breaks};
ghost use Rattle.brc_c_paths.specs.Closed.{IsPathOf};
ghost use Rattle.brc_c_paths.specs.Replaying.{end_found};
ghost use Rattle.brc_c_paths.specs.Stepping.{way_found};

use crate::breaking::code_at;
use crate::fault::{Fault, Step};
use crate::liveness::Liveness;
use crate::stepping::{Way, emptied, way_from};
use brc_c_graph::{Graph, Node, NodeId};
use brc_c_store::{Choice, Rules, Store};
use brc_lang::CheckCode;
use std::alloc::{AllocError, Global};

/// The end of a path.
#[derive(Drop)]
enum PathEnd {
    At(NodeId, Store),
    Ended,
    Breaks(NodeId, CheckCode),
    NotFollowed,
}

/// Returns whether the steps of a fault are a path that breaks its rule at its node.
pub fn is_path_of(
    alloc: Global,
    rules: Rules,
    graph: &Graph,
    live: &Liveness,
    fault: &Fault,
) -> Result<bool, AllocError>
    ensures { IfOk result (λ yes. IsTrue yes → IsPathOf rules graph.now live.now fault.now) }
{
    let end = end_of(alloc, rules, graph, live, fault.path.as_slice())?;
    Ok(is_broken(&end, fault.node, fault.code))
}

/// Returns whether a path has ended by breaking this rule at this node.
fn is_broken(end: &PathEnd, node: NodeId, code: CheckCode) -> bool
    ensures { IsTrue result → end_found end.now ≡ Breaks node code }
{
    match end {
        PathEnd::Breaks(found, broken) => found.0 == node.0 && *broken == code,
        PathEnd::At(_, _) | PathEnd::Ended | PathEnd::NotFollowed => false,
    }
}

/// Returns the end of the path that takes these steps from the entry.
fn end_of(
    alloc: Global,
    rules: Rules,
    graph: &Graph,
    live: &Liveness,
    steps: &[Step],
) -> Result<PathEnd, AllocError>
    ensures { IfOk result (λ end. end_found end ≡ graph_end rules graph.now live.now (choices_of steps.now)) }
{
    let mut end = arrive_at(rules, graph, NodeId::ENTRY, Store::new(alloc))?;
    for step in steps {
        end = go_along(alloc, rules, graph, live, end, step.choice)?;
    }
    Ok(end)
}

/// A path comes to a node, whose event may break a rule.
fn arrive_at(rules: Rules, graph: &Graph, id: NodeId, store: Store) -> Result<PathEnd, AllocError>
    ensures { IfOk result (λ end. end_found end
        ≡ arrives rules graph.now (record { node = id; store = contents_of store })) }
{
    let code = code_at(rules, graph, id, &store)?;
    Ok(arrive_with(id, store, code))
}

fn arrive_with(id: NodeId, store: Store, code: Option<CheckCode>) -> PathEnd
    ensures { end_found result ≡ arrives_with (record { node = id; store = contents_of store }) code }
{
    match code {
        Some(code) => PathEnd::Breaks(id, code),
        None => PathEnd::At(id, store),
    }
}

/// The path goes on by one choice.
fn go_along(
    alloc: Global,
    rules: Rules,
    graph: &Graph,
    live: &Liveness,
    end: PathEnd,
    choice: Choice,
) -> Result<PathEnd, AllocError>
    ensures { IfOk result (λ after. end_found after ≡ follow rules graph.now live.now (end_found end) choice) }
{
    match end {
        PathEnd::At(id, store) => go_on(alloc, rules, graph, live, id, &store, choice),
        PathEnd::Ended => Ok(PathEnd::Ended),
        PathEnd::Breaks(node, code) => Ok(PathEnd::Breaks(node, code)),
        PathEnd::NotFollowed => Ok(PathEnd::NotFollowed),
    }
}

fn go_on(
    alloc: Global,
    rules: Rules,
    graph: &Graph,
    live: &Liveness,
    id: NodeId,
    store: &Store,
    choice: Choice,
) -> Result<PathEnd, AllocError>
    ensures { IfOk result (λ end. end_found end ≡ goes rules graph.now (way_from rules graph.now live.now
        (record { node = id; store = contents_of store.now }) choice)) }
{
    let Some(node) = graph.node(id) else {
        return Ok(PathEnd::Ended);
    };
    let cleared = emptied(store)?;
    go_from(alloc, rules, graph, live, &node, &cleared, choice)
}

fn go_from(
    alloc: Global,
    rules: Rules,
    graph: &Graph,
    live: &Liveness,
    node: &Node,
    store: &Store,
    choice: Choice,
) -> Result<PathEnd, AllocError>
    ensures { IfOk result (λ end. end_found end ≡ goes rules graph.now
        (way_of_node rules graph.now live.now (Some node.now) (contents_of store.now) choice)) }
{
    let way = way_from(alloc, rules, graph, live, node, store, choice)?;
    go_to(rules, graph, way)
}

fn go_to(rules: Rules, graph: &Graph, way: Way) -> Result<PathEnd, AllocError>
    ensures { IfOk result (λ end. end_found end ≡ goes rules graph.now (way_found way)) }
{
    match way {
        Way::Nowhere => Ok(PathEnd::Ended),
        Way::Exceeds => Ok(PathEnd::NotFollowed),
        Way::To(to, next) => arrive_at(rules, graph, to, next),
    }
}
