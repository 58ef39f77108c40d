//! What is found of a graph: that it breaks no rule, or which rules it breaks.

ghost use Rattle.std.specs.Prelude.{◌≡◌, IfOk, IsTrue, false, true, None, Contains};
ghost use Rattle.brc_lang.specs.declared.check_code.CheckCode.{CheckCode};
ghost use Rattle.brc_c_graph.specs.declared.node.NodeId.{NodeId};
ghost use Rattle.brc_c_paths.specs.declared.fault.Fault.{Fault};
ghost use Rattle.brc_c_paths.specs.Paths.{GraphPoint, code_at, PathBreaks, IsRightGraph};
ghost use Rattle.brc_c_paths.specs.Closed.{IsSearched, graph_points, IsListed, IsListedIf, IsPathOf};

use crate::breaking::code_of;
use crate::closing::is_closed;
use crate::fault::Fault;
use crate::liveness::Liveness;
use crate::point::Point;
use crate::replaying::is_path_of;
use brc_c_graph::{Graph, NodeId};
use brc_c_store::Rules;
use brc_lang::CheckCode;
use std::alloc::{AllocError, Global};

/// Returns whether no path breaks a rule, by the points that a search has found.
pub fn is_right(
    alloc: Global,
    rules: Rules,
    graph: &Graph,
    live: &Liveness,
    points: &[Point],
) -> Result<bool, AllocError>
    ensures right { IfOk result (λ yes. IsTrue yes → IsRightGraph rules graph.now live.now) }
    ensures searched { IfOk result (λ yes. IsTrue yes → IsSearched rules graph.now live.now points.now false) }
{
    if !break_none(rules, graph, points)? {
        return Ok(false);
    }
    is_closed(alloc, rules, graph, live, points, false)
}

/// Returns whether the event of no point breaks a rule.
fn break_none(rules: Rules, graph: &Graph, points: &[Point]) -> Result<bool, AllocError>
    ensures { IfOk result (λ yes. IsTrue yes → (p : GraphPoint) → Contains (graph_points points.now) p
        → code_at rules graph.now p ≡ None) }
{
    for point in points {
        if code_of(rules, graph, point)?.is_some() {
            return Ok(false);
        }
    }
    Ok(true)
}

/// Returns whether the faults have each rule that a path breaks, with its node, by the points that a search has found.
pub fn all_listed(
    alloc: Global,
    rules: Rules,
    graph: &Graph,
    live: &Liveness,
    points: &[Point],
    faults: &[Fault],
) -> Result<bool, AllocError>
    ensures listed { IfOk result (λ yes. IsTrue yes → (node : NodeId) (code : CheckCode)
        → PathBreaks rules graph.now live.now node code → IsListed faults.now node code) }
    ensures searched { IfOk result (λ yes. IsTrue yes → IsSearched rules graph.now live.now points.now true) }
{
    if !are_listed(rules, graph, points, faults)? {
        return Ok(false);
    }
    is_closed(alloc, rules, graph, live, points, true)
}

/// Returns whether the faults have each rule that a point's event breaks.
fn are_listed(
    rules: Rules,
    graph: &Graph,
    points: &[Point],
    faults: &[Fault],
) -> Result<bool, AllocError>
    ensures { IfOk result (λ yes. IsTrue yes → (p : GraphPoint) → Contains (graph_points points.now) p
        → IsListedIf faults.now p.node (code_at rules graph.now p)) }
{
    for point in points {
        let code = code_of(rules, graph, point)?;
        if !is_listed_if(faults, point.node, code) {
            return Ok(false);
        }
    }
    Ok(true)
}

/// Returns whether one of the faults is that the node breaks this rule, if it breaks one.
fn is_listed_if(faults: &[Fault], node: NodeId, code: Option<CheckCode>) -> bool
    ensures { IsTrue result → IsListedIf faults.now node code }
{
    match code {
        Some(code) => is_listed(faults, node, code),
        None => true,
    }
}

/// Returns whether one of the faults is that the node breaks this rule.
fn is_listed(faults: &[Fault], node: NodeId, code: CheckCode) -> bool
    ensures { IsTrue result → IsListed faults.now node code }
{
    for fault in faults {
        if is_fault(fault, node, code) {
            return true;
        }
    }
    false
}

fn is_fault(fault: &Fault, node: NodeId, code: CheckCode) -> bool
    ensures { IsTrue result → (fault.now.node ≡ node) × (fault.now.code ≡ code) }
{
    fault.node.0 == node.0 && fault.code == code
}

/// Returns whether the steps of each fault are a path that breaks its rule at its node.
pub fn are_paths(
    alloc: Global,
    rules: Rules,
    graph: &Graph,
    live: &Liveness,
    faults: &[Fault],
) -> Result<bool, AllocError>
    ensures { IfOk result (λ yes. IsTrue yes → (fault : Fault) → Contains faults.now fault
        → IsPathOf rules graph.now live.now fault) }
{
    for fault in faults {
        if !is_path_of(alloc, rules, graph, live, fault)? {
            return Ok(false);
        }
    }
    Ok(true)
}
