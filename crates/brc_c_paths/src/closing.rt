//! The check that a search has found every node in every store to which a path comes. It asks of each point alone where
//! paths go on from there: no path is followed, and it takes no memory but a store at a time.

ghost use Rattle.std.specs.Prelude.{◌≡◌, ℕ, IfOk, IsTrue, None, Some, slice_get};
ghost use Rattle.brc_c_store.specs.declared.event.Choice.{Choice};
ghost use Rattle.brc_c_store.specs.Registers.{has_none};
ghost use Rattle.brc_c_store.specs.Stores.{contents_of};
ghost use Rattle.brc_c_paths.specs.declared.point.Point.{Point};
ghost use Rattle.brc_c_paths.specs.Paths.{way_of_node, entry_point};
ghost use Rattle.brc_c_paths.specs.Closed.{graph_point, graph_points, number_of_way, LeadsTo, LeadsOn, EmptiesTo};
ghost use Rattle.brc_c_paths.specs.Closed.{GoesOn, IsSearched};
ghost use Rattle.brc_c_paths.specs.Stepping.{way_found};

use crate::liveness::Liveness;
use crate::point::{Point, PointWays};
use crate::same::same_store;
use crate::stepping::{Way, emptied, way_from};
use brc_c_graph::{Graph, Node, NodeId};
use brc_c_store::{Choice, Rules, Store, faults};
use std::alloc::{AllocError, Global};

/// Returns whether a list of points has every node in every store to which a path comes, and names just where paths go
/// on. If `exceeds`, paths may have too many references or open sections to be followed.
pub fn is_closed(
    alloc: Global,
    rules: Rules,
    graph: &Graph,
    live: &Liveness,
    points: &[Point],
    exceeds: bool,
) -> Result<bool, AllocError>
    ensures { IfOk result (λ yes. IsTrue yes → IsSearched rules graph.now live.now points.now exceeds) }
{
    if !begins(alloc, points) {
        return Ok(false);
    }
    all_go_on(alloc, rules, graph, live, points, exceeds)
}

/// Returns whether the first point is where paths begin.
fn begins(alloc: Global, points: &[Point]) -> bool
    ensures { IsTrue result → slice_get (graph_points points.now) 0 ≡ Some entry_point }
{
    is_point_at(points, 0, NodeId::ENTRY, &Store::new(alloc))
}

/// Returns whether a number is that of the point of a node in a store.
fn is_point(points: &[Point], number: Option<usize>, node: NodeId, store: &Store) -> bool
    ensures { IsTrue result → (m : ℕ) × (number ≡ Some m)
        × (slice_get (graph_points points.now) m ≡ Some (record { node = node; store = contents_of store.now })) }
{
    match number {
        Some(number) => is_point_at(points, number, node, store),
        None => false,
    }
}

#[tactic(auto, using(crate::proofs::Listed::point_there))]
fn is_point_at(points: &[Point], number: usize, node: NodeId, store: &Store) -> bool
    ensures { IsTrue result → slice_get (graph_points points.now) number
        ≡ Some (record { node = node; store = contents_of store.now }) }
{
    match points.get(number) {
        Some(point) => is_this(point, node, store),
        None => false,
    }
}

/// Returns whether a point is a node in a store.
fn is_this(point: &Point, node: NodeId, store: &Store) -> bool
    ensures { IsTrue result → graph_point point.now ≡ record { node = node; store = contents_of store.now } }
{
    point.node.0 == node.0 && same_store(&point.store, store)
}

/// Returns whether paths go on from all points as they say.
fn all_go_on(
    alloc: Global,
    rules: Rules,
    graph: &Graph,
    live: &Liveness,
    points: &[Point],
    exceeds: bool,
) -> Result<bool, AllocError>
    ensures { IfOk result (λ yes. IsTrue yes → (n : ℕ) (point : Point) → slice_get points.now n ≡ Some point
        → GoesOn rules graph.now live.now (graph_points points.now) exceeds point (has_none point.store.stale)) }
{
    for point in points {
        if !goes_on(alloc, rules, graph, live, points, point, exceeds)? {
            return Ok(false);
        }
    }
    Ok(true)
}

/// Returns whether paths go on from a point as it says.
fn goes_on(
    alloc: Global,
    rules: Rules,
    graph: &Graph,
    live: &Liveness,
    points: &[Point],
    point: &Point,
    exceeds: bool,
) -> Result<bool, AllocError>
    ensures { IfOk result (λ yes. IsTrue yes → GoesOn rules graph.now live.now (graph_points points.now) exceeds
        point.now (has_none point.now.store.stale)) }
{
    if !point.store.stale.is_empty() {
        return empties(points, point);
    }
    if point.emptied.is_some() {
        return Ok(false);
    }
    match graph.node(point.node) {
        Some(node) => leads_on(alloc, rules, graph, live, points, &node, point, exceeds),
        None => Ok(has_no_ways(point.ways)),
    }
}

/// Returns whether a point names the same node after the registers of its forgotten items are emptied.
fn empties(points: &[Point], point: &Point) -> Result<bool, AllocError>
    ensures { IfOk result (λ yes. IsTrue yes
        → EmptiesTo (graph_points points.now) (graph_point point.now) point.now.emptied) }
{
    let store = emptied(&point.store)?;
    Ok(is_point(points, point.emptied, point.node, &store))
}

fn has_no_ways(ways: PointWays) -> bool
    ensures { IsTrue result → (choice : Choice) → number_of_way ways choice ≡ None }
{
    ways.yes.is_none() && ways.no.is_none() && ways.missing.is_none()
}

/// Returns whether the ways from a node in the store of a point lead to the points that it names, or its event breaks a
/// rule, and it names none.
fn leads_on(
    alloc: Global,
    rules: Rules,
    graph: &Graph,
    live: &Liveness,
    points: &[Point],
    node: &Node,
    point: &Point,
    exceeds: bool,
) -> Result<bool, AllocError>
    ensures { IfOk result (λ yes. IsTrue yes → LeadsOn rules graph.now live.now (graph_points points.now) exceeds
        (Some node.now) (contents_of point.now.store) point.now.ways) }
{
    if faults(rules, node.event, &point.store).is_some() {
        return Ok(has_no_ways(point.ways));
    }
    if !leads(
        alloc,
        rules,
        graph,
        live,
        points,
        node,
        point,
        Choice::Yes,
        exceeds,
    )? {
        return Ok(false);
    }
    if !leads(
        alloc,
        rules,
        graph,
        live,
        points,
        node,
        point,
        Choice::No,
        exceeds,
    )? {
        return Ok(false);
    }
    leads(
        alloc,
        rules,
        graph,
        live,
        points,
        node,
        point,
        Choice::Missing,
        exceeds,
    )
}

/// Returns whether the way after a choice leads to the point that is named for it.
fn leads(
    alloc: Global,
    rules: Rules,
    graph: &Graph,
    live: &Liveness,
    points: &[Point],
    node: &Node,
    point: &Point,
    choice: Choice,
    exceeds: bool,
) -> Result<bool, AllocError>
    ensures { IfOk result (λ yes. IsTrue yes → LeadsTo (graph_points points.now) exceeds
        (number_of_way point.now.ways choice)
        (way_of_node rules graph.now live.now (Some node.now) (contents_of point.now.store) choice)) }
{
    let way = way_from(alloc, rules, graph, live, node, &point.store, choice)?;
    Ok(leads_to(points, exceeds, &way, point.ways.way(choice)))
}

/// Returns whether a way leads to the point of this number, or nowhere.
fn leads_to(points: &[Point], exceeds: bool, way: &Way, number: Option<usize>) -> bool
    ensures { IsTrue result → LeadsTo (graph_points points.now) exceeds number (way_found way.now) }
{
    match way {
        Way::Nowhere => number.is_none(),
        Way::Exceeds => exceeds && number.is_none(),
        Way::To(node, store) => is_point(points, number, *node, store),
    }
}
