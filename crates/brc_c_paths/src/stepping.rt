//! Where a path goes from a node in a store.

ghost use Rattle.std.specs.Prelude.{◌≡◌, IfOk};
ghost use Rattle.brc_c_store.specs.Stores.{contents_of};
ghost use Rattle.brc_c_store.specs.Questions.{outcome_of};
ghost use Rattle.brc_c_graph.specs.Nodes.{way_of};
ghost use Rattle.brc_c_paths.specs.Normal.{normal_of};
ghost use Rattle.brc_c_paths.specs.Paths.{emptied, ends_items, lost_items, with_forgotten, way_after, way_along};
ghost use Rattle.brc_c_paths.specs.Stepping.{way_found};

use crate::liveness::Liveness;
use crate::normal::make_normal;
use crate::registers::{difference, items_of};
use brc_c_graph::{Graph, Node, NodeId};
use brc_c_store::{Choice, Event, Next, RegisterSet, Rules, Store, after};
use std::alloc::{AllocError, Global};

/// How many critical sections may be open at once. A loop that opens one in each pass has no end.
pub const MOST_SECTIONS: usize = 8;

/// Where a path goes after an event.
#[derive(Drop)]
pub(crate) enum Way {
    Nowhere,
    /// Further than is followed: no register is left for a reference, or too many sections are open.
    Exceeds,
    To(NodeId, Store),
}

/// Returns whether what is borrowed ends by such an event, if anything does.
pub fn ends_items(event: Event) -> bool
    ensures { result ≡ ends_items event }
{
    match event {
        Event::EndItems | Event::Lock { .. } | Event::Unlock | Event::Detach => true,
        _ => false,
    }
}

/// Empties the registers of forgotten items.
pub(crate) fn emptied(store: &Store) -> Result<Store, AllocError>
    ensures { IfOk result (λ s. contents_of s ≡ emptied (contents_of store.now)) }
{
    let mut emptied = store.clone()?;
    emptied.stale = RegisterSet::EMPTY;
    Ok(emptied)
}

/// Returns the registers that have an item before an event, and neither an item nor a reference after it.
fn lost_items(before: &Store, after: &Store) -> RegisterSet
    ensures { result ≡ lost_items (contents_of before.now) (contents_of after.now) }
{
    let lost = difference(items_of(before), items_of(after));
    difference(lost, after.owned())
}

/// Returns the store after an event with the items that it has forgotten.
fn with_forgotten(event: Event, before: &Store, after: Store) -> Store
    ensures { contents_of result ≡ with_forgotten event (contents_of before.now) (contents_of after) }
{
    let mut store = after;
    if !ends_items(event) {
        let lost = lost_items(before, &store);
        store.stale = store.stale.union(lost);
    }
    store
}

/// Returns the store in which a path comes to a node after an event, by the stores before and after it.
pub fn arrive(
    alloc: Global,
    graph: &Graph,
    live: &Liveness,
    event: Event,
    before: &Store,
    to: NodeId,
    after: Store,
) -> Result<Store, AllocError>
    ensures { IfOk result (λ s. contents_of s
        ≡ normal_of graph.now live.now to (with_forgotten event (contents_of before.now) (contents_of after))) }
{
    let mut store = with_forgotten(event, before, after);
    make_normal(alloc, graph, live, to, &mut store)?;
    Ok(store)
}

/// Returns where a path comes to a node after an event.
fn way_after(
    alloc: Global,
    graph: &Graph,
    live: &Liveness,
    event: Event,
    before: &Store,
    to: NodeId,
    next: Next,
) -> Result<Way, AllocError>
    ensures { IfOk result (λ way. way_found way
        ≡ way_after graph.now live.now event (contents_of before.now) to (outcome_of next)) }
{
    match next {
        Next::Never => Ok(Way::Nowhere),
        Next::TooMany => Ok(Way::Exceeds),
        Next::Store(store) => {
            if store.sections.len() > MOST_SECTIONS {
                return Ok(Way::Exceeds);
            }
            Ok(Way::To(to, arrive(alloc, graph, live, event, before, to, store)?))
        }
    }
}

/// Returns where a path goes from a node by a choice. The store has no forgotten items, and the node's event breaks no
/// rule in it.
pub(crate) fn way_from(
    alloc: Global,
    rules: Rules,
    graph: &Graph,
    live: &Liveness,
    node: &Node,
    before: &Store,
    choice: Choice,
) -> Result<Way, AllocError>
    ensures { IfOk result (λ way. way_found way ≡ way_along rules graph.now live.now node.now.event
        (contents_of before.now) choice (way_of node.now.ways choice)) }
{
    let Some(to) = node.ways.way(choice) else {
        return Ok(Way::Nowhere);
    };
    let next = after(rules, node.event, choice, before)?;
    way_after(alloc, graph, live, node.event, before, to, next)
}
