//! The normal form of a store at a node: two stores that allow the same paths from there on are the same mostly.

ghost use Rattle.std.specs.Prelude.{◌≡◌, OnOk};
ghost use Rattle.brc_c_store.specs.Stores.{contents_of};
ghost use Rattle.brc_c_paths.specs.Normal.{with_known_kept, with_objects_ordered, with_items_marked, made_normal};
ghost use Rattle.brc_c_paths.specs.Normal.{normal_of};

use crate::idle_cells::drop_cells;
use crate::lenders::forget_lenders;
use crate::liveness::Liveness;
use crate::names::drop_names;
use crate::numbering::renumber;
use crate::ordering::order_of;
use crate::registers::{difference, items_of, known_items};
use crate::settled::is_settled;
use crate::sorting::sort_facts;
use brc_c_graph::{Graph, NodeId};
use brc_c_store::{RegisterSet, Store};
use std::alloc::{AllocError, Global};

/// Makes a store normal: names and conditions that no path from the node reads again are dropped, and objects that
/// nothing leads to, and cells that owe nothing more. The others are numbered in the order of their names. A name is
/// kept if it is the last one of an object whose reference the function owns.
pub fn make_normal(
    alloc: Global,
    graph: &Graph,
    live: &Liveness,
    node: NodeId,
    store: &mut Store,
) -> Result<(), AllocError>
    ensures { OnOk result (contents_of store.new ≡ normal_of graph.now live.now node (contents_of store.old)) }
{
    if is_settled(live, node, store) {
        Ok(())
    } else {
        bring_into_form(alloc, graph, live, node, store)
    }
}

/// Makes a store normal that may not be yet.
#[tactic(auto, unfolding(crate::specs::Normal::made_normal))]
fn bring_into_form(
    alloc: Global,
    graph: &Graph,
    live: &Liveness,
    node: NodeId,
    store: &mut Store,
) -> Result<(), AllocError>
    ensures { OnOk result (contents_of store.new ≡ made_normal graph.now live.now node (contents_of store.old)) }
{
    let items = items_of(store);
    keep_known(alloc, graph, live, node, store)?;
    put_in_order(alloc, store)?;
    mark_items(store, items);
    sort_facts(alloc, live, node, store)
}

/// Drops the cells and the names that don't matter from the node on, and what is known of objects out of reach.
#[tactic(auto, unfolding(crate::specs::Normal::with_known_kept))]
fn keep_known(
    alloc: Global,
    graph: &Graph,
    live: &Liveness,
    node: NodeId,
    store: &mut Store,
) -> Result<(), AllocError>
    ensures { OnOk result (contents_of store.new ≡ with_known_kept graph.now live.now node (contents_of store.old)) }
{
    drop_cells(alloc, live, node, store)?;
    drop_names(alloc, graph, live, node, store)?;
    forget_lenders(store);
    Ok(())
}

/// Numbers the objects in the order of their names, and drops those that nothing leads to.
#[tactic(auto, unfolding(crate::specs::Normal::with_objects_ordered))]
fn put_in_order(alloc: Global, store: &mut Store) -> Result<(), AllocError>
    ensures { OnOk result (contents_of store.new ≡ with_objects_ordered (contents_of store.old)) }
{
    let order = order_of(alloc, store)?;
    renumber(alloc, store, order.as_slice())
}

/// Of these items, those whose objects are forgotten are stale.
#[tactic(auto, unfolding(crate::specs::Normal::with_items_marked))]
fn mark_items(store: &mut Store, items: RegisterSet)
    ensures { contents_of store.new ≡ with_items_marked items (contents_of store.old) }
{
    store.stale = difference(items, known_items(store));
}
