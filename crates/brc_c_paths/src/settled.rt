//! Stores that are normal already, as most are behind an event.

ghost use Rattle.std.specs.Prelude.{◌≡◌, ◌+◌, ◌^◌, ◌<◌, ◌≤◌, None};
ghost use Rattle.std.specs.List.{list_all};
ghost use Rattle.brc_c_store.specs.Stores.{contents_of};
ghost use Rattle.brc_c_paths.specs.Settled.{is_name_read, is_in_turn, known_with, have_objects, is_after};
ghost use Rattle.brc_c_paths.specs.Settled.{are_asked_in_order, is_settled};

use crate::liveness::Liveness;
use brc_c_graph::NodeId;
use brc_c_store::{Fact, KnownFact, Named, ObjectId, Store, Value};

/// Returns whether it is seen at once that a store is normal: all that it knows is read again, and its names name all
/// objects, in their order.
pub(crate) fn is_settled(live: &Liveness, node: NodeId, store: &Store) -> bool
    ensures { result ≡ is_settled live.now node (contents_of store.now) }
{
    store.cells.is_empty()
        && store.stale.is_empty()
        && are_names_read(live, node, store.values.as_slice())
        && are_objects_named(store.values.as_slice(), store.objects.len())
        && are_facts_sorted(live, node, store.facts.as_slice())
}

fn are_names_read(live: &Liveness, node: NodeId, names: &[Named]) -> bool
    ensures { result ≡ list_all (is_name_read live.now node) names.now }
{
    for named in names {
        if !is_name_read(live, node, *named) {
            return false;
        }
    }
    true
}

fn is_name_read(live: &Liveness, node: NodeId, named: Named) -> bool
    ensures { result ≡ is_name_read live.now node named }
{
    named.value != Value::Unset && live.is_read(node, named.local)
}

/// Returns whether the names have all `count` objects, in the order of their numbers.
fn are_objects_named(names: &[Named], count: usize) -> bool
    ensures { result ≡ have_objects count names.now 0 }
{
    let mut known: usize = 0;
    for named in names {
        let id = named.value.object();
        if !is_in_turn(known, id) {
            return false;
        }
        known = known_with(known, id);
    }
    known == count
}

/// Returns whether the object is a known one, or the next one. Those with lower numbers than `known` are known.
fn is_in_turn(known: usize, id: Option<ObjectId>) -> bool
    ensures { result ≡ is_in_turn known id }
{
    match id {
        Some(id) => id.0 <= known,
        None => true,
    }
}

/// Returns how many objects are known once this one is.
fn known_with(known: usize, id: Option<ObjectId>) -> usize
    requires { known + 1 < 2 ^ 64 }
    ensures value { result ≡ known_with known id }
    ensures within { result ≤ known + 1 }
{
    match id {
        Some(id) if id.0 == known => known + 1,
        _ => known,
    }
}

/// Returns whether the conditions are asked for again, and are in the order of their numbers.
fn are_facts_sorted(live: &Liveness, node: NodeId, facts: &[KnownFact]) -> bool
    ensures { result ≡ are_asked_in_order live.now node facts.now None }
{
    let mut before = None;
    for known in facts {
        if !is_after(before, known.fact) || !live.is_asked(node, known.fact) {
            return false;
        }
        before = Some(known.fact);
    }
    true
}

/// Returns whether the condition has a greater number than the one before it.
fn is_after(before: Option<Fact>, fact: Fact) -> bool
    ensures { result ≡ is_after before fact }
{
    match before {
        Some(before) => before.0 < fact.0,
        None => true,
    }
}
