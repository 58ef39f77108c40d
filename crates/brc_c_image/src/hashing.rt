//! Numbers by which points are found again.

use brc_c_graph::NodeId;
use brc_c_store::{Base, Object, Store, Value};

const FACTOR: usize = 0x517c_c1b7_2722_0a95;

/// Returns a number that is the same for the same node in the same store.
pub(crate) fn hash_of(node: NodeId, store: &Store) -> usize {
    let mut hash = mixed(0, node.0);
    for named in store.values.iter() {
        hash = mixed(mixed(hash, named.local.0), word_of(named.value));
    }
    for object in store.objects.iter() {
        hash = mixed(hash, word_of_object(*object));
    }
    for touched in store.cells.iter() {
        hash = mixed(mixed(hash, touched.field.0), word_of(touched.value));
    }
    for known in store.facts.iter() {
        hash = mixed(
            hash,
            known.fact.0.wrapping_mul(2).wrapping_add(bit(known.holds)),
        );
    }
    hash ^ (hash >> 32)
}

fn mixed(hash: usize, word: usize) -> usize {
    (hash ^ (hash >> 27) ^ word).wrapping_mul(FACTOR)
}

fn bit(holds: bool) -> usize {
    if holds { 1 } else { 0 }
}

fn word_of(value: Value) -> usize {
    match value {
        Value::Unset => 1,
        Value::Null => 2,
        Value::Object(id) => id.0.wrapping_mul(4).wrapping_add(3),
        Value::Maybe(id) => id.0.wrapping_mul(4).wrapping_add(4),
        Value::Number(signs) => {
            let below = bit(signs.minus_one).wrapping_add(bit(signs.below).wrapping_mul(2));
            let above = bit(signs.zero).wrapping_add(bit(signs.above).wrapping_mul(2));
            below.wrapping_add(above.wrapping_mul(4)).wrapping_add(1000)
        }
    }
}

fn word_of_object(object: Object) -> usize {
    let base = match object.base {
        Base::Gone => 1,
        Base::Call => 2,
        Base::Item(_) => 3,
        Base::Field => 4,
        Base::Part(lender) => lender.0.wrapping_add(5),
    };
    let is_owned = bit(!object.registers.is_empty());
    let known = bit(object.is_fresh).wrapping_add(is_owned.wrapping_mul(2));
    base.wrapping_mul(4).wrapping_add(known)
}
