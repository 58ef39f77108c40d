//! The nodes in normal stores to which a search has come, in their order.

use crate::arrivals::Arrival;
use brc_c_graph::NodeId;
use brc_c_paths::{Point, PointWays};
use brc_c_store::{Choice, Store};
use std::alloc::{AllocError, Global};
use std::collections::HashMap;
use std::mem;

/// What the search knows of a point beside what it is.
#[derive(Clone, Copy)]
struct Place {
    block: usize,
    /// The point before this one that has the same hash.
    before: Option<usize>,
}

/// A point whose event is followed.
#[derive(Drop)]
pub(crate) struct Waiting {
    pub(crate) block: usize,
    pub(crate) node: NodeId,
    pub(crate) store: Store,
    pub(crate) number: usize,
}

/// A point that was found, and its block.
#[derive(Clone, Copy)]
pub(crate) struct Found {
    pub(crate) number: usize,
    pub(crate) block: usize,
}

/// All points, and how far they were followed.
#[derive(Drop)]
pub(crate) struct Points {
    /// A point that is followed has an empty store meanwhile.
    points: Vec<Point>,
    places: Vec<Place>,
    /// The last point with each hash.
    last: HashMap<usize, usize>,
    followed: usize,
}

impl Points {
    pub(crate) fn new(alloc: Global) -> Points {
        Points {
            points: Vec::new(alloc),
            places: Vec::new(alloc),
            last: HashMap::new(alloc),
            followed: 0,
        }
    }

    pub(crate) fn len(&self) -> usize {
        self.points.len()
    }

    /// Takes the next point whose event wasn't followed yet.
    pub(crate) fn take(&mut self, alloc: Global) -> Option<Waiting> {
        let number = self.followed;
        let block = self.places.get(number)?.block;
        let point = self.points.get_mut(number)?;
        let waiting = Waiting {
            block,
            node: point.node,
            store: mem::replace(&mut point.store, Store::new(alloc)),
            number,
        };
        self.followed = number.saturating_add(1);
        Some(waiting)
    }

    /// Puts a point back that was taken.
    pub(crate) fn put_back(&mut self, waiting: Waiting) {
        let Waiting { store, number, .. } = waiting;
        if let Some(point) = self.points.get_mut(number) {
            point.store = store;
        }
    }

    /// Returns the point of a node in a store, if a path came there before. One point may be taken.
    pub(crate) fn find(
        &self,
        node: NodeId,
        store: &Store,
        hash: usize,
        taken: Option<&Waiting>,
    ) -> Option<Found> {
        let mut next = Some(*self.last.get(&hash)?);
        for _ in 0..self.points.len() {
            let number = next?;
            let point = self.points.get(number)?;
            let place = self.places.get(number)?;
            if point.node == node && is_in(point, number, taken, store) {
                return Some(Found {
                    number,
                    block: place.block,
                });
            }
            next = place.before;
        }
        None
    }

    /// Adds a node in a store to which no path came before.
    pub(crate) fn add(
        &mut self,
        node: NodeId,
        store: Store,
        hash: usize,
        block: usize,
    ) -> Result<Found, AllocError> {
        let number = self.points.len();
        let before = self.last.insert(hash, number)?;
        self.points.push(Point {
            node,
            store,
            emptied: None,
            ways: PointWays::NONE,
        })?;
        self.places.push(Place { block, before })?;
        Ok(Found { number, block })
    }

    /// Notes to which point a choice leads from another one.
    pub(crate) fn set_way(&mut self, from: usize, choice: Choice, to: usize) {
        if let Some(point) = self.points.get_mut(from) {
            match choice {
                Choice::Yes => point.ways.yes = Some(to),
                Choice::No => point.ways.no = Some(to),
                Choice::Missing => point.ways.missing = Some(to),
            }
        }
    }

    /// Notes which point is the same node after registers are emptied.
    pub(crate) fn set_emptied(&mut self, from: usize, to: usize) {
        if let Some(point) = self.points.get_mut(from) {
            point.emptied = Some(to);
        }
    }

    /// Returns the points.
    pub(crate) fn into_points(self) -> Vec<Point> {
        self.points
    }
}

/// Returns the point as what is known where a path ends.
pub(crate) fn arrival_of(point: Point) -> Arrival {
    let Point { node, store, .. } = point;
    Arrival { node, store }
}

/// Returns whether a point has a store.
fn is_in(point: &Point, number: usize, taken: Option<&Waiting>, store: &Store) -> bool {
    match taken {
        Some(waiting) if waiting.number == number => waiting.store == *store,
        _ => point.store == *store,
    }
}
