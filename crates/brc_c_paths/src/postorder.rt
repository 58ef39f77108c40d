//! The order of a graph's nodes in which each comes after those to which paths go from it, but for loops.

use brc_c_graph::{Graph, NodeId, Ways};
use std::alloc::{AllocError, Global};

/// The nodes of a graph to which a path comes.
#[derive(Drop)]
pub(crate) struct Postorder {
    /// The ends first.
    pub(crate) nodes: Vec<NodeId>,
    pub(crate) has_loop: bool,
}

/// How far a walk has come with a node.
#[derive(Clone, Copy)]
enum State {
    New,
    Open,
    Done,
}

/// A node of which some ways were taken already.
#[derive(Clone, Copy)]
struct Open {
    node: NodeId,
    taken: u8,
}

/// A walk over a graph.
#[derive(Drop)]
struct Walk {
    states: Vec<State>,
    open: Vec<Open>,
    order: Postorder,
}

/// Returns the nodes to which a path comes.
pub(crate) fn postorder_of(alloc: Global, graph: &Graph) -> Result<Postorder, AllocError> {
    let count = graph.nodes().len();
    let mut walk = Walk {
        states: Vec::with_capacity(alloc, count)?,
        open: Vec::new(alloc),
        order: Postorder {
            nodes: Vec::with_capacity(alloc, count)?,
            has_loop: false,
        },
    };
    for _ in 0..count {
        walk.states.push(State::New)?;
    }
    walk.enter(Some(NodeId::ENTRY))?;
    for _ in 0..count.saturating_mul(4) {
        let Some(top) = walk.open.pop() else {
            break;
        };
        walk.take_way(graph, top)?;
    }
    let Walk { order, .. } = walk;
    Ok(order)
}

impl Walk {
    fn take_way(&mut self, graph: &Graph, top: Open) -> Result<(), AllocError> {
        let ways = match graph.node(top.node) {
            Some(node) => node.ways,
            None => Ways::NONE,
        };
        let way = match top.taken {
            0 => ways.yes,
            1 => ways.no,
            2 => ways.missing,
            _ => return self.end(top.node),
        };
        self.open.push(Open {
            taken: top.taken.saturating_add(1),
            ..top
        })?;
        self.enter(way)
    }

    fn end(&mut self, node: NodeId) -> Result<(), AllocError> {
        if let Some(state) = self.states.get_mut(node.0) {
            *state = State::Done;
        }
        self.order.nodes.push(node)?;
        Ok(())
    }

    fn enter(&mut self, node: Option<NodeId>) -> Result<(), AllocError> {
        let Some(node) = node else {
            return Ok(());
        };
        match self.states.get(node.0).copied() {
            Some(State::New) => {
                if let Some(state) = self.states.get_mut(node.0) {
                    *state = State::Open;
                }
                self.open.push(Open { node, taken: 0 })?;
            }
            Some(State::Open) => self.order.has_loop = true,
            Some(State::Done) | None => {}
        }
        Ok(())
    }
}
