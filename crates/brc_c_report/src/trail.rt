//! A path, walked once more beside what it does with each object.

use crate::choosing::is_open;
use crate::origin::Origin;
use brc_c_graph::{Graph, NodeId};
use brc_c_paths::Step;
use brc_c_store::{Choice, Event, Local, Next, ObjectId, Rules, Source, Store, after};
use std::alloc::{AllocError, Global};

/// A choice that can't be computed.
#[derive(Clone, Copy)]
pub(crate) struct Chosen {
    pub(crate) node: NodeId,
    pub(crate) choice: Choice,
    /// The object that came into the function there.
    pub(crate) made: Option<ObjectId>,
}

/// A name that has NULL since a call failed.
#[derive(Clone, Copy)]
pub(crate) struct Failed {
    pub(crate) local: Local,
    pub(crate) call: NodeId,
}

/// What is known at the end of a path.
#[derive(Clone, Drop)]
pub(crate) struct Trail {
    pub(crate) store: Store,
    /// What was done with the objects of the store, in their order.
    pub(crate) origins: Vec<Origin>,
    /// Where the open sections of the store begin.
    pub(crate) sections: Vec<NodeId>,
    /// Where other threads were allowed to run.
    pub(crate) detached: Option<NodeId>,
    pub(crate) choices: Vec<Chosen>,
    pub(crate) failed: Vec<Failed>,
    /// The call that has just failed.
    failing: Option<NodeId>,
}

impl Trail {
    /// Returns what is known where no step is taken.
    pub(crate) fn new(alloc: Global) -> Trail {
        Trail {
            store: Store::new(alloc),
            origins: Vec::new(alloc),
            sections: Vec::new(alloc),
            detached: None,
            choices: Vec::new(alloc),
            failed: Vec::new(alloc),
            failing: None,
        }
    }

    /// Walks on along a path of a graph.
    pub(crate) fn walk(
        &mut self,
        rules: Rules,
        graph: &Graph,
        steps: &[Step],
    ) -> Result<(), AllocError> {
        for step in steps {
            self.pass(rules, graph, *step)?;
        }
        Ok(())
    }

    /// Returns what was done with an object.
    pub(crate) fn origin(&self, id: ObjectId) -> Option<Origin> {
        self.origins.get(id.0).copied()
    }

    /// Returns the call by whose failure a name has NULL.
    pub(crate) fn failed_call(&self, local: Local) -> Option<NodeId> {
        for failed in self.failed.iter() {
            if failed.local == local {
                return Some(failed.call);
            }
        }
        None
    }

    fn pass(&mut self, rules: Rules, graph: &Graph, step: Step) -> Result<(), AllocError> {
        let Some(node) = graph.node(step.node) else {
            return Ok(());
        };
        let event = node.event;
        let is_choice = is_open(event, step.choice, &self.store);
        match after(rules, event, step.choice, &self.store)? {
            Next::Never | Next::TooMany => Ok(()),
            Next::Store(next) => {
                if is_choice {
                    self.choose(step, &next)?;
                }
                self.note_failure(event, step)?;
                self.note_event(event, step.node, &next)?;
                self.note_objects(graph, step.node, &next)?;
                self.store = next;
                Ok(())
            }
        }
    }

    fn choose(&mut self, step: Step, next: &Store) -> Result<(), AllocError> {
        let before = self.store.objects.len();
        let made = if next.objects.len() > before {
            Some(ObjectId(before))
        } else {
            None
        };
        self.choices.push(Chosen {
            node: step.node,
            choice: step.choice,
            made,
        })?;
        Ok(())
    }

    /// Notes which names get NULL right after a call has failed.
    fn note_failure(&mut self, event: Event, step: Step) -> Result<(), AllocError> {
        let failing = self.failing;
        self.failing = None;
        match event {
            Event::Call { .. } => {
                if step.choice != Choice::Yes {
                    self.failing = Some(step.node);
                }
                Ok(())
            }
            Event::Copy { to, from } => {
                let call = match from {
                    Source::Null => failing,
                    Source::Local(local) => self.failed_call(local),
                    _ => None,
                };
                self.failed.retain(|failed| failed.local != to);
                match call {
                    Some(call) => {
                        self.failed.push(Failed { local: to, call })?;
                        Ok(())
                    }
                    None => Ok(()),
                }
            }
            _ => Ok(()),
        }
    }

    /// Notes what the event does with an object, a section or the thread.
    fn note_event(&mut self, event: Event, node: NodeId, next: &Store) -> Result<(), AllocError> {
        match event {
            Event::Take(local) => self.note_taken(next.object_of(local), node),
            Event::Release(local) | Event::Give(local) | Event::GiveTo { local, .. } => {
                self.note_given(next.object_of(local), node);
            }
            Event::Lock { .. } if next.sections.len() > self.sections.len() => {
                self.sections.push(node)?;
            }
            Event::Unlock => {
                let _ = self.sections.pop();
            }
            Event::Detach => self.detached = Some(node),
            _ => {}
        }
        Ok(())
    }

    fn note_taken(&mut self, id: Option<ObjectId>, node: NodeId) {
        if let Some(id) = id {
            if let Some(origin) = self.origins.get_mut(id.0) {
                origin.taken = Some(node);
            }
        }
    }

    fn note_given(&mut self, id: Option<ObjectId>, node: NodeId) {
        if let Some(id) = id {
            if let Some(origin) = self.origins.get_mut(id.0) {
                origin.given = Some(node);
            }
        }
    }

    /// Notes which objects are new, which end, and which have a name now.
    fn note_objects(
        &mut self,
        graph: &Graph,
        node: NodeId,
        next: &Store,
    ) -> Result<(), AllocError> {
        for _new in self.origins.len()..next.objects.len() {
            self.origins.push(Origin::new(node))?;
        }
        for (at, origin) in self.origins.iter_mut().enumerate() {
            let id = ObjectId(at);
            if self.store.object(id).is_alive() && !next.object(id).is_alive() {
                origin.ended = Some(node);
            }
        }
        for named in next.values.iter() {
            if let Some(id) = named.value.object() {
                if is_named(graph, named.local) {
                    self.note_name(id, named.local);
                }
            }
        }
        Ok(())
    }

    fn note_name(&mut self, id: ObjectId, local: Local) {
        if let Some(origin) = self.origins.get_mut(id.0) {
            if origin.name.is_none() {
                origin.name = Some(local);
            }
        }
    }
}

/// Returns whether the source has a name for it.
fn is_named(graph: &Graph, local: Local) -> bool {
    match graph.local(local) {
        Some(known) => known.name.is_some(),
        None => false,
    }
}
