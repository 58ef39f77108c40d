//! `goto`, labels, `break` and `continue`.

use crate::building::{Builder, Label};
use crate::reasons::FlowReason;
use crate::stop::{Stop, unread};
use brc_c_graph::NodeId;
use brc_c_text::{Place, Symbol};

impl<'a> Builder<'a> {
    /// Leads the path to a label.
    pub(crate) fn go_to(&mut self, name: Symbol, place: Place) -> Result<(), Stop> {
        let label = self.label(name, place)?;
        self.jump(label.node);
        Ok(())
    }

    /// Goes on at a label.
    pub(crate) fn place_label(&mut self, name: Symbol, place: Place) -> Result<(), Stop> {
        let label = self.label(name, place)?;
        if label.is_placed {
            return Err(unread(place, FlowReason::LabelTwice(name)));
        }
        if let Some(found) = self.labels.get_mut(&name) {
            found.is_placed = true;
        }
        self.land(label.node);
        Ok(())
    }

    fn label(&mut self, name: Symbol, place: Place) -> Result<Label, Stop> {
        if let Some(label) = self.labels.get(&name) {
            return Ok(*label);
        }
        let label = Label {
            node: self.meeting(place)?,
            place,
            is_placed: false,
        };
        self.labels.insert(name, label)?;
        Ok(label)
    }

    /// Fails if a `goto` names a label that isn't in the function.
    pub(crate) fn check_labels(&self) -> Result<(), Stop> {
        for (name, label) in self.labels.iter() {
            if !label.is_placed {
                return Err(unread(label.place, FlowReason::NoLabel(*name)));
            }
        }
        Ok(())
    }

    /// Leads the path out of the innermost loop or `switch`, or to the next turn of the innermost loop.
    pub(crate) fn leave(&mut self, to: Option<NodeId>, place: Place) -> Result<(), Stop> {
        match to {
            Some(node) => {
                self.jump(node);
                Ok(())
            }
            None => Err(unread(place, FlowReason::OutOfPlace)),
        }
    }
}
