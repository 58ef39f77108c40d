use crate::modules::Written;
use brc_c_report::Finding;
use brc_c_text::Place;
use std::alloc::{AllocError, Global};

/// Where a function isn't read, and why.
#[derive(Drop)]
pub(crate) struct Obstacle {
    pub(crate) place: Place,
    pub(crate) reason: String,
    /// Whether this program is wrong, and not the function too hard for it.
    pub(crate) is_internal: bool,
}

/// What is found of a function.
#[derive(Drop)]
pub(crate) struct Seen {
    pub(crate) findings: Vec<Finding>,
    /// Why it has no verdict.
    pub(crate) obstacle: Option<Obstacle>,
    /// The names of which something is assumed: functions, elements of arrays, and what nothing defines.
    pub(crate) assumed: Vec<String>,
    /// Whether its modules are to be shown.
    pub(crate) shows_modules: bool,
    pub(crate) modules: Vec<Written>,
}

impl Seen {
    pub(crate) fn new(alloc: Global, shows_modules: bool) -> Seen {
        Seen {
            findings: Vec::new(alloc),
            obstacle: None,
            assumed: Vec::new(alloc),
            shows_modules,
            modules: Vec::new(alloc),
        }
    }

    /// Notes once that something is assumed of a name.
    pub(crate) fn assume(&mut self, name: String) -> Result<(), AllocError> {
        if self
            .assumed
            .iter()
            .any(|known| known.as_str() == name.as_str())
        {
            return Ok(());
        }
        self.assumed.push(name)?;
        Ok(())
    }

    /// Notes why the function has no verdict. The first reason holds.
    pub(crate) fn hinder(&mut self, place: Place, reason: String) {
        if self.obstacle.is_none() {
            self.obstacle = Some(Obstacle {
                place,
                reason,
                is_internal: false,
            });
        }
    }

    /// Notes that the function has no verdict since this program contradicts itself.
    pub(crate) fn contradict(&mut self, place: Place, reason: String) {
        self.obstacle = Some(Obstacle {
            place,
            reason,
            is_internal: true,
        });
    }
}
