//! The search for the trail of an outline: it walks from each point as far as the points' starts.

use crate::outline::Outline;
use crate::places::{Place, next};
use crate::walks::{Label, Trail, Walks};
use brc_lang::{Function, Instr};
use brc_model::{Exit, State};
use std::alloc::{AllocError, Global};

/// An instruction that a walk from a point has come to.
#[derive(Drop)]
struct Open {
    at: usize,
    state: State,
    /// The exits by which it has come there.
    exits: Vec<Exit>,
    /// The point to which the instruction before belongs.
    point: usize,
}

/// What the search knows of the instructions.
#[derive(Drop)]
struct Search {
    alloc: Global,
    /// The point that starts at each instruction.
    starts: Vec<Option<usize>>,
    /// The last point from which a walk has come to each instruction.
    seen: Vec<Option<usize>>,
}

/// Returns the trail by which a function may show an outline.
pub fn trail_of(
    alloc: Global,
    function: &Function,
    outline: &Outline,
) -> Result<Trail, AllocError> {
    let code = function.code.as_slice();
    let mut search = Search {
        alloc,
        starts: starts_of(alloc, code.len(), outline)?,
        seen: Vec::from_elem(alloc, None, code.len())?,
    };
    let mut trail = Trail {
        walks: Vec::with_capacity(alloc, outline.points.len())?,
        labels: start_labels(alloc, code, outline)?,
    };
    for point in 0..outline.points.len() {
        search.walk_from(code, outline, point, &mut trail)?;
    }
    Ok(trail)
}

/// Returns the labels of the points' first instructions.
fn start_labels(
    alloc: Global,
    code: &[Instr],
    outline: &Outline,
) -> Result<Vec<Option<Label>>, AllocError> {
    let mut labels = Vec::with_capacity(alloc, code.len())?;
    for _ in code {
        labels.push(None)?;
    }
    for (number, point) in outline.points.iter().enumerate() {
        set_label(&mut labels, point.start, number, &point.state);
    }
    Ok(labels)
}

/// Returns the walks from a point with this many ways, of which nothing is known.
fn no_walks(alloc: Global, count: usize) -> Result<Walks, AllocError> {
    let mut ways = Vec::with_capacity(alloc, count)?;
    for _ in 0..count {
        ways.push(Vec::new(alloc))?;
    }
    Ok(Walks {
        ways,
        broken: Vec::new(alloc),
    })
}

/// Returns the point that starts at each instruction.
fn starts_of(
    alloc: Global,
    count: usize,
    outline: &Outline,
) -> Result<Vec<Option<usize>>, AllocError> {
    let mut starts = Vec::from_elem(alloc, None, count)?;
    for (number, point) in outline.points.iter().enumerate() {
        if let Some(found) = starts.get_mut(point.start) {
            if found.is_none() {
                *found = Some(number);
            }
        }
    }
    Ok(starts)
}

impl Search {
    /// Returns the point that starts at an instruction.
    fn start(&self, at: usize) -> Option<usize> {
        self.starts.get(at).copied()?
    }

    /// Adds the walks from a point, and labels the instructions on them.
    fn walk_from(
        &mut self,
        code: &[Instr],
        outline: &Outline,
        number: usize,
        trail: &mut Trail,
    ) -> Result<(), AllocError> {
        let Some(point) = outline.points.as_slice().get(number) else {
            return Ok(());
        };
        let mut open = Vec::new(self.alloc);
        open.push(Open {
            at: point.start,
            state: point.state,
            exits: Vec::new(self.alloc),
            point: number,
        })?;
        let mut walks = no_walks(self.alloc, point.ways.len())?;
        // Each instruction is opened at most twice, by the exits of those before it.
        for _ in 0..=code.len().saturating_mul(2) {
            let Some(next) = open.pop() else {
                break;
            };
            if self.enter(number, next.at) {
                let owner = self.led_to(code, next.at).unwrap_or(next.point);
                set_label(&mut trail.labels, next.at, owner, &next.state);
                let ways = point.ways.as_slice();
                self.walk_on(
                    code,
                    ways,
                    &next,
                    owner,
                    Exit::Success,
                    &mut open,
                    &mut walks,
                )?;
                self.walk_on(code, ways, &next, owner, Exit::Fault, &mut open, &mut walks)?;
            }
        }
        trail.walks.push(walks)?;
        Ok(())
    }

    /// Notes that a walk from a point has come to an instruction. Returns whether it is the first one.
    fn enter(&mut self, number: usize, at: usize) -> bool {
        match self.seen.get_mut(at) {
            Some(seen) => {
                let is_first = *seen != Some(number);
                *seen = Some(number);
                is_first
            }
            None => false,
        }
    }

    /// Returns the point to which jumps lead from an instruction. They belong to it, as what comes after a jump back
    /// does: walks from several points share them.
    fn led_to(&self, code: &[Instr], at: usize) -> Option<usize> {
        let mut next = at;
        for _ in 0..code.len() {
            match code.get(next)? {
                Instr::Goto { target } | Instr::Again { target, .. } => {
                    next = usize::from(*target);
                }
                _ => return None,
            }
            if let Some(point) = self.start(next) {
                return Some(point);
            }
        }
        None
    }

    /// Follows an exit of an instruction.
    fn walk_on(
        &self,
        code: &[Instr],
        ways: &[usize],
        from: &Open,
        owner: usize,
        exit: Exit,
        open: &mut Vec<Open>,
        walks: &mut Walks,
    ) -> Result<(), AllocError> {
        let mut exits = from.exits.clone()?;
        exits.push(exit)?;
        match next(code, Place::At(from.at, from.state), exit) {
            Place::At(at, state) => match self.start(at) {
                Some(to) => note_way(ways, to, &exits, walks)?,
                None => open.push(Open {
                    at,
                    state,
                    exits,
                    point: owner,
                })?,
            },
            Place::Reports(_, _) => walks.broken = exits,
            Place::Ended => {}
        }
        Ok(())
    }
}

/// Labels an instruction, unless it has a label.
fn set_label(labels: &mut Vec<Option<Label>>, at: usize, point: usize, state: &State) {
    if let Some(found) = labels.get_mut(at) {
        if found.is_none() {
            *found = Some(Label {
                point,
                state: *state,
            });
        }
    }
}

/// Notes the exits that lead along a way, and along each other way to the same point.
fn note_way(
    ways: &[usize],
    to: usize,
    exits: &Vec<Exit>,
    walks: &mut Walks,
) -> Result<(), AllocError> {
    for (way, known) in ways.iter().enumerate() {
        if *known == to {
            if let Some(found) = walks.ways.get_mut(way) {
                *found = exits.clone()?;
            }
        }
    }
    Ok(())
}
