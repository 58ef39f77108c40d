//! Findings from faults: those of one reference are one finding.

use crate::blame::{Blame, blames_of, key_of, level_of};
use crate::choices::path_notes;
use crate::finding::Finding;
use crate::level::Level;
use crate::mending::mend_of;
use crate::naming::{local_text, name_of};
use crate::trail::Trail;
use crate::wording::sentence;
use brc_c_graph::Graph;
use brc_c_judge::Confirmed;
use brc_c_paths::{Fault, Step};
use brc_c_store::Rules;
use brc_c_text::Place;
use std::alloc::{AllocError, Global};

/// A function that was judged.
#[derive(Clone, Copy)]
pub struct Judged<'a> {
    pub graph: &'a Graph,
    /// The function's name.
    pub name: &'a str,
    /// The rules by which it was judged.
    pub rules: Rules,
    /// Whether lines of it are left out because nothing defines a name that `#if` asks for.
    pub has_lost: bool,
}

/// Adds what is found of a function. The faults by the rules of a global lock are to be added first: what they find
/// isn't found again by the free-threaded rules.
pub fn add_findings(
    alloc: Global,
    judged: &Judged<'_>,
    faults: &[Confirmed],
    findings: &mut Vec<Finding>,
) -> Result<(), AllocError> {
    // What the next path begins with, too, is walked once for both: a function may have hundreds of faults.
    let mut before = Trail::new(alloc);
    let mut walked = 0;
    for (at, confirmed) in faults.iter().enumerate() {
        let fault = confirmed.fault();
        let path = fault.path.as_slice();
        let shared = match faults.get(at.saturating_add(1)) {
            Some(next) => shared_steps(path, next.fault().path.as_slice()),
            None => walked,
        };
        if shared < walked {
            before = Trail::new(alloc);
            walked = 0;
        }
        let steps = path.get(walked..shared).unwrap_or(&[]);
        before.walk(judged.rules, judged.graph, steps)?;
        walked = shared;
        let mut trail = before.clone()?;
        trail.walk(
            judged.rules,
            judged.graph,
            path.get(shared..).unwrap_or(&[]),
        )?;
        add_fault(alloc, judged, fault, &trail, findings)?;
    }
    Ok(())
}

/// Returns how many steps both paths begin with.
fn shared_steps(path: &[Step], other: &[Step]) -> usize {
    path.iter()
        .zip(other.iter())
        .take_while(|(one, another)| **one == **another)
        .count()
}

/// Adds a fault to which this trail leads.
fn add_fault(
    alloc: Global,
    judged: &Judged<'_>,
    fault: &Fault,
    trail: &Trail,
    findings: &mut Vec<Finding>,
) -> Result<(), AllocError> {
    let Some(node) = judged.graph.node(fault.node) else {
        return Ok(());
    };
    let blames = blames_of(alloc, trail, node, fault.code)?;
    for blame in blames.iter() {
        add_blame(alloc, judged, trail, blame, findings)?;
    }
    Ok(())
}

fn add_blame(
    alloc: Global,
    judged: &Judged<'_>,
    trail: &Trail,
    blame: &Blame,
    findings: &mut Vec<Finding>,
) -> Result<(), AllocError> {
    let key = key_of(judged.graph, blame);
    for found in findings.iter_mut() {
        if found.key == key {
            return merge(alloc, judged, trail, blame, found);
        }
    }
    let finding = finding_of(alloc, judged, trail, blame)?;
    findings.push(finding)?;
    Ok(())
}

fn finding_of(
    alloc: Global,
    judged: &Judged<'_>,
    trail: &Trail,
    blame: &Blame,
) -> Result<Finding, AllocError> {
    let graph = judged.graph;
    let text = sentence(alloc, graph, trail, judged.name, blame)?;
    let path = path_notes(alloc, graph, trail)?;
    let mend = mend_of(alloc, graph, trail, blame)?;
    Ok(Finding {
        key: key_of(graph, blame),
        code: blame.code,
        level: level_of(graph, trail, judged.rules, judged.has_lost, blame),
        place: blame.node.place,
        name: reference_name(alloc, graph, trail, blame)?,
        text,
        others: Vec::new(alloc),
        path,
        mend,
        by_global_lock: judged.rules == Rules::GlobalLock,
        by_free_threaded: judged.rules == Rules::FreeThreaded,
        suppressed: None,
    })
}

/// Returns the name in the source of what a fault is about.
fn reference_name(
    alloc: Global,
    graph: &Graph,
    trail: &Trail,
    blame: &Blame,
) -> Result<Option<String>, AllocError> {
    let name = match (blame.object, blame.local) {
        (Some(id), local) => name_of(graph, trail, id, local),
        (None, Some(local)) => local_text(graph, local),
        (None, None) => None,
    };
    match name {
        Some(name) => Ok(Some(String::from_str(alloc, name)?)),
        None => Ok(None),
    }
}

/// Adds another fault of the same reference: the worst one, and of those the first, is reported.
fn merge(
    alloc: Global,
    judged: &Judged<'_>,
    trail: &Trail,
    blame: &Blame,
    found: &mut Finding,
) -> Result<(), AllocError> {
    if judged.rules == Rules::FreeThreaded {
        found.by_free_threaded = true;
        if found.by_global_lock {
            return Ok(());
        }
    }
    let place = blame.node.place;
    let level = level_of(judged.graph, trail, judged.rules, judged.has_lost, blame);
    if !comes_first(level, place, found) {
        return add_other(found, place);
    }
    let before = found.place;
    found.code = blame.code;
    found.level = level;
    found.place = place;
    found.text = sentence(alloc, judged.graph, trail, judged.name, blame)?;
    found.path = path_notes(alloc, judged.graph, trail)?;
    found.mend = mend_of(alloc, judged.graph, trail, blame)?;
    found.others.retain(|other| *other != place);
    add_other(found, before)
}

fn comes_first(level: Level, place: Place, found: &Finding) -> bool {
    if level.rank() == found.level.rank() {
        is_before(place, found.place)
    } else {
        level.rank() < found.level.rank()
    }
}

fn is_before(place: Place, other: Place) -> bool {
    if place.line == other.line {
        place.column < other.column
    } else {
        place.line < other.line
    }
}

/// Adds another place of a finding, unless it has it.
fn add_other(found: &mut Finding, place: Place) -> Result<(), AllocError> {
    if place == found.place || found.others.contains(&place) {
        return Ok(());
    }
    let mut at = found.others.len();
    for (number, other) in found.others.iter().enumerate() {
        if is_before(place, *other) {
            at = number;
            break;
        }
    }
    if at <= found.others.len() {
        found.others.insert(at, place)?;
    }
    Ok(())
}
