//! The judgement of one function by one set of rules.

use crate::modules::note_modules;
use crate::seen::Seen;
use crate::unit::{Known, Unit};
use brc_c_flow::{Flow, Program, flow_of, flow_reason_text};
use brc_c_graph::Graph;
use brc_c_image::Size;
use brc_c_judge::{Verdict, judge_function};
use brc_c_report::{Judged, add_findings};
use brc_c_store::Rules;
use brc_c_tree::{Body, Function, reason_text};
use std::alloc::AllocError;

/// What a function is judged by.
#[derive(Clone, Copy)]
pub(crate) struct Judging<'a> {
    pub(crate) known: &'a Known,
    pub(crate) unit: &'a Unit,
    /// The number of its file among those that are read.
    pub(crate) file: usize,
    pub(crate) rules: Rules,
    /// Whether these rules are asked for, and so a function that isn't read by them has no verdict.
    pub(crate) counts: bool,
}

/// Judges a function of a unit, and adds what is found to what was seen of it.
pub(crate) fn judge(
    judging: &Judging<'_>,
    function: &Function,
    seen: &mut Seen,
) -> Result<(), AllocError> {
    match read_flow(judging, function, seen)? {
        Some(flow) => judge_flow(judging, function, &flow, seen),
        None => Ok(()),
    }
}

/// Judges a function by both sets of rules, which read the same text.
pub(crate) fn judge_by_both(
    locked: &Judging<'_>,
    free: &Judging<'_>,
    function: &Function,
    seen: &mut Seen,
) -> Result<(), AllocError> {
    match read_flow(free, function, seen)? {
        Some(flow) => {
            judge_flow(locked, function, &flow, seen)?;
            judge_flow(free, function, &flow, seen)
        }
        None => Ok(()),
    }
}

/// Returns what is made of a function, if it is read and its recursion has an end. No set of rules changes it.
fn read_flow(
    judging: &Judging<'_>,
    function: &Function,
    seen: &mut Seen,
) -> Result<Option<Flow>, AllocError> {
    let known = judging.known;
    let counts = judging.counts;
    let alloc = known.alloc;
    if let Body::NotRead(why) = &function.body {
        if counts {
            let reason = reason_text(alloc, &known.symbols, why.reason)?;
            seen.hinder(why.place, reason);
        }
        return Ok(None);
    }
    if known.own.is_unsettled(judging.file, function.name) {
        if counts {
            seen.hinder(function.place, String::from_str(alloc, UNSETTLED)?);
        }
        return Ok(None);
    }
    let program = Program {
        symbols: &known.symbols,
        types: &judging.unit.types,
        tables: &known.tables,
        own: known.own.functions(judging.file),
        usage: &judging.unit.usage,
    };
    Ok(Some(flow_of(alloc, &program, function)?))
}

fn judge_flow(
    judging: &Judging<'_>,
    function: &Function,
    flow: &Flow,
    seen: &mut Seen,
) -> Result<(), AllocError> {
    match flow {
        Flow::NoObjects => Ok(()),
        Flow::NotRead(why) => {
            if judging.counts {
                let known = judging.known;
                let reason = flow_reason_text(known.alloc, &known.symbols, why.reason)?;
                seen.hinder(why.place, reason);
            }
            Ok(())
        }
        Flow::Graph(graph) => judge_graph(judging, function, graph, seen),
    }
}

fn judge_graph(
    judging: &Judging<'_>,
    function: &Function,
    graph: &Graph,
    seen: &mut Seen,
) -> Result<(), AllocError> {
    let known = judging.known;
    let rules = judging.rules;
    let alloc = known.alloc;
    let has_lost = add_lost(known, judging.unit, function, seen)?;
    add_assumed(known, graph, seen)?;
    let bytes = known.symbols.text(function.name);
    let name = String::from_utf8_lossy(alloc, bytes)?;
    let judged = Judged {
        graph,
        name: name.as_str(),
        rules,
        has_lost,
    };
    let verdict = judge_function(alloc, rules, graph, bytes)?;
    if seen.shows_modules && judging.counts {
        note_modules(alloc, rules, &verdict, seen)?;
    }
    add_verdict(judging, function, &judged, &verdict, seen)
}

/// Adds what the verdict on a function says to what was seen of it.
fn add_verdict(
    judging: &Judging<'_>,
    function: &Function,
    judged: &Judged<'_>,
    verdict: &Verdict,
    seen: &mut Seen,
) -> Result<(), AllocError> {
    let alloc = judging.known.alloc;
    match verdict {
        Verdict::Right(..) => Ok(()),
        Verdict::Wrong(faults) => {
            add_findings(alloc, judged, faults.as_slice(), &mut seen.findings)
        }
        Verdict::TooLarge(size) => {
            if judging.counts {
                seen.hinder(function.place, String::from_str(alloc, size_text(*size))?);
            }
            Ok(())
        }
        Verdict::Unconfirmed(_) => {
            seen.contradict(function.place, String::from_str(alloc, UNCONFIRMED)?);
            Ok(())
        }
        Verdict::NoImage => {
            seen.contradict(function.place, String::from_str(alloc, NO_IMAGE)?);
            Ok(())
        }
    }
}

const UNSETTLED: &str = "a recursion without a fixed point";

const UNCONFIRMED: &str =
    "internal error: the checker doesn't confirm what is found of it; report it with its text";

const NO_IMAGE: &str =
    "internal error: its module doesn't have exactly its paths; report it with its text";

fn size_text(size: Size) -> &'static str {
    match size {
        Size::Instructions => "more than 256 instructions",
        Size::Blocks => "more than 2048 blocks",
        Size::References => "more than 12 references at once",
    }
}

fn add_assumed(known: &Known, graph: &Graph, seen: &mut Seen) -> Result<(), AllocError> {
    for words in graph.assumed().iter() {
        seen.assume(String::from_str(known.alloc, graph.words(*words))?)?;
    }
    Ok(())
}

/// Notes the names for want of which lines of the function are left out, and returns whether there are any.
fn add_lost(
    known: &Known,
    unit: &Unit,
    function: &Function,
    seen: &mut Seen,
) -> Result<bool, AllocError> {
    let mut has_lost = false;
    for lost in unit.lost.iter() {
        let is_inside = lost.source == function.place.source
            && lost.first >= function.place.line
            && lost.last <= function.end.line;
        if is_inside {
            has_lost = true;
            let name = known.symbols.text(lost.name);
            seen.assume(String::from_utf8_lossy(known.alloc, name)?)?;
        }
    }
    Ok(has_lost)
}
