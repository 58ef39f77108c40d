//! The rows of a listing and of a path, before they are words.

ghost use Rattle.std.specs.Prelude.{◌≡◌, ℕ, ◌++◌, IfOk, OnOk};
ghost use Rattle.brc_lang.specs.Grammar.{IsFunction};
ghost use Rattle.brc_model.specs.Paths.{At};
ghost use Rattle.brc_check.specs.Entries.{end_of};
ghost use Rattle.brc_explain.specs.Rows.{way_word, row, first_rows, IsListing, way_of, state_of, reported_by, step_rows, path_rows, AreRowsOf};

use crate::walking::reached;
use brc_check::{CheckCode, Exit, Path, State, Step, first_states, follow};
use brc_lang::{Function, Instr, Sequence};
use std::alloc::{AllocError, Global};

/// The row of an instruction in a listing.
#[derive(Clone, Copy)]
pub struct Row {
    pub at: usize,
    /// The state before the instruction, or `None` if no path is known to reach it.
    pub before: Option<State>,
    /// Whether it is the instruction at fault.
    pub is_marked: bool,
}

/// Which way a step leads.
#[derive(Clone, Copy)]
pub enum Way {
    /// To the next instruction, or where the instruction leads in any case.
    Onward,
    /// To the target behind `else`.
    Otherwise,
    /// Back to the target of `again`.
    Back,
}

impl Way {
    /// Returns its word: `ok`, `else` or `back`.
    pub fn word(self) -> &'static str
        ensures { result.now ≡ way_word self }
    {
        match self {
            Way::Onward => "ok",
            Way::Otherwise => "else",
            Way::Back => "back",
        }
    }
}

/// The row of a step in a path.
#[derive(Clone, Copy)]
pub struct StepRow {
    pub at: usize,
    pub way: Way,
    /// The state at the point to which it leads, unless it ends the call.
    pub after: Option<State>,
    /// The code that the instruction reports, if the step ends so.
    pub reported: Option<CheckCode>,
}

/// The rows of one path, or of two.
#[derive(Drop)]
pub enum StepRows {
    One(Sequence<StepRow>),
    Two(Sequence<StepRow>, Sequence<StepRow>),
}

/// Returns the row of the instruction at a point.
fn row_at(entries: &[Option<State>], fault: Option<usize>, at: usize) -> Row
    ensures { result ≡ row entries.now fault at }
{
    Row {
        at,
        before: if at < entries.len() {
            entries[at]
        } else {
            None
        },
        is_marked: match fault {
            Some(point) => point == at,
            None => false,
        },
    }
}

/// Returns the rows of this many instructions.
fn first_rows(
    alloc: Global,
    entries: &[Option<State>],
    fault: Option<usize>,
    count: usize,
) -> Result<Sequence<Row>, AllocError>
    ensures { IfOk result (λ rows. rows ≡ first_rows entries.now fault count) }
{
    let mut rows = Sequence::new(alloc);
    for at in 0..count {
        rows.push(row_at(entries, fault, at))?;
    }
    Ok(rows)
}

/// Returns the rows of a function's listing, with the mark at the point at fault, if there is one.
pub fn listing_of(
    alloc: Global,
    function: &Function,
    fault: Option<usize>,
) -> Result<Sequence<Row>, AllocError>
    requires { IsFunction function.now }
    ensures { IfOk result (IsListing function.now fault) }
{
    let entries = first_states(alloc, function)?;
    first_rows(alloc, entries.as_slice(), fault, function.code.len())
}

/// Returns which way the exit of the instruction leads.
fn way_of(instr: Instr, exit: Exit) -> Way
    ensures { result ≡ way_of instr exit }
{
    match exit {
        Exit::Success => Way::Onward,
        Exit::Fault => match instr {
            Instr::Goto { .. } => Way::Onward,
            Instr::Again { .. } => Way::Back,
            _ => match instr.jump() {
                None => Way::Onward,
                Some(_) => Way::Otherwise,
            },
        },
    }
}

/// Returns the state in which a step reaches a point.
fn after_of(step: &Step) -> Option<State>
    ensures { (at : ℕ) → result ≡ state_of (end_of at step.now) }
{
    match step {
        Step::To(_, after) => Some(*after),
        Step::Ends | Step::Error(_) => None,
    }
}

/// Returns the code that a step reports.
fn reported_of(step: &Step) -> Option<CheckCode>
    ensures { (at : ℕ) → result ≡ reported_by (end_of at step.now) }
{
    match step {
        Step::Error(reported) => Some(*reported),
        Step::To(_, _) | Step::Ends => None,
    }
}

/// Appends the row of the step from a point in this state by the exit, if the code has that point.
fn push_step(
    rows: &mut Sequence<StepRow>,
    code: &[Instr],
    at: usize,
    before: &State,
    exit: Exit,
) -> Result<(), AllocError>
    ensures { OnOk result (rows.new ≡ rows.old ++ step_rows code.now (At at before.now) exit) }
{
    if at >= code.len() {
        return Ok(());
    }
    let step = follow(code, at, before, exit);
    rows.push(StepRow {
        at,
        way: way_of(code[at], exit),
        after: after_of(&step),
        reported: reported_of(&step),
    })
}

/// Returns the rows of the path that takes these exits from the function's first instruction.
pub fn path_rows(
    alloc: Global,
    function: &Function,
    exits: &[Exit],
) -> Result<Sequence<StepRow>, AllocError>
    ensures { IfOk result (λ rows. rows ≡ path_rows function.now exits.now) }
{
    let code = function.code.as_slice();
    let mut rows = Sequence::new(alloc);
    for taken in 0..exits.len() {
        if let Some((at, before)) = reached(function, &exits[..taken]) {
            push_step(&mut rows, code, at, &before, exits[taken])?;
        }
    }
    Ok(rows)
}

/// Returns the rows of the path, or of the two paths, that lead to a refusal in this function.
pub fn rows_of(alloc: Global, function: &Function, path: &Path) -> Result<StepRows, AllocError>
    ensures { IfOk result (AreRowsOf function.now path.now) }
{
    match path {
        Path::Reports(exits) => Ok(StepRows::One(path_rows(alloc, function, exits.as_slice())?)),
        Path::Differ(exits, others) => {
            let rows = path_rows(alloc, function, exits.as_slice())?;
            let more = path_rows(alloc, function, others.as_slice())?;
            Ok(StepRows::Two(rows, more))
        }
    }
}
