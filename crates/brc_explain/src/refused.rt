//! The explanation of a module that is refused.

ghost use Rattle.std.specs.Prelude.{◌≡◌, ◌↔◌, Contains, IfOk, IfSome, IsErrOf, IsTrue, MatchOption};
ghost use Rattle.brc_lang.specs.Grammar.{IsModule};
ghost use Rattle.brc_check.specs.Refusal.{IsRefusal, IsRefusedFor, IsForMemory};
ghost use Rattle.brc_explain.specs.declared.fault.ExplainFault.TheVariants.{NoMemory};
ghost use Rattle.brc_explain.specs.Rows.{IsNamed, NoneNamed, ShowsRefusal, LeadToRefusal};

use crate::called::write_called;
use crate::fault::ExplainFault;
use crate::forms::write_forms;
use crate::joining::write_mend;
use crate::led::points_led_to;
use crate::listing::{Remarks, width_of, write_listing};
use crate::path_text::{Walk, write_path};
use crate::refusals::{is_of_one_function, refusal_asked, refusal_of};
use crate::rows::{Row, StepRow, StepRows, listing_of, rows_of};
use crate::state_text::write_legend;
use crate::walking::reached;
use crate::why::{write_differences, write_why};
use brc_check::{CheckCode, Exit, Path, Refused, path_to};
use brc_lang::{
    Function, Instr, Module, Name, Sequence, Version, write_bytes, write_number, write_pieces,
};
use brc_pages::{
    Page, Topic, page_of, write_heading, write_in, write_paragraph, write_section, write_title,
};
use brc_report::{Paint, Role};
use std::alloc::{AllocError, Global};
use std::io;
use std::io::Write;

/// Writes why the checker refuses a function of the module: the one of the number `only`, if it is refused, or else the
/// one that `check` names. There is a listing of the function, a path that leads to the fault or the two paths that
/// differ, and the meaning of the code; and a line for each other function that is refused. If the function of the
/// number `only` is accepted, it is listed first.
///
/// Returns `NoMemory` if memory is refused, also to `check`, and `Output` if the writer makes an error.
pub fn explain_refused<W: Write>(
    alloc: Global,
    module: &Module,
    refused: &Refused,
    only: Option<usize>,
    paint: Paint,
    out: &mut W,
) -> Result<(), ExplainFault>
    requires fits { IsModule «module».now }
    requires refusal { IsRefusal «module».now.functions refused.now }
    // The check that ran out of memory has nothing to explain.
    ensures memory { IsForMemory refused.now → IsErrOf result NoMemory }
{
    if refused.code == CheckCode::NoMemory {
        return Err(ExplainFault::NoMemory);
    }
    let asked = refusal_asked(alloc, module, refused, only)?;
    explain_reported(alloc, module, &asked, only, paint, out)?;
    write_others(alloc, module, &asked, paint, out)
}

/// What is shown of a refusal before it is words: the function at fault, its listing, and the paths to the fault.
#[derive(Drop)]
pub struct Shown<'a> {
    pub function: &'a Function,
    pub listing: Sequence<Row>,
    pub path: Path,
    pub steps: StepRows,
}

/// Returns what is shown of the refusal.
pub fn shown_of<'a>(
    alloc: Global,
    module: &'a Module,
    refused: &Refused,
) -> Result<Shown<'a>, AllocError>
    requires fits { IsModule «module».now }
    requires refusal { IsRefusedFor «module».now.functions refused.now }
    ensures { IfOk result (λ s. ShowsRefusal «module».now.functions refused.now s.function.now s.listing s.path
        s.steps) }
{
    let path = path_to(alloc, module, refused)?;
    let Some(function) = function_named(module.functions.as_slice(), &refused.function) else {
        unreachable!()
    };
    let listing = listing_of(alloc, function, Some(refused.at))?;
    let steps = rows_of(alloc, function, &path)?;
    Ok(Shown {
        function,
        listing,
        path,
        steps,
    })
}

/// Returns the steps of a path that leads to the refusal, or of the two paths that differ there.
pub fn steps_to(alloc: Global, module: &Module, refused: &Refused) -> Result<StepRows, AllocError>
    requires fits { IsModule «module».now }
    requires refusal { IsRefusedFor «module».now.functions refused.now }
    ensures { IfOk result (LeadToRefusal «module».now.functions refused.now) }
{
    let Shown { steps, .. } = shown_of(alloc, module, refused)?;
    Ok(steps)
}

/// Writes why the checker refuses the function, if it isn't for want of memory.
fn explain_reported<W: Write>(
    alloc: Global,
    module: &Module,
    refused: &Refused,
    only: Option<usize>,
    paint: Paint,
    out: &mut W,
) -> Result<(), ExplainFault>
    requires fits { IsModule «module».now }
    requires refusal { IsRefusedFor «module».now.functions refused.now }
{
    let shown = shown_of(alloc, module, refused)?;
    let page = page_of(Topic::Check(refused.code));
    write_head(&page, module.version, refused, paint, out)?;
    let functions = module.functions.as_slice();
    if let Some(asked) = asked_for(functions, only, &refused.function) {
        write_innocence(asked, refused, out)?;
        let listing = listing_of(alloc, asked, None)?;
        list_function(
            alloc,
            functions,
            asked,
            listing.as_slice(),
            &page,
            paint,
            out,
        )?;
    }
    let function = shown.function;
    list_function(
        alloc,
        functions,
        function,
        shown.listing.as_slice(),
        &page,
        paint,
        out,
    )?;
    write_paths(alloc, functions, refused, &shown, paint, out)?;
    write_heading("The instructions, and what they are in C", paint, out)?;
    write_forms(function.code.as_slice(), out)?;
    write_called(functions, function.code.as_slice(), paint, out)?;
    write_meaning(&page, &shown, refused, paint, out)?;
    Ok(())
}

/// Writes that the function that was asked for is accepted, and which one isn't.
fn write_innocence<W: Write>(asked: &Function, refused: &Refused, out: &mut W) -> io::Result<()> {
    write_pieces(
        &[
            b"\n",
            asked.name.as_bytes(),
            b" is accepted. The module is refused for ",
            refused.function.as_bytes(),
            b".\n",
        ],
        out,
    )
}

/// Writes a line for each function that is refused, but for the one that is shown.
fn write_others<W: Write>(
    alloc: Global,
    module: &Module,
    shown: &Refused,
    paint: Paint,
    out: &mut W,
) -> Result<(), ExplainFault>
    requires fits { IsModule «module».now }
{
    let mut is_first = true;
    for number in 0..module.functions.len() {
        if let Some(other) = refusal_of(alloc, module, number)? {
            if !is_of_one_function(&other, shown) {
                if is_first {
                    write_heading("Also refused: --function NAME explains it", paint, out)?;
                }
                write_other(&other, paint, out)?;
                is_first = false;
            }
        }
    }
    Ok(())
}

fn write_other<W: Write>(other: &Refused, paint: Paint, out: &mut W) -> io::Result<()> {
    let page = page_of(Topic::Check(other.code));
    write_pieces(&[b"  ", other.function.as_bytes(), b" @"], out)?;
    write_number(other.at as u64, out)?;
    write_bytes(b"  ", out)?;
    write_title(page.code, page.title, paint, out)
}

fn write_head<W: Write>(
    page: &Page,
    version: Version,
    refused: &Refused,
    paint: Paint,
    out: &mut W,
) -> io::Result<()> {
    let name = refused.function.as_bytes();
    write_in(Role::Fault, &[b"refused"], paint, out)?;
    write_pieces(&[b": function ", name, b", instruction @"], out)?;
    write_number(refused.at as u64, out)?;
    write_bytes(b". ", out)?;
    write_title(page.code, page.title, paint, out)?;
    write_bytes(
        b"\nBelow, each instruction has its number and what the variables hold before it:\n",
        out,
    )?;
    write_legend(version, out)
}

/// Returns the function of this name.
fn function_named<'a>(functions: &'a [Function], name: &Name) -> Option<&'a Function>
    ensures { MatchOption result (NoneNamed functions.entry.now name.now)
        (λ f. IsNamed functions.entry.now name.now f.now) }
{
    for function in functions {
        if is_named(function, name) {
            return Some(function);
        }
    }
    None
}

/// Returns whether the function has the name.
fn is_named(function: &Function, name: &Name) -> bool
    ensures { IsTrue result ↔ (function.now.name ≡ name.now) }
{
    function.name.as_bytes() == name.as_bytes()
}

/// Returns the function of this number, unless it is the one of the name.
fn asked_for<'a>(
    functions: &'a [Function],
    only: Option<usize>,
    name: &Name,
) -> Option<&'a Function>
    ensures { IfSome result (λ f. Contains functions.entry.now f.now) }
{
    let number = only?;
    if number >= functions.len() {
        return None;
    }
    let function = &functions[number];
    if is_named(function, name) {
        return None;
    }
    Some(function)
}

/// Writes the listing of a function of the module, and what stands in it for a state that isn't known.
fn list_function<W: Write>(
    alloc: Global,
    functions: &[Function],
    function: &Function,
    rows: &[Row],
    page: &Page,
    paint: Paint,
    out: &mut W,
) -> Result<(), ExplainFault> {
    let led = points_led_to(alloc, function.code.as_slice())?;
    let remarks = Remarks {
        code: page.code,
        led: led.as_slice(),
    };
    write_listing(alloc, functions, function, rows, remarks, paint, out)?;
    if has_unknown(rows, led.as_slice()) {
        write_bytes(
            b"  (-: no path was followed up to there before the fault)\n",
            out,
        )?;
    }
    Ok(())
}

/// Returns whether one of the rows at these points has no state.
fn has_unknown(rows: &[Row], led: &[usize]) -> bool {
    for row in rows {
        if row.before.is_none() && led.contains(&row.at) {
            return true;
        }
    }
    false
}

/// Writes the path that leads to the refusal, or the two paths, and what is wrong there.
fn write_paths<W: Write>(
    alloc: Global,
    functions: &[Function],
    refused: &Refused,
    shown: &Shown<'_>,
    paint: Paint,
    out: &mut W,
) -> Result<(), ExplainFault> {
    let code = shown.function.code.as_slice();
    let walk = Walk {
        alloc,
        functions,
        code,
        width: width_of(alloc, functions, code)?,
        paint,
    };
    match &shown.steps {
        StepRows::One(rows) => write_one_path(walk, rows.as_slice(), out)?,
        StepRows::Two(rows, more) => {
            write_two_paths(walk, rows.as_slice(), more.as_slice(), out)?;
        }
    }
    match &shown.path {
        Path::Reports(exits) => {
            write_reported(functions, shown.function, exits.as_slice(), refused, out)?;
        }
        Path::Differ(exits, others) => {
            write_differing(
                shown.function,
                exits.as_slice(),
                others.as_slice(),
                refused,
                out,
            )?;
        }
    }
    Ok(())
}

fn write_one_path<W: Write>(
    walk: Walk<'_>,
    rows: &[StepRow],
    out: &mut W,
) -> Result<(), ExplainFault> {
    write_heading("A path to the fault", walk.paint, out)?;
    write_bytes(
        b"  On each line: the exit taken, and what the variables hold after it.\n",
        out,
    )?;
    write_path(walk, rows, out)?;
    write_bytes(b"\n", out)?;
    Ok(())
}

fn write_two_paths<W: Write>(
    walk: Walk<'_>,
    rows: &[StepRow],
    more: &[StepRow],
    out: &mut W,
) -> Result<(), ExplainFault> {
    write_heading("Two paths to the same instruction", walk.paint, out)?;
    write_bytes(
        b"  On each line: the exit taken, and what the variables hold after it.\n",
        out,
    )?;
    write_bytes(b"  The first path:\n", out)?;
    write_from_start(walk, rows, out)?;
    write_bytes(b"  The second path:\n", out)?;
    write_from_start(walk, more, out)
}

/// Writes the path, or that it is the start of the call.
fn write_from_start<W: Write>(
    walk: Walk<'_>,
    rows: &[StepRow],
    out: &mut W,
) -> Result<(), ExplainFault> {
    if rows.is_empty() {
        write_bytes(
            b"    at the start of the call, before any instruction\n",
            out,
        )?;
    }
    write_path(walk, rows, out)
}

/// Writes what is wrong at the end of the path that reports the code.
fn write_reported<W: Write>(
    functions: &[Function],
    function: &Function,
    exits: &[Exit],
    refused: &Refused,
    out: &mut W,
) -> io::Result<()> {
    let before = &exits[..exits.len().saturating_sub(1)];
    match reached(function, before) {
        Some((at, state)) => write_why(functions, function, before, at, &state, refused.code, out),
        None => Ok(()),
    }
}

/// Writes in which variables the two paths differ at the point.
fn write_differing<W: Write>(
    function: &Function,
    exits: &[Exit],
    others: &[Exit],
    refused: &Refused,
    out: &mut W,
) -> io::Result<()> {
    write_bytes(b"\n  At @", out)?;
    write_number(refused.at as u64, out)?;
    write_bytes(b" they differ:\n", out)?;
    match (reached(function, exits), reached(function, others)) {
        (Some((_, first)), Some((_, second))) => write_differences(&first, &second, out),
        _ => Ok(()),
    }
}

fn write_meaning<W: Write>(
    page: &Page,
    shown: &Shown<'_>,
    refused: &Refused,
    paint: Paint,
    out: &mut W,
) -> io::Result<()> {
    write_heading("What it means", paint, out)?;
    write_paragraph(page.meaning, out)?;
    write_section(page.rule_heading, page.rule, paint, out)?;
    write_heading("How to mend it", paint, out)?;
    write_mend(page, shown, refused, out)?;
    write_pieces(
        &[
            b"\nWith an example and its mended form: brc explain --code ",
            page.code.as_bytes(),
            b"\n",
        ],
        out,
    )
}
