//! The check of several files, one after another. What is wrong with one of them keeps no other from being checked.

ghost use Rattle.std.specs.Prelude.{◌≡◌, ◌≤◌, ℕ, max, List, ◌++◌, map, option_map, IfOk, IfErr, OnOk, OnErr};
ghost use Rattle.std.specs.Prelude.{IfSome, MatchOption};
ghost use Rattle.std.specs.Io.KnownBytes.{Appends};
ghost use Rattle.brc_lang.specs.Written.{AppendsBeginning};
ghost use Rattle.brc_command.specs.declared.files.Format.TheVariants.{All as AllLines, Text as InLines, Json};
ghost use Rattle.brc_command.specs.declared.finding.Finding.{Finding};
ghost use Rattle.brc_command.specs.Accepted.{accepted_text};
ghost use Rattle.brc_command.specs.Commands.{IsModuleReason, Reports, LeavesReport};
ghost use Rattle.brc_command.specs.Files.{AreWritten, IsWritten, IsOutcome, IsNamedLine, IsObject};
ghost use Rattle.brc_command.specs.Files.{IsSomeObject, IsWriteReason, IsRefusalLine, AreRefusalLines, AreRefusalLinesOf};
ghost use Rattle.brc_command.specs.Files.{prefix, are_several};
ghost use Rattle.brc_lang.specs.declared.module.Module.{Module};
ghost use Rattle.brc_lang.specs.Grammar.{IsModule, Spells};
ghost use Rattle.brc_check.specs.Refusal.{IsRefusedFor};
ghost use Rattle.brc_command.specs.Findings.{finding_status};
ghost use Rattle.brc_command.specs.Lines.{refused_text, stop_text};

use crate::accepted::write_accepted;
use crate::carrying::{checked, checked_file};
use crate::finding::finding_of;
use crate::lines::{write_refused, write_stop};
use crate::load::Load;
use crate::loading::load_module;
use crate::object::object_line;
use crate::step_fault::StepFault;
use crate::stop::Stop;
use crate::texts::module_of;
use brc_check::{Checked, Refused};
use brc_explain::{is_of_one_function, refusal_of};
use brc_lang::{Module, one_reading, write_bytes, write_pieces};
use brc_world::NoMemory;
use std::alloc::Global;
use std::io;
use std::io::Write;

/// How what is found of files is written.
#[derive(Clone, Copy)]
pub enum Format<'a> {
    /// In lines, as `Asked::Check` writes them. If there are several files, each line begins with its file's name.
    Text,
    /// The same, but a refused module has a line for each function that is refused.
    All,
    /// As a JSON object for each file. A function that is named has to be there.
    Json { function: Option<&'a str> },
}

/// Checks the module of each file in this order, and returns the greatest of their exit statuses.
///
/// The status of an accepted module is 0, of a refused one 1, and otherwise that of `Stop::status`.
/// Standard error has the reason if a file's status isn't 0, unless the file's object gives it. An error of standard
/// output stops one file's report alone, and an error of standard error is ignored.
pub fn check_files<'a, L: Load, W: Write, E: Write>(
    alloc: Global,
    files: &[&'a str],
    format: Format<'a>,
    load: &mut L,
    out: &mut W,
    err: &mut E,
) -> u8
    ensures known { result ≤ 3 }
    ensures written { AreWritten
        (IsOutcome (L.may_give load.old) (L.may_lack load.old) (are_several files.now) format.entry)
        (map (λ file. file.now) files.now) (W.contents out.old) (W.contents out.new) (E.contents err.old)
        (E.contents err.new) result }
{
    let named = files.len() > 1;
    let mut greatest = 0;
    for file in files {
        let status = check_one(alloc, file, named, format, load, out, err);
        greatest = greater(greatest, status);
    }
    greatest
}

fn greater(status: u8, other: u8) -> u8
    ensures { result ≡ max status other }
{
    if status < other { other } else { status }
}

/// Checks the module of one file, and returns its status.
fn check_one<'a, L: Load, W: Write, E: Write>(
    alloc: Global,
    file: &'a str,
    named: bool,
    format: Format<'a>,
    load: &mut L,
    out: &mut W,
    err: &mut E,
) -> u8
    ensures known { result ≤ 3 }
    ensures written { IsWritten (IsOutcome (L.may_give load.old) (L.may_lack load.old) named format.entry) file.now
        (W.contents out.old) (W.contents out.new) (E.contents err.old) (E.contents err.new) result }
    ensures gives_no_more { (p bytes : List ℕ) → L.may_give load.new p bytes → L.may_give load.old p bytes }
    ensures lacks_no_more { (p : List ℕ) → L.may_lack load.new p → L.may_lack load.old p }
{
    match format {
        Format::Text => check_in_lines(alloc, file, named, load, out, err),
        Format::All => check_functions(alloc, file, named, load, out, err),
        Format::Json { function } => report_object(alloc, file, named, function, load, out, err),
    }
}

fn check_in_lines<'a, L: Load, W: Write, E: Write>(
    alloc: Global,
    file: &'a str,
    named: bool,
    load: &mut L,
    out: &mut W,
    err: &mut E,
) -> u8
    ensures known { result ≤ 3 }
    ensures written { IsWritten (IsOutcome (L.may_give load.old) (L.may_lack load.old) named InLines) file.now
        (W.contents out.old) (W.contents out.new) (E.contents err.old) (E.contents err.new) result }
    ensures gives_no_more { (p bytes : List ℕ) → L.may_give load.new p bytes → L.may_give load.old p bytes }
    ensures lacks_no_more { (p : List ℕ) → L.may_lack load.new p → L.may_lack load.old p }
{
    match write_checked(alloc, file, named, load, out) {
        Ok(()) => 0,
        Err(stop) => {
            let _ = write_named_stop(file, named, &stop, err);
            stop.status()
        }
    }
}

fn check_functions<'a, L: Load, W: Write, E: Write>(
    alloc: Global,
    file: &'a str,
    named: bool,
    load: &mut L,
    out: &mut W,
    err: &mut E,
) -> u8
    ensures known { result ≤ 3 }
    ensures written { IsWritten (IsOutcome (L.may_give load.old) (L.may_lack load.old) named AllLines) file.now
        (W.contents out.old) (W.contents out.new) (E.contents err.old) (E.contents err.new) result }
    ensures gives_no_more { (p bytes : List ℕ) → L.may_give load.new p bytes → L.may_give load.old p bytes }
    ensures lacks_no_more { (p : List ℕ) → L.may_lack load.new p → L.may_lack load.old p }
{
    match write_functions(alloc, file, named, load, out) {
        Ok(None) => 0,
        Ok(Some(lines)) => {
            let _ = write_bytes(lines.as_slice(), err);
            1
        }
        Err(stop) => {
            let _ = write_named_stop(file, named, &stop, err);
            stop.status()
        }
    }
}

fn report_object<'a, L: Load, W: Write, E: Write>(
    alloc: Global,
    file: &'a str,
    named: bool,
    function: Option<&'a str>,
    load: &mut L,
    out: &mut W,
    err: &mut E,
) -> u8
    ensures known { result ≤ 3 }
    ensures written { IsWritten (IsOutcome (L.may_give load.old) (L.may_lack load.old) named (Json function.entry))
        file.now (W.contents out.old) (W.contents out.new) (E.contents err.old) (E.contents err.new) result }
    ensures gives_no_more { (p bytes : List ℕ) → L.may_give load.new p bytes → L.may_give load.old p bytes }
    ensures lacks_no_more { (p : List ℕ) → L.may_lack load.new p → L.may_lack load.old p }
{
    match write_object(alloc, file, function, load, out) {
        Ok(status) => status,
        Err(stop) => {
            let _ = write_named_stop(file, named, &stop, err);
            stop.status()
        }
    }
}

/// Checks the module of the file and writes the line about an accepted one.
fn write_checked<'a, L: Load, W: Write>(
    alloc: Global,
    file: &'a str,
    named: bool,
    load: &mut L,
    out: &mut W,
) -> Result<(), Stop<'a>>
    ensures whole { OnOk result (Reports (IsNamedLine (L.may_give load.old) named file.now) (W.contents out.old)
        (W.contents out.new)) }
    ensures stopped { IfErr result (IsModuleReason (L.may_give load.old) (L.may_lack load.old) file.now) }
    ensures left { IfErr result (λ e. LeavesReport (IsNamedLine (L.may_give load.old) named file.now) e
        (W.contents out.old) (W.contents out.new)) }
    ensures gives_no_more { (p bytes : List ℕ) → L.may_give load.new p bytes → L.may_give load.old p bytes }
    ensures lacks_no_more { (p : List ℕ) → L.may_lack load.new p → L.may_lack load.old p }
{
    let checked = match checked_file(alloc, file, load) {
        Ok(checked) => checked,
        Err(stop) => return Err(stop),
    };
    match write_named_accepted(file, named, &checked, out) {
        Ok(()) => Ok(()),
        Err(_) => Err(Stop::Fault(StepFault::Output)),
    }
}

/// Checks the module of the file, and writes the line about an accepted one. Of a refused one it returns the lines, one
/// for each function that is refused.
fn write_functions<'a, L: Load, W: Write>(
    alloc: Global,
    file: &'a str,
    named: bool,
    load: &mut L,
    out: &mut W,
) -> Result<Option<Vec<u8>>, Stop<'a>>
    ensures whole { IfOk result (λ lines. MatchOption lines
        (Reports (IsNamedLine (L.may_give load.old) named file.now) (W.contents out.old) (W.contents out.new))
        (λ text. (W.contents out.new ≡ W.contents out.old)
        × AreRefusalLinesOf (L.may_give load.old) named file.now text.items)) }
    ensures stopped { IfErr result (IsModuleReason (L.may_give load.old) (L.may_lack load.old) file.now) }
    ensures left { IfErr result (λ e. LeavesReport (IsNamedLine (L.may_give load.old) named file.now) e
        (W.contents out.old) (W.contents out.new)) }
    ensures gives_no_more { (p bytes : List ℕ) → L.may_give load.new p bytes → L.may_give load.old p bytes }
    ensures lacks_no_more { (p : List ℕ) → L.may_lack load.new p → L.may_lack load.old p }
{
    let bytes = load_module(alloc, file, load)?;
    match checked(alloc, bytes.as_slice()) {
        Ok(checked) => match write_named_accepted(file, named, &checked, out) {
            Ok(()) => Ok(None),
            Err(_) => Err(Stop::Fault(StepFault::Output)),
        },
        Err(StepFault::Refused(refused)) => {
            let lines = lines_of_text(alloc, bytes.as_slice(), file, named, &refused)?;
            Ok(Some(lines))
        }
        Err(fault) => Err(Stop::Fault(fault)),
    }
}

/// Returns a line for each function of the bytes' module that is refused, the first of which is this one.
// The check has dropped the module, so the text is read again. It spells no other module.
fn lines_of_text(
    alloc: Global,
    bytes: &[u8],
    file: &str,
    named: bool,
    first: &Refused,
) -> Result<Vec<u8>, NoMemory>
    requires { (m : Module) × Spells bytes.now m × IsRefusedFor m.functions first.now }
    ensures { IfOk result (λ text. (m : Module) × Spells bytes.now m
        × AreRefusalLines m.functions named file.now text.items) }
{
    one_reading();
    let Ok(module) = module_of(alloc, bytes) else {
        return Err(NoMemory);
    };
    lines_of(alloc, &module, file, named, first)
}

/// Returns a line for each function of the module that is refused, the first of which is this one.
fn lines_of(
    alloc: Global,
    module: &Module,
    file: &str,
    named: bool,
    first: &Refused,
) -> Result<Vec<u8>, NoMemory>
    requires fits { IsModule «module».now }
    requires refusal { IsRefusedFor «module».now.functions first.now }
    ensures { IfOk result (λ text. AreRefusalLines «module».now.functions named file.now text.items) }
{
    let mut text = line_of(alloc, file, named, first)?;
    for number in 0..module.functions.len() {
        let found = other_line(alloc, module, file, named, first, number)?;
        if let Some(line) = found {
            text.extend_from_slice(line.as_slice())?;
        }
    }
    Ok(text)
}

/// Returns the line of the function of this number, if it is refused and isn't the first one.
fn other_line(
    alloc: Global,
    module: &Module,
    file: &str,
    named: bool,
    first: &Refused,
    number: usize,
) -> Result<Option<Vec<u8>>, NoMemory>
    requires { IsModule «module».now }
    ensures { IfOk result (λ found. IfSome found
        (λ line. IsRefusalLine «module».now.functions named file.now line.items)) }
{
    let Ok(found) = refusal_of(alloc, module, number) else {
        return Err(NoMemory);
    };
    match found {
        Some(refused) if !is_of_one_function(&refused, first) => {
            let line = line_of(alloc, file, named, &refused)?;
            Ok(Some(line))
        }
        _ => Ok(None),
    }
}

/// Returns the line of a refusal.
fn line_of(alloc: Global, file: &str, named: bool, refused: &Refused) -> Result<Vec<u8>, NoMemory>
    ensures { IfOk result (λ text. text.items ≡ prefix named file.now ++ refused_text refused.now) }
{
    let mut text = Vec::new(alloc);
    match write_named_refused(file, named, refused, &mut text) {
        Ok(()) => Ok(text),
        // A vector refuses bytes only for want of memory.
        Err(_) => Err(NoMemory),
    }
}

/// Writes the object of what is found of the file, and returns its status.
fn write_object<'a, L: Load, W: Write>(
    alloc: Global,
    file: &str,
    function: Option<&'a str>,
    load: &mut L,
    out: &mut W,
) -> Result<u8, Stop<'a>>
    ensures whole { IfOk result (λ status. (finding : Finding) × (status ≡ finding_status finding)
        × Reports (IsObject (L.may_give load.old) (L.may_lack load.old) file.now
        (option_map (λ name. name.now) function.entry) finding) (W.contents out.old) (W.contents out.new)) }
    ensures known { IfOk result (λ status. status ≤ 3) }
    ensures stopped { IfErr result IsWriteReason }
    ensures left { IfErr result (λ e. LeavesReport (IsSomeObject (L.may_give load.old) (L.may_lack load.old) file.now
        (option_map (λ name. name.now) function.entry)) e (W.contents out.old) (W.contents out.new)) }
    ensures gives_no_more { (p bytes : List ℕ) → L.may_give load.new p bytes → L.may_give load.old p bytes }
    ensures lacks_no_more { (p : List ℕ) → L.may_lack load.new p → L.may_lack load.old p }
{
    let finding = finding_of(alloc, file, function, load);
    let Ok(text) = object_line(alloc, file, &finding, load.why()) else {
        return Err(Stop::Fault(StepFault::NoMemory));
    };
    match write_bytes(text.as_slice(), out) {
        Ok(()) => Ok(finding.status()),
        Err(_) => Err(Stop::Fault(StepFault::Output)),
    }
}

/// Writes what a line of the file begins with: its name, if there are several files.
fn write_name<W: Write>(file: &str, named: bool, writer: &mut W) -> io::Result<()>
    ensures whole { OnOk result (Appends (W.contents writer.old) (W.contents writer.new) (prefix named file.now)) }
    ensures begun { OnErr result (AppendsBeginning (W.contents writer.old) (W.contents writer.new)
        (prefix named file.now)) }
{
    if named {
        write_pieces(&[file.as_bytes(), b": "], writer)
    } else {
        write_bytes(b"", writer)
    }
}

/// Writes the line about an accepted module.
fn write_named_accepted<W: Write>(
    file: &str,
    named: bool,
    checked: &Checked,
    writer: &mut W,
) -> io::Result<()>
    ensures whole { OnOk result (Appends (W.contents writer.old) (W.contents writer.new)
        (prefix named file.now ++ accepted_text checked.now.module)) }
    ensures begun { OnErr result (AppendsBeginning (W.contents writer.old) (W.contents writer.new)
        (prefix named file.now ++ accepted_text checked.now.module)) }
{
    write_name(file, named, writer)?;
    write_accepted(checked, writer)
}

/// Writes the reason's line.
fn write_named_stop<W: Write>(
    file: &str,
    named: bool,
    stop: &Stop<'_>,
    writer: &mut W,
) -> io::Result<()>
    ensures whole { OnOk result (Appends (W.contents writer.old) (W.contents writer.new)
        (prefix named file.now ++ stop_text stop.now)) }
    ensures begun { OnErr result (AppendsBeginning (W.contents writer.old) (W.contents writer.new)
        (prefix named file.now ++ stop_text stop.now)) }
{
    write_name(file, named, writer)?;
    write_stop(stop, writer)
}

/// Writes the line of a refusal.
fn write_named_refused<W: Write>(
    file: &str,
    named: bool,
    refused: &Refused,
    writer: &mut W,
) -> io::Result<()>
    ensures whole { OnOk result (Appends (W.contents writer.old) (W.contents writer.new)
        (prefix named file.now ++ refused_text refused.now)) }
{
    write_name(file, named, writer)?;
    write_refused(refused, writer)
}
