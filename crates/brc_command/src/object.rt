//! What is found of a file as a JSON object, for programs.

ghost use Rattle.std.specs.Prelude.{◌≡◌, ℕ, List, IfOk, OnOk, codes, string_bytes};
ghost use Rattle.std.specs.Str.Lossy.{utf8_lossy};
ghost use Rattle.serde_json.specs.Data.{no_members, string, put as with_member};
ghost use Rattle.serde_json.specs.View.{view, members_view};
ghost use Rattle.brc_command.specs.Objects.{fault_verdict, verdict_of, function_of, at_of, code_of, number_or_null};
ghost use Rattle.brc_command.specs.Objects.{line_in, step_object, path_array, path_of, other_path_of, finding_object};
ghost use Rattle.brc_command.specs.Objects.{other_object, others_array, others_of, mend_of, place_or_null, place_of};
ghost use Rattle.brc_command.specs.Objects.{text_or_null, variable_of, first_members, IsObjectLine};

use crate::finding::{Finding, Other, Unreadable};
use crate::load::Unread;
use crate::step_fault::StepFault;
use crate::stop::Stop;
use brc_check::Refused;
use brc_explain::{Details, Place, StepRow, StepRows};
use brc_pages::{Topic, page_of};
use serde_json::{Map, Value, json, put};
use std::alloc::{AllocError, Global};

/// Returns the line with the object of what is found of the file; `why` says why it can't be read, if that is known.
pub fn object_line(
    alloc: Global,
    file: &str,
    finding: &Finding<'_>,
    why: Option<Unread>,
) -> Result<Vec<u8>, AllocError>
    ensures { IfOk result (λ text. IsObjectLine file.now finding.now text.items) }
{
    let mut text = object_of(alloc, file, finding, why)?.to_vec(alloc)?;
    text.push(b'\n')?;
    Ok(text)
}

/// Returns the object. No contract gives the words of its message.
fn object_of(
    alloc: Global,
    file: &str,
    finding: &Finding<'_>,
    why: Option<Unread>,
) -> Result<Value, AllocError>
    ensures { IfOk result (λ v. (message : List ℕ) × (view v ≡ finding_object file.now message finding.now)) }
{
    let (path, other_path) = paths_of(alloc, finding)?;
    let message = message_of(alloc, finding, why)?;
    let mut members = first_members(alloc, file, finding)?;
    put(&mut members, alloc, "mend", mend_of(alloc, finding)?)?;
    put(&mut members, alloc, "message", Value::String(message))?;
    put(&mut members, alloc, "other_path", other_path)?;
    put(&mut members, alloc, "path", path)?;
    add_last_members(alloc, finding, &mut members)?;
    Ok(Value::Object(members))
}

/// Adds the members that come last.
fn add_last_members(
    alloc: Global,
    finding: &Finding<'_>,
    members: &mut Map<String, Value>,
) -> Result<(), AllocError>
    ensures { OnOk result (members_view members.new.entries
        ≡ with_member (codes "verdict") (string (verdict_of finding.now))
        (with_member (codes "variable") (variable_of finding.now)
        (with_member (codes "place") (place_of finding.now) (members_view members.old.entries)))) }
{
    put(members, alloc, "place", place_of(alloc, finding)?)?;
    put(members, alloc, "variable", variable_of(alloc, finding)?)?;
    put(
        members,
        alloc,
        "verdict",
        Value::try_from_str(alloc, verdict_of(finding))?,
    )?;
    Ok(())
}

/// Returns the members that say where.
fn first_members(
    alloc: Global,
    file: &str,
    finding: &Finding<'_>,
) -> Result<Map<String, Value>, AllocError>
    ensures { IfOk result (λ m. members_view m.entries ≡ first_members file.now finding.now no_members) }
{
    let mut members = Map::new(alloc);
    put(&mut members, alloc, "also", others_of(alloc, finding)?)?;
    put(&mut members, alloc, "at", at_of(finding))?;
    put(&mut members, alloc, "code", code_of(alloc, finding)?)?;
    put(
        &mut members,
        alloc,
        "file",
        Value::try_from_str(alloc, file)?,
    )?;
    put(
        &mut members,
        alloc,
        "function",
        function_of(alloc, finding)?,
    )?;
    put(&mut members, alloc, "line", line_in(finding))?;
    Ok(members)
}

/// Returns what is found in one or two words.
fn verdict_of(finding: &Finding<'_>) -> &'static str
    ensures { result.now ≡ verdict_of finding.now }
{
    match finding {
        Finding::Accepted => "accepted",
        Finding::Refused(_) => "refused",
        Finding::Unreadable(_) => "unreadable",
        Finding::Stopped(Stop::UnreadableFile) => "unreadable",
        Finding::Stopped(Stop::NoFunction(_)) => "no function",
        Finding::Stopped(Stop::NoThread) => "no thread",
        Finding::Stopped(Stop::Fault(fault)) => fault_verdict(fault),
    }
}

fn fault_verdict(fault: &StepFault) -> &'static str
    ensures { result.now ≡ fault_verdict fault.now }
{
    match fault {
        StepFault::Text(_) | StepFault::Plan(_) => "unreadable",
        StepFault::Refused(_) => "refused",
        StepFault::NoFunction(_) => "no function",
        StepFault::NoMemory => "no memory",
        StepFault::Output => "cannot write",
    }
}

fn code_of(alloc: Global, finding: &Finding<'_>) -> Result<Value, AllocError>
    ensures { IfOk result (λ v. view v ≡ code_of finding.now) }
{
    match finding {
        Finding::Refused(located) => { Value::try_from_str(alloc, located.refused.code.name()) }
        Finding::Unreadable(unread) => Value::try_from_str(alloc, unread.fault.code.name()),
        Finding::Stopped(Stop::Fault(StepFault::Text(fault))) => {
            Value::try_from_str(alloc, fault.code.name())
        }
        _ => Ok(Value::Null),
    }
}

fn function_of(alloc: Global, finding: &Finding<'_>) -> Result<Value, AllocError>
    ensures { IfOk result (λ v. view v ≡ function_of finding.now) }
{
    match finding {
        Finding::Refused(located) => Ok(Value::String(name_of(alloc, &located.refused)?)),
        Finding::Stopped(Stop::NoFunction(name)) => Value::try_from_str(alloc, name),
        _ => Ok(Value::Null),
    }
}

/// Returns the name of the function at fault. It has ASCII alone.
fn name_of(alloc: Global, refused: &Refused) -> Result<String, AllocError>
    ensures { IfOk result (λ name. string_bytes name ≡ utf8_lossy refused.now.function) }
{
    String::from_utf8_lossy(alloc, refused.function.as_bytes())
}

/// Returns the number of the instruction at fault.
fn at_of(finding: &Finding<'_>) -> Value
    ensures { view result ≡ at_of finding.now }
{
    match finding {
        Finding::Refused(located) => Value::from(located.refused.at),
        _ => Value::Null,
    }
}

/// Returns the line at fault.
fn line_in(finding: &Finding<'_>) -> Value
    ensures { view result ≡ line_in finding.now }
{
    match finding {
        Finding::Refused(located) => number_or_null(located.line),
        Finding::Unreadable(unread) => Value::from(unread.fault.line),
        Finding::Stopped(Stop::Fault(StepFault::Text(fault))) => Value::from(fault.line),
        _ => Value::Null,
    }
}

fn number_or_null(number: Option<u64>) -> Value
    ensures { view result ≡ number_or_null number }
{
    match number {
        Some(number) => Value::from(number),
        None => Value::Null,
    }
}

/// Returns the refusals of the module's other functions.
fn others_of(alloc: Global, finding: &Finding<'_>) -> Result<Value, AllocError>
    ensures { IfOk result (λ v. view v ≡ others_of finding.now) }
{
    match finding {
        Finding::Refused(located) => others_array(alloc, located.others.as_slice()),
        _ => Ok(Value::Null),
    }
}

fn others_array(alloc: Global, others: &[Other]) -> Result<Value, AllocError>
    ensures { IfOk result (λ v. view v ≡ others_array others.now) }
{
    let mut objects = Vec::new(alloc);
    for other in others {
        objects.push(other_object(alloc, other)?)?;
    }
    Ok(Value::Array(objects))
}

fn other_object(alloc: Global, other: &Other) -> Result<Value, AllocError>
    ensures { IfOk result (λ v. view v ≡ other_object other.now) }
{
    let mut members = Map::new(alloc);
    put(&mut members, alloc, "at", Value::from(other.refused.at))?;
    put(
        &mut members,
        alloc,
        "code",
        Value::try_from_str(alloc, other.refused.code.name())?,
    )?;
    put(
        &mut members,
        alloc,
        "function",
        Value::String(name_of(alloc, &other.refused)?),
    )?;
    put(&mut members, alloc, "line", number_or_null(other.line))?;
    Ok(Value::Object(members))
}

/// Returns how it is mended.
fn mend_of(alloc: Global, finding: &Finding<'_>) -> Result<Value, AllocError>
    ensures { IfOk result (λ v. view v ≡ mend_of finding.now) }
{
    match finding {
        Finding::Refused(located) => Ok(Value::String(mend_in(alloc, &located.details)?)),
        Finding::Unreadable(unread) => Ok(Value::String(mend_in(alloc, &unread.details)?)),
        _ => Ok(Value::Null),
    }
}

fn mend_in(alloc: Global, details: &Details) -> Result<String, AllocError>
    ensures { IfOk result (λ mend. string_bytes mend ≡ utf8_lossy details.now.mend.items) }
{
    String::from_utf8_lossy(alloc, details.mend.as_slice())
}

/// Returns where the word at fault begins.
fn place_of(alloc: Global, finding: &Finding<'_>) -> Result<Value, AllocError>
    ensures { IfOk result (λ v. view v ≡ place_of finding.now) }
{
    match finding {
        Finding::Refused(located) => place_or_null(alloc, located.details.place),
        Finding::Unreadable(unread) => place_or_null(alloc, unread.details.place),
        _ => Ok(Value::Null),
    }
}

fn place_or_null(alloc: Global, place: Option<Place>) -> Result<Value, AllocError>
    ensures { IfOk result (λ v. view v ≡ place_or_null place) }
{
    match place {
        Some(place) => json!(in alloc; {"column": place.column, "line": place.line}),
        None => Ok(Value::Null),
    }
}

/// Returns the variable at fault.
fn variable_of(alloc: Global, finding: &Finding<'_>) -> Result<Value, AllocError>
    ensures { IfOk result (λ v. view v ≡ variable_of finding.now) }
{
    match finding {
        Finding::Refused(located) => text_or_null(alloc, located.details.variable),
        Finding::Unreadable(unread) => text_or_null(alloc, unread.details.variable),
        _ => Ok(Value::Null),
    }
}

fn text_or_null(alloc: Global, text: Option<&'static str>) -> Result<Value, AllocError>
    ensures { IfOk result (λ v. view v ≡ text_or_null text.entry) }
{
    match text {
        Some(text) => Value::try_from_str(alloc, text),
        None => Ok(Value::Null),
    }
}

/// Returns the path to a refusal, and the other one if two paths differ there.
fn paths_of(alloc: Global, finding: &Finding<'_>) -> Result<(Value, Value), AllocError>
    ensures first { IfOk result (λ paths. view paths.0 ≡ path_of finding.now) }
    ensures second { IfOk result (λ paths. view paths.1 ≡ other_path_of finding.now) }
{
    match finding {
        Finding::Refused(located) => match &located.steps {
            StepRows::One(rows) => Ok((path_of(alloc, rows.as_slice())?, Value::Null)),
            StepRows::Two(rows, others) => {
                let path = path_of(alloc, rows.as_slice())?;
                Ok((path, path_of(alloc, others.as_slice())?))
            }
        },
        _ => Ok((Value::Null, Value::Null)),
    }
}

/// Returns the steps of a path, each with its point and the way that it leads.
fn path_of(alloc: Global, rows: &[StepRow]) -> Result<Value, AllocError>
    ensures { IfOk result (λ v. view v ≡ path_array rows.now) }
{
    let mut steps = Vec::new(alloc);
    for row in rows {
        steps.push(step_object(alloc, row)?)?;
    }
    Ok(Value::Array(steps))
}

fn step_object(alloc: Global, row: &StepRow) -> Result<Value, AllocError>
    ensures { IfOk result (λ v. view v ≡ step_object row.now) }
{
    json!(in alloc; {"at": row.at, "exit": row.way.word()})
}

fn unreadable_message(alloc: Global, unread: &Unreadable) -> Result<String, AllocError> {
    let line = match unread.details.place {
        Some(place) => place.line,
        None => unread.fault.line,
    };
    let page = page_of(Topic::Read(unread.fault.code));
    format!(in alloc; "Line {} can't be read: {}.", line, page.title)
}

/// Returns what is found in a sentence for people.
fn message_of(
    alloc: Global,
    finding: &Finding<'_>,
    why: Option<Unread>,
) -> Result<String, AllocError> {
    match finding {
        Finding::Accepted => String::from_str(alloc, "The module is accepted."),
        Finding::Refused(located) => {
            let name = name_of(alloc, &located.refused)?;
            let page = page_of(Topic::Check(located.refused.code));
            format!(in alloc;
                "Instruction @{} of {} is refused: {}.",
                located.refused.at, name, page.title
            )
        }
        Finding::Unreadable(unread) => unreadable_message(alloc, unread),
        Finding::Stopped(Stop::UnreadableFile) => match why {
            Some(why) => format!(in alloc; "The file can't be read: {}.", why.words()),
            None => String::from_str(alloc, "The file can't be read."),
        },
        Finding::Stopped(Stop::NoFunction(name)) => {
            format!(in alloc; "The module has no function {name}.")
        }
        Finding::Stopped(_) => String::from_str(alloc, "Memory was refused."),
    }
}
