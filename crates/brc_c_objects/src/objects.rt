//! JSON objects, each with all members.

use crate::about::About;
use crate::members::Members;
use brc_c_report::{Finding, Level, Note, Wrong};
use brc_c_text::Place;
use serde_json::Value;
use std::alloc::{AllocError, Global};

/// The members of each object. Those that don't apply are null.
const NAMES: [&str; 16] = [
    "assumptions",
    "code",
    "column",
    "counts",
    "file",
    "function",
    "key",
    "level",
    "line",
    "mend",
    "message",
    "others",
    "path",
    "reservation",
    "rules",
    "verdict",
];

/// Returns the object of a finding. `assumed` are the names of which something is assumed in its function.
pub fn finding_object(
    about: &About<'_>,
    finding: &Finding,
    assumed: &[String],
) -> Result<Value, AllocError> {
    let mut members = Members::new(about.alloc);
    begin(about, "refused", Some(finding.place), &mut members)?;
    add_finding(about, finding, assumed, &mut members)?;
    Ok(members.into_value())
}

fn add_finding(
    about: &About<'_>,
    finding: &Finding,
    assumed: &[String],
    members: &mut Members,
) -> Result<(), AllocError> {
    members.set("assumptions", names_in(about.alloc, assumed)?)?;
    members.set("key", key_of(about, finding)?)?;
    add_places(about.alloc, finding, members)?;
    add_kind(finding, members)
}

/// Adds the other places of a finding, and the path that leads to the first one.
fn add_places(alloc: Global, finding: &Finding, members: &mut Members) -> Result<(), AllocError> {
    members.set("others", others_in(alloc, finding.others.as_slice())?)?;
    members.set("path", path_in(alloc, finding.path.as_slice())?)?;
    members.set("rules", rules_of(alloc, finding)?)
}

/// Returns the object of a function that isn't read, which ends at this place.
pub fn not_read_object(about: &About<'_>, place: Place, reason: &str) -> Result<Value, AllocError> {
    let mut members = Members::new(about.alloc);
    begin(about, "not read", Some(place), &mut members)?;
    members.set_text("message", reason)?;
    Ok(members.into_value())
}

/// Returns the object of a function that is right by assumptions, which is at this place.
pub fn assumed_object(
    about: &About<'_>,
    place: Place,
    assumed: &[String],
) -> Result<Value, AllocError> {
    let mut members = Members::new(about.alloc);
    begin(about, "accepted", Some(place), &mut members)?;
    members.set_text("message", "It is right by assumptions.")?;
    members.set("assumptions", names_in(about.alloc, assumed)?)?;
    Ok(members.into_value())
}

/// Returns the object of what is wrong with a suppression.
pub fn complaint_object(about: &About<'_>, place: Place, words: &str) -> Result<Value, AllocError> {
    let mut members = Members::new(about.alloc);
    begin(about, "suppression", Some(place), &mut members)?;
    members.set_text("level", "warning")?;
    members.set_text("message", words)?;
    Ok(members.into_value())
}

/// Returns the object of the counts, which come last. `line` is what people read of them.
pub fn counts_object(about: &About<'_>, counts: Value, line: &str) -> Result<Value, AllocError> {
    let mut members = Members::new(about.alloc);
    begin(about, "counts", None, &mut members)?;
    members.set("counts", counts)?;
    members.set_text("message", line)?;
    Ok(members.into_value())
}

/// Begins an object with what it is and where.
fn begin(
    about: &About<'_>,
    verdict: &str,
    place: Option<Place>,
    members: &mut Members,
) -> Result<(), AllocError> {
    clear(members)?;
    members.set_text("verdict", verdict)?;
    members.set_some("function", about.function)?;
    match place {
        Some(place) => {
            members.set_text("file", about.file(place))?;
            add_place(place, members)
        }
        None => Ok(()),
    }
}

/// Sets all members to null.
fn clear(members: &mut Members) -> Result<(), AllocError> {
    for name in NAMES {
        members.set(name, Value::Null)?;
    }
    Ok(())
}

fn add_place(place: Place, members: &mut Members) -> Result<(), AllocError> {
    members.set_number("line", place.line)?;
    members.set_number("column", place.column)
}

/// Adds what kind of fault it is, how certain, and what to write.
fn add_kind(finding: &Finding, members: &mut Members) -> Result<(), AllocError> {
    members.set_text("message", finding.text.as_str())?;
    members.set_text("code", finding.code.name())?;
    members.set_text("level", finding.level.text())?;
    if let Level::Warning(reservation) = finding.level {
        members.set_text("reservation", reservation.text())?;
    }
    match &finding.mend {
        Some(mend) => members.set_text("mend", mend.as_str()),
        None => Ok(()),
    }
}

/// Returns the rules by which it is a fault.
fn rules_of(alloc: Global, finding: &Finding) -> Result<Value, AllocError> {
    let mut rules = Vec::new(alloc);
    if finding.by_global_lock {
        rules.push(Value::try_from_str(alloc, "gil")?)?;
    }
    if finding.by_free_threaded {
        rules.push(Value::try_from_str(alloc, "free-threaded")?)?;
    }
    Ok(Value::Array(rules))
}

fn others_in(alloc: Global, places: &[Place]) -> Result<Value, AllocError> {
    let mut others = Vec::new(alloc);
    for place in places {
        others.push(place_object(alloc, *place)?)?;
    }
    Ok(Value::Array(others))
}

fn path_in(alloc: Global, notes: &[Note]) -> Result<Value, AllocError> {
    let mut path = Vec::new(alloc);
    for note in notes {
        path.push(step_object(alloc, note)?)?;
    }
    Ok(Value::Array(path))
}

/// Returns the reference of a finding: where it was made, its name in the source, and what is wrong with it.
fn key_of(about: &About<'_>, finding: &Finding) -> Result<Value, AllocError> {
    let mut members = Members::new(about.alloc);
    add_key(about, finding, &mut members)?;
    Ok(members.into_value())
}

fn add_key(about: &About<'_>, finding: &Finding, members: &mut Members) -> Result<(), AllocError> {
    let made = finding.key.made;
    members.set_text("file", about.file(made))?;
    add_place(made, members)?;
    members.set("name", Value::Null)?;
    if let Some(name) = &finding.name {
        members.set_text("name", name.as_str())?;
    }
    members.set_text("wrong", wrong_text(finding.key.wrong))
}

fn wrong_text(wrong: Wrong) -> &'static str {
    match wrong {
        Wrong::Lost => "lost",
        Wrong::GivenUp => "given up",
        Wrong::Missing => "missing",
        Wrong::Unprotected => "unprotected",
        Wrong::Open => "open",
        Wrong::RunsOff => "runs off",
    }
}

fn place_object(alloc: Global, place: Place) -> Result<Value, AllocError> {
    let mut members = Members::new(alloc);
    add_place(place, &mut members)?;
    Ok(members.into_value())
}

fn step_object(alloc: Global, note: &Note) -> Result<Value, AllocError> {
    let mut members = Members::new(alloc);
    add_place(note.place, &mut members)?;
    members.set_text("text", note.text.as_str())?;
    Ok(members.into_value())
}

fn names_in(alloc: Global, names: &[String]) -> Result<Value, AllocError> {
    let mut list = Vec::new(alloc);
    for name in names {
        list.push(Value::try_from_str(alloc, name.as_str())?)?;
    }
    Ok(Value::Array(list))
}
