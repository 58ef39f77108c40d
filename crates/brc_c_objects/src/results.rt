//! The results of a SARIF document.

use crate::about::About;
use crate::members::{Members, list_of, with_text};
use crate::rules::SUPPRESSION;
use brc_c_report::{Finding, Level};
use brc_c_text::Place;
use percent_encoding::{AsciiSet, NON_ALPHANUMERIC, utf8_percent_encode};
use serde_json::Value;
use std::alloc::{AllocError, Global};

/// Returns the result of a finding.
pub fn finding_result(about: &About<'_>, finding: &Finding) -> Result<Value, AllocError> {
    let mut members = Members::new(about.alloc);
    add_finding(about, finding, &mut members)?;
    Ok(members.into_value())
}

fn add_finding(
    about: &About<'_>,
    finding: &Finding,
    members: &mut Members,
) -> Result<(), AllocError> {
    add_kind(about.alloc, finding, members)?;
    add_places(about, finding, members)?;
    match &finding.suppressed {
        Some(reason) => add_suppression(about.alloc, reason.as_str(), members),
        None => Ok(()),
    }
}

/// Adds which rule it is about, how certain it is, and what is wrong.
fn add_kind(alloc: Global, finding: &Finding, members: &mut Members) -> Result<(), AllocError> {
    members.set_text("ruleId", finding.code.name())?;
    members.set_text("level", level_of(finding.level))?;
    members.set("message", message_of(alloc, finding)?)?;
    members.set("partialFingerprints", fingerprints_of(alloc, finding)?)
}

/// Adds where it is, and the path that leads there.
fn add_places(
    about: &About<'_>,
    finding: &Finding,
    members: &mut Members,
) -> Result<(), AllocError> {
    members.set("locations", locations_of(about, finding.place)?)?;
    members.set(
        "relatedLocations",
        others_in(about, finding.others.as_slice())?,
    )?;
    members.set("codeFlows", flows_of(about, finding)?)
}

/// Adds the comment that takes it away.
fn add_suppression(alloc: Global, reason: &str, members: &mut Members) -> Result<(), AllocError> {
    members.set("suppressions", suppressions_by(alloc, reason)?)
}

/// Returns the result of what is wrong with a suppression.
pub fn complaint_result(about: &About<'_>, place: Place, words: &str) -> Result<Value, AllocError> {
    let mut members = Members::new(about.alloc);
    members.set_text("ruleId", SUPPRESSION)?;
    members.set_text("level", "warning")?;
    members.set("message", with_text(about.alloc, "text", words)?)?;
    members.set("locations", locations_of(about, place)?)?;
    Ok(members.into_value())
}

/// Returns the notice of a function that isn't read: where that ends, and why.
pub fn not_read_notice(about: &About<'_>, place: Place, reason: &str) -> Result<Value, AllocError> {
    let mut members = Members::new(about.alloc);
    members.set_text("level", "warning")?;
    members.set("message", notice_text(about, reason)?)?;
    members.set("locations", locations_of(about, place)?)?;
    Ok(members.into_value())
}

fn notice_text(about: &About<'_>, reason: &str) -> Result<Value, AllocError> {
    let name = about.function.unwrap_or("");
    let text = format!(in about.alloc; "not read: {name}: {reason}")?;
    with_text(about.alloc, "text", text.as_str())
}

/// Returns the level that SARIF has for one.
fn level_of(level: Level) -> &'static str {
    match level {
        Level::Error => "error",
        Level::Warning(_) => "warning",
        Level::Possible => "note",
    }
}

/// Returns what is wrong, and what to write.
fn message_of(alloc: Global, finding: &Finding) -> Result<Value, AllocError> {
    let mut text = String::from_str(alloc, finding.text.as_str())?;
    if let Level::Warning(reservation) = finding.level {
        let words = reservation.text();
        write!(text, " ({words})")?;
    }
    if let Some(mend) = &finding.mend {
        text.push_str("; ")?;
        text.push_str(mend.as_str())?;
    }
    with_text(alloc, "text", text.as_str())
}

fn others_in(about: &About<'_>, places: &[Place]) -> Result<Value, AllocError> {
    let mut others = Vec::new(about.alloc);
    for place in places {
        others.push(location_of(about, *place, "here too")?)?;
    }
    Ok(Value::Array(others))
}

/// Returns the list of the one flow of control that leads to a finding.
fn flows_of(about: &About<'_>, finding: &Finding) -> Result<Value, AllocError> {
    let alloc = about.alloc;
    let flow = with_value(alloc, "locations", steps_of(about, finding)?)?;
    let threads = list_of(alloc, flow)?;
    let flows = with_value(alloc, "threadFlows", threads)?;
    list_of(alloc, flows)
}

/// Returns the steps of a finding's path, the last of which is the finding.
fn steps_of(about: &About<'_>, finding: &Finding) -> Result<Value, AllocError> {
    let mut steps = Vec::new(about.alloc);
    for note in finding.path.iter() {
        steps.push(step_at(about, note.place, note.text.as_str())?)?;
    }
    steps.push(step_at(about, finding.place, finding.text.as_str())?)?;
    Ok(Value::Array(steps))
}

fn step_at(about: &About<'_>, place: Place, words: &str) -> Result<Value, AllocError> {
    with_value(about.alloc, "location", location_of(about, place, words)?)
}

/// Returns the list of the place of a result, with its function.
fn locations_of(about: &About<'_>, place: Place) -> Result<Value, AllocError> {
    let mut members = Members::new(about.alloc);
    members.set("physicalLocation", physical(about, place)?)?;
    if let Some(name) = about.function {
        members.set("logicalLocations", functions_of(about.alloc, name)?)?;
    }
    list_of(about.alloc, members.into_value())
}

/// Returns the list of the one function of this name.
fn functions_of(alloc: Global, name: &str) -> Result<Value, AllocError> {
    let mut members = Members::new(alloc);
    members.set_text("kind", "function")?;
    members.set_text("name", name)?;
    list_of(alloc, members.into_value())
}

fn location_of(about: &About<'_>, place: Place, words: &str) -> Result<Value, AllocError> {
    let mut members = Members::new(about.alloc);
    members.set("physicalLocation", physical(about, place)?)?;
    members.set("message", with_text(about.alloc, "text", words)?)?;
    Ok(members.into_value())
}

fn physical(about: &About<'_>, place: Place) -> Result<Value, AllocError> {
    let mut members = Members::new(about.alloc);
    members.set("artifactLocation", artifact(about, place)?)?;
    members.set("region", region(about.alloc, place)?)?;
    Ok(members.into_value())
}

/// Returns the file of a place, by its path as a URI.
fn artifact(about: &About<'_>, place: Place) -> Result<Value, AllocError> {
    let mut uri = String::new(about.alloc);
    utf8_percent_encode(about.file(place), escaped()).append_to(&mut uri)?;
    with_text(about.alloc, "uri", uri.as_str())
}

fn region(alloc: Global, place: Place) -> Result<Value, AllocError> {
    let mut members = Members::new(alloc);
    members.set_number("startLine", place.line)?;
    members.set_number("startColumn", place.column)?;
    Ok(members.into_value())
}

/// Returns the bytes of a path that are escaped in a URI: all but letters, digits, the other unreserved characters of
/// RFC 3986 and the slash.
fn escaped() -> AsciiSet {
    NON_ALPHANUMERIC
        .remove(b'/')
        .remove(b'.')
        .remove(b'-')
        .remove(b'_')
        .remove(b'~')
}

/// Returns what stays the same of a finding if lines are put in above it: its code, and its text without numbers.
fn fingerprints_of(alloc: Global, finding: &Finding) -> Result<Value, AllocError> {
    let mut print = String::from_str(alloc, finding.code.name())?;
    for word in finding.text.as_str().split_whitespace() {
        if word.as_bytes().iter().any(u8::is_ascii_alphabetic) {
            print.push_str(" ")?;
            print.push_str(word)?;
        }
    }
    with_text(alloc, "brc/v1", print.as_str())
}

/// Returns the list of the comment that takes a finding away.
fn suppressions_by(alloc: Global, reason: &str) -> Result<Value, AllocError> {
    let mut members = Members::new(alloc);
    members.set_text("kind", "inSource")?;
    members.set_text("justification", reason)?;
    list_of(alloc, members.into_value())
}

fn with_value(alloc: Global, name: &str, value: Value) -> Result<Value, AllocError> {
    let mut members = Members::new(alloc);
    members.set(name, value)?;
    Ok(members.into_value())
}
