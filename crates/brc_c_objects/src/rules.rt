//! The rules of a SARIF document: the codes that a finding can have.

use crate::members::{Members, with_text};
use brc_lang::CheckCode;
use serde_json::Value;
use std::alloc::{AllocError, Global};

/// The rule about comments that are to take findings away.
pub(crate) const SUPPRESSION: &str = "suppression";

/// What a finding of each code is about.
const RULES: [(CheckCode, &str); 7] = [
    (
        CheckCode::EmptyUsed,
        "An object is used, released or returned that may be freed, or a name that has NULL or nothing",
    ),
    (
        CheckCode::NotOwned,
        "What is only borrowed is returned, released or given away",
    ),
    (
        CheckCode::StillOwns,
        "The last name of a reference is overwritten that the function owns",
    ),
    (
        CheckCode::LeftOwned,
        "A reference is still owned at a return",
    ),
    (
        CheckCode::LeftLocked,
        "A critical section is still open at a return",
    ),
    (
        CheckCode::NotLocked,
        "An item is borrowed without protection, or threads are left in the wrong state",
    ),
    (
        CheckCode::RunsOff,
        "A function that gives an object ends without a return",
    ),
];

/// Returns the list of the rules.
pub(crate) fn rules_list(alloc: Global) -> Result<Value, AllocError> {
    let mut rules = Vec::new(alloc);
    for (code, text) in RULES {
        rules.push(rule(alloc, code.name(), text)?)?;
    }
    let about = "A comment that is to take findings away is wrong, or takes nothing away";
    rules.push(rule(alloc, SUPPRESSION, about)?)?;
    Ok(Value::Array(rules))
}

fn rule(alloc: Global, id: &str, text: &str) -> Result<Value, AllocError> {
    let mut members = Members::new(alloc);
    members.set_text("id", id)?;
    members.set("shortDescription", with_text(alloc, "text", text)?)?;
    Ok(members.into_value())
}
