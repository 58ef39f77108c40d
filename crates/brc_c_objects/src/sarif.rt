//! The document of SARIF 2.1.0: Static Analysis Results Interchange Format, an OASIS standard.

use crate::members::{Members, list_of};
use crate::rules::rules_list;
use serde_json::Value;
use std::alloc::{AllocError, Global};

const SCHEMA: &str = "https://json.schemastore.org/sarif-2.1.0.json";

/// Returns the document of a command's results. `notices` are about functions that aren't read, and `is_whole` says
/// whether all files are read.
pub fn sarif_document(
    alloc: Global,
    version: &str,
    results: Vec<Value>,
    notices: Vec<Value>,
    is_whole: bool,
) -> Result<Value, AllocError> {
    let invocations = invocations_of(alloc, notices, is_whole)?;
    let run = run_of(alloc, version, results, invocations)?;
    let mut document = Members::new(alloc);
    document.set("runs", list_of(alloc, run)?)?;
    document.set_text("$schema", SCHEMA)?;
    document.set_text("version", "2.1.0")?;
    Ok(document.into_value())
}

fn run_of(
    alloc: Global,
    version: &str,
    results: Vec<Value>,
    invocations: Value,
) -> Result<Value, AllocError> {
    let mut run = Members::new(alloc);
    run.set("results", Value::Array(results))?;
    run.set("invocations", invocations)?;
    run.set("tool", tool_of(alloc, version)?)?;
    Ok(run.into_value())
}

fn tool_of(alloc: Global, version: &str) -> Result<Value, AllocError> {
    let mut driver = Members::new(alloc);
    driver.set_text("name", "brc")?;
    driver.set_text("version", version)?;
    driver.set("rules", rules_list(alloc)?)?;
    let mut tool = Members::new(alloc);
    tool.set("driver", driver.into_value())?;
    Ok(tool.into_value())
}

fn invocations_of(alloc: Global, notices: Vec<Value>, is_whole: bool) -> Result<Value, AllocError> {
    let mut members = Members::new(alloc);
    members.set("executionSuccessful", Value::from(is_whole))?;
    members.set("toolExecutionNotifications", Value::Array(notices))?;
    list_of(alloc, members.into_value())
}
