use crate::file::{Files, Numbered};
use crate::names::Names;
use std::alloc::AllocError;

/// Returns of each function whether it is a helper: it is called by name, and nowhere taken as a value, but for a table
/// of which macros know the names. What a method table or a slot calls follows Python's rules.
pub(crate) fn helpers_of(
    files: &Files<'_>,
    names: &Names,
    numbered: &[Numbered],
) -> Result<Vec<bool>, AllocError> {
    let mut helpers = Vec::new(files.alloc);
    for number in 0..numbered.len() {
        let is_helper = match numbered.get(number) {
            Some(known) => is_helper(files, names, *known, number),
            None => false,
        };
        helpers.push(is_helper)?;
    }
    Ok(helpers)
}

fn is_helper(files: &Files<'_>, names: &Names, numbered: Numbered, number: usize) -> bool {
    let Some((file, function)) = files.function(numbered) else {
        return false;
    };
    if names.through_tables.contains(&number) {
        return true;
    }
    if function.is_static {
        return file.uses.calls(function.name) && !file.uses.takes(function.name);
    }
    let mut is_called = false;
    for (at, other) in files.files.iter().enumerate() {
        if names.in_file(at, &[]).number(function.name) == Some(number) {
            if other.uses.takes(function.name) {
                return false;
            }
            is_called = is_called || other.uses.calls(function.name);
        }
    }
    is_called
}
