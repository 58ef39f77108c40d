use crate::file::{Files, Numbered};
use crate::names::Names;
use brc_c_text::Symbol;
use std::alloc::AllocError;
use std::collections::HashMap;

/// Gives each function of a program a number. Of two functions of one name in a file the first one holds.
pub(crate) fn number_functions(
    files: &Files<'_>,
    names: &mut Names,
) -> Result<Vec<Numbered>, AllocError> {
    let mut numbered = Vec::new(files.alloc);
    let mut statics: HashMap<Symbol, usize> = HashMap::new(files.alloc);
    for (file, read) in files.files.iter().enumerate() {
        let mut here: HashMap<Symbol, usize> = HashMap::new(files.alloc);
        for (place, function) in read.tree.functions.iter().enumerate() {
            let number = numbered.len();
            if add_once(&mut here, function.name, number)? {
                numbered.push(Numbered { file, place })?;
                if function.is_static {
                    add_once(&mut statics, function.name, number)?;
                } else {
                    add_once(&mut names.elsewhere, function.name, number)?;
                }
            }
        }
        names.here.push(here)?;
    }
    name_through_tables(files, &statics, names)?;
    Ok(numbered)
}

/// A macro that takes a function from a table has the name of the function, which is in another file: a static one, if
/// there is one. So it is called by its name, though the table has it as a value.
fn name_through_tables(
    files: &Files<'_>,
    statics: &HashMap<Symbol, usize>,
    names: &mut Names,
) -> Result<(), AllocError> {
    for (file, read) in files.files.iter().enumerate() {
        for name in read.casts.iter() {
            let elsewhere = names.elsewhere.get(name).copied();
            let found = statics.get(name).copied().or(elsewhere);
            if let (Some(number), Some(here)) = (found, names.here.get_mut(file)) {
                if add_once(here, *name, number)? {
                    names.through_tables.insert(number)?;
                }
            }
        }
    }
    Ok(())
}

/// Gives a name a number, unless it has one. Returns whether it had none.
fn add_once(
    names: &mut HashMap<Symbol, usize>,
    name: Symbol,
    number: usize,
) -> Result<bool, AllocError> {
    if names.get(&name).is_some() {
        return Ok(false);
    }
    names.insert(name, number)?;
    Ok(true)
}
