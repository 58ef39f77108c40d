use brc_c_text::Symbol;
use brc_c_tree::{Body, Function, Statement, TypeName};
use std::alloc::{AllocError, Global};
use std::collections::HashMap;

/// Returns the types of a function's parameters and variables.
pub(crate) fn locals_of(
    alloc: Global,
    function: &Function,
) -> Result<HashMap<Symbol, TypeName>, AllocError> {
    let mut locals = HashMap::new(alloc);
    for parameter in &function.parameters {
        if let Some(name) = parameter.name {
            add(&mut locals, name, parameter.type_name)?;
        }
    }
    let Body::Read(tree, _) = &function.body else {
        return Ok(locals);
    };
    for (statement, _) in tree.statements() {
        if let Statement::Declare(list) = statement {
            for declared in tree.declarations(*list) {
                add(&mut locals, declared.name, declared.type_name)?;
            }
        }
    }
    Ok(locals)
}

fn add(
    locals: &mut HashMap<Symbol, TypeName>,
    name: Symbol,
    type_name: TypeName,
) -> Result<(), AllocError> {
    if locals.get(&name).is_none() {
        locals.insert(name, type_name)?;
    }
    Ok(())
}
