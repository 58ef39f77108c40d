use crate::cursor::Cursor;
use crate::declarations::declare;
use crate::heads::{Head, head_of, is_static, parameters_of, result_of};
use crate::listing::{Item, items_of};
use crate::parsing::Parser;
use crate::stop::Stop;
use crate::type_names::TypeNames;
use brc_c_text::{Lexeme, Symbols};
use brc_c_tree::{
    Body, FUNCTION_LIMIT, Function, NESTING_LIMIT, NotRead, Reason, SourceTree, StatementId,
    TOKEN_LIMIT, Tree,
};
use std::alloc::{AllocError, Global};

/// Reads the lexemes of a source, of which no directives are left. Types that it declares are added to those that are
/// known.
///
/// # Errors
///
/// Only if memory is refused: a function that isn't understood has its reason.
pub fn read_source(
    alloc: Global,
    symbols: &Symbols,
    types: &mut TypeNames,
    lexemes: &[Lexeme],
) -> Result<SourceTree, AllocError> {
    let items = items_of(alloc, lexemes)?;
    let mut tree = SourceTree::new(alloc);
    // A function may use each type of the source.
    for item in &items {
        if let Item::Declaration { start, end, braces } = item {
            let whole = lexemes.get(*start..*end).unwrap_or(&[]);
            let inside = match braces {
                Some((open, close)) => inside_of(lexemes, *open, *close),
                None => None,
            };
            if let Err(Stop::NoMemory) = declare(alloc, symbols, types, &mut tree, whole, inside) {
                return Err(AllocError);
            }
        }
    }
    for item in &items {
        if let Item::Function { start, open, end } = item {
            let head = lexemes.get(*start..*open).unwrap_or(&[]);
            let body = lexemes.get(*open..*end).unwrap_or(&[]);
            let is_over = tree.functions.len() >= FUNCTION_LIMIT;
            if let Some(head) = head_of(symbols, head) {
                let function = function_of(alloc, symbols, types, &head, body, is_over)?;
                tree.functions.push(function)?;
            }
        }
    }
    Ok(tree)
}

/// Returns what is between two braces, of which `end` is the place after the last.
fn inside_of(lexemes: &[Lexeme], open: usize, end: usize) -> Option<&[Lexeme]> {
    lexemes.get(open.checked_add(1)?..end.checked_sub(1)?)
}

/// Reads a function, or says why it isn't read.
fn function_of(
    alloc: Global,
    symbols: &Symbols,
    types: &TypeNames,
    head: &Head<'_>,
    body: &[Lexeme],
    is_over: bool,
) -> Result<Function, AllocError> {
    let place = head.name.place;
    let end = match body.last() {
        Some(last) => last.place,
        None => place,
    };
    let mut function = Function {
        name: head.name.symbol,
        place,
        end,
        is_static: is_static(head.before),
        result: result_of(types, head.before),
        parameters: Vec::new(alloc),
        body: Body::NotRead(NotRead {
            place,
            reason: Reason::TooMany,
        }),
    };
    if is_over {
        return Ok(function);
    }
    match parameters_of(alloc, symbols, types, head) {
        Ok(parameters) => {
            function.parameters = parameters;
            function.body = body_of(alloc, symbols, types, &function, body)?;
        }
        Err(Stop::NotRead(why)) => function.body = Body::NotRead(why),
        Err(Stop::NoMemory) => return Err(AllocError),
    }
    Ok(function)
}

fn body_of(
    alloc: Global,
    symbols: &Symbols,
    types: &TypeNames,
    function: &Function,
    body: &[Lexeme],
) -> Result<Body, AllocError> {
    if body.len() > TOKEN_LIMIT {
        return Ok(Body::NotRead(NotRead {
            place: function.place,
            reason: Reason::TooLong,
        }));
    }
    match read_body(alloc, symbols, types, function, body) {
        Ok((tree, whole)) => Ok(Body::Read(tree, whole)),
        Err(Stop::NotRead(why)) => Ok(Body::NotRead(why)),
        Err(Stop::NoMemory) => Err(AllocError),
    }
}

fn read_body(
    alloc: Global,
    symbols: &Symbols,
    types: &TypeNames,
    function: &Function,
    body: &[Lexeme],
) -> Result<(Tree, StatementId), Stop> {
    let mut parser = Parser::new(alloc, Cursor::new(body, function.end), symbols, types);
    for parameter in &function.parameters {
        if let Some(name) = parameter.name {
            parser.declare(name)?;
        }
    }
    parser.result = function.result;
    let whole = parser.block(NESTING_LIMIT)?;
    Ok((parser.tree, whole))
}
