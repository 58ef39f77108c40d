//! Statements as texts.

use crate::rendering::{add_type, at, at_some, either, filled, operands_text, spelled};
use brc_c_text::Symbols;
use brc_c_tree::{Declaration, ExpressionId, Known, List, Statement, StatementId, Tree};
use std::alloc::{AllocError, Global};

/// Returns the texts of all statements. Each comes after its parts.
pub fn statement_texts(
    alloc: Global,
    symbols: &Symbols,
    tree: &Tree,
    expressions: &[String],
) -> Result<Vec<String>, AllocError> {
    let mut texts = Vec::new(alloc);
    for (statement, _) in tree.statements() {
        let done = texts.as_slice();
        let text = statement_text(alloc, symbols, tree, expressions, done, statement)?;
        texts.push(text)?;
    }
    Ok(texts)
}

fn statement_text(
    alloc: Global,
    symbols: &Symbols,
    tree: &Tree,
    expressions: &[String],
    texts: &[String],
    statement: &Statement,
) -> Result<String, AllocError> {
    match *statement {
        Statement::Block(list) => block_text(alloc, tree, texts, list),
        Statement::Declare(list) => declared_text(alloc, symbols, tree, expressions, list),
        Statement::Known { known, arguments } => {
            known_text(alloc, tree, expressions, known, arguments)
        }
        _ => plain_text(alloc, symbols, expressions, texts, statement),
    }
}

/// Returns the text of a statement without a list.
fn plain_text(
    alloc: Global,
    symbols: &Symbols,
    expressions: &[String],
    texts: &[String],
    statement: &Statement,
) -> Result<String, AllocError> {
    let [first, second] = expressions_of(statement);
    let [part, other] = statements_of(statement);
    let parts = [
        at_some(expressions, first),
        at_some(expressions, second),
        "",
        at_part(texts, part),
        at_part(texts, other),
        name_in(symbols, statement),
        "",
    ];
    filled(alloc, form_of(statement), parts)
}

/// Returns the text of a statement that may be left out.
fn at_part(texts: &[String], part: Option<StatementId>) -> &str {
    match part {
        Some(id) => at(texts, id.index()),
        None => "",
    }
}

fn block_text(
    alloc: Global,
    tree: &Tree,
    texts: &[String],
    list: List,
) -> Result<String, AllocError> {
    let mut text = String::from_str(alloc, "{")?;
    for id in tree.body(list) {
        text.push(' ')?;
        text.push_str(at(texts, id.index()))?;
    }
    text.push_str(" }")?;
    Ok(text)
}

fn known_text(
    alloc: Global,
    tree: &Tree,
    expressions: &[String],
    known: Known,
    arguments: List,
) -> Result<String, AllocError> {
    let arguments = operands_text(alloc, tree, expressions, arguments)?;
    format!(in alloc; "{known:?}({arguments});")
}

fn declared_text(
    alloc: Global,
    symbols: &Symbols,
    tree: &Tree,
    expressions: &[String],
    list: List,
) -> Result<String, AllocError> {
    let mut text = String::new(alloc);
    for declared in tree.declarations(list) {
        add_declared(&mut text, symbols, expressions, declared)?;
    }
    Ok(text)
}

fn add_declared(
    text: &mut String,
    symbols: &Symbols,
    expressions: &[String],
    declared: &Declaration,
) -> Result<(), AllocError> {
    text.push_str(either(declared.is_static, "static ", "let "))?;
    add_type(text, symbols, declared.type_name)?;
    let equals = either(declared.value.is_some(), " = ", "");
    let value = at_some(expressions, declared.value);
    let name = spelled(symbols, declared.name);
    write!(text, " {name}{equals}{value};")
}

/// Returns the form of a statement.
fn form_of(statement: &Statement) -> &'static str {
    match *statement {
        Statement::Expression(_) => "0;",
        Statement::If {
            otherwise: Some(_),
            ..
        } => "if 0 A else B",
        Statement::If { .. } => "if 0 A",
        Statement::While { .. } => "while 0 A",
        Statement::DoWhile { .. } => "do-while 0 A",
        Statement::For { .. } => "for (A 0; 1) B",
        Statement::Switch { .. } => "switch 0 A",
        Statement::Case(_) => "case 0;",
        Statement::Default => "default;",
        Statement::Label(_) => "N:",
        Statement::Goto(_) => "goto N;",
        Statement::Break => "break;",
        Statement::Continue => "continue;",
        Statement::Return(_) => "return 0;",
        _ => "?",
    }
}

/// Returns the expressions of a statement.
fn expressions_of(statement: &Statement) -> [Option<ExpressionId>; 2] {
    match *statement {
        Statement::Expression(value) | Statement::Case(value) => [Some(value), None],
        Statement::If { condition, .. }
        | Statement::While { condition, .. }
        | Statement::DoWhile { condition, .. } => [Some(condition), None],
        Statement::For {
            condition,
            next,
            ..
        } => [condition, next],
        Statement::Switch { value, .. } => [Some(value), None],
        Statement::Return(value) => [value, None],
        _ => [None; 2],
    }
}

/// Returns the parts of a statement, in the order of its form.
fn statements_of(statement: &Statement) -> [Option<StatementId>; 2] {
    match *statement {
        Statement::If {
            then,
            otherwise,
            ..
        } => [Some(then), otherwise],
        Statement::While { body, .. }
        | Statement::DoWhile { body, .. }
        | Statement::Switch { body, .. } => [Some(body), None],
        Statement::For { first, body, .. } => [first, Some(body)],
        _ => [None; 2],
    }
}

/// Returns the label in a statement, or an empty one.
fn name_in<'s>(symbols: &'s Symbols, statement: &Statement) -> &'s str {
    match *statement {
        Statement::Label(name) | Statement::Goto(name) => spelled(symbols, name),
        _ => "",
    }
}
