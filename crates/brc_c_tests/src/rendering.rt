//! Trees as texts: expressions in parentheses, statements in words. Each sort has a form, in which letters are the places
//! of its parts.

use crate::statement_texts::statement_texts;
use brc_c_text::{Symbol, Symbols};
use brc_c_tree::{Body, Expression, ExpressionId, Function, List, Tree, TypeName, reason_text};
use std::alloc::{AllocError, Global};

/// What fills a form: the texts of three expressions (`0`, `1` and `2`) and of two statements (`A` and `B`), a name (`N`),
/// and what is made for the form (`M`). A part that a form hasn't is empty.
pub type Parts<'t> = [&'t str; 7];

/// Returns the part that a letter of a form is the place of, if it is one.
fn part_of<'t>(parts: Parts<'t>, letter: char) -> Option<&'t str> {
    match letter {
        '0' => Some(parts[0]),
        '1' => Some(parts[1]),
        '2' => Some(parts[2]),
        'A' => Some(parts[3]),
        'B' => Some(parts[4]),
        'N' => Some(parts[5]),
        'M' => Some(parts[6]),
        _ => None,
    }
}

/// Appends the form, with the parts in place of their letters.
fn add_filled(text: &mut String, form: &str, parts: Parts<'_>) -> Result<(), AllocError> {
    for letter in form.chars() {
        match part_of(parts, letter) {
            Some(part) => text.push_str(part)?,
            None => text.push(letter)?,
        }
    }
    Ok(())
}

/// Returns the form with its parts.
pub fn filled(alloc: Global, form: &str, parts: Parts<'_>) -> Result<String, AllocError> {
    let mut text = String::new(alloc);
    add_filled(&mut text, form, parts)?;
    Ok(text)
}

/// Returns the text of a function's body, or the place and the reason for which it isn't read.
pub fn body_text(
    alloc: Global,
    symbols: &Symbols,
    function: &Function,
) -> Result<String, AllocError> {
    match &function.body {
        Body::Read(tree, whole) => tree_text(alloc, symbols, tree, whole.index()),
        Body::NotRead(why) => {
            let line = why.place.line;
            let column = why.place.column;
            let reason = reason_text(alloc, symbols, why.reason)?;
            format!(in alloc; "{line}:{column} {reason}")
        }
    }
}

fn tree_text(
    alloc: Global,
    symbols: &Symbols,
    tree: &Tree,
    whole: usize,
) -> Result<String, AllocError> {
    let expressions = expression_texts(alloc, symbols, tree)?;
    let statements = statement_texts(alloc, symbols, tree, expressions.as_slice())?;
    String::from_str(alloc, at(statements.as_slice(), whole))
}

pub fn at(texts: &[String], index: usize) -> &str {
    match texts.get(index) {
        Some(text) => text.as_str(),
        None => "?",
    }
}

/// Returns the text of an expression that may be left out.
pub fn at_some(texts: &[String], expression: Option<ExpressionId>) -> &str {
    match expression {
        Some(id) => at(texts, id.index()),
        None => "",
    }
}

/// Returns the text of a symbol.
pub fn spelled(symbols: &Symbols, symbol: Symbol) -> &str {
    match str::from_utf8(symbols.text(symbol)) {
        Ok(text) => text,
        Err(_) => "?",
    }
}

/// Appends the text of a type: its symbol and its stars.
pub fn add_type(text: &mut String, symbols: &Symbols, of: TypeName) -> Result<(), AllocError> {
    text.push_str(spelled(symbols, of.symbol))?;
    for _star in 0..of.stars {
        text.push('*')?;
    }
    text.push_str(either(of.is_function, "()", ""))
}

/// Returns the one text or the other. A branch of its own keeps what comes behind it short to prove.
pub fn either<'t>(is_one: bool, one: &'t str, other: &'t str) -> &'t str {
    if is_one { one } else { other }
}

fn type_text(alloc: Global, symbols: &Symbols, of: TypeName) -> Result<String, AllocError> {
    let mut text = String::new(alloc);
    add_type(&mut text, symbols, of)?;
    Ok(text)
}

/// Returns the texts of all expressions. Each comes after its operands.
fn expression_texts(
    alloc: Global,
    symbols: &Symbols,
    tree: &Tree,
) -> Result<Vec<String>, AllocError> {
    let mut texts = Vec::new(alloc);
    for (expression, _) in tree.expressions() {
        let text = expression_text(alloc, symbols, tree, texts.as_slice(), expression)?;
        texts.push(text)?;
    }
    Ok(texts)
}

fn expression_text(
    alloc: Global,
    symbols: &Symbols,
    tree: &Tree,
    texts: &[String],
    expression: &Expression,
) -> Result<String, AllocError> {
    let made = made_text(alloc, symbols, tree, texts, expression)?;
    let [first, second, third] = operands_of(expression);
    let parts = [
        at_some(texts, first),
        at_some(texts, second),
        at_some(texts, third),
        "",
        "",
        name_in(symbols, expression),
        made.as_str(),
    ];
    filled(alloc, form_of(expression), parts)
}

/// Returns what the text of an expression has beside the texts of its operands: its list, its type, or the name of its
/// operator.
fn made_text(
    alloc: Global,
    symbols: &Symbols,
    tree: &Tree,
    texts: &[String],
    expression: &Expression,
) -> Result<String, AllocError> {
    match *expression {
        Expression::Call { arguments, .. } => operands_text(alloc, tree, texts, arguments),
        Expression::Values(list) => operands_text(alloc, tree, texts, list),
        Expression::Cast { to, .. } => type_text(alloc, symbols, to),
        Expression::Unary { operator, .. } => format!(in alloc; "{operator:?}"),
        Expression::Binary { operator, .. } => format!(in alloc; "{operator:?}"),
        Expression::Assign {
            operator: Some(operator),
            ..
        } => format!(in alloc; "{operator:?}"),
        _ => Ok(String::new(alloc)),
    }
}

pub fn operands_text(
    alloc: Global,
    tree: &Tree,
    texts: &[String],
    list: List,
) -> Result<String, AllocError> {
    let mut text = String::new(alloc);
    for operand in tree.operands(list) {
        let is_first = text.is_empty();
        text.push_str(either(is_first, "", ", "))?;
        text.push_str(at(texts, operand.index()))?;
    }
    Ok(text)
}

/// Returns the form of an expression.
fn form_of(expression: &Expression) -> &'static str {
    match *expression {
        Expression::Name(_)
        | Expression::Number(_)
        | Expression::Character(_)
        | Expression::Text(_) => "N",
        Expression::Unary { .. } => "(M 0)",
        Expression::Step {
            is_up: true,
            is_before: true,
            ..
        } => "(++0)",
        Expression::Step { is_up: true, .. } => "(0++)",
        Expression::Step {
            is_before: true,
            ..
        } => "(--0)",
        Expression::Step { .. } => "(0--)",
        Expression::Binary { .. } => "(0 M 1)",
        Expression::Assign { .. } => "(0 M= 1)",
        Expression::Conditional { .. } => "(0 ? 1 : 2)",
        Expression::Comma { .. } => "(0, 1)",
        Expression::Cast { .. } => "[M]0",
        Expression::Call { .. } => "0(M)",
        Expression::Index { .. } => "0[1]",
        Expression::Field { is_arrow: true, .. } => "0->N",
        Expression::Field { .. } => "0.N",
        Expression::SizeOf => "sizeof",
        Expression::Values(_) => "{M}",
        Expression::Opaque => "opaque",
    }
}

/// Returns the operands of an expression that aren't in a list.
fn operands_of(expression: &Expression) -> [Option<ExpressionId>; 3] {
    match *expression {
        Expression::Unary { operand, .. }
        | Expression::Step { operand, .. }
        | Expression::Cast { operand, .. } => [Some(operand), None, None],
        Expression::Call { function, .. } => [Some(function), None, None],
        Expression::Field { object, .. } => [Some(object), None, None],
        Expression::Binary { left, right, .. }
        | Expression::Assign { left, right, .. }
        | Expression::Comma { left, right } => [Some(left), Some(right), None],
        Expression::Index { array, index } => [Some(array), Some(index), None],
        Expression::Conditional {
            condition,
            then,
            otherwise,
        } => [Some(condition), Some(then), Some(otherwise)],
        _ => [None; 3],
    }
}

/// Returns the name in an expression, or an empty one.
fn name_in<'s>(symbols: &'s Symbols, expression: &Expression) -> &'s str {
    match *expression {
        Expression::Name(symbol)
        | Expression::Number(symbol)
        | Expression::Character(symbol)
        | Expression::Text(symbol) => spelled(symbols, symbol),
        Expression::Field { name, .. } => spelled(symbols, name),
        _ => "",
    }
}
