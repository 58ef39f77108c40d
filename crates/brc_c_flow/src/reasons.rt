use brc_c_text::{Place, Symbol, Symbols};
use std::alloc::{AllocError, Global};

/// Why a function's graph can't be made.
#[derive(Clone, Copy)]
pub enum FlowReason {
    /// An expression has too many operands within each other.
    TooDeep,
    /// `goto` names a label that isn't there.
    NoLabel(Symbol),
    LabelTwice(Symbol),
    /// `break`, `continue` or `case` where nothing is that it belongs to.
    OutOfPlace,
    /// An expression that has no meaning here, as braces with names of fields.
    Expression,
}

/// The place at which a function can't be followed, and why.
#[derive(Clone, Copy)]
pub struct Unread {
    pub place: Place,
    pub reason: FlowReason,
}

/// Returns the reason in words.
pub fn flow_reason_text(
    alloc: Global,
    symbols: &Symbols,
    reason: FlowReason,
) -> Result<String, AllocError> {
    let (symbol, after) = match reason {
        FlowReason::NoLabel(symbol) => (symbol, "is a label that isn't in the function"),
        FlowReason::LabelTwice(symbol) => (symbol, "is a label that is in the function twice"),
        _ => return String::from_str(alloc, plain_text(reason)),
    };
    let name = String::from_utf8_lossy(alloc, symbols.text(symbol))?;
    format!(in alloc; "`{name}` {after}")
}

fn plain_text(reason: FlowReason) -> &'static str {
    match reason {
        FlowReason::TooDeep => "an expression has too many operands within each other",
        FlowReason::OutOfPlace => "`break`, `continue` or `case` where it belongs to nothing",
        _ => "an expression that isn't followed",
    }
}
