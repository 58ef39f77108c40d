//! The spelling of a text.

use crate::laying::Laid;
use crate::line::{LOCK, Line, Target};
use std::alloc::{AllocError, Global};
use std::fmt::Write;

/// Calls of it make a reference where no lock is locked.
const NEW: &str = "func new\nnum v1 0 else @2\nret v1\nfail\nend\n";

/// Returns the text of a module with this function, and what it calls.
pub(crate) fn text_of(alloc: Global, name: &str, laid: &Laid) -> Result<String, AllocError> {
    let mut text = String::from_str(alloc, "module 2\n")?;
    if makes(laid) {
        text.push_str(NEW)?;
    }
    write!(text, "func {name} borrow any borrow list\n")?;
    for (at, line) in laid.lines.iter().enumerate() {
        write_line(&mut text, laid, at, line)?;
    }
    text.push_str("end\n")?;
    Ok(text)
}

fn makes(laid: &Laid) -> bool {
    for line in laid.lines.iter() {
        if let Line::Make { .. } = line {
            return true;
        }
    }
    false
}

fn write_line(text: &mut String, laid: &Laid, at: usize, line: &Line) -> Result<(), AllocError> {
    match line {
        Line::Lock => write!(text, "lock v{LOCK}\n"),
        Line::Unlock => write!(text, "unlock v{LOCK}\n"),
        Line::Newref { to, from } => write!(text, "newref v{to} v{from}\n"),
        Line::Drop(from) => write!(text, "drop v{from}\n"),
        Line::Ask(otherwise) => {
            let target = number_of(laid, at, otherwise);
            write!(text, "as v{LOCK} list else @{target}\n")
        }
        Line::Fetch { to, otherwise } => {
            let target = number_of(laid, at, otherwise);
            write!(text, "fetch v{to} v{LOCK} 0 else @{target}\n")
        }
        Line::Make { to, otherwise } => {
            let target = number_of(laid, at, otherwise);
            write!(text, "call v{to} new else @{target}\n")
        }
        Line::Borrow {
            to,
            list,
            otherwise,
        } => {
            let target = number_of(laid, at, otherwise);
            write!(text, "borrow v{to} v{list} 0 else @{target}\n")
        }
        Line::Goto(to) => {
            let target = number_of(laid, at, to);
            write!(text, "goto @{target}\n")
        }
        Line::Again(block) => {
            let target = laid.starts.get(*block).copied().unwrap_or(0);
            write!(text, "again @{target} 1\n")
        }
        Line::Return(from) => write!(text, "ret v{from}\n"),
        Line::Fail => text.push_str("fail\n"),
    }
}

/// Returns the number of the line to which a line leads.
fn number_of(laid: &Laid, at: usize, target: &Target) -> usize {
    match target {
        Target::Block(block) => laid.starts.get(*block).copied().unwrap_or(0),
        Target::Detour(block) => match laid.detours.get(*block) {
            Some(Some(start)) => *start,
            _ => 0,
        },
        Target::Line(number) => *number,
        Target::Below => at.saturating_add(1),
    }
}
