//! What the variables of the environment say of the terminal.

use std::env::{VarError, var};
use std::rt::Env;

/// Returns whether the terminal moves no cursor and shows no colours: `TERM` is `dumb`, or isn't there.
pub fn is_dumb<R: Env + AllocGlobal>(rt: &R) -> bool {
    match var(rt, "TERM") {
        Ok(name) => name.as_str() == "dumb",
        Err(_) => true,
    }
}

/// Returns whether `NO_COLOR` asks for texts without colours: it is there, and isn't empty (no-color.org).
pub fn refuses_colors<R: Env + AllocGlobal>(rt: &R) -> bool {
    match var(rt, "NO_COLOR") {
        Ok(value) => !value.as_str().is_empty(),
        Err(VarError::NotPresent) => false,
        Err(_) => true,
    }
}
