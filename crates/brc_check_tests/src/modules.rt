//! Modules of the tests.

ghost use Rattle.std.specs.Prelude.{IfOk};
ghost use Rattle.brc_lang.specs.Grammar.{IsModule};

use brc_lang::{Module, read};
use std::alloc::Global;
use std::test::*;

/// The module of a text.
pub fn module_of(alloc: Global, text: &[u8]) -> Result<Module, Fail>
    ensures { IfOk result (λ m. IsModule m) }
{
    match read(alloc, text) {
        Ok(module) => Ok(module),
        Err(_) => Err("the text is a module")?,
    }
}

/// The module of a function `f` of these lines.
pub fn function_of(alloc: Global, lines: &[u8]) -> Result<Module, Fail>
    ensures { IfOk result (λ m. IsModule m) }
{
    let mut text = Vec::from_slice(alloc, b"module 1\nfunc f\n")?;
    text.extend_from_slice(lines)?;
    text.extend_from_slice(b"end\n")?;
    module_of(alloc, &text)
}
