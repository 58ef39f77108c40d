//! The check that a module shows an outline.

ghost use Rattle.std.specs.Prelude.{◌≡◌, Ok, true};
ghost use Rattle.brc_c_outline.specs.Outlines.{Shows};

use crate::outline::Outline;
use crate::trailing::trail_of;
use crate::validating::is_image;
use brc_lang::Module;
use std::alloc::{AllocError, Global};

/// Returns whether the last function of a module is found to have exactly the paths of an outline.
pub fn shows(alloc: Global, module: &Module, outline: &Outline) -> Result<bool, AllocError>
    ensures { result ≡ Ok true → Shows «module».now outline.now }
{
    let Some(function) = module.functions.as_slice().last() else {
        return Ok(false);
    };
    let trail = trail_of(alloc, function, outline)?;
    Ok(is_image(function, outline, &trail))
}
