//! A module with static lists, whose heaps the tests open.

ghost use Rattle.std.specs.Prelude.{◌≡◌, IfOk};
ghost use Rattle.brc_queue_tests.specs.Modules.{static_module};

use brc_lang::{Module, Sequence, Version};
use std::alloc::{AllocError, Global};

/// Returns a module of the third version, with two static lists: one of two numbers, and one of one.
pub fn static_module(alloc: Global) -> Result<Module, AllocError>
    ensures { IfOk result (λ made. made ≡ static_module) }
{
    let mut first = Sequence::new(alloc);
    first.push(5)?;
    first.push(6)?;
    let mut second = Sequence::new(alloc);
    second.push(7)?;
    let mut statics = Sequence::new(alloc);
    statics.push(first)?;
    statics.push(second)?;
    Ok(Module {
        version: Version::Three,
        statics,
        functions: Sequence::new(alloc),
    })
}
