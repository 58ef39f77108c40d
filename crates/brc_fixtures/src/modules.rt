//! A module whose heaps the tests open.

ghost use Rattle.std.specs.Prelude.{◌≡◌};
ghost use Rattle.brc_fixtures.specs.Modules.{plain_module};

use brc_lang::{Module, Sequence, Version};
use std::alloc::Global;

/// Returns a module of the first version, which has no static list, and no function either.
pub fn plain_module(alloc: Global) -> Module
    ensures { result ≡ plain_module }
{
    Module {
        version: Version::One,
        statics: Sequence::new(alloc),
        functions: Sequence::new(alloc),
    }
}
