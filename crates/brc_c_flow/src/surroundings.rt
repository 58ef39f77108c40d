use crate::own::OwnFunctions;
use crate::usage::Usage;
use brc_c_table::Tables;
use brc_c_text::Symbols;
use brc_c_types::Types;

/// What is known beside a function.
#[derive(Clone, Copy)]
pub struct Program<'a> {
    pub symbols: &'a Symbols,
    pub types: &'a Types,
    pub tables: &'a Tables,
    pub own: OwnFunctions<'a>,
    pub usage: &'a Usage,
}
