//! The preprocessor of C, as far as a reader of functions needs it: directives, macros, and adjacent strings.
#![tactic(auto)]

mod arguments;
mod asking;
mod conditions;
mod constant;
mod directive;
mod evaluating;
mod expanding;
mod fault;
mod gluing;
mod headers;
mod macros;
mod preprocessing;
mod sources;
mod spelling;
mod substituting;

pub use conditions::Lost;
pub use expanding::USE_LIMIT;
pub use fault::MacroFault;
pub use headers::Headers;
pub use macros::{Macro, Macros};
pub use preprocessing::{LEXEME_LIMIT, Preprocessed, preprocess};
pub use sources::{DEPTH_LIMIT, INCLUDE_LIMIT};
