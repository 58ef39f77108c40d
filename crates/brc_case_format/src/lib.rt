//! Cases of commands as people write them: the words of a command line, the files that it finds, and all that it has to
//! write. Their format is that of `docs/CASES.md`.
#![tactic(auto)]

mod case;
mod content;
mod fault;
mod reading;
mod wanted;

pub use case::{Answer, Case, CaseFile, Row};
pub use content::Texts;
pub use fault::{CaseFault, Why};
pub use reading::read_cases;
pub use wanted::{How, Stream, Wanted};
