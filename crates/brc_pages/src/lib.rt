//! The pages of the codes: what a code means, the rule behind it, the usual mend, and an example; and the forms that
//! pages and explanations share.
#![tactic(auto)]

mod check_pages;
mod lock_pages;
mod page;
mod read_pages;
mod text;
mod topic;

pub use page::{ExampleLine, Page, page_of, write_page};
pub use text::{write_gap, write_heading, write_in, write_paragraph, write_section, write_title};
pub use topic::{Topic, topic_named};
