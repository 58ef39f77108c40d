//! What is found of C functions, for programs: JSON objects, and a document of SARIF 2.1.0.
#![tactic(auto)]

mod about;
mod members;
mod objects;
mod results;
mod rules;
mod sarif;

pub use about::About;
pub use objects::{
    assumed_object, complaint_object, counts_object, finding_object, not_read_object,
};
pub use results::{complaint_result, finding_result, not_read_notice};
pub use sarif::sarif_document;
