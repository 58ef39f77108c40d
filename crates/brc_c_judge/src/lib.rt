//! The verdict on a function of C: that of the checker on the function's modules, and nothing else.
//!
//! *Right* says that no path of the function's graph breaks a rule (`graph_end` of `brc_c_paths`), and comes with texts
//! that the checker accepts. *Wrong* has just the rules that paths break at nodes, each with a path that does, and with
//! a text that has exactly the paths of its outline, one of which breaks the rule, and in which the checker reports its
//! code where the text is at fault. The two laws say what a walk along such a text is worth.
#![tactic(auto)]

mod accepted;
mod confirmed;
mod judging;
mod laws;
mod only;
mod verdict;

pub use accepted::Accepted;
pub use confirmed::Confirmed;
pub use judging::{Claim, Finding, Judged, judge};
pub use laws::{every_graph_path_has_its_walk, every_walk_is_a_graph_path};
pub use verdict::{Verdict, judge_function};
