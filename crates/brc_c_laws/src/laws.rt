//! The laws.

ghost use Rattle.brc_c_laws.specs.Laws.{EveryGraphPathIsFollowed, EveryShownFaultIsReported};

use brc_c_outline::every_path_has_its_walk;

/// Each path of a graph is followed by a whole outline of it: where the path is at a node in a store, choices lead to
/// the outline's point for it, and where it breaks a rule, to the outline's point of that node.
pub fn every_graph_path_is_followed()
    ensures { EveryGraphPathIsFollowed }
{}

/// If a path of a graph breaks a rule at a point of which the outline shows that, some walk along the module reports
/// the rule at the instruction that the outline names.
pub fn every_shown_fault_is_reported()
    ensures { EveryShownFaultIsReported }
{
    every_path_has_its_walk();
}
