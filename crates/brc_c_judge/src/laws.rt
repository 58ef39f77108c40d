//! What a verdict says of the walks along its texts and of the paths of the graph.

ghost use Rattle.brc_c_judge.specs.Laws.{EveryGraphPathHasItsWalk, EveryWalkIsAGraphPath};

use brc_c_outline::{every_path_has_its_walk, every_walk_is_a_path};

/// Each rule that a path of the graph breaks at a node is reported by a walk along the text of such a fault, at the
/// instruction that the verdict names.
pub fn every_graph_path_has_its_walk()
    ensures { EveryGraphPathHasItsWalk }
{
    every_path_has_its_walk();
}

/// Whatever a walk along the text of a fault reports, a path of the graph breaks that rule at the fault's node.
pub fn every_walk_is_a_graph_path()
    ensures { EveryWalkIsAGraphPath }
{
    every_walk_is_a_path();
}
