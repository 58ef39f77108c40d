//! What an image promises.

ghost use Rattle.brc_c_outline.specs.Laws.{AcceptedIsUnbroken, EveryPathHasItsWalk, EveryWalkIsAPath};

/// Each path of the outline that breaks a rule has a walk along the module that reports it.
pub fn every_path_has_its_walk()
    ensures { EveryPathHasItsWalk }
{}

/// Each walk along the module that reports a code is a path of the outline that breaks this rule.
pub fn every_walk_is_a_path()
    ensures { EveryWalkIsAPath }
{}

/// No path breaks a rule of an outline that an accepted module shows.
pub fn accepted_is_unbroken()
    ensures { AcceptedIsUnbroken }
{}
