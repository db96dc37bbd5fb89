// What holds of lifted trees.
ghost use Rattle.lifted_trees.specs.Laws.{LiftedTreesAreWellFormed};

/// The lifted tree of a well-formed one is well formed, whichever expressions have secrets: where there are at most
/// 4,096 sites, no name of a function has a dot, and the tree has fewer than 2^24 nodes. It does nothing.
pub fn lifted_trees_are_well_formed()
    ensures { LiftedTreesAreWellFormed }
{}
