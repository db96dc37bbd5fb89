// What holds of marks whatever the seeds and edges.
ghost use Rattle.propagation.specs.Laws.{OrderIsFree, MoreMarksMore, MarksAreLeast, ShortestPathsAreSimple};

/// Which slots are marked depends on the sets of seeds and edges alone: neither on their order nor
/// on how often one is listed.
pub fn order_is_free()
    ensures { OrderIsFree }
{}

/// More seeds and more edges mark no less.
pub fn more_marks_more()
    ensures { MoreMarksMore }
{}

/// The marked slots have the seeds, are closed under edges, and are the least such set.
pub fn marks_are_least()
    ensures { MarksAreLeast }
{}

/// A shortest path comes to no slot twice.
pub fn shortest_paths_are_simple()
    ensures { ShortestPathsAreSimple }
{}
