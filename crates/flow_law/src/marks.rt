// Marks exist, whatever the seeds and edges are.

ghost use Rattle.flow_law.specs.MarksLaws.{ThereAreMarks};

/// For whatever seeds and edges and however many slots there are marks: of each slot to which a way leads a
/// shortest one, and none of the others. It does nothing.
pub fn there_are_marks()
    ensures { ThereAreMarks }
{}
