// How many nodes the typed tree of a program has.

ghost use Rattle.type_law.specs.SizesLaws.{TypedTreesAreSmall};

/// A typed tree has at most three nodes for each node of the program, whatever its faults are.
pub fn typed_trees_are_small()
    ensures { TypedTreesAreSmall }
{}
