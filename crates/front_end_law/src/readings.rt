// What holds of all texts.
ghost use Rattle.front_end_law.specs.ReadingsLaws.{ProgramsAreTypedOrFaulty, TextsComeToAReading, TreesOfTextsAreWellFormed};

/// Each program has no type fault, or an ascending list of all its type faults. It does nothing.
pub fn programs_are_typed_or_faulty()
    ensures { ProgramsAreTypedOrFaulty }
{}

/// Each text comes to its typed tree, to a fault of its tokens or of their grammar, or to a list of type faults.
/// It does nothing.
pub fn texts_come_to_a_reading()
    ensures { TextsComeToAReading }
{}

/// The typed tree of a text is well formed. It does nothing.
pub fn trees_of_texts_are_well_formed()
    ensures { TreesOfTextsAreWellFormed }
{}
