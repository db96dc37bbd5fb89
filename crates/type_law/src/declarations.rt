// What holds of declarations without a fault: they give good types, and tables of structs that the
// typed tree can hold.

ghost use Rattle.type_law.specs.DeclarationsLaws.{SpecifiersAreSound, ObjectsAreSound, ResultsAreSound, SizesAreSound, LeavesAreSound, StructsAreWellFormed};

/// Specifiers without a fault name a good type, declare structs at file scope alone, and leave the
/// table of structs sound.
pub fn specifiers_are_sound()
    ensures { SpecifiersAreSound }
{}

/// A declarator without a fault makes of a good base a good type of its kind of object.
pub fn objects_are_sound()
    ensures { ObjectsAreSound }
{}

/// A result without a fault is void or an integer.
pub fn results_are_sound()
    ensures { ResultsAreSound }
{}

/// The cells of an object that isn't too large are counted alike in the typed tree.
pub fn sizes_are_sound()
    ensures { SizesAreSound }
{}

/// An object consists of the same integers in the typed tree, in the same order.
pub fn leaves_are_sound()
    ensures { LeavesAreSound }
{}

/// A sound table makes a well formed list of structs.
pub fn structs_are_well_formed()
    ensures { StructsAreWellFormed }
{}
