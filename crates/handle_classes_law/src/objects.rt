// Under which leaf each cell of an object lies, and with it under which slot: an object has a leaf
// for each cell, a field's cells lie under the field's leaves, and those of an array's elements
// alike. By it marked slots give a class to what begins at them.

ghost use Rattle.handle_classes_law.specs.ObjectsLaws.{CellsHaveLeaves, LeavesAreOwn, FieldsLieSo, ElementsLieAlike};

/// An object has one leaf for each cell.
pub fn cells_have_leaves()
    ensures { CellsHaveLeaves }
{}

/// Each is one of the object's own.
pub fn leaves_are_own()
    ensures { LeavesAreOwn }
{}

/// A field's cells lie under the field's leaves.
pub fn fields_lie_so()
    ensures { FieldsLieSo }
{}

/// The elements of an array lie alike.
pub fn elements_lie_alike()
    ensures { ElementsLieAlike }
{}
