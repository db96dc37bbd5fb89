// What holds of the definitions.
ghost use Rattle.sides.specs.Laws.{ObjectsHaveTheirSlots};

/// The slots of each global, variable and result stand in the list of all slots from its start on,
/// in the order of its leaves.
pub fn objects_have_their_slots()
    ensures { ObjectsHaveTheirSlots }
{}
