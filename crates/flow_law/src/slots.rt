// When there are sides of a program.
ghost use Rattle.flow_law.specs.SlotsLaws.{SidesAreOfFewSlots, ThereAreSides};

/// Each well formed program of at most 2^25 slots has halves, slots and seeds. It does nothing.
pub fn there_are_sides()
    ensures { ThereAreSides }
{}

/// A program of more slots has none. It does nothing.
pub fn sides_are_of_few_slots()
    ensures { SidesAreOfFewSlots }
{}
