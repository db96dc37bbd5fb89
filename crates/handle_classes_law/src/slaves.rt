// Of an accepted program the slave's code never computes with a handle: its privileged slots give
// classes to variables, parameters and results, temporaries have the class of the expression that
// they hold, and in these classes all of the slave's code is fine.

ghost use Rattle.handle_classes_law.specs.SlavesLaws.{EdgesJoinSlots, MarkedWorlds, SealedCells, SlaveClasses};

/// In the classes that any marks give, a handle is asked for by marked parameters alone, main gives
/// none, no variable must hold a handle that it may not, the slave's own functions take what their
/// variables do, and what a host of the slave gives may be a handle where its argument may.
pub fn marked_worlds()
    ensures { MarkedWorlds }
{}

/// What a privileged function gives back sealed may be written where it comes.
pub fn sealed_cells()
    ensures { SealedCells }
{}

/// Of every accepted program the slave's code is fine in the classes that its privileged slots give.
/// What isn't the slave's own is asked with handles for marked parameters alone, a result or a cell
/// comes back sealed only where the classes let it, and main gives none.
pub fn slave_classes()
    ensures { SlaveClasses }
{}

/// Of every well formed program each edge joins two of its slots. So no edge is refused for where it
/// leads.
pub fn edges_join_slots()
    ensures { EdgesJoinSlots }
{}
