//! The C trees of well-formed halves are trees that a text can have.
#![tactic(auto)]

ghost use Rattle.half_trees_law.specs.Laws.{SlaveTreesArePlain, MonitorTreesArePlain};

/// The C tree of a well-formed slave's program is plain.
pub fn slave_trees_are_plain()
    ensures { SlaveTreesArePlain }
{}

/// The C tree of a well-formed monitor's program is plain.
pub fn monitor_trees_are_plain()
    ensures { MonitorTreesArePlain }
{}
