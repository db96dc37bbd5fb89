//! What the pair of a slave and a monitor does: how a monitor serves a message, what a slave may know of it, how a
//! slave runs and what it says, and both together. It holds definitions, and the laws by which a slave and a monitor
//! are two sides of which all is said that holds of any two. And what a link in memory says and hears: the slave's half
//! of the pair, in bytes, under the answers of a chooser.
#![tactic(auto)]

mod bounds;

ghost use Rattle.pair_meaning.specs.Laws.{TheSidesAreFair, SlavesStop};

pub use bounds::slaves_are_bounded;

/// A slave waits exactly behind a call that wants a reply, and a monitor replies exactly where one is wanted.
pub fn the_sides_are_fair()
    ensures { TheSidesAreFair }
{}

/// A slave makes at most a number of steps that its boot tells, whatever it is told, and then it waits or is over.
pub fn slaves_stop()
    ensures { SlavesStop }
{}
