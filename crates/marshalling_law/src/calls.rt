// What calls of a machine that fits are like: they may be packed, sent and spelled; and what the body of a call is given and
// leaves is numbers of their types.

ghost use Rattle.marshalling_law.specs.CallsPackable.{AllAreGiven, CallsArePackable};
ghost use Rattle.marshalling_law.specs.CallsSending.{KnownByFits, SendableByFits};
ghost use Rattle.marshalling_law.specs.CallsServed.{BodiesAreServed, InputsFit, ResultsAreNumbers};
ghost use Rattle.marshalling_law.specs.CallsSpelled.{CallsAreSpelled, ExitsAreSpelled, ParksAreSpelled, TrapsAreSpelled, WritesAreSpelled};

/// What a function asks for where the memory fits may be packed.
pub fn calls_are_packable()
    ensures { CallsArePackable }
{}

/// Calls in a slave's program give all parameters of the signature.
pub fn all_are_given()
    ensures { AllAreGiven }
{}

/// What fits by a store and has its handles under marks may be sent to a monitor with that store.
pub fn sendable_by_fits()
    ensures { SendableByFits }
{}

/// Each handle of a memory that fits by a store is one of that store.
pub fn known_by_fits()
    ensures { KnownByFits }
{}

/// What is made of the body of any call that isn't refused fits.
pub fn inputs_fit()
    ensures { InputsFit }
{}

/// The received blocks of a monitor that fits hold what a reply is made of.
pub fn bodies_are_served()
    ensures { BodiesAreServed }
{}

/// What a function of a monitor gives is a number of its result's type, or nothing.
pub fn results_are_numbers()
    ensures { ResultsAreNumbers }
{}

/// A call that a function asks for where the memory fits has a spelling.
pub fn calls_are_spelled()
    ensures { CallsAreSpelled }
{}

/// The status with which main ended has one.
pub fn exits_are_spelled()
    ensures { ExitsAreSpelled }
{}

/// What a host writes has one.
pub fn writes_are_spelled()
    ensures { WritesAreSpelled }
{}

/// A trap has one.
pub fn traps_are_spelled()
    ensures { TrapsAreSpelled }
{}

/// A spent budget has one.
pub fn parks_are_spelled()
    ensures { ParksAreSpelled }
{}
