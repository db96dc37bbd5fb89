// A call that a slave asks for and its monitor serves: the work is that of the whole program's own call, in so many steps, to the
// machine that shows the slave going on with what came back; or to the same trap, or to a spent budget, with the same bytes.

ghost use Rattle.pair_laws.specs.ServedBodiesLaws.{CallsAreNoted, CallsAreSpent, ScenesAreSent, ServedCallsAreTheWholes};

/// What such a slave asks for may cross.
pub fn scenes_are_sent()
    ensures { ScenesAreSent }
{}

/// Where the budget has no turn for it, the whole's is spent.
pub fn calls_are_spent()
    ensures { CallsAreSpent }
{}

/// Where the policy refuses it, the refusal stands in the whole.
pub fn calls_are_noted()
    ensures { CallsAreNoted }
{}

/// What the monitor's work comes to the whole's call comes to.
pub fn served_calls_are_the_wholes()
    ensures { ServedCallsAreTheWholes }
{}
