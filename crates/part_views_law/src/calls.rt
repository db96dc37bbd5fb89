// Calls of a slave that is shown in the whole program's machine: what it asks for may cross, the body that is started is shown,
// and so is the slave that goes on with what the body left.

ghost use Rattle.part_views_law.specs.CallsLaws.{BodiesAreShown, ShownCallsAreSent, SlavesGoOn};
ghost use Rattle.part_views_law.specs.CallsWhole.{CallsAreEntered, CallsReturn};

/// What such a slave asks for may cross.
pub fn shown_calls_are_sent()
    ensures { ShownCallsAreSent }
{}

/// The body that is started with it is shown.
pub fn bodies_are_shown()
    ensures { BodiesAreShown }
{}

/// The slave is shown that goes on with what the body left.
pub fn slaves_go_on()
    ensures { SlavesGoOn }
{}

/// The whole's call enters the function, to the machine that shows the started body.
pub fn calls_are_entered<H>()
    ensures { CallsAreEntered H }
{}

/// Where the body returns, the whole returns to the machine that shows the slave going on.
pub fn calls_return<H>()
    ensures { CallsReturn H }
{}
