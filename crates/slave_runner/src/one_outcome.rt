// What frames come to is one, by a law on a function with nothing to do.
ghost use Rattle.slave_runner.specs.OneOutcome.{WhatASlaveComesToIsOne};

/// The bytes that a slave's side sends, and where it stops, are told by the frames that it is given, and by their bytes.
pub fn what_a_slave_comes_to_is_one()
    ensures { WhatASlaveComesToIsOne }
{}
