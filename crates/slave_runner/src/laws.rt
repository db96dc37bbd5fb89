// The laws of what a slave's side comes to, on a function with nothing to do.
ghost use Rattle.slave_runner.specs.Laws.{LastMessagesEnd};

/// Where a slave has ended, the last that it says is Exit, Trap or Park.
pub fn last_messages_end()
    ensures { LastMessagesEnd }
{}
