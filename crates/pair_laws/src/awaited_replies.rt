// An honest slave of an accepted pair is only sent replies that it waits for: each reply of the monitor to a first part of what the
// slave says is one that the slave's call can have. And more replies only add to what is said.

ghost use Rattle.pair_laws.specs.AwaitedRepliesLaws.{RepliesAreAwaited, WhatIsSaidGrows};
ghost use Rattle.pair_invariant_law.specs.Slaves.{Stays};

/// Each reply to a first part of what the slave says is awaited.
pub fn replies_are_awaited()
    ensures { RepliesAreAwaited Stays }
{}

/// What a slave says with some replies begins what it says with these and more.
pub fn what_is_said_grows()
    ensures { WhatIsSaidGrows }
{}
