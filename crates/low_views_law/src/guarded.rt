// The laws of guarded calls over streams of messages, each on a function with nothing to do.
ghost use Rattle.low_views_law.specs.GuardedCalls.{GuardedCallsAreAllowed, LimitsHoldInRuns, RefusedCallsAreDenied};

/// Each guarded call that is made was allowed by the policy, where it stood behind those before; and these calls are all that the
/// policy went through.
pub fn guarded_calls_are_allowed()
    ensures { GuardedCallsAreAllowed }
{}

/// Whatever the messages of a run, a rule with a limit allows at most so many of the guarded calls that are made.
pub fn limits_hold_in_runs()
    ensures { LimitsHoldInRuns }
{}

/// A run that ends by a refusal ends at a guarded call that the policy denies, where it stands behind those that were made.
pub fn refused_calls_are_denied()
    ensures { RefusedCallsAreDenied }
{}
