//! What every meaning of a program is made of, whatever its memory is: pointers, states, events and
//! runs, and what is expected of a run under a policy. It holds definitions, and the laws that are
//! proved of them.
#![tactic(auto)]

ghost use Rattle.runs.specs.Laws.{AllowedRunsStay, DeniedRunsStop, RunsAreAllowedOrDenied};

/// Where the policy allows every guarded call, what the program itself writes and how it ends are
/// expected.
pub fn allowed_runs_stay<S>()
    ensures { AllowedRunsStay S }
{}

/// Where the policy denies a guarded call, what was written before it and its refusal are expected.
pub fn denied_runs_stop<S>()
    ensures { DeniedRunsStop S }
{}

/// Of each run the policy allows every guarded call, or it denies one and allows those before it,
/// and never both.
pub fn runs_are_allowed_or_denied<S>()
    ensures { RunsAreAllowedOrDenied S }
{}
