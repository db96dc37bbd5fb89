// A body that a monitor serves: under the gate that keeps its bytes it steps as the judged run of the whole program does, and no
// step of it computes with a handle.

ghost use Rattle.pair_invariant_law.specs.MonitorGatesLaws.{BodiesArePlain, BodiesCallsFit, BodiesGatesAgree, HostsKeepModels};

/// The gate of a body does at each call what the judged whole's does.
pub fn bodies_gates_agree<S>()
    ensures { BodiesGatesAgree S }
{}

/// It fits all that the monitor has signatures for.
pub fn bodies_calls_fit()
    ensures { BodiesCallsFit }
{}

/// No step of a body computes with a handle.
pub fn bodies_are_plain()
    ensures { BodiesArePlain }
{}

/// Its hosts go on having models.
pub fn hosts_keep_models()
    ensures { HostsKeepModels }
{}
