// What holds of faults.
ghost use Rattle.flow_rules.specs.Laws.{FlowsAreOwn, RefusedForFaultsAlone};

/// The rules look at a program's own halves and privileged slots.
pub fn flows_are_own()
    ensures { FlowsAreOwn }
{}

/// A program is refused only where a rule finds its fault.
pub fn refused_for_faults_alone()
    ensures { RefusedForFaultsAlone }
{}
