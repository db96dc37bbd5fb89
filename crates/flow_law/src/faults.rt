// What breaks a rule can be told: of whatever was found in a program there is a list of faults.

ghost use Rattle.flow_law.specs.FaultsLaws.{FindingsAreTold};

/// A program in which nothing was found breaks no rule; of what was found in any other there are faults, in
/// order and each with a way by which a secret comes there. It does nothing.
pub fn findings_are_told()
    ensures { FindingsAreTold }
{}
